//! Scripts of one shape in either format and for two servers or three, the words that they are run over, and the
//! replies of a server that makes a text up.
ghost use Rattle.std.specs.Prelude.{◌≡◌, length, IfOk};
ghost use Rattle.tk_shape.specs.Lengths.{tape_len};

use std::alloc::{AllocError, Global};
use std::test::Fail;
use tk_hostile::Replies;
use tk_script::{Form, Script, parse};
use tk_shape::Shape;
use tk_words::Tape;

/// A server, or none of them, that makes up a text.
pub type Liar = Option<u32>;

/// How many servers there are, the hidden one, and the vectors with which the speaking script shows all others what the
/// silent one shows: those of the first turn, and those of the second where a text was made up by a server that isn't
/// hidden. Without it they are those of the first. They are the same in either format, where they come with seeds.
pub const HIDDEN: [(u32, u32, &str, &str); 5] = [
    (2, 1, "82e2", "84e4"),
    (2, 2, "a0c0", "a0c0"),
    (3, 1, "820be20d", "840be40d"),
    (3, 2, "a029c02f", "a02fc029"),
    (3, 3, "a00bc00d", "a00bc00d"),
];

/// The server of that number, none for 0; and whether its replies are used where this one is hidden.
pub fn liar_of(number: u32, hidden: u32) -> (Liar, bool) {
    if number == 0 {
        (None, false)
    } else {
        (Some(number), number != hidden)
    }
}

/// Two clients, of whom the second follows the first, over two turns, and drawn words, in which the two numbers of the
/// log have buckets of their own.
#[derive(Clone, Copy)]
pub struct Input {
    pub format: u32,
    pub servers: u32,
    /// Whether the first client says something; over these words servers are shown the same either way.
    pub speaks: bool,
    /// The vectors that are drawn for the second client's reads, in digits.
    pub vectors: [&'static str; 2],
}

/// The seeds of a read's vectors.
const SEEDS: [&str; 4] = [
    "fill 51 32\n",
    "fill 52 32\n",
    "fill 53 32\n",
    "fill 54 32\n",
];

impl Input {
    /// That of the script in which nobody speaks.
    pub fn silent(format: u32, servers: u32) -> Input {
        let vectors = if servers == 2 { "a0c0" } else { "a00bc00d" };
        Input {
            format,
            servers,
            speaks: false,
            vectors: [vectors, vectors],
        }
    }

    /// That of the script in which one speaks, with these vectors.
    pub fn speaking(format: u32, servers: u32, vectors: [&'static str; 2]) -> Input {
        Input {
            format,
            servers,
            speaks: true,
            vectors,
        }
    }

    /// The script and the words.
    pub fn read(&self, alloc: Global) -> Result<(Script, Tape), Fail>
        ensures { IfOk result (λ both. length both.1 ≡ tape_len both.0.shape) }
    {
        read(alloc, &self.text(alloc)?)
    }

    /// The texts of both.
    fn text(&self, alloc: Global) -> Result<Vec<u8>, AllocError> {
        let mut text = Vec::new(alloc);
        push(&mut text, front(self.format, self.servers))?;
        if self.speaks {
            push(
                &mut text,
                "say 1 1 0 hi\nend\ntape\nfill 31 36\nfill 15 108\n",
            )?;
        } else {
            push(&mut text, "end\ntape\nfill 15 144\n")?;
        }
        let [first, second] = self.vectors;
        self.push_reads(&mut text, first)?;
        self.push_reads(&mut text, second)?;
        if self.speaks {
            push(
                &mut text,
                "fill 15 13\nx 177d7c\nfill 15 20\nfill 32 36\nend\n",
            )?;
        } else {
            push(&mut text, "fill 31 36\nfill 32 36\nend\n")?;
        }
        Ok(text)
    }

    /// The words of the reads of a turn: of the first client's, which is for nothing, and of the second's.
    fn push_reads(&self, text: &mut Vec<u8>, vectors: &str) -> Result<(), AllocError> {
        push(text, read_of_nothing(self.format, self.servers))?;
        push(text, "fill 00 8\n")?;
        for (vector, seed) in vectors.as_bytes().chunks_exact(2).zip(SEEDS) {
            if self.format == 2 {
                push(text, seed)?;
            }
            for part in [b"x ", vector, b"\n"] {
                text.extend_from_slice(part)?;
            }
        }
        Ok(())
    }
}

fn push(text: &mut Vec<u8>, part: &str) -> Result<(), AllocError> {
    text.extend_from_slice(part.as_bytes())
}

/// The first lines of a script.
fn front(format: u32, servers: u32) -> &'static str {
    match (format, servers) {
        (1, 2) => "talek 1\nshape 2 8 4 4 24 64 1 0 2 2 1 1\ndrawn\nlog 0 1\n",
        (1, _) => "talek 1\nshape 3 8 4 4 24 64 1 0 2 2 1 1\ndrawn\nlog 0 1\n",
        (_, 2) => "talek 2\nshape 2 8 4 4 24 64 1 0 2 2 1 1\ndrawn\nlog 0 1\n",
        _ => "talek 2\nshape 3 8 4 4 24 64 1 0 2 2 1 1\ndrawn\nlog 0 1\n",
    }
}

/// The words of a read that is for nothing.
fn read_of_nothing(format: u32, servers: u32) -> &'static str {
    match (format, servers) {
        (1, 2) => "fill 21 10\n",
        (1, _) => "fill 21 12\n",
        (_, 2) => "fill 21 74\n",
        _ => "fill 21 140\n",
    }
}

/// A slot that opens to `hi` as the first number of the log, in its buckets by the words above.
const SLOT: &[u8] = &[
    0, 0, 0, 0, 0, 0, 0, 9, 0, 0, 0, 1, 0, 0, 0, 1, 0x31, 0x33, 0x59, 0x58, 0x31, 0x31, 0x31, 0x31,
    0x31, 0x31, 0x31, 0x31, 0x31, 0x31, 0x31, 0x31, 0x31, 0x31, 0x31, 0x31, 0x31, 0x31, 0x31, 0x31,
];

/// The script and the words that a text spells.
pub fn read(alloc: Global, text: &[u8]) -> Result<(Script, Tape), Fail>
    ensures { IfOk result (λ both. length both.1 ≡ tape_len both.0.shape) }
{
    let input = parse(alloc, text, Form::Run).ok().ok_or("a script")?;
    let bytes = input.tape.ok_or("its words")?.bytes.into_vec();
    let shape = input.first.shape;
    let tape = Tape::from_bytes(&shape, bytes).ok().ok_or("its length")?;
    Ok((input.first, tape))
}

/// Replies of which none are set, or of which this server gives that slot in the first bucket of the
/// follower's first read.
pub fn replies_of(alloc: Global, shape: &Shape, liar: Liar) -> Result<Replies, Fail>
    ensures { IfOk result (λ replies. replies.shape ≡ shape.now) }
{
    let mut replies = Replies::new(alloc, shape)?;
    let Some(server) = liar else {
        return Ok(replies);
    };
    let width = shape.width() as usize;
    if shape.turns() < 1 || shape.clients < 2 || width < SLOT.len() {
        return Err("a read of the follower".into());
    }
    if server < 1 || server > shape.servers {
        return Err("a server".into());
    }
    let zeros = vec![in alloc; 0u8; width]?;
    let zeros = zeros.as_slice();
    let mut first = Vec::new(alloc);
    first.extend_from_slice(SLOT)?;
    first.extend_from_slice(&zeros[SLOT.len()..])?;
    replies.set(alloc, 0, 1, server, first.as_slice(), zeros)?;
    Ok(replies)
}
