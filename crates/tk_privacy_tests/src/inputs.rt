//! Scripts of one shape in either format, for two servers or three, and words over which servers see the same of both.
ghost use Rattle.std.specs.Prelude.{◌≡◌, length, IfOk};
ghost use Rattle.tk_shape.specs.Lengths.{tape_len};

use std::alloc::{AllocError, Global};
use std::test::Fail;
use tk_script::{Form, Script, parse};
use tk_words::Tape;

/// Two clients, of whom the second follows the first, over one turn, and drawn words.
#[derive(Clone, Copy)]
pub struct Input {
    pub format: u32,
    pub servers: u32,
    /// Whether the first client says something; over these words servers are shown the same either way.
    pub speaks: bool,
    /// The vectors that are drawn for the second client's read, in digits.
    pub vectors: &'static str,
}

/// How many servers there are, the hidden one, and the vectors with which all others see the same: where the client
/// speaks, and where it is silent. They are the same in either format; in format 2 they come with seeds.
pub const ALIKE: [(u32, u32, &str, &str); 5] = [
    (2, 1, "a0c0", "82e2"),
    (2, 2, "a0c0", "a0c0"),
    (3, 1, "a00bc00d", "820be20d"),
    (3, 2, "a00bc00d", "a029c02f"),
    (3, 3, "a00bc00d", "a00bc00d"),
];

/// Two inputs of which all servers but one see the same.
pub fn alike(format: u32, servers: u32, vectors: [&'static str; 2]) -> (Input, Input) {
    let [speaking, silent] = vectors;
    let input = |speaks, vectors| Input {
        format,
        servers,
        speaks,
        vectors,
    };
    (input(true, speaking), input(false, silent))
}

/// The first lines of a script of one turn.
pub fn front(format: u32, servers: u32) -> &'static str {
    match (format, servers) {
        (1, 2) => "talek 1\nshape 2 8 4 4 24 64 1 0 2 1 1 1\n",
        (1, _) => "talek 1\nshape 3 8 4 4 24 64 1 0 2 1 1 1\n",
        (_, 2) => "talek 2\nshape 2 8 4 4 24 64 1 0 2 1 1 1\n",
        _ => "talek 2\nshape 3 8 4 4 24 64 1 0 2 1 1 1\n",
    }
}

/// What the first client says.
pub const SAID: &str = "say 1 1 0 hi\n";

/// The seeds of a read's vectors.
const SEEDS: [&str; 4] = [
    "fill 51 32\n",
    "fill 52 32\n",
    "fill 53 32\n",
    "fill 54 32\n",
];

impl Input {
    /// The texts of the script and of its tape.
    pub fn text(&self, alloc: Global) -> Result<Vec<u8>, AllocError> {
        let said = if self.speaks { SAID } else { "" };
        let (write, key) = if self.speaks {
            ("fill 15 36\n", "fill 31 36\n")
        } else {
            ("fill 31 13\nx 335958\nfill 31 20\n", "fill 15 36\n")
        };
        let mut text = joined(
            alloc,
            &[
                front(self.format, self.servers),
                "drawn\nlog 0 1\n",
                said,
                "end\ntape\n",
                write,
                "fill 12 36\n",
                read_of_nothing(self.format, self.servers),
                "fill 00 8\n",
            ],
        )?;
        for (vector, seed) in self.vectors.as_bytes().chunks_exact(2).zip(SEEDS) {
            if self.format == 2 {
                text.extend_from_slice(seed.as_bytes())?;
            }
            for part in [b"x ", vector, b"\n"] {
                text.extend_from_slice(part)?;
            }
        }
        text.extend_from_slice(key.as_bytes())?;
        text.extend_from_slice(b"end\n")?;
        Ok(text)
    }

    pub fn read(&self, alloc: Global) -> Result<(Script, Tape), Fail>
        ensures { IfOk result (λ both. length both.1 ≡ tape_len both.0.shape) }
    {
        read(alloc, &self.text(alloc)?)
    }
}

/// The words of the first client's read, which is for nothing.
fn read_of_nothing(format: u32, servers: u32) -> &'static str {
    match (format, servers) {
        (1, 2) => "fill 21 10\n",
        (1, _) => "fill 21 12\n",
        (_, 2) => "fill 21 74\n",
        _ => "fill 21 140\n",
    }
}

pub fn joined(alloc: Global, parts: &[&str]) -> Result<Vec<u8>, AllocError> {
    let mut text = Vec::new(alloc);
    for part in parts {
        text.extend_from_slice(part.as_bytes())?;
    }
    Ok(text)
}

/// The script and the words that a text spells.
pub fn read(alloc: Global, text: &[u8]) -> Result<(Script, Tape), Fail>
    ensures { IfOk result (λ both. length both.1 ≡ tape_len both.0.shape) }
{
    let input = parse(alloc, text, Form::Run).ok().ok_or("a script")?;
    let bytes = input.tape.ok_or("its words")?.bytes.into_vec();
    let shape = input.first.shape;
    let tape = Tape::from_bytes(&shape, bytes).ok().ok_or("its length")?;
    Ok((input.first, tape))
}
