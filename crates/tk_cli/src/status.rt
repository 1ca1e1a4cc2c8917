ghost use Rattle.std.specs.Prelude.{◌≡◌, ◌++◌, OnOk, OnErr};
ghost use Rattle.tk_cli.specs.StatusLines.{code_of, differing_text, hidden_text, phase_text, shapes_text, status_text};

use std::alloc::Global;
use tk_script::{Cause, push_cause, push_field, push_number};
use tk_shape::{Field, Memory};

/// How the top call ended. In order: the words are asked first, then what is read, then what is written. What is read is
/// asked for its first line that is refused, for its tape and what that becomes, for the shapes of its scripts, for its
/// history, and then for the server or the epoch that the words name.
#[derive(Clone, Copy, Debug, PartialEq, Eq)]
pub enum Status {
    /// All was read to its end, done and written.
    Done,
    /// Want of memory, which may come at any time.
    Memory,
    /// The words are none of the forms.
    Usage,
    /// The input is refused at this line, for this cause.
    Script { line: u64, cause: Cause },
    /// The source failed.
    Read,
    /// The sink or a tap failed.
    Write,
    /// The input has more than 8,388,608 bytes.
    TooLong,
    /// This line of the history isn't the one due.
    History { at: u64 },
    /// The two scripts' shapes differ, in this field first.
    Shapes { field: Field, a: u32, b: u32 },
    /// The tape has another length than the shape wants.
    Tape { want: u64, got: u64 },
    /// The words name a server that isn't one of the shape's, which are numbered from 1.
    Hidden { got: u32, servers: u32 },
    /// In format 2 the tape would have this many bytes, more than 2,097,152.
    Wide { want: u64 },
    /// The words name an epoch past the last, which is that of the last phase.
    Phase { got: u32, phases: u32 },
}

impl Status {
    /// What the process ends with.
    pub fn code(&self) -> u8
        ensures { result ≡ code_of self.now }
    {
        match self {
            Status::Done => 0,
            Status::Memory => 1,
            Status::Usage => 2,
            Status::Script { .. } => 3,
            Status::Read => 4,
            Status::Write => 5,
            Status::TooLong => 6,
            Status::History { .. } => 7,
            Status::Shapes { .. } => 8,
            Status::Tape { .. } => 9,
            Status::Hidden { .. } => 10,
            Status::Wide { .. } => 12,
            Status::Phase { .. } => 13,
        }
    }
}

/// Appends the line that tells a status, without a line feed; nothing for one that is done.
pub fn status_line(alloc: Global, status: &Status, out: &mut Vec<u8>) -> Result<(), Memory>
    ensures ok { OnOk result (out.new.items ≡ out.old.items ++ status_text status.now) }
    ensures err { OnErr result (out.new.items ≡ out.old.items) }
{
    let mut line = Vec::new(alloc);
    push_text(alloc, status, &mut line)?;
    out.extend_from_slice(line.as_slice())?;
    Ok(())
}

/// Appends the text that tells a status.
fn push_text(alloc: Global, status: &Status, out: &mut Vec<u8>) -> Result<(), Memory>
    ensures ok { OnOk result (out.new.items ≡ out.old.items ++ status_text status.now) }
{
    match status {
        Status::Done => {}
        Status::Memory => out.extend_from_slice(b"talek: memory")?,
        Status::Usage => out.extend_from_slice(b"talek: usage")?,
        Status::Script { line, cause } => {
            out.extend_from_slice(b"talek: line ")?;
            push_number(alloc, *line, out)?;
            out.extend_from_slice(b": ")?;
            push_cause(alloc, cause, out)?;
        }
        Status::Read => out.extend_from_slice(b"talek: read")?,
        Status::Write => out.extend_from_slice(b"talek: write")?,
        Status::TooLong => out.extend_from_slice(b"talek: input over 8388608 bytes")?,
        Status::History { at } => {
            out.extend_from_slice(b"talek: history line")?;
            push_field(alloc, *at, out)?;
        }
        Status::Shapes { field, a, b } => push_shapes(alloc, *field, *a, *b, out)?,
        Status::Tape { want, got } => {
            out.extend_from_slice(b"talek: tape")?;
            push_field(alloc, *want, out)?;
            push_field(alloc, *got, out)?;
        }
        Status::Hidden { got, servers } => push_hidden(alloc, *got, *servers, out)?,
        Status::Wide { want } => {
            out.extend_from_slice(b"talek: tape over")?;
            push_field(alloc, *want, out)?;
        }
        Status::Phase { got, phases } => push_phase(alloc, *got, *phases, out)?,
    }
    Ok(())
}

/// Appends what tells of two shapes, by a field and its two numbers.
fn push_shapes(alloc: Global, field: Field, a: u32, b: u32, out: &mut Vec<u8>) -> Result<(), Memory>
    ensures { OnOk result (out.new.items ≡ out.old.items ++ shapes_text field a b) }
{
    push_differing(field, out)?;
    push_field(alloc, u64::from(a), out)?;
    push_field(alloc, u64::from(b), out)
}

/// Appends what tells in which field two shapes differ.
fn push_differing(field: Field, out: &mut Vec<u8>) -> Result<(), Memory>
    ensures { OnOk result (out.new.items ≡ out.old.items ++ differing_text field) }
{
    out.extend_from_slice(b"talek: shapes ")?;
    out.extend_from_slice(field.name())?;
    Ok(())
}

/// Appends what tells of a server, and how many there are.
fn push_hidden(alloc: Global, got: u32, servers: u32, out: &mut Vec<u8>) -> Result<(), Memory>
    ensures { OnOk result (out.new.items ≡ out.old.items ++ hidden_text got servers) }
{
    out.extend_from_slice(b"talek: server")?;
    push_field(alloc, u64::from(got), out)?;
    out.extend_from_slice(b" of")?;
    push_field(alloc, u64::from(servers), out)
}

/// Appends what tells of an epoch, and how many phases there are.
fn push_phase(alloc: Global, got: u32, phases: u32, out: &mut Vec<u8>) -> Result<(), Memory>
    ensures { OnOk result (out.new.items ≡ out.old.items ++ phase_text got phases) }
{
    out.extend_from_slice(b"talek: phase")?;
    push_field(alloc, u64::from(got), out)?;
    out.extend_from_slice(b" of")?;
    push_field(alloc, u64::from(phases), out)
}
