ghost use Rattle.std.specs.Prelude.{◌≡◌, IfOk};
ghost use Rattle.tk_member.specs.Words.{word_in, say_in, tick_in, four_in};

use std::alloc::Global;
use tk_frames::u32_at;
use tk_shape::{Bytes, Memory};

/// What its host tells a member.
#[derive(Debug, Drop)]
pub enum HostWord {
    /// A text is to be said on a log.
    Say { log: u32, text: Bytes },
    /// The clock came to the next turn.
    Tick,
    /// The writes of so many turns may go ahead of their turns, for one who will be away.
    Ahead { turns: u32 },
    /// A server has so many packets of this client.
    Has { packets: u32 },
}

/// The word that bytes spell, if they do.
pub(crate) fn word_of(alloc: Global, bytes: &[u8]) -> Result<Option<HostWord>, Memory>
    ensures { IfOk result (λ word. word ≡ word_in bytes.now) }
{
    let [kind, rest @ ..] = bytes else {
        return Ok(None);
    };
    match *kind {
        b'S' => say_of(alloc, rest),
        b'T' => Ok(tick_of(rest)),
        b'A' => Ok(number_of(rest).map(|turns| HostWord::Ahead { turns })),
        b'G' => Ok(number_of(rest).map(|packets| HostWord::Has { packets })),
        _ => Ok(None),
    }
}

/// A log, and a text behind it.
fn say_of(alloc: Global, rest: &[u8]) -> Result<Option<HostWord>, Memory>
    ensures { IfOk result (λ word. word ≡ say_in rest.now) }
{
    if rest.len() < 4 {
        return Ok(None);
    }
    let text = Bytes::from_slice(alloc, &rest[4..])?;
    let log = u32_at(rest, 0);
    Ok(Some(HostWord::Say { log, text }))
}

/// A tick, which has nothing behind its kind.
fn tick_of(rest: &[u8]) -> Option<HostWord>
    ensures { result ≡ tick_in rest.now }
{
    if rest.is_empty() {
        Some(HostWord::Tick)
    } else {
        None
    }
}

/// The number that four bytes spell.
fn number_of(rest: &[u8]) -> Option<u32>
    ensures { result ≡ four_in rest.now }
{
    if rest.len() == 4 {
        Some(u32_at(rest, 0))
    } else {
        None
    }
}
