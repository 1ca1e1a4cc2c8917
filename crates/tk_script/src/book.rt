ghost use Rattle.std.specs.Prelude.{◌≡◌, ◌≢◌, length, IfOk, IfErr, Some};
ghost use Rattle.tk_shape.specs.Lengths.{tape_len};
ghost use Rattle.tk_words.specs.Words.{keyed, drawn};

use crate::{Keys, RawTape, Script};
use std::alloc::Global;
use tk_shape::{Memory, Shape};
use tk_words::{Book, DrawnDraws, Draws, KeyedDraws, Tape};

/// Why a script and a tape give no book.
#[derive(Clone, Copy, Debug, PartialEq, Eq)]
pub enum BookError {
    /// The words are drawn, and the tape has another length than the shape wants.
    Tape { want: u64, got: u64 },
    /// Memory ran out.
    Memory,
}

impl Script {
    ghost use Rattle.std.specs.Prelude.{◌≡◌, ℕ, IfOk, None, Err};
    ghost use Rattle.tk_words.specs.Book.{shape_of, words_in};
    ghost use Rattle.tk_script.specs.declared.book.BookError.TheVariants as error;
    ghost use Rattle.tk_script.specs.Book.{book_from, HasTape, IsOtherTape, IsWholeTape};

    /// The words of a script: those of its keys, or those of a tape, of which no more bytes are
    /// kept than the shape wants.
    pub fn book(&self, alloc: Global, tape: Option<RawTape>) -> Result<Book, BookError>
        requires { HasTape self.now.shape self.now.keys tape }
        ensures shape { IfOk result (λ book. shape_of book ≡ self.now.shape) }
        ensures words { IfOk result (λ book. words_in book ≡ book_from self.now.keys tape) }
        ensures whole { IfOk result (λ book. self.now.keys ≡ None →
            IsWholeTape self.now.shape tape) }
        ensures drawn { (want got : ℕ) → result ≡ Err (error.Tape want got) →
            self.now.keys ≡ None }
        ensures other { (want got : ℕ) → result ≡ Err (error.Tape want got) →
            IsOtherTape self.now.shape tape want got }
    {
        if let Some(keys) = &self.keys {
            return match keyed_draws(alloc, self, keys) {
                Ok(draws) => Ok(Book::Keyed(draws)),
                Err(_) => Err(BookError::Memory),
            };
        }
        let Some(tape) = tape else { unreachable!() };
        match drawn_draws(&self.shape, tape) {
            Ok(draws) => Ok(Book::Drawn(draws)),
            Err(error) => Err(error),
        }
    }
}

/// The words of a keyed script.
fn keyed_draws(alloc: Global, script: &Script, keys: &Keys) -> Result<KeyedDraws, Memory>
    requires { script.now.keys ≡ Some keys.now }
    ensures shape { IfOk result (λ draws. ⟦<KeyedDraws as Draws>⟧.shape draws ≡ script.now.shape) }
    ensures book { IfOk result (λ draws. ⟦<KeyedDraws as Draws>⟧.book draws
        ≡ keyed keys.now.handles keys.now.seeds) }
{
    let mut handles = Vec::new(alloc);
    handles.extend_from_slice(keys.handles.as_slice())?;
    let mut seeds = Vec::new(alloc);
    seeds.extend_from_slice(keys.seeds.as_slice())?;
    Ok(KeyedDraws::new(&script.shape, handles, seeds))
}

/// The words of a tape, of which no more bytes are kept than the shape wants; or that it has
/// another length.
fn drawn_draws(shape: &Shape, tape: RawTape) -> Result<DrawnDraws, BookError>
    requires { tape.got ≡ tape_len shape.now → length tape.bytes ≡ tape_len shape.now }
    ensures whole { IfOk result (λ draws. tape.got ≡ tape_len shape.now) }
    ensures shape { IfOk result (λ draws. ⟦<DrawnDraws as Draws>⟧.shape draws ≡ shape.now) }
    ensures book { IfOk result (λ draws. ⟦<DrawnDraws as Draws>⟧.book draws ≡ drawn tape.bytes) }
    ensures refused { IfErr result (λ e. e ≡ BookError.Tape (tape_len shape.now) tape.got) }
    ensures other { IfErr result (λ e. tape_len shape.now ≢ tape.got) }
{
    let (want, got) = (shape.tape_len(), tape.got);
    if got != want {
        return Err(BookError::Tape { want, got });
    }
    let Ok(tape) = Tape::from_bytes(shape, tape.bytes.into_vec()) else {
        return Err(BookError::Tape { want, got });
    };
    Ok(DrawnDraws::new(shape, tape))
}
