ghost use Rattle.std.specs.Prelude.{◌≡◌, ◌+◌, ◌<◌, ◌^◌, ◌∷◌, [], length, IfOk, IfErr};

use crate::lines::next_line;
use crate::{Cause, ScriptError};

/// Where a reader stands: the number of the next line, and the text from it on.
#[derive(Clone, Copy)]
pub(crate) struct Place<'a> {
    pub(crate) line: u64,
    pub(crate) rest: &'a [u8],
    pub(crate) ghost small: { line + length rest.now < 2 ^ 64 },
}

impl<'a> Place<'a> {
    ghost use Rattle.tk_script.specs.declared.cause.Cause.TheVariants as cause;
    ghost use Rattle.tk_script.specs.declared.error.ScriptError.TheVariants as error;
    ghost use Rattle.tk_script.specs.Answer.{Agrees};
    ghost use Rattle.tk_script.specs.Grammar.{lines_of};
    ghost use Rattle.tk_script.specs.Reading.{front, next_line, no_line, read_words};
    ghost use Rattle.tk_script.specs.Stands.{stands};

    /// The front of a text.
    pub(crate) fn front(text: &'a [u8]) -> Place<'a>
        ensures { stands result ≡ front (lines_of text.now) }
    {
        Place {
            line: 1,
            rest: text,
        }
    }

    /// The line that stands here, and the place after it.
    pub(crate) fn next(self) -> Result<(&'a [u8], Place<'a>), ScriptError>
        ensures line { IfOk result (λ x.
            lines_of self.entry.rest.now ≡ x.0.now ∷ lines_of x.1.rest.now) }
        ensures number { IfOk result (λ x. x.1.line ≡ self.entry.line + 1) }
        ensures shorter { IfOk result (λ x. length x.1.rest.now < length self.entry.rest.now) }
        ensures early { IfErr result (λ e. e ≡ error.Line self.entry.line cause.Early) }
        ensures none { IfErr result (λ e. lines_of self.entry.rest.now ≡ []) }
    {
        match next_line(self.rest) {
            Some((line, rest)) => Ok((
                line,
                Place {
                    line: self.line + 1,
                    rest,
                },
            )),
            None => Err(self.refused(Cause::Early)),
        }
    }

    /// That the line here is refused.
    pub(crate) fn refused(self, cause: Cause) -> ScriptError
        ensures { result ≡ error.Line self.entry.line cause }
    {
        ScriptError::Line {
            line: self.line,
            cause,
        }
    }

    /// The place after a line that reads so.
    pub(crate) fn behind(self, words: &[u8]) -> Result<Place<'a>, ScriptError>
        ensures { Agrees (λ x. (tt, stands x)) result
            (next_line (read_words words.now) (stands self.entry)) }
    {
        let (line, behind) = self.next()?;
        if line != words {
            return Err(self.refused(Cause::Form));
        }
        Ok(behind)
    }

    /// That nothing stands here.
    pub(crate) fn no_line(self) -> Result<(), ScriptError>
        ensures { Agrees (λ x. tt) result
            (no_line self.entry.line (lines_of self.entry.rest.now)) }
    {
        if !self.rest.is_empty() {
            return Err(self.refused(Cause::After));
        }
        Ok(())
    }
}
