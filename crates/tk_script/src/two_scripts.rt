ghost use Rattle.tk_script.specs.Answer.{Agrees};
ghost use Rattle.tk_script.specs.Grammar.{lines_of};
ghost use Rattle.tk_script.specs.Reading.{read_two, two_lines};
ghost use Rattle.tk_script.specs.Stands.{stands};

use crate::history_section::history_of;
use crate::kinds::Kinds;
use crate::place::Place;
use crate::section::script_of;
use crate::{Input, RawReplies, RawTape, Script, ScriptError};
use std::alloc::Global;
use tk_schedule::RawHistory;

/// Two scripts of drawn words, and a history.
#[derive(Drop)]
pub(crate) struct TwoScripts {
    pub(crate) first: Script,
    pub(crate) second: Script,
    pub(crate) history: RawHistory,
}

impl TwoScripts {
    ghost use Rattle.std.specs.Prelude.{◌≡◌};
    ghost use Rattle.tk_script.specs.Reading.{input_lines, lines_with, two_lines};

    /// The input that begins with them.
    pub(crate) fn with(self, replies: Option<RawReplies>, tape: Option<RawTape>) -> Input
        ensures { input_lines result ≡ lines_with replies tape (two_lines self) }
    {
        Input {
            first: self.first,
            second: Some(self.second),
            history: Some(self.history),
            replies,
            tape,
        }
    }
}

/// The two scripts and the history at the front of a text, and the place after them.
pub(crate) fn two_of(alloc: Global, text: &[u8]) -> Result<(TwoScripts, Place<'_>), ScriptError>
    ensures { Agrees (λ x. (two_lines x.0, stands x.1)) result (read_two (lines_of text.now)) }
{
    let (first, rest) = script_of(alloc, Kinds::Drawn, Place::front(text))?;
    let (second, rest) = script_of(alloc, Kinds::Drawn, rest)?;
    let (history, rest) = history_of(alloc, rest)?;
    let two = TwoScripts {
        first,
        second,
        history,
    };
    Ok((two, rest))
}
