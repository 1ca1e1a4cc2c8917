ghost use Rattle.std.specs.Prelude.{◌≡◌, ◌<◌, ◌≤◌, ◌++◌, ◌∷◌, ◌==◌, [], find, OnOk};
ghost use Rattle.std.specs.List.Sorted.{IsNonDecreasingBy, IsPartitionPoint};
ghost use Rattle.std.specs.Option.{option_copied};

use crate::sent::Sent;
use std::alloc::Global;
use std::marker::Model;
use tk_shape::Memory;

/// What a client sends, in the order of its turns; seen as its list.
#[derive(Debug, Drop)]
pub struct Sendings<'a> {
    items: Vec<Sent<'a>>,
}

impl<'a> Model for Sendings<'a> {
    ghost use Rattle.std.specs.Prelude.{List};
    ghost use Rattle.std.specs.List.Sorted.{IsNonDecreasingBy};
    ghost use Rattle.tk_script.specs.Sent.{Sending};

    ghost Value = { List Sending };

    ghost view = { λ l. l.items.items };

    ghost invariant = { λ l. IsNonDecreasingBy (λ y. y.turn) l.items.items };
}

impl<'a> Sendings<'a> {
    /// Nothing yet.
    pub(crate) fn new(alloc: Global) -> Sendings<'a>
        ensures { result ≡ [] }
    {
        Sendings {
            items: Vec::new(alloc),
        }
    }

    /// One text more, which is sent after the others.
    pub(crate) fn push(&mut self, sent: Sent<'a>) -> Result<(), Memory>
        requires { IsNonDecreasingBy (λ y. y.turn) (self.old ++ sent ∷ []) }
        ensures { OnOk result (self.new ≡ self.old ++ sent.entry ∷ []) }
    {
        self.items.push(sent)?;
        Ok(())
    }

    /// What is sent, in order.
    pub fn as_slice(&self) -> &[Sent<'a>]
        ensures { result.now ≡ self.now }
    {
        self.items.as_slice()
    }

    /// What is sent in a turn, if anything is.
    pub fn in_turn(&self, turn: u32) -> Option<&Sent<'a>>
        ensures { option_copied result ≡ find (λ y. y.turn == turn) self.now }
    {
        let sent = self.items.as_slice();
        let found = sent.get(first_from(sent, turn))?;
        if found.turn != turn {
            return None;
        }
        Some(found)
    }
}

/// The place of the first text that is sent in a turn or later.
fn first_from(sent: &[Sent], turn: u32) -> usize
    requires { IsNonDecreasingBy (λ y. y.turn) sent.now }
    ensures { IsPartitionPoint (λ y. y.turn < turn) (λ y. turn ≤ y.turn) sent.now result }
{
    sent.partition_point(|found| found.turn < turn)
}
