ghost use Rattle.std.specs.Prelude.{◌≡◌, length, IfOk};
ghost use Rattle.tk_relay.specs.Halves.{mixed};
ghost use Rattle.tk_relay.specs.Parts.{part_with, halves_of};

use crate::Part;
use std::alloc::Global;
use std::marker::Model;
use tk_kernel::xor_into;
use tk_shape::{Bytes, Memory};

/// Bytes for either bucket of a read, while they are mixed with others.
#[derive(Debug, Drop)]
pub(crate) struct Halves {
    pub(crate) first: Vec<u8>,
    pub(crate) second: Vec<u8>,
}

impl Model for Halves {
    ghost use Rattle.tk_relay.specs.Halves.{Halves};

    ghost Value = { Halves };

    ghost view = { λ b. record { first = b.first.items; second = b.second.items } };
}

impl Halves {
    /// Copies of a part's.
    pub(crate) fn of(alloc: Global, part: &Part) -> Result<Halves, Memory>
        ensures { IfOk result (λ x. x ≡ halves_of part.now) }
    {
        Ok(Halves {
            first: Vec::from_slice(alloc, part.first.as_slice())?,
            second: Vec::from_slice(alloc, part.second.as_slice())?,
        })
    }

    /// XORs these into them, which are as long.
    pub(crate) fn mix(&mut self, first: &[u8], second: &[u8])
        requires first_len { length first.now ≡ length self.old.first }
        requires second_len { length second.now ≡ length self.old.second }
        ensures { self.new
            ≡ mixed self.old (record { first = first.now; second = second.now }) }
    {
        xor_into(self.first.as_mut_slice(), first);
        xor_into(self.second.as_mut_slice(), second);
    }

    /// The part of a client's read in a turn over an epoch that has them.
    pub(crate) fn into_part(self, client: u32, turn: u32, epoch: u32) -> Part
        ensures { result ≡ part_with client turn epoch self }
    {
        Part {
            client,
            turn,
            epoch,
            first: Bytes::from_vec(self.first),
            second: Bytes::from_vec(self.second),
        }
    }
}
