//! What left_right carries: a value with its place in the list, and for each reader a claim of the
//! list up to it.
ghost use Rattle.std.specs.Prelude.{◌≡◌, [], length, All, IfOk, IfSome};
ghost use Rattle.tk_board.specs.Rules.{Ends, claimed};
ghost use Rattle.tk_board.specs.Boards.{AllFit, IsLast};

use crate::memory::Memory;
use crate::rule::{Claim, Place};
use crate::share::Share;
use atomic_table::Perch;
use std::alloc::Global;
use std::marker::Model;

/// Seen as its board and the list that it ends.
#[derive(Drop)]
pub struct Shown<T: Share> {
    number: u64,
    value: T,
    /// It stays empty: it says of which board and which list the claims are.
    like: Claim<T>,
    claims: Vec<Claim<T>>,
}

impl<T: Share> Model for Shown<T> {
    ghost use Rattle.tk_board.specs.Boards.{Known, IsShown, AllFit};

    ghost Value = { Known T.Meaning };

    ghost view = { λ s. record { board = s.like.table_id; list = s.like.view.seen } };

    ghost invariant = { λ s. IsShown T.meaning s.number s.value s.like s.claims.items
        × AllFit T.fits s.like.view.seen };
}

impl<T: Share> Shown<T> {
    /// A value with places for claims like this one.
    pub fn new(
        alloc: Global,
        number: u64,
        value: T,
        like: &Place<T>,
        readers: u32,
    ) -> Result<Shown<T>, Memory>
        requires like { like.now.me ≡ (claimed like.now.me.0.seen, []) }
        requires ends { Ends like.now.me.0.seen number (T.meaning value) }
        requires fits { AllFit T.fits like.now.me.0.seen }
        ensures { IfOk result
            (λ s. (s.board ≡ like.now.table_id) × (s.list ≡ like.now.me.0.seen)) }
    {
        let claims = perches(alloc, like, readers)?;
        Ok(Shown {
            number,
            value,
            like: Perch::new(like, 0),
            claims,
        })
    }

    /// How long the list is.
    pub fn number(&self) -> u64
        ensures { result ≡ length self.now.list }
    {
        self.number
    }

    pub fn value(&self) -> &T
        ensures { IsLast self.now.list (T.meaning result.now) }
    {
        &self.value
    }

    pub fn fits(&self)
        ensures { AllFit T.fits self.now.list }
    {
        let _ = &self.number;
    }

    /// The claim of a reader, where it is there.
    pub fn claim(&self, reader: usize) -> Option<Place<T>>
        ensures { IfSome result
            (λ s. (s.table_id ≡ self.now.board) × (s.me ≡ (claimed self.now.list, []))) }
    {
        if reader >= self.claims.len() {
            return None;
        }
        self.claims[reader].take(0).1
    }

    /// Lays a claim down for a reader.
    pub fn lay(&self, reader: usize, claim: Place<T>)
        requires { (claim.table_id ≡ self.now.board) × (claim.me ≡ (claimed self.now.list, [])) }
    {
        if reader < self.claims.len() {
            let _full = self.claims[reader].give(claim, 0, 2);
        }
    }
}

// Places for so many claims like this one.
fn perches<T: Share>(alloc: Global, like: &Place<T>, count: u32) -> Result<Vec<Claim<T>>, Memory>
    ensures { IfOk result
        (λ v. All (λ p. (p.table_id ≡ like.now.table_id) × (p.view ≡ like.now.me.0)) v.items) }
{
    let mut all = Vec::with_capacity(alloc, count as usize)?;
    for _made in 0..count {
        all.push(Perch::new(like, 0))?;
    }
    Ok(all)
}
