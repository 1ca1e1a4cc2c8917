ghost use Rattle.std.specs.Prelude.{◌≡◌, ◌*◌, ◌<◌, ◌≤◌, length, IfOk, OnOk, OnErr};
ghost use Rattle.tk_shape.specs.Lengths.{turn_count, width};
ghost use Rattle.tk_hostile.specs.Given.{none_chosen, with_sums, place_of, zero_sums, AreSums, sums_at};

use crate::sums::Sums;
use std::alloc::Global;
use std::marker::Model;
use tk_shape::{Bytes, Memory, Shape};

/// The sums with which servers reply to the reads of a run, chosen beforehand: where none are set a
/// server replies with zeros.
#[derive(Debug, Drop)]
pub struct Replies {
    shape: Shape,
    /// By turn, in each by client, and for each by server.
    sums: Vec<Option<Sums>>,
}

impl Model for Replies {
    ghost use Rattle.tk_hostile.specs.Given.{Given, AreListed};

    ghost Value = { Given };

    ghost view = { λ r. record { shape = r.shape; list = r.sums.items } };

    ghost invariant = { λ r. AreListed r.shape r.sums.items };
}

impl Replies {
    /// Replies of which none are set.
    pub fn new(alloc: Global, shape: &Shape) -> Result<Replies, Memory>
        ensures shape { IfOk result (λ r. r.shape ≡ shape.now) }
        ensures sums { IfOk result (λ r. sums_at r ≡ none_chosen shape.now) }
    {
        let count = shape.turns() as usize * shape.clients as usize * shape.servers as usize;
        let mut sums = Vec::new(alloc);
        for _ in 0..count {
            sums.push(None)?;
        }
        Ok(Replies {
            shape: *shape,
            sums,
        })
    }

    /// Sets the sums with which a server replies to a client's read in a turn. All others stay.
    pub fn set(
        &mut self,
        alloc: Global,
        turn: u32,
        client: u32,
        server: u32,
        first: &[u8],
        second: &[u8],
    ) -> Result<(), Memory>
        requires turn_in { turn < turn_count self.old.shape }
        requires client_in { client < self.old.shape.clients }
        requires low { 1 ≤ server }
        requires high { server ≤ self.old.shape.servers }
        requires first_len { length first.now ≡ width self.old.shape }
        requires second_len { length second.now ≡ width self.old.shape }
        ensures shape { self.new.shape ≡ self.old.shape }
        ensures ok { OnOk result (sums_at self.new ≡ with_sums turn client server
            (record { first = first.now; second = second.now }) (sums_at self.old)) }
        ensures err { OnErr result (self.new ≡ self.old) }
    {
        let first = Bytes::from_slice(alloc, first)?;
        let second = Bytes::from_slice(alloc, second)?;
        let place = place_of(&self.shape, turn, client, server);
        self.sums[place] = Some(Sums { first, second });
        Ok(())
    }

    /// The shape of the run.
    pub(crate) fn shape(&self) -> &Shape
        ensures { result.now ≡ self.now.shape }
    {
        &self.shape
    }

    /// The sums with which a server replies to a client's read in a turn, copied.
    pub(crate) fn copied(
        &self,
        alloc: Global,
        turn: u32,
        client: u32,
        server: u32,
    ) -> Result<Sums, Memory>
        requires turn_in { turn < turn_count self.now.shape }
        requires client_in { client < self.now.shape.clients }
        requires low { 1 ≤ server }
        requires high { server ≤ self.now.shape.servers }
        ensures sums { IfOk result (λ sums. sums ≡ sums_at self.now turn client server) }
        ensures sized { IfOk result (AreSums self.now.shape) }
    {
        match &self.sums[place_of(&self.shape, turn, client, server)] {
            Some(sums) => Ok(Sums {
                first: sums.first.clone()?,
                second: sums.second.clone()?,
            }),
            None => zero_sums(alloc, &self.shape),
        }
    }
}

/// Sums of zeros.
fn zero_sums(alloc: Global, shape: &Shape) -> Result<Sums, Memory>
    ensures { IfOk result (λ sums. sums ≡ zero_sums shape.now) }
{
    let width = shape.width() as usize;
    Ok(Sums {
        first: Bytes::from_vec(vec![in alloc; 0; width]?),
        second: Bytes::from_vec(vec![in alloc; 0; width]?),
    })
}

/// The place of a server's reply to a client's read in a turn, among those of a run.
fn place_of(shape: &Shape, turn: u32, client: u32, server: u32) -> usize
    requires turn_in { turn < turn_count shape.now }
    requires client_in { client < shape.now.clients }
    requires low { 1 ≤ server }
    requires high { server ≤ shape.now.servers }
    ensures place { result ≡ place_of shape.now turn client server }
    ensures within { result < turn_count shape.now * shape.now.clients * shape.now.servers }
{
    let read = turn as usize * shape.clients as usize + client as usize;
    read * shape.servers as usize + (server as usize - 1)
}
