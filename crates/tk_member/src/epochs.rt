ghost use Rattle.std.specs.Prelude.{◌≡◌, ◌≤◌, ◌<◌, ◌+◌, IfOk, OnErr, length};
ghost use Rattle.tk_member.specs.Epochs.{known, least_of, filter_of, marks_at, with_epoch, is_epoch_frame};
ghost use Rattle.tk_member.specs.Keeping.{kept_with, new_epochs, KeepsAs};

use crate::fault::Fault;
use crate::marks::filter_of;
use std::alloc::Global;
use std::marker::Model;
use tk_bloom::Filter;
use tk_frames::u32_at;
use tk_shape::{Bytes, Memory, Shape};

/// What servers told of epochs, seen by server as the marks of each epoch that it told.
#[derive(Drop)]
pub(crate) struct Epochs {
    shape: Shape,
    /// By server, the last epoch that it told.
    last: Vec<u32>,
    /// The marks of epoch 0, in which nothing is.
    none: Bytes,
    /// The marks of each epoch that a server told. All servers tell the same.
    marks: Vec<Bytes>,
}

impl Model for Epochs {
    ghost use Rattle.tk_member.specs.Keeping.{EpochsState, told_so_far, AreToldByServers};

    ghost Value = { EpochsState };

    ghost view = { λ e. record {
      shape = e.shape;
      told = told_so_far e.marks.items e.last.items;
    } };

    ghost invariant = { λ e. AreToldByServers e.shape e.last.items e.none e.marks.items };
}

impl Epochs {
    /// No server told an epoch.
    pub(crate) fn open(alloc: Global, shape: &Shape) -> Result<Epochs, Memory>
        ensures { IfOk result (λ e. e ≡ new_epochs shape.now) }
    {
        let size = shape.filter_bits as usize / 8;
        Ok(Epochs {
            shape: *shape,
            last: vec![in alloc; 0u32; shape.servers as usize]?,
            none: Bytes::from_vec(vec![in alloc; 0u8; size]?),
            marks: Vec::new(alloc),
        })
    }

    /// The last epoch that all servers told.
    pub(crate) fn known(&self) -> u32
        ensures known { result ≡ known self.now.shape self.now.told }
        ensures most { result ≤ self.now.shape.phases }
    {
        least(self.shape.phases, self.last.as_slice())
    }

    /// The filter of an epoch that all servers told.
    pub(crate) fn filter(&self, alloc: Global, epoch: u32) -> Result<Filter, Memory>
        requires { epoch ≤ known self.now.shape self.now.told }
        ensures { let shape = self.now.shape in
            IfOk result (λ f. f ≡ filter_of shape (marks_at shape self.now.told epoch)) }
    {
        if epoch == 0 {
            return filter_of(alloc, &self.shape, self.none.as_slice());
        }
        let marks = &self.marks[epoch as usize - 1];
        filter_of(alloc, &self.shape, marks.as_slice())
    }

    /// Takes a frame in which a server, by its number, tells its next epoch.
    pub(crate) fn take(&mut self, alloc: Global, server: u32, frame: &[u8]) -> Result<(), Fault>
        requires low { 1 ≤ server }
        requires high { server ≤ self.old.shape.servers }
        ensures shape { self.new.shape ≡ self.old.shape }
        ensures taken { let said = with_epoch self.old.shape self.old.told server frame.now in
            KeepsAs said self.new.told result }
    {
        let place = server as usize - 1;
        let last = self.last[place];
        if last >= self.shape.phases || !is_epoch_frame(&self.shape, last + 1, frame) {
            return Err(Fault::Peer);
        }
        keep(alloc, &mut self.marks, last, &frame[6..])?;
        self.last[place] = last + 1;
        Ok(())
    }
}

/// The least of these numbers, and at most the first.
fn least(top: u32, numbers: &[u32]) -> u32
    ensures least { result ≡ least_of top numbers.now }
    ensures most { result ≤ top }
{
    match numbers {
        [] => top,
        [number, rest @ ..] => least(top, rest).min(*number),
    }
}

/// Whether a frame tells this epoch.
fn is_epoch_frame(shape: &Shape, epoch: u32, frame: &[u8]) -> bool
    ensures { result ≡ is_epoch_frame shape.now epoch frame.now }
{
    let size = shape.filter_bits as usize / 8;
    frame.len() == 6 + size && frame[1] == 1 && u32_at(frame, 2) == epoch
}

/// Keeps the marks of the epoch that is behind so many others, where they aren't there yet.
fn keep(alloc: Global, all: &mut Vec<Bytes>, last: u32, marks: &[u8]) -> Result<(), Fault>
    requires { last ≤ length all.old.items }
    ensures kept { KeepsAs (kept_with all.old.items last marks.now) all.new.items result }
    ensures err { OnErr result (all.new.items ≡ all.old.items) }
{
    let place = last as usize;
    if place == all.len() {
        all.push(Bytes::from_slice(alloc, marks)?)?;
        return Ok(());
    }
    if all[place].as_slice() == marks {
        Ok(())
    } else {
        Err(Fault::Differ)
    }
}
