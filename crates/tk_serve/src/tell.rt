//! What clients are told.
ghost use Rattle.std.specs.Prelude.{◌≡◌, ◌+◌, ◌*◌, ◌<◌, ◌^◌, ◌++◌, ◌∷◌, [], cond, nat_le, take, map, length, All};
ghost use Rattle.std.specs.Prelude.{IfOk, OnOk};
ghost use Rattle.tk_packets.specs.Packets.{packet};
ghost use Rattle.tk_packets.specs.Frames.{epoch_frame as frame_of};
ghost use Rattle.tk_serve.specs.Desks.{desk_answered};
ghost use Rattle.tk_serve.specs.Answering.{packet_over, epoch_of, news_for, IsAnswerable};

use crate::desk::Desk;
use crate::server::Server;
use std::alloc::Global;
use tk_frames::ReadFrame;
use tk_packets::{EpochFrame, Packet, encode_epoch, marks_of};
use tk_replica::Epoch;
use tk_schedule::closes;
use tk_shape::{Bytes, Memory, Shape};

impl Server {
    ghost use Rattle.std.specs.Prelude.{◌≡◌, ◌+◌, ◌≤◌, ◌++◌, OnOk};
    ghost use Rattle.tk_serve.specs.Told.{all_brought};
    ghost use Rattle.tk_serve.specs.Steps.{read_packets, closing_packets};
    ghost use Rattle.tk_serve.specs.Stands.{StandsAt, ForEpoch, ForSeats, StandsForSome, MayTell, IsDueRead};

    /// Tells all clients what the newest epoch brings: those that have read the phase before it the epoch, and all the
    /// answers to the reads that waited for it.
    pub(crate) fn tell_all(&mut self, alloc: Global, out: &mut Vec<Packet>) -> Result<(), Memory>
        requires { MayTell self.old }
        ensures shape { self.new.shape ≡ self.old.shape }
        ensures stands { ForEpoch self.old (λ shape seats g n.
            OnOk result (StandsAt shape seats g (n + 1) self.new)) }
        ensures told { ForEpoch self.old (λ shape seats g n.
            OnOk result (out.new.items ≡ out.old.items ++ all_brought shape seats g (n + 1))) }
    {
        let epoch = self.state.epoch(self.state.last());
        tell_desks(alloc, &self.shape, epoch, self.desks.as_mut_slice(), out)
    }

    /// Tells a client the reply to its read, and if the read is the last of its phase the epoch that the phase made.
    pub(crate) fn tell_read(
        &self,
        alloc: Global,
        read: &ReadFrame,
        out: &mut Vec<Packet>,
    ) -> Result<(), Memory>
        requires serves { StandsForSome self.now }
        requires due { IsDueRead self.now read.now }
        requires there { read.now.epoch ≤ self.now.state.last }
        ensures { ForSeats self.now (λ shape seats.
            OnOk result (out.new.items ≡ out.old.items ++ read_packets shape seats read.now)) }
    {
        let peer = read.client + 1;
        let reply = self.state.epoch(read.epoch).reply(alloc, read)?;
        out.push(Packet::new(peer, reply))?;
        self.tell_closing(alloc, read, out)
    }

    /// Tells a client the epoch that the phase of its read made, if the read is the last of the phase, and the epoch is
    /// there.
    fn tell_closing(
        &self,
        alloc: Global,
        read: &ReadFrame,
        out: &mut Vec<Packet>,
    ) -> Result<(), Memory>
        requires serves { StandsForSome self.now }
        requires due { IsDueRead self.now read.now }
        ensures { ForSeats self.now (λ shape seats.
            OnOk result (out.new.items ≡ out.old.items ++ closing_packets shape seats read.now)) }
    {
        let phase = read.epoch + 1;
        if !closes(&self.shape, read.turn) {
            return Ok(());
        }
        if phase > self.state.last() {
            return Ok(());
        }
        let frame = epoch_frame(alloc, &self.shape, self.state.epoch(phase))?;
        out.push(Packet::new(read.client + 1, frame))?;
        Ok(())
    }
}

/// Tells each client what an epoch brings.
fn tell_desks(
    alloc: Global,
    shape: &Shape,
    epoch: &Epoch,
    desks: &mut [Desk],
    out: &mut Vec<Packet>,
) -> Result<(), Memory>
    requires clients { length desks.old + 1 < 2 ^ 32 }
    requires turns { epoch.now.number * shape.now.ticks < 2 ^ 32 }
    requires reads { All (λ d. All (IsAnswerable epoch.now) (take shape.now.ticks d.asking)) desks.old }
    ensures desks { OnOk result (desks.new ≡ map (desk_answered shape.now.ticks) desks.old) }
    ensures told { OnOk result (out.new.items
        ≡ out.old.items ++ news_for shape.now epoch.now 0 desks.old) }
{
    let frame = epoch_frame(alloc, shape, epoch)?;
    let due = epoch.number() * shape.ticks;
    'clients: for (client, desk) in desks.iter_mut().enumerate() {
        tell_epoch(client as u32 + 1, &frame, desk.asked(), due, out)?;
        answer_waiting(alloc, epoch, shape.ticks, desk, out)?;
    }
    Ok(())
}

/// Tells a client of an epoch, if as many of its reads came as are due before.
fn tell_epoch(
    peer: u32,
    frame: &Bytes,
    asked: u32,
    due: u32,
    out: &mut Vec<Packet>,
) -> Result<(), Memory>
    requires { length frame.now < 2 ^ 32 }
    ensures { OnOk result (out.new.items
        ≡ out.old.items ++ cond (nat_le due asked) (packet peer frame.now ∷ []) []) }
{
    if asked >= due {
        out.push(Packet::new(peer, frame.clone()?))?;
    }
    Ok(())
}

/// Answers a client's reads of one phase that wait.
fn answer_waiting(
    alloc: Global,
    epoch: &Epoch,
    ticks: u32,
    desk: &mut Desk,
    out: &mut Vec<Packet>,
) -> Result<(), Memory>
    requires { All (IsAnswerable epoch.now) (take ticks desk.old.asking) }
    ensures desk { OnOk result (desk.new ≡ desk_answered ticks desk.old) }
    ensures told { OnOk result (out.new.items
        ≡ out.old.items ++ map (packet_over epoch.now) (take ticks desk.old.asking)) }
{
    'reads: for _ in 0..ticks {
        let Some(read) = desk.next_read() else {
            return Ok(());
        };
        let reply = epoch.reply(alloc, &read)?;
        out.push(Packet::new(read.client + 1, reply))?;
    }
    Ok(())
}

/// The frame that tells of an epoch.
fn epoch_frame(alloc: Global, shape: &Shape, epoch: &Epoch) -> Result<Bytes, Memory>
    ensures bytes { IfOk result (λ b. b ≡ frame_of (epoch_of shape.now epoch.now)) }
    ensures short { IfOk result (λ b. length b < 2 ^ 32) }
{
    let frame = EpochFrame {
        epoch: epoch.number(),
        marks: marks_of(alloc, shape, epoch.filter())?,
    };
    let mut bytes = Vec::new(alloc);
    encode_epoch(&frame, &mut bytes)?;
    Ok(Bytes::from_vec(bytes))
}
