//! Frames that a server takes.
ghost use Rattle.std.specs.Prelude.{◌≡◌, ◌+◌, ◌<◌, ◌^◌, ◌++◌, ◌∷◌, [], OnOk};
ghost use Rattle.tk_packets.specs.Packets.{packet};
ghost use Rattle.tk_packets.specs.Frames.{refused_frame};
ghost use Rattle.tk_serve.specs.Refusals.{code_of};

use crate::check::{Checked, check};
use crate::due::Due;
use crate::refusal::Refusal;
use crate::server::Server;
use std::alloc::Global;
use tk_frames::{ReadFrame, WriteFrame};
use tk_packets::{Packet, encode_refused};
use tk_schedule::closes;
use tk_shape::{Bytes, Memory};

impl Server {
    ghost use Rattle.std.specs.Prelude.{◌≡◌, ◌<◌, ◌++◌, length, OnOk};
    ghost use Rattle.tk_serve.specs.Seats.{with_write, with_read};
    ghost use Rattle.tk_serve.specs.Steps.{step, all_gained};
    ghost use Rattle.tk_serve.specs.Stands.{HasApplied, ForSeats, StandsForSome, IsDueWrite, IsDueRead, due_at};

    /// Takes a frame of a client. The packets that go out are appended.
    pub(crate) fn take(
        &mut self,
        alloc: Global,
        client: u32,
        frame: &[u8],
        out: &mut Vec<Packet>,
    ) -> Result<(), Memory>
        requires serves { StandsForSome self.old }
        requires client { client < self.old.shape.clients }
        ensures shape { self.new.shape ≡ self.old.shape }
        ensures stands { ForSeats self.old (λ shape seats.
            OnOk result (HasApplied shape (step shape seats client frame.now).seats self.new)) }
        ensures told { ForSeats self.old (λ shape seats.
            OnOk result (out.new.items ≡ out.old.items ++ (step shape seats client frame.now).packets)) }
    {
        let due = self.due(client);
        match check(alloc, &self.shape, &due, frame)? {
            Checked::Write(write) => self.take_write(alloc, write, out),
            Checked::Read(read) => self.take_read(alloc, read, out),
            Checked::Refused(cause) => refuse(alloc, client, cause, out),
        }
    }

    /// What is due of a client.
    fn due(&self, client: u32) -> Due
        requires serves { StandsForSome self.now }
        requires client { client < length self.now.desks.items }
        ensures { result ≡ due_at self.now client }
    {
        let desk = &self.desks[client as usize];
        Due {
            client,
            write: self.turn + desk.waiting(),
            read: desk.asked(),
        }
    }

    /// Takes the write that is due. Where it is the last of its turn the turn is applied.
    fn take_write(
        &mut self,
        alloc: Global,
        write: WriteFrame,
        out: &mut Vec<Packet>,
    ) -> Result<(), Memory>
        requires serves { StandsForSome self.old }
        requires due { IsDueWrite self.old write }
        ensures shape { self.new.shape ≡ self.old.shape }
        ensures stands { ForSeats self.old (λ shape seats.
            OnOk result (HasApplied shape (with_write seats write.client write) self.new)) }
        ensures told { ForSeats self.old (λ shape seats.
            OnOk result (out.new.items
            ≡ out.old.items ++ all_gained shape seats (with_write seats write.client write))) }
    {
        let client = write.client as usize;
        self.desks[client].put_write(write)?;
        if !self.is_complete() {
            return Ok(());
        }
        let ends_phase = closes(&self.shape, self.turn);
        self.apply_turn(alloc)?;
        if !ends_phase {
            return Ok(());
        }
        self.tell_all(alloc, out)?;
        self.release();
        Ok(())
    }

    /// Takes the read that is due. It is answered at once if its epoch is there.
    fn take_read(
        &mut self,
        alloc: Global,
        read: ReadFrame,
        out: &mut Vec<Packet>,
    ) -> Result<(), Memory>
        requires serves { StandsForSome self.old }
        requires due { IsDueRead self.old read }
        ensures shape { self.new.shape ≡ self.old.shape }
        ensures stands { ForSeats self.old (λ shape seats.
            OnOk result (HasApplied shape (with_read seats read.client read) self.new)) }
        ensures told { ForSeats self.old (λ shape seats.
            OnOk result (out.new.items
            ≡ out.old.items ++ all_gained shape seats (with_read seats read.client read))) }
    {
        let client = read.client as usize;
        if read.epoch > self.state.last() {
            return self.desks[client].put_read(read);
        }
        self.tell_read(alloc, &read, out)?;
        self.desks[client].count_read();
        self.release();
        Ok(())
    }
}

/// Tells a client that a frame is refused, and why.
fn refuse(alloc: Global, client: u32, cause: Refusal, out: &mut Vec<Packet>) -> Result<(), Memory>
    requires { client + 1 < 2 ^ 32 }
    ensures { OnOk result (out.new.items
        ≡ out.old.items ++ packet (client + 1) (refused_frame (code_of cause)) ∷ []) }
{
    let mut bytes = Vec::new(alloc);
    encode_refused(cause.code(), &mut bytes)?;
    out.push(Packet::new(client + 1, Bytes::from_vec(bytes)))?;
    Ok(())
}
