//! A member: its keys, and the client that writes its log and follows all.
ghost use Rattle.std.specs.Prelude.{◌≡◌, IfOk};
ghost use Rattle.std.specs.Prelude.{◌+◌, OnOk};
ghost use Rattle.std.specs.List.{range_with_len};
ghost use Rattle.tk_client.specs.Reader.{got_in};
ghost use Rattle.tk_client.specs.Writing.{after_write, with_text};

use crate::fault::Fault;
use std::alloc::Global;
use std::marker::Model;
use tk_client::{Client, Got};
use tk_frames::WriteFrame;
use tk_handle::Handle;
use tk_replica::Epoch;
use tk_shape::{Bytes, Shape};
use tk_words::{Draws, KeyedDraws};

/// The root of all handles here. Real ones are drawn, and kept.
const ROOT: [u8; 32] = [7; 32];

/// A member whose log has its number.
#[derive(Drop)]
pub struct Member {
    draws: KeyedDraws,
    client: Client,
    /// In how many turns it wrote, and how many texts it said.
    written: u32,
    said: u32,
    /// Whether a read is open.
    is_open: bool,
}

impl Model for Member {
    ghost use Rattle.std.specs.Prelude.{◌≡◌};
    ghost use Rattle.board.specs.Members.{MemberView, IsMember};

    ghost Value = { MemberView };

    ghost view = { λ m. record { client = m.client; written = m.written } };

    ghost invariant = { λ m. (⟦<KeyedDraws as Draws>⟧.shape m.draws ≡ m.client.shape)
        × IsMember m.client m.written m.said m.is_open };
}

impl Member {
    /// A member of this number, which follows all logs.
    #[tactic(auto, using(crate::proofs::MemberLaws::new_member, crate::proofs::MemberLaws::all_ascend, crate::proofs::MemberLaws::all_below))]
    pub fn open(alloc: Global, shape: &Shape, number: u32) -> Result<Member, Fault> {
        if number >= shape.clients || number >= shape.logs {
            return Err(Fault::OtherShape);
        }
        let logs = all_logs(alloc, shape)?;
        let client = Client::open(alloc, shape, number, &[number], logs.as_slice())?;
        Ok(Member {
            draws: keyed_draws(alloc, shape)?,
            client,
            written: 0,
            said: 0,
            is_open: false,
        })
    }

    pub fn number(&self) -> u32
        ensures { result ≡ self.now.client.number }
    {
        self.client.number()
    }

    /// Says a text, which is written in the next turn.
    #[tactic(auto, using(crate::proofs::MemberLaws::said_member))]
    pub fn say(&mut self, alloc: Global, text: &[u8]) -> Result<(), Fault>
        ensures said { let s = self.old.client in
            OnOk result (self.new.client ≡ record s { writing = with_text s.number text.now s.writing }) }
    {
        if self.said == self.client.shape().turns() {
            return Err(Fault::Over);
        }
        let log = self.client.number();
        self.client.say(alloc, log, text)?;
        self.said += 1;
        Ok(())
    }

    /// What it writes in its next turn: a text, or a dummy of the same size.
    pub fn write(&mut self, alloc: Global) -> Result<WriteFrame, Fault>
        ensures written { OnOk result (self.new.written ≡ self.old.written + 1) }
        ensures client { let s = self.old.client in
            OnOk result (self.new.client ≡ record s { writing = after_write s.writing }) }
    {
        if self.written == self.client.shape().turns() {
            return Err(Fault::Over);
        }
        let write = self.client.write(alloc, &self.draws, self.written)?;
        self.written += 1;
        Ok(write)
    }

    #[tactic(auto, using(crate::proofs::MemberLaws::asked_member))]
    /// The frames of its read in the turn in which it wrote last, one for each server.
    pub fn ask(&mut self, alloc: Global, epoch: &Epoch) -> Result<Vec<Bytes>, Fault> {
        if self.is_open || self.written == 0 {
            return Err(Fault::Unasked);
        }
        if epoch.number() > self.client.shape().phases {
            return Err(Fault::OtherShape);
        }
        let (turn, number) = (self.written - 1, epoch.number());
        let mut frames = Vec::new(alloc);
        self.client.read_frames(
            alloc,
            &self.draws,
            turn,
            number,
            epoch.filter(),
            &mut frames,
        )?;
        self.is_open = true;
        Ok(frames)
    }

    #[tactic(auto, using(crate::proofs::MemberLaws::taken_member))]
    /// Takes the replies to the frames that it asked last, one of each server.
    pub fn take(&mut self, alloc: Global, replies: &[Bytes]) -> Result<(), Fault> {
        if !self.is_open {
            return Err(Fault::Unasked);
        }
        if replies.len() != self.client.shape().servers as usize {
            return Err(Fault::OtherShape);
        }
        self.client.take_replies(alloc, &self.draws, replies)?;
        self.is_open = false;
        Ok(())
    }

    /// What it read on a log.
    pub fn log(&self, log: u32) -> &[Got]
        ensures { result.now ≡ got_in self.now.client.reader.follows log }
    {
        self.client.log(log)
    }
}

/// The numbers of all logs.
#[tactic(auto, using(crate::proofs::MemberLaws::numbers_next))]
fn all_logs(alloc: Global, shape: &Shape) -> Result<Vec<u32>, Fault>
    ensures { IfOk result (λ logs. logs.items ≡ range_with_len 0 shape.now.logs) }
{
    let mut logs = Vec::new(alloc);
    for log in 0..shape.logs {
        logs.push(log)?;
    }
    Ok(logs)
}

/// The words of keys that anyone can read here, so for trials alone: a handle for each log, and a
/// seed for each client.
fn keyed_draws(alloc: Global, shape: &Shape) -> Result<KeyedDraws, Fault>
    ensures { IfOk result (λ draws. ⟦<KeyedDraws as Draws>⟧.shape draws ≡ shape.now) }
{
    let mut handles = Vec::new(alloc);
    for log in 0..shape.logs {
        handles.push(Handle::from_root(u64::from(log), &ROOT))?;
    }
    let mut seeds = Vec::new(alloc);
    for client in 0..shape.clients {
        seeds.push([client as u8; 32])?;
    }
    Ok(KeyedDraws::new(shape, handles, seeds))
}
