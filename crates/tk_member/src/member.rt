ghost use Rattle.std.specs.Prelude.{◌≡◌, ◌+◌, ◌<◌, ◌≤◌, ◌++◌, min, IfOk, OnOk, IfErr, IsTrue, IsSome, length};
ghost use Rattle.std.specs.Prelude.{None, Some};
ghost use Rattle.tk_shape.specs.Lengths.{turn_count};
ghost use Rattle.tk_words.specs.Words.{words_of};
ghost use Rattle.tk_client.specs.Client.{refusal_in};
ghost use Rattle.tk_member.specs.Members.{new_member, no_replies, is_over};
ghost use Rattle.tk_member.specs.Acting as acting;
ghost use Rattle.tk_member.specs.Acting.{HasActed, words_for};
ghost use Rattle.tk_member.specs.Steps as steps;
ghost use Rattle.tk_member.specs.Steps.{IsTurned, IsEnded};
ghost use Rattle.tk_member.specs.Pacing.{IsFresh};

use crate::epochs::Epochs;
use crate::fault::Fault;
use crate::news::{known_numbers, refused_packet, tell_news};
use crate::packets::{push_frames, push_to_each};
use crate::replies::{all_of, no_replies};
use crate::word::{HostWord, word_of};
use std::alloc::Global;
use std::marker::Model;
use tk_client::{Client, SayError, TakeError};
use tk_packets::Packet;
use tk_shape::{Bytes, Memory};
use tk_words::Draws;

/// A client of a run whose servers are on other machines. It acts on its own host's ticks alone, and on
/// what all servers told, never on whether it has something to say or to read.
#[derive(Drop)]
pub struct Member {
    client: Client,
    /// Whether a read is open.
    is_open: bool,
    /// In how many turns it wrote, and in how many it asked.
    written: u32,
    asked: u32,
    /// Ticks that wait, and writes that may go ahead of their turns.
    ticks: u32,
    ahead: u32,
    epochs: Epochs,
    /// By server, the reply to the read that is open.
    replies: Vec<Option<Bytes>>,
}

impl Model for Member {
    ghost use Rattle.tk_member.specs.Members.{MemberState};
    ghost use Rattle.tk_member.specs.Pacing.{IsMember};

    ghost Value = { MemberState };

    ghost view = { λ m. record {
      client = m.client;
      written = m.written;
      asked = m.asked;
      ticks = m.ticks;
      ahead = m.ahead;
      told = m.epochs.told;
      replies = m.replies.items;
    } };

    ghost invariant = { λ m. IsMember m.client m.is_open m.written m.asked m.ticks m.ahead m.epochs
        m.replies.items };
}

impl Member {
    /// A member that has written and asked nothing, of a client to which nothing was said.
    pub fn open(alloc: Global, client: Client) -> Result<Member, Memory>
        requires { IsFresh client }
        ensures { IfOk result (λ m. m ≡ new_member client) }
    {
        let shape = *client.shape();
        let epochs = Epochs::open(alloc, &shape)?;
        let replies = no_replies(alloc, shape.servers)?;
        Ok(Member {
            client,
            is_open: false,
            written: 0,
            asked: 0,
            ticks: 0,
            ahead: 0,
            epochs,
            replies,
        })
    }

    /// Whether it has written and read in all turns.
    pub fn is_over(&self) -> bool
        ensures { result ≡ is_over self.now }
    {
        let turns = self.client.shape().turns();
        self.written == turns && self.asked == turns && !self.is_open
    }

    /// Takes a packet, and gives those that it sends then.
    pub fn take<D: Draws>(
        &mut self,
        alloc: Global,
        draws: &D,
        packet: &Packet,
    ) -> Result<Vec<Packet>, Fault>
        requires { D.shape draws.now ≡ self.old.client.shape }
        ensures same { self.new.client.shape ≡ self.old.client.shape }
        ensures sent { let defined = steps.step (D.book draws.now) self.old packet.now in
            IfOk result (λ sent. IsTurned defined self.new sent.items) }
        ensures ended { IfErr result (IsEnded (steps.step (D.book draws.now) self.old packet.now)) }
    {
        let bytes = packet.bytes();
        let peer = packet.peer();
        if peer == 0 {
            let Some(word) = word_of(alloc, bytes)? else {
                return Err(Fault::Peer);
            };
            return self.hear(alloc, draws, word);
        }
        if peer <= self.client.shape().servers {
            return self.serve(alloc, draws, peer, bytes);
        }
        Err(Fault::Peer)
    }

    /// Takes what its host tells it.
    fn hear<D: Draws>(
        &mut self,
        alloc: Global,
        draws: &D,
        word: HostWord,
    ) -> Result<Vec<Packet>, Fault>
        requires { D.shape draws.now ≡ self.old.client.shape }
        ensures same { self.new.client.shape ≡ self.old.client.shape }
        ensures sent { let defined = steps.heard (D.book draws.now) self.old (Some word) in
            IfOk result (λ sent. IsTurned defined self.new sent.items) }
        ensures ended { IfErr result (IsEnded (steps.heard (D.book draws.now) self.old (Some word))) }
    {
        match word {
            HostWord::Say { log, text } => return self.say(alloc, draws, log, text.as_slice()),
            HostWord::Tick => self.tick(),
            HostWord::Ahead { turns } => self.go_ahead(turns),
            HostWord::Has { packets } => {
                if packets > self.written + self.asked {
                    return Err(Fault::Older);
                }
            }
        }
        let sent = self.act(alloc, draws, Vec::new(alloc))?;
        Ok(sent)
    }

    /// One more tick waits.
    fn tick(&mut self)
        ensures { self.new ≡ record self.old { ticks = steps.counted_up self.old (self.old.ticks + 1) } }
    {
        let turns = self.client.shape().turns();
        self.ticks = turns.min(self.ticks + 1);
    }

    /// So many more writes may go ahead of their turns.
    fn go_ahead(&mut self, count: u32)
        ensures { self.new ≡ record self.old { ahead = steps.counted_up self.old (self.old.ahead + count) } }
    {
        let turns = self.client.shape().turns();
        self.ahead = turns.min(self.ahead.saturating_add(count));
    }

    /// Says a text, or tells the host why it may not be said.
    fn say<D: Draws>(
        &mut self,
        alloc: Global,
        draws: &D,
        log: u32,
        text: &[u8],
    ) -> Result<Vec<Packet>, Fault>
        requires { D.shape draws.now ≡ self.old.client.shape }
        ensures same { self.new.client.shape ≡ self.old.client.shape }
        ensures sent { let defined = steps.says (D.book draws.now) self.old log text.now in
            IfOk result (λ sent. IsTurned defined self.new sent.items) }
        ensures ended { IfErr result (λ e. e ≡ Fault.Memory) }
    {
        let mut told = Vec::new(alloc);
        match self.client.say(alloc, log, text) {
            Ok(()) => {}
            Err(SayError::Memory) => return Err(Fault::Memory),
            Err(error) => told.push(refused_packet(alloc, log, error)?)?,
        }
        let sent = self.act(alloc, draws, told)?;
        Ok(sent)
    }

    /// Takes a frame of a server.
    fn serve<D: Draws>(
        &mut self,
        alloc: Global,
        draws: &D,
        server: u32,
        frame: &[u8],
    ) -> Result<Vec<Packet>, Fault>
        requires one_shape { D.shape draws.now ≡ self.old.client.shape }
        requires low { 1 ≤ server }
        requires high { server ≤ self.old.client.shape.servers }
        ensures same { self.new.client.shape ≡ self.old.client.shape }
        ensures sent { let defined = steps.served (D.book draws.now) self.old server frame.now in
            IfOk result (λ sent. IsTurned defined self.new sent.items) }
        ensures ended { IfErr result (IsEnded (steps.served (D.book draws.now) self.old server frame.now)) }
    {
        match frame.first().copied() {
            Some(3) => self.take_reply(alloc, draws, server, frame),
            Some(0x0b) => self.take_epoch(alloc, draws, server, frame),
            Some(0x0c) => Err(Fault::Refused),
            _ => Err(Fault::Peer),
        }
    }

    /// Takes a frame in which a server tells an epoch.
    fn take_epoch<D: Draws>(
        &mut self,
        alloc: Global,
        draws: &D,
        server: u32,
        frame: &[u8],
    ) -> Result<Vec<Packet>, Fault>
        requires one_shape { D.shape draws.now ≡ self.old.client.shape }
        requires low { 1 ≤ server }
        requires high { server ≤ self.old.client.shape.servers }
        ensures same { self.new.client.shape ≡ self.old.client.shape }
        ensures sent { let defined = steps.takes_epoch (D.book draws.now) self.old server frame.now in
            IfOk result (λ sent. IsTurned defined self.new sent.items) }
        ensures ended { IfErr result (IsEnded (steps.takes_epoch (D.book draws.now) self.old server frame.now)) }
    {
        self.epochs.take(alloc, server, frame)?;
        let sent = self.act(alloc, draws, Vec::new(alloc))?;
        Ok(sent)
    }

    /// Takes a reply; with the last one of them the read is settled, and the host is told what is new.
    fn take_reply<D: Draws>(
        &mut self,
        alloc: Global,
        draws: &D,
        server: u32,
        frame: &[u8],
    ) -> Result<Vec<Packet>, Fault>
        requires one_shape { D.shape draws.now ≡ self.old.client.shape }
        requires low { 1 ≤ server }
        requires high { server ≤ self.old.client.shape.servers }
        ensures same { self.new.client.shape ≡ self.old.client.shape }
        ensures sent { let defined = steps.replied (D.book draws.now) self.old server frame.now in
            IfOk result (λ sent. IsTurned defined self.new sent.items) }
        ensures ended { IfErr result (IsEnded (steps.replied (D.book draws.now) self.old server frame.now)) }
    {
        let place = server as usize - 1;
        if !self.is_open || self.replies[place].is_some() {
            return Err(Fault::Peer);
        }
        self.replies[place] = Some(Bytes::from_slice(alloc, frame)?);
        self.settle_if_all(alloc, draws)
    }

    /// Settles the read that is open where all replies to it are there, and acts.
    fn settle_if_all<D: Draws>(&mut self, alloc: Global, draws: &D) -> Result<Vec<Packet>, Fault>
        requires one_shape { D.shape draws.now ≡ self.old.client.shape }
        requires open { IsSome self.old.client.read }
        ensures same { self.new.client.shape ≡ self.old.client.shape }
        ensures sent { let defined = steps.settled_if_all (D.book draws.now) self.old in
            IfOk result (λ sent. IsTurned defined self.new sent.items) }
        ensures ended { IfErr result (IsEnded (steps.settled_if_all (D.book draws.now) self.old)) }
    {
        let Some(replies) = all_of(alloc, self.replies.as_slice())? else {
            let sent = self.act(alloc, draws, Vec::new(alloc))?;
            return Ok(sent);
        };
        let told = self.settle(alloc, draws, replies.as_slice())?;
        let sent = self.act(alloc, draws, told)?;
        Ok(sent)
    }

    /// Settles the read that is open, and gives what the host is told.
    fn settle<D: Draws>(
        &mut self,
        alloc: Global,
        draws: &D,
        replies: &[Bytes],
    ) -> Result<Vec<Packet>, Fault>
        requires one_shape { D.shape draws.now ≡ self.old.client.shape }
        requires open { IsSome self.old.client.read }
        requires counted { length replies.now ≡ self.old.client.shape.servers }
        ensures settled { let words = words_of self.old.client.shape (D.book draws.now) in
            OnOk result (self.new ≡ steps.after_settling words replies.now self.old) }
        ensures told { let words = words_of self.old.client.shape (D.book draws.now) in
            IfOk result (λ told. told.items ≡ steps.told_after words replies.now self.old) }
        ensures may { OnOk result (refusal_in replies.now self.old.client ≡ None) }
        ensures refused { IfErr result (steps.EndsRefused (refusal_in replies.now self.old.client)) }
        ensures same { self.new.client.shape ≡ self.old.client.shape }
    {
        let known = known_numbers(alloc, &self.client)?;
        match self.client.take_replies(alloc, draws, replies) {
            Ok(()) => {}
            Err(TakeError::Memory) => return Err(Fault::Memory),
            Err(_) => return Err(Fault::Refused),
        }
        self.is_open = false;
        self.replies = no_replies(alloc, self.client.shape().servers)?;
        let told = tell_news(alloc, &self.client, known.as_slice())?;
        Ok(told)
    }

    /// Writes and asks as far as it may, and gives its packets behind these.
    fn act<D: Draws>(
        &mut self,
        alloc: Global,
        draws: &D,
        told: Vec<Packet>,
    ) -> Result<Vec<Packet>, Memory>
        requires { D.shape draws.now ≡ self.old.client.shape }
        ensures acts { let acts = acting.acts (D.book draws.now) self.old in
            IfOk result (λ sent. HasActed told.items acts self.new sent.items) }
        ensures same { self.new.client.shape ≡ self.old.client.shape }
    {
        let mut sent = told;
        self.write_ahead(alloc, draws, &mut sent)?;
        self.write_by_ticks(alloc, draws, &mut sent)?;
        if self.may_ask() {
            self.ask(alloc, draws, &mut sent)?;
        }
        Ok(sent)
    }

    /// Writes ahead of turns as far as it may.
    fn write_ahead<D: Draws>(
        &mut self,
        alloc: Global,
        draws: &D,
        sent: &mut Vec<Packet>,
    ) -> Result<(), Memory>
        requires { D.shape draws.now ≡ self.old.client.shape }
        ensures wrote { OnOk result (HasActed sent.old.items
            (acting.goes_ahead (words_for (D.book draws.now) self.old) self.old) self.new sent.new.items) }
        ensures same { self.new.client.shape ≡ self.old.client.shape }
    {
        let turns = self.client.shape().turns();
        let due = self.ahead.min(turns - self.written);
        self.ahead -= due;
        self.write_turns(alloc, draws, due, sent)
    }

    /// Writes in the turns for which a tick waits, and whose reads are over a known epoch.
    fn write_by_ticks<D: Draws>(
        &mut self,
        alloc: Global,
        draws: &D,
        sent: &mut Vec<Packet>,
    ) -> Result<(), Memory>
        requires { D.shape draws.now ≡ self.old.client.shape }
        ensures wrote { OnOk result (HasActed sent.old.items
            (acting.goes_by_ticks (words_for (D.book draws.now) self.old) self.old) self.new sent.new.items) }
        ensures same { self.new.client.shape ≡ self.old.client.shape }
    {
        let shape = self.client.shape();
        let known = shape.turns().min((self.epochs.known() + 1) * shape.ticks);
        let due = self.ticks.min(known.saturating_sub(self.written));
        self.ticks -= due;
        self.write_turns(alloc, draws, due, sent)
    }

    /// Writes in so many turns.
    fn write_turns<D: Draws>(
        &mut self,
        alloc: Global,
        draws: &D,
        count: u32,
        sent: &mut Vec<Packet>,
    ) -> Result<(), Memory>
        requires one_shape { D.shape draws.now ≡ self.old.client.shape }
        requires room { self.old.written + count ≤ turn_count self.old.client.shape }
        ensures wrote { OnOk result (HasActed sent.old.items
            (acting.wrote (words_for (D.book draws.now) self.old) count self.old) self.new sent.new.items) }
        ensures same { self.new.client.shape ≡ self.old.client.shape }
    {
        'turns: for turn in 0..count {
            self.write_turn(alloc, draws, sent)?;
        }
        Ok(())
    }

    /// Its write of the next turn goes to every server.
    fn write_turn<D: Draws>(
        &mut self,
        alloc: Global,
        draws: &D,
        sent: &mut Vec<Packet>,
    ) -> Result<(), Memory>
        requires one_shape { D.shape draws.now ≡ self.old.client.shape }
        requires room { self.old.written < turn_count self.old.client.shape }
        ensures wrote { OnOk result (self.new ≡ acting.after_turn self.old) }
        ensures packets { let words = words_of self.old.client.shape (D.book draws.now) in
            OnOk result (sent.new.items ≡ sent.old.items ++ acting.write_packets words self.old) }
        ensures same { self.new.client.shape ≡ self.old.client.shape }
    {
        let mut frame = Vec::new(alloc);
        self.client
            .write_frame(alloc, draws, self.written, &mut frame)?;
        self.written += 1;
        push_to_each(alloc, self.client.shape().servers, frame.as_slice(), sent)
    }

    /// Whether a read is due: it wrote in that turn already, no read is open, and the epoch is known.
    fn may_ask(&self) -> bool
        ensures { result ≡ acting.may_ask self.now }
    {
        if self.asked >= self.written || self.is_open {
            return false;
        }
        self.epoch_due() <= self.epochs.known()
    }

    /// The epoch that the next read is over.
    fn epoch_due(&self) -> u32
        requires { self.now.asked < turn_count self.now.client.shape }
        ensures due { result ≡ acting.epoch_due self.now.client.shape self.now.asked }
        ensures in_run { result ≤ self.now.client.shape.phases }
    {
        self.asked / self.client.shape().ticks
    }

    /// Its read of the next turn goes to the servers, to each its own frame.
    fn ask<D: Draws>(
        &mut self,
        alloc: Global,
        draws: &D,
        sent: &mut Vec<Packet>,
    ) -> Result<(), Memory>
        requires one_shape { D.shape draws.now ≡ self.old.client.shape }
        requires due { IsTrue (acting.may_ask self.old) }
        ensures asked { OnOk result (HasActed sent.old.items
            (acting.asks (D.book draws.now) self.old) self.new sent.new.items) }
        ensures same { self.new.client.shape ≡ self.old.client.shape }
    {
        let epoch = self.epoch_due();
        let filter = self.epochs.filter(alloc, epoch)?;
        let mut frames = Vec::new(alloc);
        self.client
            .read_frames(alloc, draws, self.asked, epoch, &filter, &mut frames)?;
        self.asked += 1;
        self.is_open = true;
        push_frames(alloc, frames.as_slice(), sent)
    }
}
