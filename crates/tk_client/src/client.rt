ghost use Rattle.std.specs.Prelude.{◌≡◌, ◌+◌, ◌<◌, ◌≤◌, ◌++◌, All, length, map, Some, None};
ghost use Rattle.std.specs.Prelude.{IsSome, IsTrue, IfOk, IfErr, OnOk, OnErr};
ghost use Rattle.std.specs.Option.{ForSome};
ghost use Rattle.std.specs.List.Sorted.{IsStrictlyIncreasing};
ghost use Rattle.tk_shape.specs.Lengths.{turn_count};
ghost use Rattle.tk_seal.specs.Texts.{is_allowed};
ghost use Rattle.tk_words.specs.Words.{words_of};
ghost use Rattle.tk_frames.specs.Spelling as spelling;
ghost use Rattle.tk_frames.specs.Ranges.{IsWrite};
ghost use Rattle.tk_client.specs.Writing.{with_text, first_waiting, after_write};
ghost use Rattle.tk_client.specs.Writes.{write_of};
ghost use Rattle.tk_client.specs.Saying.{fault_of, IsRefusedFor};
ghost use Rattle.tk_client.specs.Asked.{asked};
ghost use Rattle.tk_client.specs.Reader.{got_in};
ghost use Rattle.tk_client.specs.Replies as replied;
ghost use Rattle.tk_client.specs.Client.{new_client, target_over, opened, after_replies};
ghost use Rattle.tk_client.specs.Client.{refusal_in};

use crate::got::Got;
use crate::open_read::OpenRead;
use crate::outbox::Outbox;
use crate::pairs::KeptPair;
use crate::query::draw_query;
use crate::reader::Reader;
use crate::replies::{answer_of, check_replies};
use crate::say_error::SayError;
use crate::sight::Sight;
use crate::take_error::TakeError;
use std::alloc::Global;
use std::marker::Model;
use tk_bloom::Filter;
use tk_frames::WriteFrame;
use tk_shape::{Bytes, Memory, Shape};
use tk_words::Draws;

/// A client of a run: the texts that wait to be written, what it knows as a reader, and the read
/// whose replies it awaits, if it has one open.
#[derive(Debug, Drop)]
pub struct Client {
    shape: Shape,
    number: u32,
    outbox: Outbox,
    reader: Reader,
    read: Option<OpenRead>,
    /// The buckets that the open read asks for, if they are kept.
    pair: Option<KeptPair>,
    /// Buffers that were asked from, for reads to come.
    spare: Vec<Vec<u8>>,
}

impl Model for Client {
    ghost use Rattle.tk_client.specs.Client.{ClientState, IsClient};

    ghost Value = { ClientState };

    ghost view = { λ c. record {
      shape = c.shape;
      number = c.number;
      writing = c.outbox.writing;
      reader = c.reader;
      read = c.read;
    } };

    ghost invariant = { λ c.
        IsClient c.shape c.outbox.shape c.number c.reader c.read };
}

impl Client {
    /// A client that has said nothing and knows nothing, with the logs that it writes and those
    /// that it follows.
    pub fn open(
        alloc: Global,
        shape: &Shape,
        number: u32,
        writes: &[u32],
        follows: &[u32],
    ) -> Result<Client, Memory>
        requires number_in { number < shape.now.clients }
        requires writes_ascending { IsStrictlyIncreasing writes.now }
        requires writes_in { All (λ log. log < shape.now.logs) writes.now }
        requires follows_ascending { IsStrictlyIncreasing follows.now }
        requires follows_in { All (λ log. log < shape.now.logs) follows.now }
        ensures { IfOk result (λ c. c ≡ new_client shape.now number writes.now follows.now) }
    {
        Ok(Client {
            shape: *shape,
            number,
            outbox: Outbox::open(alloc, shape, writes)?,
            reader: Reader::new(alloc, follows)?,
            read: None,
            pair: None,
            spare: Vec::new(alloc),
        })
    }

    /// The shape of the run.
    pub fn shape(&self) -> &Shape
        ensures { result.now ≡ self.now.shape }
    {
        &self.shape
    }

    /// The client's number.
    pub fn number(&self) -> u32
        ensures number { result ≡ self.now.number }
        ensures number_in { result < self.now.shape.clients }
    {
        self.number
    }

    /// Says a text on a log that the client writes. It waits until its turn to be written comes. A
    /// text beyond those that 32 bits can count is refused as if memory had run out.
    pub fn say(&mut self, alloc: Global, log: u32, text: &[u8]) -> Result<(), SayError>
        ensures may { OnOk result
            (fault_of self.old.shape self.old.writing.logs log text.now ≡ None) }
        ensures said { OnOk result
            (self.new ≡ record self.old { writing = with_text log text.now self.old.writing }) }
        ensures refused { IfErr result
            (IsRefusedFor (fault_of self.old.shape self.old.writing.logs log text.now)) }
        ensures kept { OnErr result (self.new ≡ self.old) }
    {
        self.outbox.say(alloc, log, text)
    }

    /// Says a text that is known to be allowed, as a script's texts are: its bytes are not looked at
    /// again.
    pub fn say_allowed(&mut self, alloc: Global, log: u32, text: &[u8]) -> Result<(), SayError>
        requires allowed { IsTrue (is_allowed text.now) }
        ensures may { OnOk result
            (fault_of self.old.shape self.old.writing.logs log text.now ≡ None) }
        ensures said { OnOk result
            (self.new ≡ record self.old { writing = with_text log text.now self.old.writing }) }
        ensures refused { IfErr result
            (IsRefusedFor (fault_of self.old.shape self.old.writing.logs log text.now)) }
        ensures kept { OnErr result (self.new ≡ self.old) }
    {
        self.outbox.say_allowed(alloc, log, text)
    }

    /// How many texts wait.
    pub fn unsent(&self) -> u32
        ensures { result ≡ length self.now.writing.waiting }
    {
        self.outbox.unsent()
    }

    /// Appends the frame of what the client writes in a turn: the text that waits first, which
    /// waits no longer, or else a fresh write of the book, of the same size. The number of the text
    /// is below the number of turns where a client writes at most once in each turn.
    pub fn write_frame<D: Draws>(
        &mut self,
        alloc: Global,
        draws: &D,
        turn: u32,
        out: &mut Vec<u8>,
    ) -> Result<(), Memory>
        requires one_shape { D.shape draws.now ≡ self.old.shape }
        requires turn_in { turn < turn_count self.old.shape }
        requires number_in { ForSome (first_waiting self.old.writing)
            (λ y. y.number < turn_count self.old.shape) }
        ensures frame { let words = words_of self.old.shape (D.book draws.now) in
            let write = write_of words turn self.old.number (first_waiting self.old.writing) in
            OnOk result (out.new.items ≡ out.old.items ++ spelling.write_frame write) }
        ensures in_range { let words = words_of self.old.shape (D.book draws.now) in
            let write = write_of words turn self.old.number (first_waiting self.old.writing) in
            OnOk result (IsWrite self.old.shape write) }
        ensures written { OnOk result
            (self.new ≡ record self.old { writing = after_write self.old.writing }) }
        ensures kept { OnErr result (self.new ≡ self.old) }
        ensures out_kept { OnErr result (out.new.items ≡ out.old.items) }
    {
        let number = self.number;
        self.outbox.write_frame(alloc, draws, number, turn, out)
    }

    /// What the client writes in a turn, as `write_frame` spells it, for those who need no bytes.
    pub fn write<D: Draws>(
        &mut self,
        alloc: Global,
        draws: &D,
        turn: u32,
    ) -> Result<WriteFrame, Memory>
        requires one_shape { D.shape draws.now ≡ self.old.shape }
        requires turn_in { turn < turn_count self.old.shape }
        requires number_in { ForSome (first_waiting self.old.writing)
            (λ y. y.number < turn_count self.old.shape) }
        ensures write { let words = words_of self.old.shape (D.book draws.now) in
            IfOk result (λ w.
            w ≡ write_of words turn self.old.number (first_waiting self.old.writing)) }
        ensures in_range { IfOk result (IsWrite self.old.shape) }
        ensures written { OnOk result
            (self.new ≡ record self.old { writing = after_write self.old.writing }) }
        ensures kept { OnErr result (self.new ≡ self.old) }
    {
        let number = self.number;
        self.outbox.write(alloc, draws, number, turn)
    }

    /// Appends the frames of the client's read in a turn over an epoch, one for each server in
    /// their order, where this filter shows what is worth reading. The read is open until its
    /// replies are taken.
    pub fn read_frames<D: Draws>(
        &mut self,
        alloc: Global,
        draws: &D,
        turn: u32,
        epoch: u32,
        filter: &Filter,
        out: &mut Vec<Bytes>,
    ) -> Result<(), Memory>
        requires one_shape { D.shape draws.now ≡ self.old.shape }
        requires closed { self.old.read ≡ None }
        requires turn_in { turn < turn_count self.old.shape }
        requires epoch_in { epoch ≤ self.old.shape.phases }
        ensures frames { let words = words_of self.old.shape (D.book draws.now) in
            let target = target_over words filter.now epoch self.old in
            OnOk result (out.new.items ≡ out.old.items ++ map spelling.read_frame
            (asked self.old.shape (D.book draws.now) turn self.old.number epoch target)) }
        ensures number_in { self.old.number < self.old.shape.clients }
        ensures counted { OnOk result
            (length out.new.items ≡ length out.old.items + self.old.shape.servers) }
        ensures opened { let words = words_of self.old.shape (D.book draws.now) in
            let target = target_over words filter.now epoch self.old in
            OnOk result (self.new ≡ opened turn epoch target self.old) }
        ensures kept { OnErr result (self.new ≡ self.old) }
        ensures out_kept { OnErr result (out.new.items ≡ out.old.items) }
    {
        let sight = Sight {
            shape: &self.shape,
            draws,
            filter,
        };
        let target = self.reader.target(&sight, epoch);
        let read = OpenRead {
            turn,
            epoch,
            target,
        };
        let spare = &mut self.spare;
        let (query, pair) = draw_query(alloc, spare, &self.shape, draws, self.number, read)?;
        query.append_spelled(alloc, spare, &self.shape, out)?;
        self.read = Some(read);
        self.pair = pair;
        Ok(())
    }

    /// Takes the replies to the read that is open, one of each server in their order. What it was
    /// for is settled, or tried in vain, and the read is open no longer. Refused replies change
    /// nothing.
    pub fn take_replies<D: Draws>(
        &mut self,
        alloc: Global,
        draws: &D,
        replies: &[Bytes],
    ) -> Result<(), TakeError>
        requires one_shape { D.shape draws.now ≡ self.old.shape }
        requires open { IsSome self.old.read }
        requires counted { length replies.now ≡ self.old.shape.servers }
        ensures taken { let words = words_of self.old.shape (D.book draws.now) in
            OnOk result (self.new ≡ after_replies words replies.now self.old) }
        ensures may { OnOk result (refusal_in replies.now self.old ≡ None) }
        ensures refused { IfErr result
            (replied.IsRefusedForOrMemory (refusal_in replies.now self.old)) }
        ensures plain { IfErr result replied.IsPlain }
        ensures kept { OnErr result (self.new ≡ self.old) }
    {
        let read = self.read.unwrap();
        check_replies(&self.shape, self.number, read, replies)?;
        let answer = answer_of(alloc, &self.shape, draws, replies, read.target, self.pair)?;
        self.reader
            .take(alloc, &self.shape, read.epoch, read.target, answer)?;
        self.read = None;
        self.pair = None;
        Ok(())
    }

    /// What a log gave, one for each number below the next; nothing for a log that isn't followed.
    pub fn log(&self, log: u32) -> &[Got]
        ensures { result.now ≡ got_in self.now.reader.follows log }
    {
        self.reader.got(log)
    }
}
