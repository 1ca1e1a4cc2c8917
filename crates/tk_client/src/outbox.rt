ghost use Rattle.std.specs.Prelude.{◌≡◌, ◌<◌, ◌≤◌, ◌+◌, ◌==◌, ◌++◌, All, IfOk, IfErr, OnOk};
ghost use Rattle.std.specs.Prelude.{OnErr, Some, None, IsTrue, length, map, position};
ghost use Rattle.std.specs.Option.{ForSome};
ghost use Rattle.std.specs.List.Sorted.{IsStrictlyIncreasing};
ghost use Rattle.tk_shape.specs.Lengths.{turn_count};
ghost use Rattle.tk_seal.specs.Texts.{is_allowed};
ghost use Rattle.tk_words.specs.Words.{words_of};
ghost use Rattle.tk_frames.specs.Spelling as spelling;
ghost use Rattle.tk_frames.specs.Ranges.{IsWrite};
ghost use Rattle.tk_client.specs.Writing.{unwritten, new_writing, with_text, first_waiting};
ghost use Rattle.tk_client.specs.Writing.{after_write};
ghost use Rattle.tk_client.specs.Writes.{write_of};
ghost use Rattle.tk_client.specs.Saying.{fault_of, IsRefusedFor};

use crate::SayError;
use crate::waiting::Waiting;
use crate::writes::{dummy_write, text_write};
use crate::written::Written;
use std::alloc::Global;
use std::collections::VecDeque;
use std::marker::Model;
use tk_frames::{WriteFrame, encode_write};
use tk_seal::allowed;
use tk_shape::{Bytes, Memory, Shape};
use tk_words::Draws;

/// The texts of a client that wait to be written, in the order in which they were said. Seen as the
/// shape of the run and what there is to write.
#[derive(Debug, Drop)]
pub(crate) struct Outbox {
    shape: Shape,
    /// The logs that the client writes, ascending.
    logs: Vec<Written>,
    /// The texts that wait, the next one first.
    waiting: VecDeque<Waiting>,
}

impl Model for Outbox {
    ghost use Rattle.tk_client.specs.Outboxes.{OutboxState, IsOutbox};

    ghost Value = { OutboxState };

    ghost view = { λ o. record {
      shape = o.shape;
      writing = record { logs = o.logs.items; waiting = o.waiting.items };
    } };

    ghost invariant = { λ o. IsOutbox o.shape o.logs.items o.waiting.items };
}

impl Outbox {
    /// An outbox for these logs, in which nothing waits.
    pub(crate) fn open(alloc: Global, shape: &Shape, logs: &[u32]) -> Result<Outbox, Memory>
        requires ascending { IsStrictlyIncreasing logs.now }
        requires logs_in { All (λ log. log < shape.now.logs) logs.now }
        ensures shape { IfOk result (λ o. o.shape ≡ shape.now) }
        ensures writing { IfOk result (λ o. o.writing ≡ new_writing logs.now) }
    {
        Ok(Outbox {
            shape: *shape,
            logs: unwritten(alloc, logs)?,
            waiting: VecDeque::new(alloc),
        })
    }

    /// Puts a text after those that wait. Where that can't be, nothing changes. As many texts as
    /// 32 bits can count may wait, and no more: that counts as out of memory.
    pub(crate) fn say(&mut self, alloc: Global, log: u32, text: &[u8]) -> Result<(), SayError>
        ensures shape { self.new.shape ≡ self.old.shape }
        ensures may { let logs = self.old.writing.logs in
            OnOk result (fault_of self.old.shape logs log text.now ≡ None) }
        ensures said { OnOk result (self.new.writing ≡ with_text log text.now self.old.writing) }
        ensures refused { IfErr result
            (IsRefusedFor (fault_of self.old.shape self.old.writing.logs log text.now)) }
        ensures kept { OnErr result (self.new ≡ self.old) }
    {
        if let Some(fault) = fault_in(&self.shape, self.logs.as_slice(), log, text) {
            return Err(fault);
        }
        self.say_allowed(alloc, log, text)
    }

    /// The same for a text that is known to be allowed.
    pub(crate) fn say_allowed(
        &mut self,
        alloc: Global,
        log: u32,
        text: &[u8],
    ) -> Result<(), SayError>
        requires allowed { IsTrue (is_allowed text.now) }
        ensures shape { self.new.shape ≡ self.old.shape }
        ensures may { let logs = self.old.writing.logs in
            OnOk result (fault_of self.old.shape logs log text.now ≡ None) }
        ensures said { OnOk result (self.new.writing ≡ with_text log text.now self.old.writing) }
        ensures refused { IfErr result
            (IsRefusedFor (fault_of self.old.shape self.old.writing.logs log text.now)) }
        ensures kept { OnErr result (self.new ≡ self.old) }
    {
        let place = place_to_say(&self.shape, self.logs.as_slice(), log, text)?;
        if self.waiting.len() >= u32::MAX as usize {
            return Err(SayError::Memory);
        }
        let number = self.logs[place].count;
        let Some(count) = number.checked_add(1) else {
            return Err(SayError::Memory);
        };
        let text = Bytes::from_slice(alloc, text)?;
        self.waiting.push_back(Waiting { log, number, text })?;
        self.logs[place].count = count;
        Ok(())
    }

    /// How many texts wait.
    pub(crate) fn unsent(&self) -> u32
        ensures { result ≡ length self.now.writing.waiting }
    {
        self.waiting.len() as u32
    }

    /// Appends the frame of a turn's write: of the text that waits first, which leaves, or of a
    /// fresh write where none waits. Without memory nothing changes.
    pub(crate) fn write_frame<D: Draws>(
        &mut self,
        alloc: Global,
        draws: &D,
        client: u32,
        turn: u32,
        out: &mut Vec<u8>,
    ) -> Result<(), Memory>
        requires one_shape { D.shape draws.now ≡ self.old.shape }
        requires client_in { client < self.old.shape.clients }
        requires turn_in { turn < turn_count self.old.shape }
        requires number_in { ForSome (first_waiting self.old.writing)
            (λ y. y.number < turn_count self.old.shape) }
        ensures shape { self.new.shape ≡ self.old.shape }
        ensures in_range { let words = words_of self.old.shape (D.book draws.now) in
            let write = write_of words turn client (first_waiting self.old.writing) in
            OnOk result (IsWrite self.old.shape write) }
        ensures frame { let words = words_of self.old.shape (D.book draws.now) in
            let write = write_of words turn client (first_waiting self.old.writing) in
            OnOk result (out.new.items ≡ out.old.items ++ spelling.write_frame write) }
        ensures after { OnOk result (self.new.writing ≡ after_write self.old.writing) }
        ensures kept { OnErr result (self.new ≡ self.old) }
        ensures out_kept { OnErr result (out.new.items ≡ out.old.items) }
    {
        let frame = self.frame(alloc, draws, client, turn)?;
        encode_write(&frame, out)?;
        self.waiting.pop_front();
        Ok(())
    }

    /// The same write, with no frame spelled.
    pub(crate) fn write<D: Draws>(
        &mut self,
        alloc: Global,
        draws: &D,
        client: u32,
        turn: u32,
    ) -> Result<WriteFrame, Memory>
        requires one_shape { D.shape draws.now ≡ self.old.shape }
        requires client_in { client < self.old.shape.clients }
        requires turn_in { turn < turn_count self.old.shape }
        requires number_in { ForSome (first_waiting self.old.writing)
            (λ y. y.number < turn_count self.old.shape) }
        ensures shape { self.new.shape ≡ self.old.shape }
        ensures in_range { IfOk result (IsWrite self.old.shape) }
        ensures write { let words = words_of self.old.shape (D.book draws.now) in
            IfOk result (λ w. w ≡ write_of words turn client (first_waiting self.old.writing)) }
        ensures after { OnOk result (self.new.writing ≡ after_write self.old.writing) }
        ensures kept { OnErr result (self.new ≡ self.old) }
    {
        let frame = self.frame(alloc, draws, client, turn)?;
        self.waiting.pop_front();
        Ok(frame)
    }

    /// The write of a turn.
    fn frame<D: Draws>(
        &self,
        alloc: Global,
        draws: &D,
        client: u32,
        turn: u32,
    ) -> Result<WriteFrame, Memory>
        requires one_shape { D.shape draws.now ≡ self.now.shape }
        requires client_in { client < self.now.shape.clients }
        requires turn_in { turn < turn_count self.now.shape }
        requires number_in { ForSome (first_waiting self.now.writing)
            (λ y. y.number < turn_count self.now.shape) }
        ensures in_range { IfOk result (IsWrite self.now.shape) }
        ensures write { let words = words_of self.now.shape (D.book draws.now) in
            IfOk result (λ w. w ≡ write_of words turn client (first_waiting self.now.writing)) }
    {
        match self.waiting.front() {
            Some(first) => text_write(alloc, &self.shape, draws, client, turn, first),
            None => dummy_write(alloc, &self.shape, draws, client, turn),
        }
    }
}

/// Logs that were given no text.
fn unwritten(alloc: Global, logs: &[u32]) -> Result<Vec<Written>, Memory>
    ensures { IfOk result (λ l. l.items ≡ map unwritten logs.now) }
{
    Ok(
        logs.iter()
            .map(|log| Written {
                log: *log,
                count: 0,
            })
            .collect(alloc)?,
    )
}

/// The place of a log among these.
fn place_of(logs: &[Written], log: u32) -> Option<usize>
    ensures { result ≡ position (λ f. f.log == log) logs.now }
{
    logs.iter().position(|written| written.log == log)
}

/// The place among these of a log on which an allowed text may be said.
fn place_to_say(shape: &Shape, logs: &[Written], log: u32, text: &[u8]) -> Result<usize, SayError>
    requires allowed { IsTrue (is_allowed text.now) }
    ensures place { IfOk result (λ place. Some place ≡ position (λ f. f.log == log) logs.now) }
    ensures may { OnOk result (fault_of shape.now logs.now log text.now ≡ None) }
    ensures refused { IfErr result (IsRefusedFor (fault_of shape.now logs.now log text.now)) }
{
    place_with_room(shape, logs, log, text)
}

/// The place among these of a log on which a text is said for which a block has room.
fn place_with_room(
    shape: &Shape,
    logs: &[Written],
    log: u32,
    text: &[u8],
) -> Result<usize, SayError>
    ensures place { IfOk result (λ place. Some place ≡ position (λ f. f.log == log) logs.now) }
    ensures fits { OnOk result (length text.now + 18 ≤ shape.now.block) }
    ensures fault { IfErr result (λ e. fault_of shape.now logs.now log text.now ≡ Some e) }
{
    let Some(place) = place_of(logs, log) else {
        return Err(SayError::NotWriter { log });
    };
    let room = shape.block - 18;
    if text.len() > room as usize {
        return Err(SayError::TooLong { room });
    }
    Ok(place)
}

/// Why a text may not be said on one of these logs, if it may not.
fn fault_in(shape: &Shape, logs: &[Written], log: u32, text: &[u8]) -> Option<SayError>
    ensures { result ≡ fault_of shape.now logs.now log text.now }
{
    match place_with_room(shape, logs, log, text) {
        Ok(_) => match allowed(text) {
            Some(at) => Some(SayError::Text { at: at as u64 }),
            None => None,
        },
        Err(fault) => Some(fault),
    }
}
