use std::alloc::Global;
use std::collections::VecDeque;
use std::marker::Model;
use tk_frames::{ReadFrame, WriteFrame};
use tk_shape::Memory;

/// What a server keeps of a client: the writes that wait for those of others, the reads that wait for their epoch, and
/// how many reads came. Seen as these.
#[derive(Drop)]
pub(crate) struct Desk {
    waiting: VecDeque<WriteFrame>,
    asking: VecDeque<ReadFrame>,
    asked: u32,
}

impl Model for Desk {
    ghost use Rattle.tk_serve.specs.Desks.{DeskView, desk};

    ghost Value = { DeskView };

    ghost view = { λ d. desk d.waiting.items d.asking.items d.asked };
}

impl Desk {
    ghost use Rattle.std.specs.Prelude.{◌≡◌, ◌+◌, ◌<◌, ◌^◌, ◌++◌, ◌∷◌, [], length, nat_lt, IfSome, IfNone, OnOk};
    ghost use Rattle.tk_serve.specs.Desks.{desk};

    /// Nothing came yet.
    pub(crate) fn new(alloc: Global) -> Desk
        ensures { result ≡ desk [] [] 0 }
    {
        Desk {
            waiting: VecDeque::new(alloc),
            asking: VecDeque::new(alloc),
            asked: 0,
        }
    }

    /// Whether a write waits.
    pub(crate) fn has_write(&self) -> bool
        ensures { result ≡ nat_lt 0 (length self.now.waiting) }
    {
        !self.waiting.is_empty()
    }

    /// How many writes wait.
    pub(crate) fn waiting(&self) -> u32
        requires { length self.now.waiting < 2 ^ 32 }
        ensures { result ≡ length self.now.waiting }
    {
        self.waiting.len() as u32
    }

    /// How many reads came.
    pub(crate) fn asked(&self) -> u32
        ensures { result ≡ self.now.asked }
    {
        self.asked
    }

    /// One more write waits.
    pub(crate) fn put_write(&mut self, write: WriteFrame) -> Result<(), Memory>
        ensures { OnOk result (self.new
            ≡ desk (self.old.waiting ++ write ∷ []) self.old.asking self.old.asked) }
    {
        self.waiting.push_back(write)?;
        Ok(())
    }

    /// The first write that waits.
    pub(crate) fn next_write(&mut self) -> Option<WriteFrame>
        ensures some { IfSome result (λ w. self.old ≡ desk (w ∷ self.new.waiting) self.new.asking self.new.asked) }
        ensures none { IfNone result (self.old.waiting ≡ []) }
    {
        self.waiting.pop_front()
    }

    /// One more read came, and is answered at once.
    pub(crate) fn count_read(&mut self)
        requires { self.old.asked + 1 < 2 ^ 32 }
        ensures { self.new ≡ desk self.old.waiting self.old.asking (self.old.asked + 1) }
    {
        self.asked += 1;
    }

    /// One more read came, and waits.
    pub(crate) fn put_read(&mut self, read: ReadFrame) -> Result<(), Memory>
        requires { self.old.asked + 1 < 2 ^ 32 }
        ensures { OnOk result (self.new
            ≡ desk self.old.waiting (self.old.asking ++ read ∷ []) (self.old.asked + 1)) }
    {
        self.asking.push_back(read)?;
        self.asked += 1;
        Ok(())
    }

    /// The first read that waits.
    pub(crate) fn next_read(&mut self) -> Option<ReadFrame>
        ensures some { IfSome result (λ r. self.old ≡ desk self.new.waiting (r ∷ self.new.asking) self.new.asked) }
        ensures none { IfNone result ((self.old.asking ≡ []) × (self.new ≡ self.old)) }
    {
        self.asking.pop_front()
    }
}
