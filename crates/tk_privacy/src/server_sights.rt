ghost use Rattle.std.specs.Prelude.{◌≡◌, ◌*◌, ◌<◌, ◌++◌, ◌∷◌, [], length, flat_map, OnOk};
ghost use Rattle.std.specs.List.{range_with_len};
ghost use Rattle.tk_shape.specs.Lengths.{turn_count};
ghost use Rattle.tk_frames.specs.Spelling.{read_frame};
ghost use Rattle.tk_frames.specs.Ranges.{AreTold};
ghost use Rattle.tk_client.specs.Framing.{AreAllTold};
ghost use Rattle.tk_privacy.specs.Views.{HasEntered, frame_in};

use crate::cells::place;
use std::alloc::Global;
use tk_frames::{Placed, ReadFrame, encode_placed, encode_read};
use tk_report::Takes;
use tk_shape::{Bytes, Memory, Shape};

/// The frames that a server saw so far, and how many entries are among them.
#[derive(Drop)]
pub(crate) struct Seen {
    pub entries: u64,
    pub frames: Vec<Bytes>,
}

impl Seen {
    /// Sees the reads of a turn, which lie by client among those of all turns.
    pub(crate) fn ask(
        &mut self,
        alloc: Global,
        shape: &Shape,
        turn: u32,
        reads: &[ReadFrame],
    ) -> Result<(), Memory>
        requires turn_in { turn < turn_count shape.now }
        requires counted { length reads.now ≡ turn_count shape.now * shape.now.clients }
        requires told { AreAllTold reads.now }
        ensures entries { OnOk result (self.new.entries ≡ self.old.entries) }
        ensures frames { OnOk result (self.new.frames.items
            ≡ self.old.frames.items ++ flat_map (frame_in shape.now reads.now turn)
            (range_with_len 0 shape.now.clients)) }
    {
        for client in 0..shape.clients {
            let read = &reads[place(turn, shape.clients, client)];
            self.read(alloc, read)?;
        }
        Ok(())
    }

    /// Sees a read.
    fn read(&mut self, alloc: Global, read: &ReadFrame) -> Result<(), Memory>
        requires told { AreTold read.now.seeds read.now.first read.now.second }
        ensures entries { OnOk result (self.new.entries ≡ self.old.entries) }
        ensures frames { OnOk result (self.new.frames.items
            ≡ self.old.frames.items ++ read_frame read.now ∷ []) }
    {
        let mut bytes = Vec::new(alloc);
        encode_read(read, &mut bytes)?;
        self.frames.push(Bytes::from_vec(bytes))?;
        Ok(())
    }
}

impl Takes for Seen {
    ghost took = { λ was shape E F is. HasEntered was shape E F is };

    fn taken(&self) -> u64 {
        self.entries
    }

    /// Sees the next entry.
    fn take(&mut self, alloc: Global, placed: &Placed) -> Result<(), Memory> {
        let mut bytes = Vec::new(alloc);
        encode_placed(placed, &mut bytes)?;
        self.frames.push(Bytes::from_vec(bytes))?;
        self.entries = placed.position;
        Ok(())
    }

    ghost in_order = { λ was shape E F is has. has.order };
}
