ghost use Rattle.std.specs.Prelude.{◌≡◌, ◌<◌, length, All, IfOk, OnOk, OnErr};
ghost use Rattle.tk_shape.specs.Lengths.{turn_count, width};
ghost use Rattle.tk_words.specs.Words.{words_of};
ghost use Rattle.tk_client.specs.Asked.{asked};
ghost use Rattle.tk_client.specs.Reader.{got_in};
ghost use Rattle.tk_client.specs.Looking.{new_follower, looked_for, after_look};

use crate::got::Got;
use crate::lookup::text_in_buckets;
use crate::open_read::OpenRead;
use crate::query::draw_query;
use crate::reader::Reader;
use crate::sight::Sight;
use std::alloc::Global;
use std::marker::Model;
use tk_answer::Blocks;
use tk_bloom::Filter;
use tk_frames::ReadFrame;
use tk_shape::{Memory, Shape};
use tk_words::Draws;

/// One who follows logs and looks into buckets that it has at hand, where a client would ask servers.
/// What it reads next, and what its logs have given, is as it is of a client that asks.
#[derive(Debug, Drop)]
pub struct Follower {
    shape: Shape,
    reader: Reader,
}

impl Model for Follower {
    ghost use Rattle.tk_client.specs.Looking.{FollowerState};
    ghost use Rattle.tk_client.specs.Searching.{AreBelow};

    ghost Value = { FollowerState };

    ghost view = { λ l. record { shape = l.shape; reader = l.reader } };

    ghost invariant = { λ l. AreBelow l.shape.logs l.reader.follows };
}

impl Follower {
    /// One that knows nothing yet, with the logs that it follows.
    pub fn open(alloc: Global, shape: &Shape, follows: &[u32]) -> Result<Follower, Memory>
        requires follows_in { All (λ log. log < shape.now.logs) follows.now }
        ensures { IfOk result (λ l. l ≡ new_follower shape.now follows.now) }
    {
        Ok(Follower {
            shape: *shape,
            reader: Reader::new(alloc, follows)?,
        })
    }

    /// What a client of this number that knows as much would ask of every server in a read over an
    /// epoch with this filter, server by server.
    pub fn read_frames<D: Draws>(
        &mut self,
        alloc: Global,
        draws: &D,
        client: u32,
        turn: u32,
        epoch: u32,
        filter: &Filter,
    ) -> Result<Vec<ReadFrame>, Memory>
        requires one_shape { D.shape draws.now ≡ self.old.shape }
        requires client_in { client < self.old.shape.clients }
        requires turn_in { turn < turn_count self.old.shape }
        ensures frames { let words = words_of self.old.shape (D.book draws.now) in
            let target = looked_for words filter.now epoch self.old in
            IfOk result (λ frames. frames.items
            ≡ asked self.old.shape (D.book draws.now) turn client epoch target) }
        ensures same { self.new ≡ self.old }
    {
        let sight = Sight {
            shape: &self.shape,
            draws,
            filter,
        };
        let wanted = self.reader.target(&sight, epoch);
        let read = OpenRead {
            turn,
            epoch,
            target: wanted,
        };
        let spare = &mut Vec::new(alloc);
        let (query, _kept) = draw_query(alloc, spare, &self.shape, draws, client, read)?;
        query.frames(alloc, &self.shape)
    }

    /// Reads over an epoch, of which these are the buckets and the filter that shows what is worth
    /// reading. What the read is for is settled, or tried in vain.
    pub fn look<D: Draws, B: Blocks>(
        &mut self,
        alloc: Global,
        draws: &D,
        epoch: u32,
        filter: &Filter,
        buckets: &B,
    ) -> Result<(), Memory>
        requires one_shape { D.shape draws.now ≡ self.old.shape }
        requires counted { length (B.blocks buckets.now) ≡ self.old.shape.buckets }
        requires wide { B.width buckets.now ≡ width self.old.shape }
        ensures looked { let words = words_of self.old.shape (D.book draws.now) in
            OnOk result (self.new
            ≡ after_look words filter.now (B.blocks buckets.now) epoch self.old) }
        ensures kept { OnErr result (self.new ≡ self.old) }
    {
        let sight = Sight {
            shape: &self.shape,
            draws,
            filter,
        };
        let target = self.reader.target(&sight, epoch);
        let text = text_in_buckets(alloc, &self.shape, draws, buckets, target)?;
        self.reader.take(alloc, &self.shape, epoch, target, text)?;
        Ok(())
    }

    /// What a log gave, one for each number below the next; nothing for a log that isn't followed.
    pub fn log(&self, log: u32) -> &[Got]
        ensures { result.now ≡ got_in self.now.reader.follows log }
    {
        self.reader.got(log)
    }
}
