ghost use Rattle.std.specs.Prelude.{◌≡◌, ◌-◌, ◌*◌, ◌<◌, ◌≤◌, length, take, drop, map, slice_index_or, cond};
ghost use Rattle.std.specs.Prelude.{ℕ, List, [], ◌++◌, IfSome, IfOk, OnOk, OnErr};
ghost use Rattle.tk_shape.specs.Lengths.{turn_count, seed_len, vector_len};
ghost use Rattle.tk_kernel.specs.Pieces.{all_pieces};
ghost use Rattle.tk_bits.specs.Shares.{completed};
ghost use Rattle.tk_words.specs.Pieces.{piece};
ghost use Rattle.tk_words.specs.Words.{words_of, fresh_pair};
ghost use Rattle.tk_frames.specs.declared.seeds.Seeds.TheVariants.{Seeded, Shown};
ghost use Rattle.tk_frames.specs.Lent.{seeds_by_way, lent_read};
ghost use Rattle.tk_frames.specs.Spelling.{read_frame};
ghost use Rattle.tk_client.specs.Asked.{pair_for, seeds_told, asked};
ghost use Rattle.tk_client.specs.Framing.{drawn_each, query_frame, query_frames, IsQuery};

use crate::open_read::OpenRead;
use crate::pairs::{KeptPair, ReadPair, pair_to_keep};
use crate::target::Target;
use std::alloc::Global;
use tk_bits::share;
use tk_frames::{LentRead, ReadFrame, Way, encode_lent_read, sized};
use tk_shape::{Bytes, Memory, Shape};
use tk_words::Draws;

/// The query of a client's read, and what is kept of its buckets. A dummy read asks for buckets that are drawn, and
/// otherwise as any other. The query's bytes lie in spare buffers where there are any.
pub(crate) fn draw_query<D: Draws>(
    alloc: Global,
    spare: &mut Vec<Vec<u8>>,
    shape: &Shape,
    draws: &D,
    client: u32,
    read: OpenRead,
) -> Result<(Query, Option<KeptPair>), Memory>
    requires one_shape { D.shape draws.now ≡ shape.now }
    requires client_in { client < shape.now.clients }
    requires turn_in { read.turn < turn_count shape.now }
    requires log_in { IfSome read.target (λ t. t.log < shape.now.logs) }
    requires number_in { IfSome read.target (λ t. t.number < turn_count shape.now) }
    ensures asked { IfOk result (λ r. query_frames shape.now r.0
        ≡ asked shape.now (D.book draws.now) read.turn client read.epoch read.target) }
    ensures whole { IfOk result (λ r. IsQuery shape.now r.0) }
{
    let others = shape.servers as usize - 1;
    let each_seed = others * shape.seed_len() as usize;
    let each_vector = others * shape.vector_len() as usize;
    let mut seeds = sized(alloc, spare, 2 * each_seed)?;
    let mut drawn = sized(alloc, spare, 2 * each_vector)?;
    let fresh = draws.fresh_read(
        client,
        read.turn,
        seeds.as_mut_slice(),
        drawn.as_mut_slice(),
    );
    let ReadPair { pair, kept } = buckets(shape, draws, read.target, fresh);
    let last = last_vectors(alloc, spare, shape, pair, drawn.as_slice())?;
    let query = Query {
        asker: Asker {
            client,
            turn: read.turn,
            epoch: read.epoch,
        },
        shows: draws.shows(),
        seeds: Bytes::from_vec(seeds),
        drawn: Bytes::from_vec(drawn),
        last,
    };
    Ok((query, kept))
}

/// Who asks, and over which epoch.
#[derive(Clone, Copy)]
struct Asker {
    client: u32,
    turn: u32,
    epoch: u32,
}

/// What a client asks of all servers in a read, of which each is lent its part.
#[derive(Drop)]
pub(crate) struct Query {
    asker: Asker,
    shows: bool,
    /// The seeds of all servers but the last, one after the other, for the first bucket and then for the second.
    seeds: Bytes,
    /// Likewise their vectors, which are drawn.
    drawn: Bytes,
    /// The vectors of the last server.
    last: Bytes,
}

/// The shares of a bucket: the seeds and the vectors of all servers but the last, one after the
/// other, and the vector of the last, which completes them.
#[derive(Clone, Copy)]
struct Shares<'a> {
    seeds: &'a [u8],
    drawn: &'a [u8],
    last: &'a [u8],
}

impl Query {
    /// What every server is asked, server by server.
    pub(crate) fn frames(&self, alloc: Global, shape: &Shape) -> Result<Vec<ReadFrame>, Memory>
        requires whole { IsQuery shape.now self.now }
        ensures { IfOk result (λ frames. frames.items ≡ query_frames shape.now self.now) }
    {
        let mut frames = Vec::with_capacity(alloc, shape.servers as usize)?;
        for server in 1..shape.servers + 1 {
            frames.push(self.lent(shape, server).to_frame(alloc)?)?;
        }
        Ok(frames)
    }

    /// Appends the spelling of what every server is asked. Without memory nothing is appended. The
    /// query's buffers are spare afterwards.
    pub(crate) fn append_spelled(
        self,
        alloc: Global,
        spare: &mut Vec<Vec<u8>>,
        shape: &Shape,
        out: &mut Vec<Bytes>,
    ) -> Result<(), Memory>
        requires whole { IsQuery shape.now self }
        ensures appended { OnOk result
            (out.new.items ≡ out.old.items ++ map read_frame (query_frames shape.now self)) }
        ensures kept { OnErr result (out.new.items ≡ out.old.items) }
    {
        let mut spelled = self.spelled(alloc, shape)?;
        spare.push(self.last.into_vec())?;
        spare.push(self.drawn.into_vec())?;
        spare.push(self.seeds.into_vec())?;
        if out.is_empty() {
            *out = spelled;
            return Ok(());
        }
        out.append(&mut spelled)?;
        Ok(())
    }

    fn spelled(&self, alloc: Global, shape: &Shape) -> Result<Vec<Bytes>, Memory>
        requires whole { IsQuery shape.now self.now }
        ensures { IfOk result (λ spelled.
            spelled.items ≡ map read_frame (query_frames shape.now self.now)) }
    {
        let mut spelled = Vec::with_capacity(alloc, shape.servers as usize)?;
        for server in 1..shape.servers + 1 {
            spelled.push(spelled_read(alloc, &self.lent(shape, server))?)?;
        }
        Ok(spelled)
    }

    /// What a server is asked.
    fn lent(&self, shape: &Shape, server: u32) -> LentRead<'_>
        requires whole { IsQuery shape.now self.now }
        requires server_low { 1 ≤ server }
        requires server_high { server ≤ shape.now.servers }
        ensures { lent_read result ≡ query_frame shape.now self.now server }
    {
        let others = shape.servers as usize - 1;
        let size = shape.vector_len() as usize;
        let seeds = self
            .seeds
            .as_slice()
            .split_at(others * shape.seed_len() as usize);
        let drawn = self.drawn.as_slice().split_at(others * size);
        let last = self.last.as_slice().split_at(size);
        let first = Shares {
            seeds: seeds.0,
            drawn: drawn.0,
            last: last.0,
        };
        let second = Shares {
            seeds: seeds.1,
            drawn: drawn.1,
            last: last.1,
        };
        let (way, seeds) = told(shape, self.shows, server, first.seeds, second.seeds);
        LentRead {
            client: self.asker.client,
            turn: self.asker.turn,
            epoch: self.asker.epoch,
            way,
            seeds,
            vectors: (
                vector_of(shape, server, &first),
                vector_of(shape, server, &second),
            ),
        }
    }
}

/// The buckets of a read: the pair of what it is for, or else those that are drawn, of which nothing
/// is kept.
fn buckets<D: Draws>(
    shape: &Shape,
    draws: &D,
    target: Option<Target>,
    fresh: (u32, u32),
) -> ReadPair
    requires one_shape { D.shape draws.now ≡ shape.now }
    requires log_in { IfSome target (λ t. t.log < shape.now.logs) }
    requires number_in { IfSome target (λ t. t.number < turn_count shape.now) }
    requires first_in { fresh.0 < shape.now.buckets }
    requires second_in { fresh.1 < shape.now.buckets }
    ensures pair { (g c : ℕ) → fresh ≡ fresh_pair (D.shape draws.now) (D.book draws.now) g c
        → result.pair ≡ pair_for (words_of (D.shape draws.now) (D.book draws.now)) g c target }
    ensures first_in { result.pair.0 < shape.now.buckets }
    ensures second_in { result.pair.1 < shape.now.buckets }
{
    match target {
        Some(target) => pair_to_keep(shape, draws, target),
        None => ReadPair {
            pair: fresh,
            kept: None,
        },
    }
}

/// The vectors of the last server, which complete those that are drawn for the buckets of a pair.
fn last_vectors(
    alloc: Global,
    spare: &mut Vec<Vec<u8>>,
    shape: &Shape,
    pair: (u32, u32),
    drawn: &[u8],
) -> Result<Bytes, Memory>
    requires first_in { pair.0 < shape.now.buckets }
    requires second_in { pair.1 < shape.now.buckets }
    requires whole { length drawn.now ≡ 2 * drawn_each shape.now }
    ensures first { let size = vector_len shape.now in let own = take (drawn_each shape.now) drawn.now in
        IfOk result (λ last. all_pieces size (own ++ take size last)
        ≡ completed size pair.0 (all_pieces size own)) }
    ensures second { let size = vector_len shape.now in let own = drop (drawn_each shape.now) drawn.now in
        IfOk result (λ last. all_pieces size (own ++ drop size last)
        ≡ completed size pair.1 (all_pieces size own)) }
    ensures long { IfOk result (λ last. length last ≡ 2 * vector_len shape.now) }
{
    let size = shape.vector_len() as usize;
    let (first_drawn, second_drawn) = drawn.split_at((shape.servers as usize - 1) * size);
    let mut last = sized(alloc, spare, 2 * size)?;
    let (first, second) = last.as_mut_slice().split_at_mut(size);
    complete(shape, pair.0, first_drawn, first);
    complete(shape, pair.1, second_drawn, second);
    Ok(Bytes::from_vec(last))
}

/// Writes the vector that completes those that are drawn for a bucket.
fn complete(shape: &Shape, bucket: u32, drawn: &[u8], last: &mut [u8])
    requires bucket_in { bucket < shape.now.buckets }
    requires whole { length drawn.now ≡ drawn_each shape.now }
    requires room { length last.old ≡ vector_len shape.now }
    ensures vectors { let size = vector_len shape.now in
        all_pieces size (drawn.now ++ last.new) ≡ completed size bucket (all_pieces size drawn.now) }
{
    share(bucket, drawn, last);
}

/// How a server is told its vectors, and the seeds that it gets, where these are those of all servers but the last.
fn told<'a>(
    shape: &Shape,
    shows: bool,
    server: u32,
    first: &'a [u8],
    second: &'a [u8],
) -> (Way, (&'a [u8], &'a [u8]))
    requires server_low { 1 ≤ server }
    requires server_high { server ≤ shape.now.servers }
    requires first_long { length first.now ≡ (shape.now.servers - 1) * seed_len shape.now }
    requires second_long { length second.now ≡ (shape.now.servers - 1) * seed_len shape.now }
    ensures { seeds_by_way result.0 (result.1.0.now ++ result.1.1.now)
        ≡ seeds_told shape.now shows server
        (piece (seed_len shape.now) (server - 1) first.now
        ++ piece (seed_len shape.now) (server - 1) second.now) }
{
    if server == shape.servers || shape.format != 2 {
        return (Way::Plain, (&[], &[]));
    }
    let start = (server as usize - 1) * 32;
    let seeds = (&first[start..start + 32], &second[start..start + 32]);
    (way_of(shows), seeds)
}

/// The way of seeds with their vectors shown behind them or not.
fn way_of(shows: bool) -> Way
    ensures { (s : List ℕ) → seeds_by_way result s ≡ cond shows (Shown s) (Seeded s) }
{
    if shows { Way::Shown } else { Way::Seeded }
}

/// The vector of a server.
fn vector_of<'a>(shape: &Shape, server: u32, shares: &Shares<'a>) -> &'a [u8]
    requires server_low { 1 ≤ server }
    requires server_high { server ≤ shape.now.servers }
    requires drawn_long { length shares.now.drawn.now ≡ drawn_each shape.now }
    requires last_long { length shares.now.last.now ≡ vector_len shape.now }
    ensures { let all = shares.now.drawn.now ++ shares.now.last.now in
        result.now ≡ slice_index_or (all_pieces (vector_len shape.now) all) (server - 1) [] }
{
    if server == shape.servers {
        return shares.last;
    }
    let size = shape.vector_len() as usize;
    let start = (server as usize - 1) * size;
    &shares.drawn[start..start + size]
}

fn spelled_read(alloc: Global, frame: &LentRead<'_>) -> Result<Bytes, Memory>
    ensures { IfOk result (λ bytes. bytes ≡ read_frame (lent_read frame.now)) }
{
    let mut out = Vec::new(alloc);
    encode_lent_read(frame, &mut out)?;
    Ok(Bytes::from_vec(out))
}
