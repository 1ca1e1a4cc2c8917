//! How the servers of a turn share the workers.
ghost use Rattle.std.specs.Prelude.{◌≤◌};

use crate::crew::Crew;

/// What a worker's pass over the blocks costs beside the sums of its vectors, in sums: it gathers
/// the blocks, and makes tables of them.
const PASS: u64 = 24;

/// How many servers answer so many vectors side by side, so that all are done soonest. Each of them
/// has an equal part of the workers.
pub(crate) fn side_by_side(servers: u32, vectors: u64, crew: Crew) -> u32
    ensures some { 1 ≤ result }
    ensures most { result ≤ crew.workers }
{
    let mut best = 1;
    'sides: for sides in 2..servers.min(crew.workers) + 1 {
        if time(servers, vectors, crew, sides) <= time(servers, vectors, crew, best) {
            best = sides;
        }
    }
    best
}

/// How long all servers take, so many of them side by side, in sums over all blocks of one.
fn time(servers: u32, vectors: u64, crew: Crew, sides: u32) -> u64
    requires some { 1 ≤ sides }
    requires most { sides ≤ crew.workers }
{
    u64::from(servers.div_ceil(sides)).saturating_mul(time_of(vectors, crew.part(sides)))
}

/// How long one server takes. Where its blocks aren't divided the workers share the vectors, and
/// each goes over all blocks; else they share the ranges, and each goes over its own.
fn time_of(vectors: u64, crew: Crew) -> u64 {
    if crew.shards == 1 {
        return vectors
            .div_ceil(u64::from(crew.workers))
            .saturating_add(PASS);
    }
    let most = crew.shards.div_ceil(crew.workers);
    vectors.saturating_add(PASS).saturating_mul(u64::from(most)) / u64::from(crew.shards)
}
