ghost use Rattle.std.specs.Prelude.{◌≡◌, ◌*◌, ◌≤◌, ◌++◌, All, length, map, None, IfOk, IfErr, OnOk};
ghost use Rattle.std.specs.List.{zip};
ghost use Rattle.std.specs.Result.{result_err};
ghost use Rattle.tk_shape.specs.declared.shape.Shape.{Shape};
ghost use Rattle.tk_shape.specs.Lengths.{vector_len, width};
ghost use Rattle.tk_kernel.specs.Chosen.{chosen_sum};
ghost use Rattle.tk_kernel.specs.Pieces.{AllSized};
ghost use Rattle.tk_relay.specs.declared.part_error.PartError.TheVariants as fault;
ghost use Rattle.tk_relay.specs.Halves.{HasHalves};
ghost use Rattle.tk_relay.specs.Pads.{masked};
ghost use Rattle.tk_relay.specs.Parts.{halves_of, part_with};
ghost use Rattle.tk_relay.specs.Refusals.{IsRefused, other_epoch, first_other_epoch};
ghost use Rattle.tk_relay.specs.Serving.{served_part, served_parts, first_asked, second_asked};
ghost use Rattle.tk_relay.specs.Serving.{AreAskedParts, AreHad, AreOfShape, AreSumsAsked};
ghost use Rattle.tk_relay.specs.Serving.{ForBlocksOf, ForBlocksAsked, ForShapeAsked, ForShapeHad};

use crate::halves::Halves;
use crate::{Pads, Part, PartError};
use std::alloc::Global;
use std::slice;
use tk_answer::{Blocks, answer_each};
use tk_cluster::EpochSet;
use tk_shape::{Bytes, Memory};
use tk_table::Snapshot;

/// A server's reply to its part of a read, over the blocks of the set's epoch. For servers other than the first the mask
/// is taken off the vectors, and another put on the sums. It waits for nobody, and keeps no record: a server should
/// answer a client's part of a turn once.
pub fn serve_part(
    alloc: Global,
    set: &EpochSet,
    server: u32,
    part: &Part,
    pads: &Pads,
) -> Result<Part, PartError>
    requires server { (1 ≤ server) × (server ≤ set.now.shape.servers) }
    requires one_shape { pads.now.shape ≡ set.now.shape }
    requires sized { HasHalves (vector_len set.now.shape) (halves_of part.now) }
    ensures kept { OnOk result (other_epoch set.now.number part.now ≡ None) }
    ensures refused { IfErr result (IsRefused fault.Memory (other_epoch set.now.number part.now)) }
    ensures sized { IfOk result (λ p. HasHalves (width set.now.shape) (halves_of p)) }
    ensures served { ForBlocksOf set.now (λ shape blocks. IfOk result
        (λ p. p ≡ served_part shape blocks pads.now.pads server part.now)) }
{
    let parts = slice::from_ref(part);
    let replies = serve_parts(alloc, set, server, parts, slice::from_ref(pads))?;
    // there is one reply to one part, so that only memory may be wanting
    let Some(reply) = replies.into_iter().next() else {
        return Err(PartError::Memory);
    };
    Ok(reply)
}

/// The same of the parts of several reads, each with the pads of its client: the replies in their order, in one pass over
/// the blocks. The first part of another epoch decides.
pub fn serve_parts(
    alloc: Global,
    set: &EpochSet,
    server: u32,
    parts: &[Part],
    pads: &[Pads],
) -> Result<Vec<Part>, PartError>
    requires server { (1 ≤ server) × (server ≤ set.now.shape.servers) }
    requires counted { length pads.now ≡ length parts.now }
    requires one_shape { All (λ p. p.shape ≡ set.now.shape) pads.now }
    requires sized { All (λ p. HasHalves (vector_len set.now.shape) (halves_of p)) parts.now }
    ensures kept { OnOk result (first_other_epoch set.now.number parts.now ≡ None) }
    ensures refused { IfErr result
        (IsRefused fault.Memory (first_other_epoch set.now.number parts.now)) }
    ensures sized { IfOk result
        (λ rs. All (λ p. HasHalves (width set.now.shape) (halves_of p)) rs.items) }
    ensures served { ForBlocksOf set.now (λ shape blocks. IfOk result
        (λ rs. rs.items ≡ served_parts shape blocks server pads.now parts.now)) }
{
    check_epochs(set.number(), parts)?;
    Ok(replies_over(alloc, set.blocks(server), server, parts, pads)?)
}

/// Whether all parts name an epoch.
fn check_epochs(number: u32, parts: &[Part]) -> Result<(), PartError>
    ensures { result_err result ≡ first_other_epoch number parts.now }
{
    for part in parts {
        check_epoch(number, part)?;
    }
    Ok(())
}

/// Whether a part names it.
fn check_epoch(number: u32, part: &Part) -> Result<(), PartError>
    ensures { result_err result ≡ other_epoch number part.now }
{
    if number == part.epoch {
        Ok(())
    } else {
        Err(PartError::Epoch {
            want: number,
            got: part.epoch,
        })
    }
}

/// The replies to parts over these blocks.
fn replies_over(
    alloc: Global,
    blocks: &Snapshot,
    server: u32,
    parts: &[Part],
    pads: &[Pads],
) -> Result<Vec<Part>, Memory>
    requires { (shape : Shape) × AreHad shape blocks.now
        × AreAskedParts shape server pads.now parts.now }
    ensures sized { ForShapeHad blocks.now server pads.now parts.now
        (λ shape. IfOk result (λ rs. AreOfShape shape rs.items)) }
    ensures served { let had = blocks.now in
        ForShapeHad had server pads.now parts.now (λ shape. IfOk result
        (λ rs. rs.items ≡ served_parts shape had.blocks server pads.now parts.now)) }
{
    let vectors = vectors_for(alloc, server, parts, pads)?;
    let sums = sums_of_all(alloc, blocks, vectors)?;
    each_wide(blocks);
    let (first, second) = sums.as_slice().split_at(parts.len());
    replies_with(alloc, server, parts, pads, first, second)
}

/// For each of these vectors the sum of the blocks that it chooses, all in one pass over the blocks.
fn sums_of_all(alloc: Global, blocks: &Snapshot, vectors: Vec<Bytes>) -> Result<Vec<Bytes>, Memory>
    requires { All (λ v. 8 * length v ≡ length blocks.now.blocks) vectors.items }
    ensures { IfOk result (λ sums. sums.items
        ≡ map (chosen_sum blocks.now.width blocks.now.blocks) vectors.items) }
{
    answer_each(alloc, blocks, vectors)
}

/// Each block is as wide as all are.
fn each_wide(blocks: &Snapshot)
    ensures { AllSized blocks.now.width blocks.now.blocks }
{
    blocks.width();
}

/// The vectors that a server is asked with by parts: those for the first bucket of each, and then those for the second.
fn vectors_for(
    alloc: Global,
    server: u32,
    parts: &[Part],
    pads: &[Pads],
) -> Result<Vec<Bytes>, Memory>
    requires { (shape : Shape) × AreAskedParts shape server pads.now parts.now }
    ensures sized { ForShapeAsked server pads.now parts.now
        (λ shape. IfOk result (λ vectors. AllSized (vector_len shape) vectors.items)) }
    ensures vectors { let asked = zip pads.now parts.now in
        IfOk result (λ vectors. vectors.items
        ≡ map (first_asked server) asked ++ map (second_asked server) asked) }
{
    let mut vectors = Vec::new(alloc);
    let mut others = Vec::new(alloc);
    for (i, part) in parts.iter().enumerate() {
        let both = vectors_of(alloc, server, part, &pads[i])?;
        vectors.push(Bytes::from_vec(both.first))?;
        others.push(Bytes::from_vec(both.second))?;
    }
    vectors.append(&mut others)?;
    Ok(vectors)
}

/// The replies to parts with these sums for the first bucket of each, and these for the second.
fn replies_with(
    alloc: Global,
    server: u32,
    parts: &[Part],
    pads: &[Pads],
    first: &[Bytes],
    second: &[Bytes],
) -> Result<Vec<Part>, Memory>
    requires { AreSumsAsked server pads.now parts.now first.now second.now }
    ensures sized { ForShapeAsked server pads.now parts.now
        (λ shape. IfOk result (λ rs. AreOfShape shape rs.items)) }
    ensures served { ForBlocksAsked server pads.now parts.now first.now second.now
        (λ shape blocks. IfOk result
        (λ rs. rs.items ≡ served_parts shape blocks server pads.now parts.now)) }
{
    let mut replies = Vec::new(alloc);
    for (i, part) in parts.iter().enumerate() {
        let reply = reply_with(
            alloc,
            server,
            part,
            &pads[i],
            first[i].as_slice(),
            second[i].as_slice(),
        )?;
        replies.push(reply)?;
    }
    Ok(replies)
}

/// The vectors of a part, from which its mask is taken off.
fn vectors_of(alloc: Global, server: u32, part: &Part, pads: &Pads) -> Result<Halves, Memory>
    requires server { (1 ≤ server) × (server ≤ pads.now.shape.servers) }
    requires sized { HasHalves (vector_len pads.now.shape) (halves_of part.now) }
    ensures sized { IfOk result (HasHalves (vector_len pads.now.shape)) }
    ensures vectors { IfOk result
        (λ x. x ≡ masked pads.now.pads.requests server (halves_of part.now)) }
{
    let mut vectors = Halves::of(alloc, part)?;
    if server > 1 {
        let (first, second) = pads.request(server);
        vectors.mix(first, second);
    }
    Ok(vectors)
}

/// The reply to a part with these sums, on which its mask is put.
fn reply_with(
    alloc: Global,
    server: u32,
    part: &Part,
    pads: &Pads,
    first: &[u8],
    second: &[u8],
) -> Result<Part, Memory>
    requires server { (1 ≤ server) × (server ≤ pads.now.shape.servers) }
    requires first_len { length first.now ≡ width pads.now.shape }
    requires second_len { length second.now ≡ width pads.now.shape }
    ensures sized { IfOk result (λ p. HasHalves (width pads.now.shape) (halves_of p)) }
    ensures reply { IfOk result
        (λ p. p ≡ part_with part.now.client part.now.turn part.now.epoch
        (masked pads.now.pads.replies server (record { first = first.now; second = second.now }))) }
{
    let mut sums = Halves {
        first: Vec::from_slice(alloc, first)?,
        second: Vec::from_slice(alloc, second)?,
    };
    if server > 1 {
        let (first, second) = pads.reply(server);
        sums.mix(first, second);
    }
    Ok(sums.into_part(part.client, part.turn, part.epoch))
}
