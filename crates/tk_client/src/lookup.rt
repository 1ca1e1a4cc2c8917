//! What a read gives whose two buckets are at hand.
ghost use Rattle.std.specs.Prelude.{◌≡◌, ◌<◌, [], length, slice_index_or, IfSome, IfOk};
ghost use Rattle.tk_shape.specs.Lengths.{turn_count, width};
ghost use Rattle.tk_words.specs.Words.{words_of};
ghost use Rattle.tk_client.specs.Looking.{text_for};

use crate::target::Target;
use crate::wanted::{text_in_blocks, wanted_for};
use std::alloc::Global;
use tk_answer::Blocks;
use tk_shape::{Bytes, Memory, Shape};
use tk_words::Draws;

/// The text of a target in its two of these buckets.
pub(crate) fn text_in_buckets<D: Draws, B: Blocks>(
    alloc: Global,
    shape: &Shape,
    draws: &D,
    buckets: &B,
    target: Option<Target>,
) -> Result<Option<Bytes>, Memory>
    requires one_shape { D.shape draws.now ≡ shape.now }
    requires counted { length (B.blocks buckets.now) ≡ shape.now.buckets }
    requires wide { B.width buckets.now ≡ width shape.now }
    requires log_in { IfSome target (λ t. t.log < shape.now.logs) }
    requires number_in { IfSome target (λ t. t.number < turn_count shape.now) }
    ensures text { let words = words_of shape.now (D.book draws.now) in
        IfOk result (λ o. o ≡ text_for shape.now words (B.blocks buckets.now) target) }
{
    let Some(target) = target else {
        return Ok(None);
    };
    let wanted = wanted_for(shape, draws, target, None);
    let first = bucket_at(buckets, wanted.pair.0);
    let second = bucket_at(buckets, wanted.pair.1);
    text_in_blocks(alloc, shape, draws, wanted, first, second)
}

/// The bytes of a bucket.
fn bucket_at<B: Blocks>(buckets: &B, bucket: u32) -> &[u8]
    requires { bucket < length (B.blocks buckets.now) }
    ensures bytes { result.now ≡ slice_index_or (B.blocks buckets.now) bucket [] }
    ensures whole { length result.now ≡ B.width buckets.now }
{
    let width = buckets.width() as usize;
    &buckets.run(bucket)[..width]
}
