ghost use Rattle.std.specs.Prelude.{◌≡◌, ◌*◌, ◌<◌, IfOk, length, filter};
ghost use Rattle.std.specs.List.{range_with_len};
ghost use Rattle.tk_kernel.specs.Chosen.{has_bit};
ghost use Rattle.tk_member.specs.Epochs.{filter_of};

use std::alloc::Global;
use tk_bits::bit;
use tk_bloom::{Filter, Window};
use tk_shape::{Memory, Shape};

/// The filter with just these marks: that of a window with a push for each of them.
pub(crate) fn filter_of(alloc: Global, shape: &Shape, marks: &[u8]) -> Result<Filter, Memory>
    requires { 8 * length marks.now ≡ shape.now.filter_bits }
    ensures { IfOk result (λ f. f ≡ filter_of shape.now marks.now) }
{
    let bits = shape.filter_bits;
    let marked = marked_in(alloc, bits, marks)?;
    let window = Window::restore(alloc, bits, 1, bits, marked.as_slice())?;
    window.filter(alloc)
}

/// The positions below `bits` that are marked, ascending.
fn marked_in(alloc: Global, bits: u32, marks: &[u8]) -> Result<Vec<u32>, Memory>
    requires { 8 * length marks.now ≡ bits }
    ensures { IfOk result (λ v.
        v.items ≡ filter (has_bit marks.now) (range_with_len 0 bits)) }
{
    let mut marked = Vec::new(alloc);
    'places: for place in 0..bits {
        if bit(marks, place) {
            marked.push(place)?;
        }
    }
    Ok(marked)
}
