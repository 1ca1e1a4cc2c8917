ghost use Rattle.std.specs.Prelude.{◌≡◌, ◌+◌, ◌*◌, ◌≤◌, ◌++◌, vec_len, vec_capacity, OnOk, OnErr};
ghost use Rattle.tk_shape.specs.Lengths.{vector_len};
ghost use Rattle.tk_relay.specs.Halves.{HasHalves, halves_bytes};
ghost use Rattle.tk_relay.specs.Pads.{masked};
ghost use Rattle.tk_relay.specs.Bundles.{AreOneRead, vectors_of, parts_for, bundle_frame, bundle_len};

use crate::append::{append, append_masked};
use crate::{Pads, kind};
use tk_frames::{ReadFrame, head_of};
use tk_shape::{Memory, Shape};

/// Appends what a client sends to server 1 of its read, the vectors of these frames: those for server 1 as they are, and
/// all others masked. Where memory runs out nothing is appended.
pub fn bundle(
    shape: &Shape,
    frames: &[ReadFrame],
    pads: &Pads,
    out: &mut Vec<u8>,
) -> Result<(), Memory>
    requires one_shape { pads.now.shape ≡ shape.now }
    requires one_read { AreOneRead shape.now frames.now }
    ensures ok { let parts = parts_for shape.now pads.now.pads frames.now in
        OnOk result (out.new.items ≡ out.old.items ++ bundle_frame parts) }
    ensures err { OnErr result (out.new.items ≡ out.old.items) }
{
    out.reserve(bundle_len(shape) as usize)?;
    let first = &frames[0];
    append(
        out,
        &head_of(kind::BUNDLE, [first.client, first.turn, first.epoch]),
    );
    append(out, first.first.as_slice());
    append(out, first.second.as_slice());
    for server in 2..shape.servers + 1 {
        append_vectors(out, &frames[server as usize - 1], server, pads);
    }
    Ok(())
}

/// Appends the masked vectors of a server other than the first.
fn append_vectors(out: &mut Vec<u8>, frame: &ReadFrame, server: u32, pads: &Pads)
    requires low { 2 ≤ server }
    requires high { server ≤ pads.now.shape.servers }
    requires vectors { HasHalves (vector_len pads.now.shape) (vectors_of frame.now) }
    requires room { vec_len out.old + 2 * vector_len pads.now.shape ≤ vec_capacity out.old }
    ensures items { out.new.items ≡ out.old.items
        ++ halves_bytes (masked pads.now.pads.requests server (vectors_of frame.now)) }
    ensures len { vec_len out.new ≡ vec_len out.old + 2 * vector_len pads.now.shape }
    ensures capacity { vec_capacity out.old ≤ vec_capacity out.new }
{
    let (first, second) = pads.request(server);
    append_masked(out, frame.first.as_slice(), first);
    append_masked(out, frame.second.as_slice(), second);
}

/// The bytes of a bundle.
pub(crate) fn bundle_len(shape: &Shape) -> u32
    ensures len { result ≡ bundle_len shape.now }
    ensures low { 14 ≤ result }
    ensures high { result ≤ 65536 }
{
    14 + 2 * shape.servers * shape.vector_len()
}
