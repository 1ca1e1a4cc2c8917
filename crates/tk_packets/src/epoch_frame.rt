ghost use Rattle.std.specs.Prelude.{◌≡◌, ◌++◌, IfSome, IfOk, OnOk, Some};
ghost use Rattle.tk_packets.specs.declared.epoch_frame.EpochFrame.{EpochFrame};
ghost use Rattle.tk_packets.specs.Frames.{epoch_frame, IsEpochFrame};

use std::alloc::Global;
use tk_frames::u32_at;
use tk_shape::{Bytes, Memory, Shape};

const KIND: u8 = 11;

const VERSION: u8 = 1;

/// What a client is told of an epoch: the marks of its filter, a bit for each position.
#[derive(Debug, Drop)]
pub struct EpochFrame {
    pub epoch: u32,
    pub marks: Bytes,
}

/// Appends the one spelling of an epoch.
pub fn encode_epoch(frame: &EpochFrame, out: &mut Vec<u8>) -> Result<(), Memory>
    ensures { OnOk result (out.new.items ≡ out.old.items ++ epoch_frame frame.now) }
{
    out.extend_from_slice(&[KIND, VERSION])?;
    out.extend_from_slice(&frame.epoch.to_be_bytes())?;
    out.extend_from_slice(frame.marks.as_slice())?;
    Ok(())
}

/// The epoch that the bytes spell, if they spell one in range for the shape.
pub fn decode_epoch(
    alloc: Global,
    shape: &Shape,
    bytes: &[u8],
) -> Result<Option<EpochFrame>, Memory>
    ensures found { IfOk result (λ o. IfSome o (λ f.
        IsEpochFrame shape.now f × (bytes.now ≡ epoch_frame f))) }
    ensures only { (f : EpochFrame) → IsEpochFrame shape.now f → bytes.now ≡ epoch_frame f
        → IfOk result (λ o. o ≡ Some f) }
{
    if bytes.len() != 6 + (shape.filter_bits / 8) as usize {
        return Ok(None);
    }
    let epoch = u32_at(bytes, 2);
    if bytes[0] != KIND || bytes[1] != VERSION || epoch < 1 || epoch > shape.phases {
        return Ok(None);
    }
    let marks = Bytes::from_slice(alloc, &bytes[6..])?;
    Ok(Some(EpochFrame { epoch, marks }))
}
