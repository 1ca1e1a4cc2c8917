ghost use Rattle.std.specs.Prelude.{◌≡◌, ℕ, ◌<◌, ◌++◌, IfSome, OnOk, Some};
ghost use Rattle.tk_packets.specs.Frames.{refused_frame};

use tk_shape::Memory;

const KIND: u8 = 12;

const VERSION: u8 = 1;

/// Appends what tells that a frame is refused, and why.
pub fn encode_refused(cause: u8, out: &mut Vec<u8>) -> Result<(), Memory>
    ensures { OnOk result (out.new.items ≡ out.old.items ++ refused_frame cause) }
{
    out.extend_from_slice(&[KIND, VERSION, cause])?;
    Ok(())
}

/// Why a frame is refused, if the bytes tell that.
pub fn decode_refused(bytes: &[u8]) -> Option<u8>
    ensures found { IfSome result (λ cause. bytes.now ≡ refused_frame cause) }
    ensures only { (cause : ℕ) → bytes.now ≡ refused_frame cause → result ≡ Some cause }
{
    match bytes {
        [KIND, VERSION, cause] => Some(*cause),
        _ => None,
    }
}
