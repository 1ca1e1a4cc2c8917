//! Bytes that are put after others for which there is room.
ghost use Rattle.std.specs.Prelude.{◌≡◌, ◌+◌, ◌≤◌, ◌++◌, length, vec_len, vec_capacity};
ghost use Rattle.tk_kernel.specs.Xor.{xor_bytes};

use tk_kernel::xor_into;

pub(crate) fn append(out: &mut Vec<u8>, bytes: &[u8])
    requires { vec_len out.old + length bytes.now ≤ vec_capacity out.old }
    ensures items { out.new.items ≡ out.old.items ++ bytes.now }
    ensures len { vec_len out.new ≡ vec_len out.old + length bytes.now }
    ensures capacity { vec_capacity out.old ≤ vec_capacity out.new }
{
    out.extend_from_slice(bytes).unwrap();
}

/// The same with a mask put on them.
pub(crate) fn append_masked(out: &mut Vec<u8>, bytes: &[u8], mask: &[u8])
    requires room { vec_len out.old + length bytes.now ≤ vec_capacity out.old }
    requires sized { length mask.now ≡ length bytes.now }
    ensures items { out.new.items ≡ out.old.items ++ xor_bytes bytes.now mask.now }
    ensures len { vec_len out.new ≡ vec_len out.old + length bytes.now }
    ensures capacity { vec_capacity out.old ≤ vec_capacity out.new }
{
    let start = out.len();
    append(out, bytes);
    xor_into(&mut out.as_mut_slice()[start..], mask);
}
