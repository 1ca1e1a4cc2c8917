//! Bytes behind others, where there is room for them.
ghost use Rattle.std.specs.Prelude.{◌≡◌, ◌+◌, ◌*◌, ◌≤◌, ◌++◌, length, vec_len, vec_capacity};
ghost use Rattle.std.specs.List.{flat_map, concat};
ghost use Rattle.tk_frames.specs.Spelling.{be32, be64};

use tk_answer::Blocks;

/// Appends bytes.
pub(crate) fn put(out: &mut Vec<u8>, bytes: &[u8])
    requires { vec_len out.old + length bytes.now ≤ vec_capacity out.old }
    ensures items { out.new.items ≡ out.old.items ++ bytes.now }
    ensures len { vec_len out.new ≡ vec_len out.old + length bytes.now }
    ensures capacity { vec_capacity out.old ≤ vec_capacity out.new }
{
    out.extend_from_slice(bytes).unwrap();
}

/// Appends a number of four bytes.
pub(crate) fn put_u32(out: &mut Vec<u8>, number: u32)
    requires { vec_len out.old + 4 ≤ vec_capacity out.old }
    ensures items { out.new.items ≡ out.old.items ++ be32 number }
    ensures len { vec_len out.new ≡ vec_len out.old + 4 }
    ensures capacity { vec_capacity out.old ≤ vec_capacity out.new }
{
    put(out, &number.to_be_bytes());
}

/// Appends a number of eight bytes.
pub(crate) fn put_u64(out: &mut Vec<u8>, number: u64)
    requires { vec_len out.old + 8 ≤ vec_capacity out.old }
    ensures items { out.new.items ≡ out.old.items ++ be64 number }
    ensures len { vec_len out.new ≡ vec_len out.old + 8 }
    ensures capacity { vec_capacity out.old ≤ vec_capacity out.new }
{
    put(out, &number.to_be_bytes());
}

/// Appends numbers of four bytes.
pub(crate) fn put_words(out: &mut Vec<u8>, words: &[u32])
    requires { vec_len out.old + 4 * length words.now ≤ vec_capacity out.old }
    ensures items { out.new.items ≡ out.old.items ++ flat_map be32 words.now }
    ensures len { vec_len out.new ≡ vec_len out.old + 4 * length words.now }
    ensures capacity { vec_capacity out.old ≤ vec_capacity out.new }
{
    for word in words {
        put_u32(out, *word);
    }
}

/// Appends all blocks, as many at once as lie together.
pub(crate) fn put_blocks<B: Blocks>(out: &mut Vec<u8>, blocks: &B)
    requires { vec_len out.old + length (B.blocks blocks.now) * B.width blocks.now ≤ vec_capacity out.old }
    ensures { out.new.items ≡ out.old.items ++ concat (B.blocks blocks.now) }
{
    let count = blocks.count();
    let width = blocks.width() as usize;
    let mut done = 0;
    while done < count {
        let run = blocks.run(done);
        put(out, run);
        done += (run.len() / width) as u32;
    }
}
