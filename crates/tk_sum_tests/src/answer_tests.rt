ghost use Rattle.std.specs.Prelude.{◌≡◌, ◌<◌, ◌≤◌, length, IfOk};
ghost use Rattle.std.specs.List.{All};
ghost use Rattle.tk_kernel.specs.Pieces.{all_pieces};

use std::alloc::Global;
use std::test::Fail;
use tk_answer::{Blocks, answer, answer_each, answer_each_with};
use tk_shape::{Bytes, Memory};

/// 72 blocks of 127 bytes, of which those of a page are said to lie together: a pass over many
/// vectors takes the first 64, and 64, 32, 16, 8 and seven times one of the bytes.
#[derive(Drop)]
struct Paged {
    bytes: [u8; 9144],
    page: u32,
    ghost some: { 0 < page },
    ghost few: { page ≤ 72 },
}

impl Blocks for Paged {
    ghost blocks = { λ p. all_pieces 127 p.bytes };

    ghost width = { λ _. 127 };

    fn count(&self) -> u32 {
        72
    }

    fn width(&self) -> u32 {
        127
    }

    fn run(&self, i: u32) -> &[u8] {
        let end = (i - i % self.page + self.page).min(72);
        &self.bytes[i as usize * 127..end as usize * 127]
    }
}

/// Blocks of which number i has all bytes i + 1.
fn counting() -> [u8; 9144] {
    let mut bytes = [0; 9144];
    for (i, byte) in bytes.iter_mut().enumerate() {
        *byte = (i / 127) as u8 + 1;
    }
    bytes
}

/// A vector, and each byte of the sum of the blocks that it chooses.
const CHOICES: [([u8; 9], u8); 5] = [
    ([0xa5, 0, 0, 0, 0, 0, 0, 0, 0], 0x0c),
    ([0, 0, 0, 0, 0, 0, 0, 0, 0], 0x00),
    ([0, 0, 0x80, 0, 0, 0, 0, 0x01, 0x10], 0x64),
    ([0, 0, 0, 0, 0, 0, 0, 0, 0xff], 0x08),
    ([0xff; 9], 0x48),
];

#[test]
fn runs_of_any_length(rt: HostRuntime) {
    // each block by itself, pages of 3 and 7, and all together
    for page in [1, 3, 7, 72] {
        let blocks = Paged {
            bytes: counting(),
            page,
        };
        for (vector, want) in CHOICES {
            let mut out = [0xff; 127];
            answer(&blocks, &vector, &mut out);
            assert!(rt; out.as_slice() == [want; 127].as_slice(), "pages of {page}");
        }
    }
}

/// Vectors over all blocks, which take turns.
fn in_turn(alloc: Global, count: usize) -> Result<Vec<Bytes>, Memory>
    ensures { IfOk result (λ vs. All (λ v. length v ≡ 9) vs.items) }
{
    let mut vectors = Vec::new(alloc);
    for i in 0..count {
        let (vector, _want) = CHOICES[i % 5];
        vectors.push(Bytes::from_slice(alloc, &vector)?)?;
    }
    Ok(vectors)
}

#[test]
fn each_vector_answered(rt: HostRuntime) -> Result<(), Fail> {
    let alloc = rt.alloc();
    // none, few, many and very many vectors, over pages and over all blocks together
    for (page, count) in [(72, 0), (3, 3), (72, 3), (3, 27), (72, 131)] {
        let blocks = Paged {
            bytes: counting(),
            page,
        };
        let vectors = in_turn(alloc, count)?;
        let sums = answer_each(alloc, &blocks, vectors)?;
        assert!(rt; sums.len() == count);
        for (i, sum) in sums.iter().enumerate() {
            let (_vector, want) = CHOICES[i % 5];
            assert!(rt; sum.as_slice() == [want; 127].as_slice());
        }
    }
    Ok(())
}

#[test]
fn each_vector_answered_in_spare_buffers(rt: HostRuntime) -> Result<(), Fail> {
    let alloc = rt.alloc();
    let blocks = Paged {
        bytes: counting(),
        page: 72,
    };
    // buffers of other lengths, that hold what isn't zero
    let mut sums_before = vec![in alloc; vec![in alloc; 0xff; 200]?, vec![in alloc; 0xff; 3]?]?;
    let mut vectors_before = Vec::new(alloc);
    for count in [0, 3, 27] {
        let vectors = in_turn(alloc, count)?;
        let sums = answer_each_with(
            alloc,
            &mut sums_before,
            &mut vectors_before,
            &blocks,
            vectors,
        )?;
        assert!(rt; sums.len() == count);
        for (i, sum) in sums.iter().enumerate() {
            let (_vector, want) = CHOICES[i % 5];
            assert!(rt; sum.as_slice() == [want; 127].as_slice());
        }
        for sum in sums {
            sums_before.push(sum.into_vec())?;
        }
    }
    assert!(rt; vectors_before.len() == 30);
    Ok(())
}
