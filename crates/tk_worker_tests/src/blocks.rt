//! Blocks that tests are about.
ghost use Rattle.std.specs.Prelude.{◌*◌, [], ◌∷◌};
ghost use Rattle.tk_kernel.specs.Pieces.{all_pieces};
ghost use Rattle.tk_shards.specs.Shards.{AreSameBut};

use tk_answer::Blocks;

/// Eight blocks of 41 bytes, all together.
#[derive(Drop)]
pub struct Eight {
    bytes: [u8; 328],
}

impl Blocks for Eight {
    ghost blocks = { λ e. all_pieces 41 e.bytes };

    ghost width = { λ _. 41 };

    fn count(&self) -> u32 {
        8
    }

    fn width(&self) -> u32 {
        41
    }

    fn run(&self, i: u32) -> &[u8] {
        &self.bytes[i as usize * 41..328]
    }
}

/// Block i has all bytes i + 1.
pub fn ascending() -> Eight {
    let mut bytes = [0; 328];
    for (i, byte) in bytes.iter_mut().enumerate() {
        *byte = (i / 41) as u8 + 1;
    }
    Eight { bytes }
}

/// The same blocks, but for the first.
pub fn with_first(old: &Eight, first: u8) -> Eight
    ensures { AreSameBut (0 ∷ []) (all_pieces 41 result.bytes) (all_pieces 41 old.now.bytes) }
{
    let mut bytes = old.bytes;
    bytes[..41].fill(first);
    Eight { bytes }
}

/// Twenty-four blocks of 5 bytes, all together.
#[derive(Drop)]
pub struct Many {
    bytes: [u8; 120],
}

impl Blocks for Many {
    ghost blocks = { λ m. all_pieces 5 m.bytes };

    ghost width = { λ _. 5 };

    fn count(&self) -> u32 {
        24
    }

    fn width(&self) -> u32 {
        5
    }

    fn run(&self, i: u32) -> &[u8] {
        &self.bytes[i as usize * 5..120]
    }
}

/// No two bytes of a block are alike, and no two blocks.
pub fn varied() -> Many {
    let mut bytes = [0; 120];
    for (i, byte) in bytes.iter_mut().enumerate() {
        *byte = (i as u8).wrapping_mul(77) ^ (i / 3) as u8;
    }
    Many { bytes }
}
