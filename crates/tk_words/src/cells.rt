//! What the cells of a tape have.
ghost use Rattle.std.specs.Prelude.{◌≡◌, ◌+◌, ◌-◌, ◌*◌, ◌≤◌, ◌<◌, ◌++◌, length, take, drop, flat_map};
ghost use Rattle.std.specs.List.{AllByRecursion};
ghost use Rattle.tk_shape.specs.Lengths.{cell_len, read_cell_len, seed_len, vector_len};
ghost use Rattle.tk_kernel.specs.Pieces.{pieces};
ghost use Rattle.tk_words.specs.Pieces.{piece, word_at_byte};
ghost use Rattle.tk_words.specs.Words.{cell_pair, cell_hits, cell_block, cell_pad, cell_tag};
ghost use Rattle.tk_words.specs.Words.{joined, for_each, cell_pieces, piece_seed, piece_vector};

use tk_shape::Shape;

// Piece number i of those that have `size` bytes each.
pub(crate) fn piece(bytes: &[u8], size: usize, i: usize) -> &[u8]
    requires { (i + 1) * size ≤ length bytes.now }
    ensures value { result.now ≡ piece size i bytes.now }
    ensures len { length result.now ≡ size }
{
    let start = i * size;
    &bytes[start..start + size]
}

// The big-endian word at byte i.
fn word_at(bytes: &[u8], i: usize) -> u32
    requires { i + 4 ≤ length bytes.now }
    ensures { result ≡ word_at_byte i bytes.now }
{
    let mut word = [0; 4];
    word.copy_from_slice(&bytes[i..i + 4]);
    u32::from_be_bytes(word)
}

// The two buckets in front of a cell.
pub(crate) fn cell_pair(shape: &Shape, cell: &[u8]) -> (u32, u32)
    requires { 8 ≤ length cell.now }
    ensures pair { result ≡ cell_pair shape.now cell.now }
    ensures first_in { result.0 < shape.now.buckets }
    ensures second_in { result.1 < shape.now.buckets }
{
    (
        word_at(cell, 0) % shape.buckets,
        word_at(cell, 4) % shape.buckets,
    )
}

// The filter positions after them.
pub(crate) fn cell_hits(shape: &Shape, cell: &[u8], out: &mut [u32])
    requires cell_whole { length cell.now ≡ cell_len shape.now }
    requires room { length out.old ≡ shape.now.hits }
    ensures hits { out.new ≡ cell_hits shape.now cell.now }
    ensures hits_in { AllByRecursion (λ h. h < shape.now.filter_bits) out.new }
{
    'hits: for i in 0..out.len() {
        out[i] = word_at(cell, 8 + 4 * i) % shape.filter_bits;
    }
}

// The block after those.
pub(crate) fn cell_block<'a>(shape: &Shape, cell: &'a [u8]) -> &'a [u8]
    requires { length cell.now ≡ cell_len shape.now }
    ensures block { result.now ≡ cell_block shape.now cell.now }
    ensures len { length result.now ≡ shape.now.block }
{
    &cell[8 + 4 * shape.hits as usize..]
}

// The pad and the tag of which that block consists.
pub(crate) fn pad_and_tag<'a>(shape: &Shape, cell: &'a [u8]) -> (&'a [u8], &'a [u8])
    requires { length cell.now ≡ cell_len shape.now }
    ensures pad { result.0.now ≡ cell_pad shape.now cell.now }
    ensures pad_len { length result.0.now ≡ shape.now.block - 16 }
    ensures tag { result.1.now ≡ cell_tag shape.now cell.now }
    ensures tag_len { length result.1.now ≡ 16 }
{
    cell_block(shape, cell).split_at(shape.block as usize - 16)
}

// The seeds and the vectors of a read cell's pieces.
pub(crate) fn cell_seeds_and_vectors(
    shape: &Shape,
    cell: &[u8],
    seeds: &mut [u8],
    vectors: &mut [u8],
)
    requires whole { length cell.now ≡ read_cell_len shape.now }
    requires seeds_room { length seeds.old ≡ 2 * (shape.now.servers - 1) * seed_len shape.now }
    requires vectors_room { length vectors.old ≡ 2 * (shape.now.servers - 1) * vector_len shape.now }
    ensures seeds { seeds.new ≡ joined (for_each (piece_seed shape.now) (cell_pieces shape.now cell.now)) }
    ensures vectors { vectors.new ≡ joined (for_each (piece_vector shape.now) (cell_pieces shape.now cell.now)) }
{
    let count = 2 * (shape.servers as usize - 1);
    let halves = Halves {
        front: shape.seed_len() as usize,
        back: shape.vector_len() as usize,
    };
    take_apart(&cell[8..], count, halves, seeds, vectors);
}

// How many bytes the front and the back of a piece have.
#[derive(Clone, Copy)]
struct Halves {
    front: usize,
    back: usize,
}

// Cuts so many pieces in two, and puts their fronts one after the other, and likewise their backs.
fn take_apart(bytes: &[u8], count: usize, halves: Halves, fronts: &mut [u8], backs: &mut [u8])
    requires whole { length bytes.now ≡ count * (halves.front + halves.back) }
    requires fronts_room { length fronts.old ≡ count * halves.front }
    requires backs_room { length backs.old ≡ count * halves.back }
    ensures fronts { fronts.new ≡ flat_map (take halves.front) (pieces (halves.front + halves.back) count bytes.now) }
    ensures backs { backs.new ≡ flat_map (drop halves.front) (pieces (halves.front + halves.back) count bytes.now) }
{
    let Halves { front, back } = halves;
    let mut rest = bytes;
    'pieces: for i in 0..count {
        let (piece, after) = rest.split_at(front + back);
        let (one, other) = piece.split_at(front);
        put(fronts, i * front, one);
        put(backs, i * back, other);
        rest = after;
    }
}

// Writes a part over the bytes from a place on.
fn put(bytes: &mut [u8], at: usize, part: &[u8])
    requires { at + length part.now ≤ length bytes.old }
    ensures { bytes.new ≡ take at bytes.old ++ part.now ++ drop (at + length part.now) bytes.old }
{
    bytes[at..at + part.len()].copy_from_slice(part);
}
