ghost use Rattle.std.specs.Prelude.{◌≡◌, ◌+◌, ◌-◌, ◌*◌, ◌/◌, ◌%◌, ◌^◌, ◌<◌, ◌≤◌, length, take};
ghost use Rattle.tk_kernel.specs.Chosen.{chosen_from, has_bit};
ghost use Rattle.tk_kernel.specs.Listed.{chosen_places};
ghost use Rattle.tk_kernel.specs.Pieces.{all_pieces};
ghost use Rattle.tk_kernel.specs.Xor.{xor_bytes, xor_all};

use crate::pass::pass_bytes;
use crate::stripes::add_listed;

/// The most blocks that are added in one pass over the sum.
const PASS: usize = 64;

/// XORs into `dst` the blocks that the vector chooses. The blocks lie one after the other, each as
/// long as `dst`, and bit `from` of the vector stands for the first of them. Bits are counted through the bytes in
/// order, the least bit of each first.
pub fn xor_choose(dst: &mut [u8], blocks: &[u8], vector: &[u8], from: u32)
    requires some { 0 < length dst.old }
    requires whole { length blocks.now % length dst.old ≡ 0 }
    requires in_vector { from + length blocks.now / length dst.old ≤ 8 * length vector.now }
    ensures { let size = length dst.old in
        let chosen = chosen_from from (all_pieces size blocks.now) vector.now in
        dst.new ≡ xor_bytes dst.old (xor_all size chosen) }
{
    let count = blocks.len() / dst.len();
    let pass = 8 * pass_bytes(dst.len());
    let mut places = [0; PASS];
    let mut done = 0;
    while done < count {
        let end = count.min(done + pass);
        let found = list_chosen(&mut places, vector, from, done, end);
        add_listed(dst, blocks, &places[..found]);
        done = end;
    }
}

// Writes down which of the blocks from number i to before number end are chosen, and gives how many they are. Each
// number is written, and passed over by the next where it isn't chosen, so that no branch depends on the vector.
fn list_chosen(places: &mut [usize; PASS], vector: &[u8], from: u32, i: usize, end: usize) -> usize
    requires order { i ≤ end }
    requires room { end ≤ i + PASS }
    requires in_vector { from + end ≤ 8 * length vector.now }
    requires small { end < 2 ^ 63 }
    ensures within { result ≤ PASS }
    ensures listed { take result places.new ≡ chosen_places from i (end - i) vector.now }
{
    let mut found = 0;
    for place in i..end {
        places[found] = place;
        found += usize::from(is_chosen(vector, from as usize + place));
    }
    found
}

fn is_chosen(vector: &[u8], i: usize) -> bool
    requires { i < 8 * length vector.now }
    ensures { result ≡ has_bit vector.now i }
{
    vector[i / 8] >> (i % 8) & 1 == 1
}
