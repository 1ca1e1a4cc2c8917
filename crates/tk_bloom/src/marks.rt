ghost use Rattle.std.specs.Prelude.{◌≡◌, ◌≤◌, true, false, length, map, nat_lt, slice_index_or, IfOk};
ghost use Rattle.tk_bloom.specs.Packing.{number_of, ArePacked};

use crate::Memory;
use std::alloc::Global;
use std::marker::Model;

/// Marks, 64 in each number, so that they are soon made, compared and dropped.
#[derive(Debug, Drop)]
pub(crate) struct Marks {
    count: usize,
    numbers: Vec<u64>,
}

impl Model for Marks {
    ghost use Rattle.std.specs.Prelude.{List, Bool, ◌*◌, ◌≤◌, length};
    ghost use Rattle.tk_bloom.specs.Packing.{marks_in};

    ghost Value = { List Bool };

    ghost view = { λ m. marks_in m.count m.numbers.items };

    ghost invariant = { λ m. m.count ≤ 64 * length m.numbers.items };
}

impl Marks {
    /// For each of these counts a mark, where it isn't 0.
    pub(crate) fn of_counts(alloc: Global, counts: &[u32]) -> Result<Marks, Memory>
        ensures { IfOk result (λ m. m ≡ map (λ n. nat_lt 0 n) counts.now) }
    {
        let numbers = packed(alloc, counts)?;
        let count = counts.len();
        Ok(Marks { count, numbers })
    }

    /// Whether there is a mark at a place. Past the last place there is none.
    pub(crate) fn has(&self, place: u32) -> bool
        ensures { result ≡ slice_index_or self.now place false }
    {
        let place = place as usize;
        place < self.count && self.numbers[place / 64] >> (place % 64) & 1 == 1
    }

    /// Whether the marks of another one are the same.
    pub(crate) fn is_same(&self, other: &Marks) -> bool
        ensures { result ≡ true → self.now ≡ other.now }
    {
        self.count == other.count && are_equal(self.numbers.as_slice(), other.numbers.as_slice())
    }
}

fn are_equal(one: &[u64], other: &[u64]) -> bool
    ensures { result ≡ true → one.now ≡ other.now }
{
    one == other
}

/// The numbers that have a mark for each count that isn't 0, 64 each, and the last one those that are left.
fn packed(alloc: Global, counts: &[u32]) -> Result<Vec<u64>, Memory>
    ensures { IfOk result (λ numbers. ArePacked numbers.items (map (λ n. nat_lt 0 n) counts.now)) }
{
    let mut numbers = Vec::with_capacity(alloc, counts.len() / 64 + 1)?;
    let mut rest = counts;
    'rest: while rest.len() > 64 {
        let (front, behind) = rest.split_at(64);
        numbers.push(number_of(front))?;
        rest = behind;
    }
    numbers.push(number_of(rest))?;
    Ok(numbers)
}

/// The number that has a mark for each of these counts that isn't 0, the first one's the lowest.
fn number_of(counts: &[u32]) -> u64
    requires { length counts.now ≤ 64 }
    ensures { result ≡ number_of (map (λ n. nat_lt 0 n) counts.now) }
{
    let mut number = 0;
    let mut left = counts.len();
    'left: while left > 0 {
        left -= 1;
        number = 2 * number + u64::from(counts[left] > 0);
    }
    number
}
