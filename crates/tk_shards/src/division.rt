ghost use Rattle.std.specs.Prelude.{◌≡◌, ◌+◌, ◌-◌, ◌*◌, ◌/◌, ◌≤◌, length, map, None, IfOk, IfErr, OnOk};
ghost use Rattle.std.specs.List.{range_with_len};
ghost use Rattle.tk_shards.specs.Division.{first_cut, IsCutRefusal, IsRefusalAt};

use std::alloc::{AllocError, Global};
use std::marker::Model;
use tk_shape::Memory as WantOfMemory;

/// Buckets divided into ranges, which may be empty. Seen as how many buckets there are, and where
/// each range but the first begins.
#[derive(Debug, Drop)]
pub struct Division {
    buckets: u32,
    cuts: Vec<u32>,
}

impl Model for Division {
    ghost use Rattle.std.specs.Prelude.{◌≡◌, None};
    ghost use Rattle.tk_shards.specs.Division.{Divided, first_cut};

    ghost Value = { Divided };

    ghost view = { λ d. record { buckets = d.buckets; cuts = d.cuts.items } };

    ghost invariant = { λ d. first_cut 0 0 d.buckets d.cuts.items ≡ None };
}

/// Why cuts divide nothing.
#[derive(Clone, Copy, Debug, PartialEq, Eq)]
pub enum DivisionError {
    /// The first cut that is below the one before it or above the buckets, counted from 0.
    Cut { at: u32 },
    /// There is no room for the cuts; or that cut's number doesn't fit in 32 bits.
    Memory,
}

impl From<AllocError> for DivisionError {
    ghost use Rattle.tk_shards.specs.declared.division.DivisionError.TheVariants.{Memory};

    ghost from_gives = { λ _ e. e ≡ Memory };

    fn from(_e: AllocError) -> DivisionError {
        DivisionError::Memory
    }
}

impl Division {
    /// The ranges between these cuts: each cut is the first bucket of the next range.
    pub fn of(alloc: Global, buckets: u32, cuts: &[u32]) -> Result<Division, DivisionError>
        ensures divided { IfOk result (λ d. d ≡ record { buckets = buckets; cuts = cuts.now }) }
        ensures kept { OnOk result (first_cut 0 0 buckets cuts.now ≡ None) }
        ensures refused { IfErr result (IsCutRefusal (first_cut 0 0 buckets cuts.now)) }
    {
        let mut before = 0;
        for at in 0..cuts.len() {
            if cuts[at] < before || cuts[at] > buckets {
                return Err(refusal_at(at));
            }
            before = cuts[at];
        }
        let cuts = cuts.to_vec(alloc)?;
        Ok(Division { buckets, cuts })
    }

    /// So many ranges of about one length.
    pub fn even(alloc: Global, buckets: u32, shards: u32) -> Result<Division, WantOfMemory>
        requires some { 1 ≤ shards }
        requires most { shards ≤ 64 }
        ensures { IfOk result (λ d. d ≡ record {
          buckets = buckets;
          cuts = map (λ s. s * buckets / shards) (range_with_len 1 (shards - 1));
        }) }
    {
        let mut cuts = Vec::with_capacity(alloc, shards as usize)?;
        for s in 1..shards {
            let cut = u64::from(s) * u64::from(buckets) / u64::from(shards);
            cuts.push_reserved(cut as u32);
        }
        Ok(Division { buckets, cuts })
    }

    /// How many buckets are divided.
    pub fn buckets(&self) -> u32
        ensures { result ≡ self.now.buckets }
    {
        self.buckets
    }

    /// How many ranges there are, also empty ones.
    pub(crate) fn ranges(&self) -> usize
        ensures { result ≡ length self.now.cuts + 1 }
    {
        self.cuts.len() + 1
    }

    /// Where its cuts lie in memory.
    pub(crate) fn alloc(&self) -> Global {
        *self.cuts.allocator()
    }

    /// Where each range but the first begins. No cut is below the one before it or above the buckets.
    pub(crate) fn cuts(&self) -> &[u32]
        ensures cuts { result.now ≡ self.now.cuts }
        ensures kept { first_cut 0 0 self.now.buckets self.now.cuts ≡ None }
    {
        self.cuts.as_slice()
    }
}

/// The refusal of the cut of this number.
fn refusal_at(at: usize) -> DivisionError
    ensures { IsRefusalAt at result }
{
    match u32::try_from(at) {
        Ok(at) => DivisionError::Cut { at },
        Err(_) => DivisionError::Memory,
    }
}
