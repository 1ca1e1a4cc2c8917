ghost use Rattle.std.specs.Prelude.{◌≡◌, ◌<◌, ◌∷◌, [], map, nat_lt, if◌then◌else◌, Some, None};

use std::alloc::Global;
use std::test::Fail;
use tk_place::{Found, Scratch, Slots, Step, find};

/// Eight buckets of one slot each: the other bucket of its entry, or a larger number where it is empty.
#[derive(Drop)]
struct Single {
    others: [u32; 8],
}

impl Slots for Single {
    ghost others = { λ s. map (λ b. (if nat_lt b 8 then Some b else None) ∷ []) s.others };

    ghost depth = { λ _. 1 };

    fn buckets(&self) -> u32 {
        8
    }

    fn depth(&self) -> u32 {
        1
    }

    fn free(&self, bucket: u32) -> Option<u32> {
        if self.others[bucket as usize] < 8 {
            None
        } else {
            Some(0)
        }
    }

    fn other(&self, bucket: u32, _slot: u32) -> u32 {
        self.others[bucket as usize]
    }

    fn others(&self, bucket: u32) -> &[u32] {
        let slot = bucket as usize;
        &self.others[slot..slot + 1]
    }

    fn leads_to_full(&self, bucket: u32) -> bool {
        self.free(self.others[bucket as usize]).is_none()
    }
}

/// The steps to a new entry's place; none where it has no place.
fn steps_for(
    alloc: Global,
    others: [u32; 8],
    new: (u32, u32),
    scratch: &mut Scratch,
) -> Result<Vec<Step>, Fail>
    requires first { new.0 < 8 }
    requires second { new.1 < 8 }
    requires size { scratch.old.buckets ≡ 8 }
    ensures { scratch.new.buckets ≡ 8 }
{
    let mut steps = Vec::new(alloc);
    if let Found::Chain(count) = find(&Single { others }, new, scratch) {
        for i in 0..count {
            steps.push(scratch.step(i))?;
        }
    }
    Ok(steps)
}

#[test]
fn steps_of_a_chain(rt: HostRuntime) -> Result<(), Fail> {
    let alloc = rt.alloc();
    let mut scratch = Scratch::new(alloc, 8).ok().ok_or("memory")?;
    let steps = steps_for(alloc, [1, 2, 9, 9, 9, 9, 9, 9], (0, 0), &mut scratch)?;
    let want = [
        Step { bucket: 2, slot: 0 },
        Step { bucket: 1, slot: 0 },
        Step { bucket: 0, slot: 0 },
    ];
    assert!(rt; steps.as_slice() == want.as_slice());
    let steps = steps_for(alloc, [1, 2, 9, 9, 9, 9, 9, 9], (0, 1), &mut scratch)?;
    assert!(rt; steps.as_slice() == [want[0], want[1]].as_slice());
    Ok(())
}

#[test]
fn second_bucket_after_the_first(rt: HostRuntime) -> Result<(), Fail> {
    let alloc = rt.alloc();
    let mut scratch = Scratch::new(alloc, 8).ok().ok_or("memory")?;
    let steps = steps_for(alloc, [1, 2, 9, 9, 9, 9, 9, 9], (0, 3), &mut scratch)?;
    assert!(rt; steps.as_slice() == [Step { bucket: 3, slot: 0 }].as_slice());
    let steps = steps_for(alloc, [9; 8], (5, 5), &mut scratch)?;
    assert!(rt; steps.as_slice() == [Step { bucket: 5, slot: 0 }].as_slice());
    Ok(())
}

#[test]
fn no_place_after_a_chain(rt: HostRuntime) -> Result<(), Fail> {
    let alloc = rt.alloc();
    let mut scratch = Scratch::new(alloc, 8).ok().ok_or("memory")?;
    let steps = steps_for(alloc, [1, 0, 9, 9, 9, 9, 9, 9], (0, 7), &mut scratch)?;
    assert!(rt; steps.len() == 1);
    let steps = steps_for(alloc, [1, 0, 9, 9, 9, 9, 9, 9], (0, 1), &mut scratch)?;
    assert!(rt; steps.len() == 0);
    Ok(())
}
