//! Closures that write what they captured, two at a time.
ghost use Rattle.std.specs.Thread.{IsSync};

use std::sync::Wait;
use std::test::Fail;
use std::thread::Threads;
use tk_join::join_mut;

#[test]
fn each_writes_and_answers(rt: HostRuntime) -> Result<(), Fail> {
    let (mut one, mut two) = (0u32, 0u32);
    let (a, b) = join_mut(
        &rt,
        &mut || {
            one = 7;
            1u8
        },
        &mut || {
            two = 9;
            2u8
        },
    );
    assert!(rt; (a, b, one, two) == (1, 2, 7, 9));
    Ok(())
}

/// Adds one to each, in a thread of its own, and counts them.
fn raise_all<R: Threads + Wait + Sync>(rt: &R, all: &mut [u8]) -> usize {
    if all.len() < 2 {
        if let Some(x) = all.first_mut() {
            *x = x.wrapping_add(1);
        }
        return all.len();
    }
    let (front, back) = all.split_at_mut(all.len() / 2);
    let (a, b) = join_mut(
        rt,
        &mut || -> usize
            requires { IsSync R.row }
        { raise_all(rt, front) },
        &mut || -> usize
            requires { IsSync R.row }
        { raise_all(rt, back) },
    );
    a.wrapping_add(b)
}

#[test]
fn as_many_as_a_turn_has(rt: HostRuntime) -> Result<(), Fail> {
    let mut all = [3; 65];
    assert!(rt; raise_all(&rt, &mut all) == 65);
    assert!(rt; all == [4; 65]);
    Ok(())
}
