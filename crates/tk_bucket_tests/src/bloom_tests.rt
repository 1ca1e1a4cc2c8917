ghost use Rattle.std.specs.Prelude.{◌≡◌, ◌<◌, length};

use tk_bloom::{Memory, Window};

#[test]
fn the_oldest_push_leaves(rt: HostRuntime) -> Result<(), Memory> {
    let mut window = Window::open(rt.alloc(), 8, 2, 2)?;
    window.push(&[1, 5]);
    window.push(&[5, 6]);
    window.push(&[6, 0]);
    let filter = window.filter(rt.alloc())?;
    assert!(rt; filter.shows(&[5, 6, 0]));
    for gone in [1, 2, 3, 4, 7, 8] {
        assert!(rt; !filter.shows(&[gone]));
    }
    assert!(rt; !filter.shows(&[5, 1]));
    assert!(rt; filter.shows(&[]));
    Ok(())
}

#[test]
fn a_position_pushed_twice_leaves_with_the_second_push(rt: HostRuntime) -> Result<(), Memory> {
    let mut window = Window::open(rt.alloc(), 64, 1, 2)?;
    window.push(&[5]);
    window.push(&[5]);
    window.push(&[7]);
    let filter = window.filter(rt.alloc())?;
    assert!(rt; filter.shows(&[5]) && filter.shows(&[7]));
    window.push(&[9]);
    let filter = window.filter(rt.alloc())?;
    assert!(rt; filter.shows(&[7]) && filter.shows(&[9]));
    assert!(rt; !filter.shows(&[5]));
    Ok(())
}

#[test]
fn a_filter_stays(rt: HostRuntime) -> Result<(), Memory> {
    let mut window = Window::open(rt.alloc(), 64, 1, 1)?;
    let none = window.filter(rt.alloc())?;
    window.push(&[63]);
    let first = window.filter(rt.alloc())?;
    window.push(&[62]);
    let second = window.filter(rt.alloc())?;
    assert!(rt; !none.shows(&[63]));
    assert!(rt; first.shows(&[63]));
    assert!(rt; !first.shows(&[62]));
    assert!(rt; second.shows(&[62]));
    assert!(rt; !second.shows(&[63]));
    Ok(())
}

#[test]
fn a_position_of_two_pushes_stays_with_one(rt: HostRuntime) -> Result<(), Memory> {
    // the last position of a push is also the first of the next
    let mut window = Window::open(rt.alloc(), 65536, 4, 3)?;
    window.push(&[0, 1, 1, 3]);
    window.push(&[3, 4, 4, 6]);
    window.push(&[6, 7, 7, 9]);
    window.push(&[9, 10, 10, 12]);
    window.push(&[12, 13, 13, 15]);
    let filter = window.filter(rt.alloc())?;
    for position in [6, 7, 9, 10, 12, 13, 15] {
        assert!(rt; filter.shows(&[position]));
    }
    for position in [0, 1, 3, 4, 5, 8, 11, 14, 65535] {
        assert!(rt; !filter.shows(&[position]));
    }
    Ok(())
}

/// Pushes one position into a window that keeps the last three pushes.
fn push(window: &mut Window, hit: u32)
    requires hits { window.old.hits ≡ 1 }
    requires bits { window.old.bits ≡ 64 }
    requires retained { window.old.retained ≡ 3 }
    requires full { length window.old.pushes ≡ 3 }
    requires in_range { hit < 64 }
    ensures hits { window.new.hits ≡ 1 }
    ensures bits { window.new.bits ≡ 64 }
    ensures retained { window.new.retained ≡ 3 }
    ensures full { length window.new.pushes ≡ 3 }
{
    window.push(&[hit]);
}

/// Whether the three pushes that a window keeps have these positions.
fn keeps(window: &Window, hits: [u32; 3]) -> bool
    requires { length window.now.pushes ≡ 3 }
{
    let [oldest, middle, newest] = hits;
    window.hits_at(0) == [oldest].as_slice()
        && window.hits_at(1) == [middle].as_slice()
        && window.hits_at(2) == [newest].as_slice()
}

#[test]
fn a_restored_window_expires_and_moves_down(rt: HostRuntime) -> Result<(), Memory> {
    let mut window = Window::restore(rt.alloc(), 64, 1, 3, &[5, 9, 5])?;
    let mut last = [5, 9, 5];
    assert!(rt; keeps(&window, last));
    // the run has seven positions at most, so it moves down several times
    for hit in 20..32 {
        push(&mut window, hit);
        last = [last[1], last[2], hit];
        assert!(rt; keeps(&window, last), "push {hit}");
    }
    let filter = window.filter(rt.alloc())?;
    assert!(rt; filter.shows(&[29, 30, 31]));
    for gone in [5, 9, 28] {
        assert!(rt; !filter.shows(&[gone]));
    }
    Ok(())
}

#[test]
fn a_restored_window_fills_up(rt: HostRuntime) -> Result<(), Memory> {
    let mut window = Window::restore(rt.alloc(), 64, 2, 2, &[1, 5])?;
    window.push(&[5, 6]);
    assert!(rt; window.filter(rt.alloc())?.shows(&[1, 5, 6]));
    window.push(&[6, 0]);
    let filter = window.filter(rt.alloc())?;
    assert!(rt; filter.shows(&[0, 5, 6]) && !filter.shows(&[1]));
    let empty = Window::restore(rt.alloc(), 64, 2, 2, &[])?;
    assert!(rt; !empty.filter(rt.alloc())?.shows(&[0]));
    Ok(())
}
