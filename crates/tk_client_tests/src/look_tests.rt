//! A reader that found nothing looks again where something may be found.
ghost use Rattle.std.specs.Prelude.{◌≡◌, ◌<◌, IfOk};
ghost use Rattle.tk_shape.specs.Lengths.{turn_count};

use std::alloc::Global;
use tk_bloom::{Filter, Window};
use tk_client::Follower;
use tk_handle::Handle;
use tk_shape::{Memory, Shape};
use tk_words::{Draws, KeyedDraws, is_same_seed};

/// Two servers, sixteen buckets, one log and two turns, where two numbers are read ahead.
fn ahead() -> Result<Shape, Memory>
    ensures clients { IfOk result (λ s. s.clients ≡ 2) }
    ensures logs { IfOk result (λ s. s.logs ≡ 1) }
    ensures turns { IfOk result (λ s. turn_count s ≡ 2) }
{
    match Shape::of(1, [2, 16, 4, 4, 24, 64, 1, 2, 2, 2, 1, 1]) {
        Ok(shape) => Ok(shape),
        Err(_) => Err(Memory),
    }
}

/// A filter of 64 positions that has the first so many.
fn first_marked(alloc: Global, count: u32) -> Result<Filter, Memory> {
    let mut window = Window::open(alloc, 64, 1, 64)?;
    for hit in 0..64 {
        if hit < count {
            window.push(&[hit]);
        }
    }
    window.filter(alloc)
}

/// The vector that the first server would get for the first bucket.
fn asked<D: Draws>(
    alloc: Global,
    follower: &mut Follower,
    draws: &D,
    filter: &Filter,
) -> Result<Vec<u8>, Memory>
    requires one_shape { D.shape draws.now ≡ follower.old.shape }
    requires client_in { 0 < follower.old.shape.clients }
    requires turn_in { 0 < turn_count follower.old.shape }
    ensures same { follower.new ≡ follower.old }
{
    let frames = follower.read_frames(alloc, draws, 0, 0, 1, filter)?;
    let mut vector = Vec::new(alloc);
    for frame in frames.iter() {
        vector.extend_from_slice(frame.first.as_slice())?;
    }
    Ok(vector)
}

const SECRET: [u8; 32] = *b"abcdefghijklmnopqrstuvwxyz012345";

#[test]
fn looks_again_over_another_filter(rt: HostRuntime) -> Result<(), Memory> {
    let alloc = rt.alloc();
    let shape = ahead()?;
    let handles = vec![in alloc; Handle::from_root(7, &SECRET)]?;
    let draws = KeyedDraws::new(&shape, handles, vec![in alloc; [0; 32], SECRET]?);
    let none = first_marked(alloc, 0)?;
    let all = first_marked(alloc, 64)?;
    assert!(rt; !none.is_same(&all) && none.share()?.is_same(&none));
    let mut reader = Follower::open(alloc, &shape, &[0])?;
    let dummy = asked(alloc, &mut reader, &draws, &none)?;
    assert!(rt; asked(alloc, &mut reader, &draws, &none)? == dummy);
    let shown = asked(alloc, &mut reader, &draws, &all)?;
    let mut fresh = Follower::open(alloc, &shape, &[0])?;
    assert!(rt; shown != dummy && shown == asked(alloc, &mut fresh, &draws, &all)?);
    assert!(rt; asked(alloc, &mut reader, &draws, &none)? == dummy);
    assert!(rt; is_same_seed(&SECRET, &SECRET) && !is_same_seed(&SECRET, &[0; 32]));
    Ok(())
}
