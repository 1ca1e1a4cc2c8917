ghost use Rattle.std.specs.Prelude.{◌≡◌};

use crate::both::{Task, run_both};
use std::sync::Wait;
use std::thread::Threads;

/// Calls `f` in a thread of its own, or last in this one where none can be made, and `g` in this one. It says of both
/// what `thread::join_mut` of the library says, but its thread has a small stack, which costs less to make.
pub fn join_mut<R: Threads + Wait, F: FnMut() -> A + Send, G: FnMut() -> B, A: Send + Drop, B>(
    rt: &R,
    f: &mut F,
    g: &mut G,
) -> (A, B)
    requires { F.pre f.old × G.pre g.old }
    ensures { F.step f.old result.0 f.new × G.step g.old result.1 g.new }
{
    let ((f, a), (g, b)) = run_both(rt, Lent { f }, Lent { f: g });
    take_back(f);
    take_back(g);
    (a, b)
}

/// A closure that is lent, and given back with what it returned.
#[derive(Drop)]
struct Lent<'a, F> {
    f: &'a mut F,
}

impl<'a, F: FnMut() -> A, A> Task for Lent<'a, F> {
    ghost use Rattle.std.specs.Prelude.{◌≡◌};

    type Output = (&'a mut F, A);

    ghost can_run = { λ t. F.pre t.f.now };

    ghost run_gives = { λ t r. (r.0.ghost_name ≡ t.f.ghost_name) × F.step t.f.now r.1 r.0.now };

    fn run(self) -> (&'a mut F, A) {
        let Lent { f } = self;
        let a = f();
        (f, a)
    }
}

/// Does nothing, but ties a closure that came back to the one that was lent.
fn take_back<T>(x: &mut T)
    ensures { x.new ≡ x.old }
{}
