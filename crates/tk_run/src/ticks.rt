ghost use Rattle.std.specs.Prelude.{◌≡◌, true, length};
ghost use Rattle.std.specs.Thread.{IsSync};
ghost use Rattle.tk_run.specs.Ticks.{AllBy, Done};

use std::alloc::AllocGlobal;
use std::sync::Wait;
use std::thread::Threads;
use tk_join::join_mut;

/// What acts once in a turn, and answers whether it could.
pub(crate) trait Actor<X: Sync>: Send {
    ghost use Rattle.std.specs.Prelude.{◌≡◌, true};

    /// Whether it may act.
    ghost ready: { X → Self → Type 0 };

    /// Of what all share, the actor before and the actor after.
    ghost did: { X → Self → Self → Type 0 };

    fn act<R: Threads + Wait + Sync + AllocGlobal>(&mut self, rt: &R, shared: &X) -> bool
        requires { ready shared.now self.old }
        ensures { result ≡ true → did shared.now self.old self.new };
}

/// What acts once in a turn, with a desk of its own, and answers whether it could.
pub(crate) trait Clerk<X: Sync, D: Send + Drop>: Send + Drop {
    ghost use Rattle.std.specs.Prelude.{◌≡◌, true};

    /// Whether it may act.
    ghost able: { X → Self → Type 0 };

    /// Whether this may lie on its desk.
    ghost fits: { X → D → Type 0 };

    /// Of what all share, the actor before, its desk before and after, and the actor after.
    ghost made: { X → Self → D → D → Self → Type 0 };

    fn serve<R: Threads + Wait + Sync>(&mut self, rt: &R, shared: &X, desk: &mut D) -> bool
        requires able { able shared.now self.old }
        requires fits { fits shared.now desk.old }
        ensures { result ≡ true → made shared.now self.old desk.old desk.new self.new };
}

/// Each of them acts once, in threads of their own.
pub(crate) fn serve_all<X: Sync, D: Send + Drop, A: Clerk<X, D>, R: Threads + Wait + Sync>(
    rt: &R,
    shared: &X,
    actors: &mut [A],
    desks: &mut [D],
) -> bool
    requires able { AllBy (A.able shared.now) actors.old }
    requires fits { AllBy (A.fits shared.now) desks.old }
    requires counted { length desks.old ≡ length actors.old }
    ensures { result ≡ true
        → Done (A.made shared.now) actors.old desks.old desks.new actors.new }
{
    if actors.len() == 0 {
        return true;
    }
    if actors.len() == 1 {
        return actors[0].serve(rt, shared, &mut desks[0]);
    }
    let half = actors.len() / 2;
    let (front, back) = actors.split_at_mut(half);
    let (left, right) = desks.split_at_mut(half);
    let (one, two) = join_mut(
        rt,
        &mut || -> bool
            requires { IsSync R.row × IsSync X.row × AllBy (A.able shared.now) front.now
                × AllBy (A.fits shared.now) left.now × (length left.now ≡ length front.now) }
            ensures { result ≡ true → Done (A.made shared.entry.now)
                front.entry.now left.entry.now left.exit.now front.exit.now }
        { serve_all(rt, shared, front, left) },
        &mut || -> bool
            requires { IsSync R.row × IsSync X.row × AllBy (A.able shared.now) back.now
                × AllBy (A.fits shared.now) right.now × (length right.now ≡ length back.now) }
            ensures { result ≡ true → Done (A.made shared.entry.now)
                back.entry.now right.entry.now right.exit.now back.exit.now }
        { serve_all(rt, shared, back, right) },
    );
    one & two
}

/// One more acts beside them.
pub(crate) fn serve_with<
    X: Sync,
    D: Send + Drop,
    P: Actor<X>,
    A: Clerk<X, D>,
    R: Threads + Wait + Sync + AllocGlobal,
>(rt: &R, shared: &X, first: &mut P, actors: &mut [A], desks: &mut [D]) -> bool
    requires first { P.ready shared.now first.old }
    requires able { AllBy (A.able shared.now) actors.old }
    requires fits { AllBy (A.fits shared.now) desks.old }
    requires counted { length desks.old ≡ length actors.old }
    ensures first { result ≡ true → P.did shared.now first.old first.new }
    ensures each { result ≡ true
        → Done (A.made shared.now) actors.old desks.old desks.new actors.new }
{
    let (one, two) = join_mut(
        rt,
        &mut || -> bool
            requires { IsSync R.row × IsSync X.row × P.ready shared.now first.now }
            ensures { result ≡ true → P.did shared.entry.now first.entry.now first.exit.now }
        { first.act(rt, shared) },
        &mut || -> bool
            requires { IsSync R.row × IsSync X.row × AllBy (A.able shared.now) actors.now
                × AllBy (A.fits shared.now) desks.now × (length desks.now ≡ length actors.now) }
            ensures { result ≡ true → Done (A.made shared.entry.now)
                actors.entry.now desks.entry.now desks.exit.now actors.exit.now }
        { serve_all(rt, shared, actors, desks) },
    );
    one & two
}
