ghost use Rattle.std.specs.Prelude.{◌≡◌, All, IfSome};
ghost use Rattle.std.specs.Thread.{IsSync};

use std::alloc::Global;
use std::sync::{Arc, Wait};
use std::test::Fail;
use std::thread::{Threads, join_mut};
use tk_board::{Listed, Memory, Publisher, Reader, open};

/// What is shown.
#[derive(Clone, Copy)]
struct Number {
    value: u64,
}

/// Numbers up to 2.
impl Listed for Number {
    ghost use Rattle.std.specs.Prelude.{◌≤◌};

    ghost fits = { λ _ n. n.value ≤ 2 };
}

/// A reader, the value that it looked at last, and whether it ever went back.
#[derive(Drop)]
struct Watcher {
    reader: Reader<Arc<Number>>,
    last: u64,
    fell: bool,
}

impl Watcher {
    fn of(reader: Reader<Arc<Number>>) -> Watcher
        ensures { result.reader ≡ reader }
    {
        Watcher {
            reader,
            last: 0,
            fell: false,
        }
    }

    fn look(&mut self) -> Result<u64, Memory>
        ensures { self.new.reader.board ≡ self.old.reader.board }
    {
        let value = self.reader.look()?.value;
        self.fell = self.fell || value < self.last;
        self.last = value;
        Ok(value)
    }
}

/// Two readers of a board.
#[derive(Drop)]
struct Pair {
    one: Watcher,
    two: Watcher,
}

fn pair_of(publisher: &Publisher<Arc<Number>>, readers: Vec<Reader<Arc<Number>>>) -> Option<Pair>
    requires { All (λ k. k ≡ publisher.now) readers.items }
    ensures { IfSome result (λ p. (p.one.reader.board ≡ publisher.now.board)
        × (p.two.reader.board ≡ publisher.now.board)) }
{
    let _ = publisher;
    let mut readers = readers;
    let two = Watcher::of(readers.pop()?);
    let one = Watcher::of(readers.pop()?);
    Some(Pair { one, two })
}

/// Closes the board with both readers.
fn close<R: Wait + AllocGlobal>(
    rt: &R,
    publisher: Publisher<Arc<Number>>,
    pair: Option<Pair>,
) -> Result<(), Memory>
    requires { IfSome pair (λ p. (p.one.reader.board ≡ publisher.board)
        × (p.two.reader.board ≡ publisher.board)) }
{
    let mut readers = Vec::new(rt.alloc());
    let mut kept = true;
    if let Some(Pair { one, two }) = pair {
        kept = readers.push(one.reader).is_ok();
        kept = readers.push(two.reader).is_ok() && kept;
    }
    publisher.close(rt, readers)?;
    if kept { Ok(()) } else { Err(Memory) }
}

/// Both look at what was shown first. The publisher shows 1, of which the first is told, and then
/// 2, of which none is.
fn in_turn<R: Wait + AllocGlobal>(
    rt: &R,
    publisher: &mut Publisher<Arc<Number>>,
    pair: &mut Pair,
) -> Result<[u64; 5], Memory>
    requires { (pair.old.one.reader.board ≡ publisher.old.board)
        × (pair.old.two.reader.board ≡ publisher.old.board) }
    ensures publisher { publisher.new.board ≡ publisher.old.board }
    ensures pair { (pair.new.one.reader.board ≡ pair.old.one.reader.board)
        × (pair.new.two.reader.board ≡ pair.old.two.reader.board) }
{
    let alloc = rt.alloc();
    let firsts = (pair.one.look()?, pair.two.look()?);
    let mut told = publisher.show(rt, Arc::new(alloc, Number { value: 1 })?)?;
    pair.one.reader.learn(&mut told)?;
    let second = pair.one.look()?;
    let said = told.value().value;
    told.fits();
    let _told = publisher.show(rt, Arc::new(alloc, Number { value: 2 })?)?;
    let third = pair.two.look()?;
    pair.two.reader.fits();
    Ok([firsts.0, firsts.1, second, said, third])
}

#[test]
fn what_is_shown_is_looked_at(rt: HostRuntime) -> Result<(), Fail> {
    let first = Arc::new(rt.alloc(), Number { value: 0 })?;
    let (mut publisher, readers) = open(&rt, first, 2).ok().ok_or("open")?;
    publisher.fits();
    let mut pair = pair_of(&publisher, readers);
    let seen = match &mut pair {
        Some(pair) => in_turn(&rt, &mut publisher, pair),
        None => Err(Memory),
    };
    let closed = close(&rt, publisher, pair);
    assert!(rt; seen.ok().ok_or("seen")? == [0, 0, 1, 1, 2]);
    assert!(rt; closed.is_ok());
    Ok(())
}

/// What acts in a thread of its own.
trait Actor: Send {
    // Of the actor before and the actor after.
    ghost did: { Self → Self → Type 0 };

    fn act<R: Threads + Wait + AllocGlobal + Sync>(&mut self, rt: &R)
        ensures { did self.old self.new };
}

/// Both act at once.
fn both<P: Actor, A: Actor, R: Threads + Wait + AllocGlobal + Sync>(
    rt: &R,
    first: &mut P,
    second: &mut A,
)
    ensures first { P.did first.old first.new }
    ensures second { A.did second.old second.new }
{
    join_mut(
        rt,
        &mut ||
            requires { IsSync R.row }
            ensures { P.did first.entry.now first.exit.now }
        { first.act(rt) },
        &mut ||
            requires { IsSync R.row }
            ensures { A.did second.entry.now second.exit.now }
        { second.act(rt) },
    );
}

/// All three act at once.
fn all_three<P: Actor, A: Actor, B: Actor, R: Threads + Wait + AllocGlobal + Sync>(
    rt: &R,
    first: &mut P,
    second: &mut A,
    third: &mut B,
)
    ensures first { P.did first.old first.new }
    ensures second { A.did second.old second.new }
    ensures third { B.did third.old third.new }
{
    join_mut(
        rt,
        &mut ||
            requires { IsSync R.row }
            ensures { P.did first.entry.now first.exit.now }
        { first.act(rt) },
        &mut ||
            requires { IsSync R.row }
            ensures { A.did second.entry.now second.exit.now × B.did third.entry.now third.exit.now }
        { both(rt, second, third) },
    );
}

/// Looks twice.
impl Actor for Watcher {
    ghost use Rattle.std.specs.Prelude.{◌≡◌};

    ghost did = { λ a b. b.reader.board ≡ a.reader.board };

    fn act<R: Threads + Wait + AllocGlobal + Sync>(&mut self, _rt: &R) {
        let _once = self.look();
        let _twice = self.look();
    }
}

/// A publisher that has shown 0.
struct Showing {
    publisher: Publisher<Arc<Number>>,
    alloc: Global,
    shown: bool,
}

/// Shows 1.
impl Actor for Showing {
    ghost use Rattle.std.specs.Prelude.{◌≡◌};

    ghost did = { λ a b. b.publisher.board ≡ a.publisher.board };

    fn act<R: Threads + Wait + AllocGlobal + Sync>(&mut self, rt: &R) {
        let Ok(one) = Arc::new(self.alloc, Number { value: 1 }) else {
            return;
        };
        self.shown = self.publisher.show(rt, one).is_ok();
    }
}

#[test]
fn readers_look_while_the_publisher_shows(rt: HostRuntime) -> Result<(), Fail> {
    let alloc = rt.alloc();
    let first = Arc::new(alloc, Number { value: 0 })?;
    let (publisher, readers) = open(&rt, first, 2).ok().ok_or("open")?;
    let mut pair = pair_of(&publisher, readers);
    let mut showing = Showing {
        publisher,
        alloc,
        shown: false,
    };
    let mut last = (Err(Memory), Err(Memory));
    if let Some(pair) = &mut pair {
        all_three(&rt, &mut showing, &mut pair.one, &mut pair.two);
        last = (pair.one.look(), pair.two.look());
    }
    let fell = match &pair {
        Some(pair) => pair.one.fell || pair.two.fell,
        None => true,
    };
    let Showing {
        publisher,
        alloc: _,
        shown,
    } = showing;
    let closed = close(&rt, publisher, pair);
    assert!(rt; shown && !fell && closed.is_ok());
    assert!(rt; last.0.ok().ok_or("one")? == 1);
    assert!(rt; last.1.ok().ok_or("two")? == 1);
    Ok(())
}
