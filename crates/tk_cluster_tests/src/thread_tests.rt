//! Two clients and the publisher, each in a thread of its own, over two phases.
ghost use Rattle.std.specs.Prelude.{◌≡◌, ◌+◌, ◌<◌, All, length, IfSome};
ghost use Rattle.std.specs.Thread.{IsSync};
ghost use Rattle.tk_cluster.specs.Clusters.{Each};
ghost use Rattle.tk_cluster.specs.Closings.{AllOnce};
ghost use Rattle.tk_cluster.specs.Passes.{Stays};

use crate::testing::{Desk, blank, write};
use std::marker::Brand;
use std::process::Abort;
use std::sync::Wait;
use std::test::Fail;
use std::thread::{Threads, join_mut};
use tk_cluster::{Closed, Pass, Publisher, Told};
use tk_frames::Entry;
use tk_order::{Blank, Naming};

/// What a client's calls answered in a turn: the position of its write, and the number of the set
/// that it pinned.
#[derive(Clone, Copy)]
struct Note {
    position: u64,
    epoch: u32,
}

/// What acts in a thread of its own.
trait Actor<X: Sync>: Send {
    // Of the actor before and the actor after.
    ghost did: { Self → Self → Type 0 };

    fn act<R: Threads + Wait + AllocGlobal + Sync>(&mut self, rt: &R, shared: &X) -> Option<Note>
        ensures { did self.old self.new };
}

/// Both act at once.
fn both<X: Sync, P: Actor<X>, A: Actor<X>, R: Threads + Wait + AllocGlobal + Sync>(
    rt: &R,
    shared: &X,
    first: &mut P,
    second: &mut A,
) -> (Option<Note>, Option<Note>)
    ensures first { P.did first.old first.new }
    ensures second { A.did second.old second.new }
{
    join_mut(
        rt,
        &mut || -> Option<Note>
            requires { IsSync R.row × IsSync X.row }
            ensures { P.did first.entry.now first.exit.now }
        { first.act(rt, shared) },
        &mut || -> Option<Note>
            requires { IsSync R.row × IsSync X.row }
            ensures { A.did second.entry.now second.exit.now }
        { second.act(rt, shared) },
    )
}

/// All three act at once.
fn all_three<X: Sync, H: Actor<X>, P: Actor<X>, R: Threads + Wait + AllocGlobal + Sync>(
    rt: &R,
    shared: &X,
    herald: &mut H,
    first: &mut P,
    second: &mut P,
) -> Option<[Note; 2]>
    ensures herald { H.did herald.old herald.new }
    ensures first { P.did first.old first.new }
    ensures second { P.did second.old second.new }
{
    let (_told, (one, two)) = join_mut(
        rt,
        &mut || -> Option<Note>
            requires { IsSync R.row × IsSync X.row }
            ensures { H.did herald.entry.now herald.exit.now }
        { herald.act(rt, shared) },
        &mut || -> (Option<Note>, Option<Note>)
            requires { IsSync R.row × IsSync X.row }
            ensures { P.did first.entry.now first.exit.now
                × P.did second.entry.now second.exit.now }
        { both(rt, shared, first, second) },
    );
    Some([one?, two?])
}

/// Writes, and then pins.
impl<B: Naming + Send + Sync> Actor<Desk<B>> for Pass<B> {
    ghost use Rattle.tk_cluster.specs.Passes.{Stays};

    ghost did = { λ a b. Stays a b };

    fn act<R: Threads + Wait + AllocGlobal + Sync>(
        &mut self,
        rt: &R,
        desk: &Desk<B>,
    ) -> Option<Note> {
        let frame = write(desk.alloc, self.client(), self.ordered())?;
        let position = desk.write(rt, self, frame.as_slice())?.ok()?;
        let most = self.ordered();
        let set = desk.pin(self, most)?;
        Some(Note {
            position,
            epoch: set.number(),
        })
    }
}

/// The publisher, with what it told in this turn.
struct Herald<B: Naming> {
    publisher: Publisher<B>,
    told: Option<Told>,
}

/// Publishes.
impl<B: Naming + Send + Sync> Actor<Desk<B>> for Herald<B> {
    ghost use Rattle.std.specs.Prelude.{◌≡◌, IfSome};

    ghost did = { λ h k. (k.publisher.board ≡ h.publisher.board)
        × IfSome k.told (λ t. t.board ≡ h.publisher.board) };

    fn act<R: Threads + Wait + AllocGlobal + Sync>(
        &mut self,
        rt: &R,
        desk: &Desk<B>,
    ) -> Option<Note> {
        self.told = desk.publish(rt, &mut self.publisher);
        None
    }
}

/// Both clients write and pin while the publisher publishes.
#[tactic(auto, using(tk_cluster::proofs::Offers::each_self, crate::proofs::TwoPasses::each_two))]
fn at_once<B: Naming + Send + Sync, R: Threads + Wait + AllocGlobal + Sync>(
    rt: &R,
    desk: &Desk<B>,
    herald: &mut Herald<B>,
    passes: &mut [Pass<B>],
) -> Option<[Note; 2]>
    ensures passes { Each Stays passes.old passes.new }
    ensures board { herald.new.publisher.board ≡ herald.old.publisher.board }
    ensures told { IfSome result (λ _. IfSome herald.new.told
        (λ t. t.board ≡ herald.old.publisher.board)) }
{
    let (first, rest) = passes.split_first_mut()?;
    let (second, _) = rest.split_first_mut()?;
    all_three(rt, desk, herald, first, second)
}

/// Both passes take in what was told, if there are two.
#[tactic(auto, using(tk_cluster::proofs::Offers::each_self, crate::proofs::TwoPasses::each_two))]
fn told_two<B: Naming>(desk: &Desk<B>, told: &mut Told, passes: &mut [Pass<B>]) -> Option<bool>
    requires { All (λ a. a.reads.board ≡ told.old.board) passes.old }
    ensures { Each Stays passes.old passes.new }
{
    let (first, rest) = passes.split_first_mut()?;
    let (second, _) = rest.split_first_mut()?;
    Some(desk.learn_both(told, first, second))
}

/// Whether both passes could take in what was told.
fn told_both<B: Naming>(desk: &Desk<B>, told: &mut Told, passes: &mut [Pass<B>]) -> bool
    requires { All (λ a. a.reads.board ≡ told.old.board) passes.old }
    ensures { Each Stays passes.old passes.new }
{
    told_two(desk, told, passes).unwrap_or(false)
}

/// All have seen one list.
fn met<B: Naming>(desk: &Desk<B>, herald: &mut Herald<B>, passes: &mut [Pass<B>]) -> bool
    ensures passes { Each Stays passes.old passes.new }
    ensures board { herald.new.publisher.board ≡ herald.old.publisher.board }
{
    desk.cluster.meet(passes, &mut herald.publisher).is_ok()
}

/// One phase: all act at once, each pass takes in what was told, and all meet.
fn phase<B: Naming + Send + Sync, R: Threads + Wait + AllocGlobal + Sync>(
    rt: &R,
    desk: &Desk<B>,
    herald: &mut Herald<B>,
    passes: &mut [Pass<B>],
) -> Option<[Note; 2]>
    requires { AllOnce B.shape herald.old.publisher.board passes.old }
    ensures { AllOnce B.shape herald.new.publisher.board passes.new }
{
    let notes = at_once(rt, desk, herald, passes)?;
    let Some(mut told) = herald.told.take() else {
        return None;
    };
    if !told_both(desk, &mut told, passes) {
        return None;
    }
    if !met(desk, herald, passes) {
        return None;
    }
    Some(notes)
}

/// Two phases.
fn phases<B: Naming + Send + Sync, R: Threads + Wait + AllocGlobal + Sync>(
    rt: &R,
    desk: &Desk<B>,
    herald: &mut Herald<B>,
    passes: &mut [Pass<B>],
) -> Option<([Note; 2], [Note; 2])>
    requires { AllOnce B.shape herald.old.publisher.board passes.old }
    ensures { AllOnce B.shape herald.new.publisher.board passes.new }
{
    let first = phase(rt, desk, herald, passes)?;
    let second = phase(rt, desk, herald, passes)?;
    Some((first, second))
}

/// Closes the cluster with all passes.
#[tactic(auto, using(tk_cluster::proofs::Offers::ends_counted))]
fn closed<B: Naming, R: Wait + AllocGlobal>(
    rt: &R,
    desk: Desk<B>,
    herald: Herald<B>,
    passes: Vec<Pass<B>>,
) -> Option<Closed>
    requires { AllOnce B.shape herald.publisher.board passes.items }
    ensures { IfSome result (λ c. length c.epochs ≡ B.shape.clients) }
{
    let Desk {
        cluster,
        shape: _,
        alloc: _,
    } = desk;
    let Herald {
        publisher,
        told: _told,
    } = herald;
    let Ok(closed) = cluster.close(rt, passes, publisher) else {
        return None;
    };
    Some(closed)
}

/// Whether the order has a client's write of a turn at a position.
fn has_write(closed: &Closed, client: u32, turn: u32, position: u64) -> bool {
    for placed in closed.order().as_slice() {
        if placed.position == position {
            return match &placed.entry {
                Entry::Write(write) => write.client == client && write.turn == turn,
                Entry::Mark(_) => false,
            };
        }
    }
    false
}

/// The positions of the marks of an order, by number.
fn marks(closed: &Closed) -> [u64; 2] {
    let mut marks = [0; 2];
    for placed in closed.order().as_slice() {
        match placed.entry {
            Entry::Mark(1) => marks[0] = placed.position,
            Entry::Mark(2) => marks[1] = placed.position,
            _ => {}
        }
    }
    marks
}

/// Whether the order and the epochs of a client are what its calls answered in both turns.
fn agrees(closed: &Closed, client: u32, notes: [Note; 2]) -> bool
    requires { client < length closed.now.epochs }
{
    has_write(closed, client, 0, notes[0].position)
        && has_write(closed, client, 1, notes[1].position)
        && closed.epochs(client) == [notes[0].epoch, notes[1].epoch].as_slice()
}

/// Whether these are the positions of six entries, three in each turn.
fn places(one: [Note; 2], two: [Note; 2], marks: [u64; 2]) -> bool {
    let mut first = [one[0].position, two[0].position, marks[0]];
    let mut second = [one[1].position, two[1].position, marks[1]];
    first.sort_unstable();
    second.sort_unstable();
    first == [1, 2, 3] && second == [4, 5, 6]
}

fn two_phases<B: Naming + Send + Sync, R: Threads + Wait + AllocGlobal + Sync + Abort>(
    rt: &R,
    blank: Blank,
) -> Result<(), Fail>
    requires table { blank.table ≡ B.table }
    requires shape { blank.shape ≡ B.shape }
    requires seats { blank.seats ≡ B.shape.clients + 1 }
{
    let Ok((desk, publisher, mut passes)) = Desk::<B>::open(rt, blank) else {
        assert!(rt; false);
        return Ok(());
    };
    let clients = desk.shape.clients;
    let mut herald = Herald {
        publisher,
        told: None,
    };
    let notes = phases(rt, &desk, &mut herald, passes.as_mut_slice());
    herald.publisher.stands();
    let closed = closed(rt, desk, herald, passes).ok_or("close")?;
    let (first, second) = notes.ok_or("notes")?;
    let (one, two) = ([first[0], second[0]], [first[1], second[1]]);
    assert!(rt; clients == 2);
    assert!(rt; places(one, two, marks(&closed)));
    assert!(rt; agrees(&closed, 0, one) && agrees(&closed, 1, two));
    Ok(())
}

#[test]
fn what_was_answered_stands_in_what_was_closed(rt: HostRuntime) -> Result<(), Fail> {
    let Some(blank) = blank(rt.alloc(), 4) else {
        assert!(rt; false);
        return Ok(());
    };
    two_phases::<Brand, _>(&rt, blank)
}
