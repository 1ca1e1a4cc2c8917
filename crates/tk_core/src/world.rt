ghost use Rattle.std.specs.Prelude.{◌≡◌, ◌*◌, ◌<◌, [], length, nat_lt, IfOk, OnOk, OnErr};
ghost use Rattle.std.specs.Prelude.{slice_index_or};
ghost use Rattle.tk_shape.specs.Lengths.{turn_count};
ghost use Rattle.tk_frames.specs.Order.{records};
ghost use Rattle.tk_frames.specs.InOrder.{mark_count};
ghost use Rattle.tk_core.specs.declared.event.Event.TheVariants as events;
ghost use Rattle.tk_core.specs.Machine.{new_machine, world_step, stays, replies_of, machine_after};
ghost use Rattle.tk_core.specs.World.{machine_of, IsWorld, MayCome, MayAllCome};

use crate::marks::mark_position;
use crate::replicas::{first_below, release_all};
use crate::{Event, Reply};
use std::alloc::Global;
use std::marker::Model;
use tk_answer::Blocks;
use tk_frames::{Entry, Placed, WriteFrame};
use tk_replica::{Epoch, ReplicaState};
use tk_shape::{Bytes, Memory, Shape};

/// An order, a replica of each server, and the epoch that is shown.
#[derive(Drop)]
pub struct World {
    shape: Shape,
    order: Vec<Placed>,
    marks: u32,
    replicas: Vec<ReplicaState>,
    shown: u32,
}

impl Model for World {
    ghost use Rattle.std.specs.Prelude.{◌≡◌};
    ghost use Rattle.tk_frames.specs.InOrder.{mark_count};
    ghost use Rattle.tk_core.specs.World.{WorldView, IsWorld, world_with};

    ghost Value = { WorldView };

    ghost view = { λ w. world_with w.shape w.order.items w.replicas.items w.shown };

    ghost invariant = { λ w. IsWorld (world_with w.shape w.order.items w.replicas.items w.shown)
        × (w.marks ≡ mark_count w.order.items) };
}

impl World {
    /// No entries, and nothing shown but epoch 0.
    pub fn open(alloc: Global, shape: &Shape) -> Result<World, Memory>
        ensures shape { IfOk result (λ w. w.shape ≡ shape.now) }
        ensures machine { IfOk result (λ w. machine_of w ≡ new_machine shape.now) }
        ensures world { IfOk result IsWorld }
    {
        let mut replicas = Vec::new(alloc);
        for _ in 0..shape.servers {
            replicas.push(ReplicaState::open(alloc, shape)?)?;
        }
        Ok(World {
            shape: *shape,
            order: Vec::new(alloc),
            marks: 0,
            replicas,
            shown: 0,
        })
    }

    pub fn shape(&self) -> Shape
        ensures { result ≡ self.now.shape }
    {
        self.shape
    }

    /// Whether another write may come.
    pub fn takes_writes(&self) -> bool
        ensures { let most = self.now.shape.clients * turn_count self.now.shape in
            result ≡ nat_lt (length (records self.now.order)) most }
    {
        let writes = self.order.len() as u64 - u64::from(self.marks);
        writes < u64::from(self.shape.clients) * u64::from(self.shape.turns())
    }

    /// Whether another mark may come.
    pub fn takes_marks(&self) -> bool
        ensures { result ≡ nat_lt (mark_count self.now.order) self.now.shape.phases }
    {
        self.marks < self.shape.phases
    }

    /// What an event does, and the reply to it.
    pub fn step(&mut self, alloc: Global, event: Event) -> Result<Reply, Memory>
        requires { MayCome self.old.shape (machine_of self.old) event }
        ensures step { IfOk result (λ reply. stays (machine_of self.new) reply
            ≡ world_step self.old.shape (machine_of self.old) event) }
        ensures shape { self.new.shape ≡ self.old.shape }
        ensures kept { OnErr result (self.new ≡ self.old) }
        ensures world { IsWorld self.new }
    {
        let _shape = &self.shape;
        match event {
            Event::Put(frame) => self.put(frame),
            Event::Mark => self.mark(),
            Event::Apply(server) => self.apply(alloc, server),
            Event::Show => Ok(self.show()),
            Event::Read {
                server,
                first,
                second,
            } => self.read(alloc, server, first, second),
        }
    }

    /// What events do one after the other, and the replies to them.
    pub fn run(&mut self, alloc: Global, events: Vec<Event>) -> Result<Vec<Reply>, Memory>
        requires { MayAllCome self.old.shape (machine_of self.old) events.items }
        ensures replies { IfOk result (λ replies. replies.items
            ≡ replies_of self.old.shape (machine_of self.old) events.items) }
        ensures machine { OnOk result (machine_of self.new
            ≡ machine_after self.old.shape (machine_of self.old) events.items) }
        ensures shape { self.new.shape ≡ self.old.shape }
        ensures world { IsWorld self.new }
    {
        let _shape = &self.shape;
        let mut replies = Vec::new(alloc);
        for event in events {
            let reply = self.step(alloc, event)?;
            replies.push(reply)?;
        }
        Ok(replies)
    }

    /// A write gets the next position.
    fn put(&mut self, frame: WriteFrame) -> Result<Reply, Memory>
        requires { MayCome self.old.shape (machine_of self.old) (events.Put frame) }
        ensures step { IfOk result (λ reply. stays (machine_of self.new) reply
            ≡ world_step self.old.shape (machine_of self.old) (events.Put frame)) }
        ensures shape { self.new.shape ≡ self.old.shape }
        ensures kept { OnErr result (self.new ≡ self.old) }
        ensures world { IsWorld self.new }
    {
        let position = self.order.len() as u64 + 1;
        self.order.push(Placed {
            position,
            entry: Entry::Write(frame),
        })?;
        Ok(Reply::Placed(position))
    }

    /// The next mark gets the next position.
    fn mark(&mut self) -> Result<Reply, Memory>
        requires { MayCome self.old.shape (machine_of self.old) events.Mark }
        ensures step { IfOk result (λ reply. stays (machine_of self.new) reply
            ≡ world_step self.old.shape (machine_of self.old) events.Mark) }
        ensures shape { self.new.shape ≡ self.old.shape }
        ensures kept { OnErr result (self.new ≡ self.old) }
        ensures world { IsWorld self.new }
    {
        let position = self.order.len() as u64 + 1;
        let epoch = self.marks + 1;
        self.order.push(Placed {
            position,
            entry: Entry::Mark(epoch),
        })?;
        self.marks = epoch;
        Ok(Reply::Marked { position, epoch })
    }

    /// A server applies the next entry, if there is one.
    fn apply(&mut self, alloc: Global, server: u32) -> Result<Reply, Memory>
        requires { MayCome self.old.shape (machine_of self.old) (events.Apply server) }
        ensures step { IfOk result (λ reply. stays (machine_of self.new) reply
            ≡ world_step self.old.shape (machine_of self.old) (events.Apply server)) }
        ensures shape { self.new.shape ≡ self.old.shape }
        ensures kept { OnErr result (self.new ≡ self.old) }
        ensures world { IsWorld self.new }
    {
        let replica = &mut self.replicas[(server - 1) as usize];
        let applied = replica.applied();
        if applied >= self.order.len() as u64 {
            return Ok(Reply::UpToDate);
        }
        replica.apply(alloc, &self.order[applied as usize])?;
        Ok(Reply::Applied(applied + 1))
    }

    /// The next epoch is shown, if all servers have it. Those below the one before it are let go.
    fn show(&mut self) -> Reply
        ensures step { stays (machine_of self.new) result
            ≡ world_step self.old.shape (machine_of self.old) events.Show }
        ensures shape { self.new.shape ≡ self.old.shape }
        ensures world { IsWorld self.new }
    {
        let Some(position) = mark_position(&self.order, self.shown + 1) else {
            return Reply::NoMark;
        };
        match first_below(&self.replicas, position) {
            Some(j) => Reply::NotYet {
                server: j as u32 + 1,
                applied: self.replicas[j].applied(),
            },
            None => {
                release_all(&mut self.replicas, self.shown);
                self.shown += 1;
                Reply::Shown(self.shown)
            }
        }
    }

    /// Two buckets of a server in the epoch that is shown.
    fn read(&mut self, alloc: Global, server: u32, first: u32, second: u32) -> Result<Reply, Memory>
        requires { MayCome self.old.shape (machine_of self.old) (events.Read server first second) }
        ensures step { IfOk result (λ reply. stays (machine_of self.new) reply
            ≡ world_step self.old.shape (machine_of self.old) (events.Read server first second)) }
        ensures kept { self.new ≡ self.old }
        ensures world { IsWorld self.new }
    {
        let epoch = self.replicas[(server - 1) as usize].epoch(self.shown);
        Ok(Reply::Blocks {
            epoch: self.shown,
            first: block(alloc, epoch, first)?,
            second: block(alloc, epoch, second)?,
        })
    }
}

/// A block of an epoch.
fn block(alloc: Global, epoch: &Epoch, i: u32) -> Result<Bytes, Memory>
    requires { i < length epoch.now.blocks.blocks }
    ensures { IfOk result (λ bytes. bytes ≡ slice_index_or epoch.now.blocks.blocks i []) }
{
    let width = epoch.blocks().width() as usize;
    Ok(Bytes::from_slice(alloc, &epoch.blocks().run(i)[..width])?)
}
