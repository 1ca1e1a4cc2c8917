ghost use Rattle.std.specs.Prelude.{◌≡◌, ◌<◌, ◌≤◌, ℕ, List, All, length, IfOk};
ghost use Rattle.std.specs.Thread.{IsSync};
ghost use Rattle.tk_frames.specs.declared.entry.Placed.{Placed};
ghost use Rattle.std.specs.Arc.{arc_value};
ghost use Rattle.tk_frames.specs.InOrder.{mark_count};
ghost use Rattle.tk_replica.specs.declared.epoch.Epoch.{Epoch};
ghost use Rattle.tk_replica.specs.Epochs.{IsEpochOf};
ghost use Rattle.tk_replica.specs.Following.{marks_among, IsEpochAt};
ghost use Rattle.tk_cluster.specs.Sets.{StandsAtMark};

use crate::{Cluster, EpochSet};
use std::alloc::{AllocGlobal, Global};
use std::sync::{Arc, Wait};
use std::thread;
use std::thread::Threads;
use tk_order::{Naming, Order, OrderSeat};
use tk_replica::{Epoch, Replica};
use tk_shape::{Memory, Shape};

impl EpochSet {
    /// The set of epochs that servers have kept, one for each server in their order, where no cluster makes it.
    pub fn of(shape: &Shape, number: u32, epochs: Vec<Arc<Epoch>>) -> EpochSet
        requires counted { length epochs.items ≡ shape.now.servers }
        requires one_shape { All (λ a. (arc_value {X = Epoch} a).shape ≡ shape.now) epochs.items }
        ensures shape { result.shape ≡ shape.now }
        ensures number { result.number ≡ number }
        ensures stands { (E : List Placed) → number ≤ mark_count E
            → All (λ a. IsEpochOf shape.now E number (arc_value a)) epochs.items
            → StandsAtMark shape.now E number result }
    {
        EpochSet {
            shape: *shape,
            number,
            epochs,
        }
    }
}

impl<B: Naming> Cluster<B> {
    /// The set of the last mark among the first entries of the seat's list. Each server applies at
    /// least so many.
    pub(crate) fn set<R: Wait + AllocGlobal>(
        &self,
        rt: &R,
        seat: &mut OrderSeat<B>,
        number: u32,
        upto: u64,
    ) -> Result<Arc<EpochSet>, Memory>
        requires within { upto ≤ length seat.old.seen }
        requires among { marks_among upto seat.old.seen ≡ number }
        requires marked { number ≤ mark_count seat.old.seen }
        ensures same { seat.new ≡ seat.old }
        ensures stands { IfOk result (λ s. StandsAtMark B.shape seat.old.seen number (arc_value s)) }
    {
        let epochs = self.epochs(rt, seat, upto)?;
        let set = EpochSet {
            shape: self.shape,
            number,
            epochs,
        };
        Ok(Arc::new(rt.alloc(), set)?)
    }

    /// The epoch of the last mark among the first entries of the seat's list, of each server.
    fn epochs<R: Wait + AllocGlobal>(
        &self,
        rt: &R,
        seat: &mut OrderSeat<B>,
        upto: u64,
    ) -> Result<Vec<Arc<Epoch>>, Memory>
        requires { upto ≤ length seat.old.seen }
        ensures same { seat.new ≡ seat.old }
        ensures counted { IfOk result (λ v. length v.items ≡ self.now.shape.servers) }
        ensures each { IfOk result
            (λ v. All (λ a. IsEpochAt B.shape seat.old.seen upto (arc_value a)) v.items) }
    {
        let mut epochs = Vec::new(rt.alloc());
        for replica in self.replicas.as_slice() {
            epochs.push(replica.advance(rt, &self.order, seat, upto)?)?;
        }
        Ok(epochs)
    }

    /// Each server lets the epochs below the number go.
    pub(crate) fn release<R: Wait>(&self, rt: &R, number: u32) {
        for replica in self.replicas.as_slice() {
            replica.release(rt, number);
        }
    }
}

impl<B: Naming + Send + Sync> Cluster<B> {
    /// The same set, where so many threads make the epochs of several servers at once.
    pub(crate) fn set_with<R: Threads + Wait + Sync + AllocGlobal>(
        &self,
        rt: &R,
        seat: &mut OrderSeat<B>,
        number: u32,
        upto: u64,
        workers: u32,
    ) -> Result<Arc<EpochSet>, Memory>
        requires within { upto ≤ length seat.old.seen }
        requires among { marks_among upto seat.old.seen ≡ number }
        requires marked { number ≤ mark_count seat.old.seen }
        requires workers { 1 ≤ workers }
        ensures same { seat.new ≡ seat.old }
        ensures stands { IfOk result (λ s. StandsAtMark B.shape seat.old.seen number (arc_value s)) }
    {
        let epochs = self.epochs_with(rt, seat, upto, workers)?;
        let set = EpochSet {
            shape: self.shape,
            number,
            epochs,
        };
        Ok(Arc::new(rt.alloc(), set)?)
    }

    /// The same epochs, made by so many threads.
    fn epochs_with<R: Threads + Wait + Sync + AllocGlobal>(
        &self,
        rt: &R,
        seat: &mut OrderSeat<B>,
        upto: u64,
        workers: u32,
    ) -> Result<Vec<Arc<Epoch>>, Memory>
        requires within { upto ≤ length seat.old.seen }
        requires workers { 1 ≤ workers }
        ensures same { seat.new ≡ seat.old }
        ensures counted { IfOk result (λ v. length v.items ≡ self.now.shape.servers) }
        ensures each { IfOk result
            (λ v. All (λ a. IsEpochAt B.shape seat.old.seen upto (arc_value a)) v.items) }
    {
        let mut errands = self.errands(rt.alloc(), seat)?;
        run_all(rt, self, errands.as_mut_slice(), upto, workers);
        epochs_brought(rt.alloc(), errands)
    }

    /// An errand for each server, which knows what the seat has seen.
    fn errands(&self, alloc: Global, seat: &mut OrderSeat<B>) -> Result<Vec<Errand<B>>, Memory>
        ensures same { seat.new ≡ seat.old }
        ensures counted { IfOk result (λ v. length v.items ≡ self.now.shape.servers) }
        ensures each { IfOk result (λ v. All (λ e. e.seat.seen ≡ seat.old.seen) v.items) }
    {
        let mut errands = Vec::new(alloc);
        for _replica in self.replicas.as_slice() {
            errands.push(Errand {
                seat: self.order.split(seat),
                epoch: Err(Memory),
            })?;
        }
        Ok(errands)
    }
}

/// To a server for its epoch, with a note of what is to be applied, and what was brought of it.
#[derive(Drop)]
struct Errand<B: Naming> {
    seat: OrderSeat<B>,
    epoch: Result<Arc<Epoch>, Memory>,
}

impl<B: Naming> Errand<B> {
    /// Brings the epoch of the last mark among the first entries.
    fn run<R: Wait>(&mut self, rt: &R, replica: &Replica<B>, order: &Order<B>, upto: u64)
        requires { upto ≤ length self.old.seat.seen }
        ensures { IfOk self.new.epoch
            (λ a. IsEpochAt B.shape self.old.seat.seen upto (arc_value a)) }
    {
        self.epoch = replica.advance(rt, order, &mut self.seat, upto);
    }
}

/// Each errand brings its server's epoch, several at once.
fn run_all<B: Naming + Send + Sync, R: Threads + Wait + Sync>(
    rt: &R,
    cluster: &Cluster<B>,
    errands: &mut [Errand<B>],
    upto: u64,
    workers: u32,
)
    requires workers { 1 ≤ workers }
    requires counted { length errands.old ≡ length cluster.now.replicas.items }
    requires within { All (λ e. upto ≤ length e.seat.seen) errands.old }
    ensures counted { length errands.new ≡ length errands.old }
    ensures each { (E : List Placed) → All (λ e. e.seat.seen ≡ E) errands.old
        → All (λ e. IfOk e.epoch (λ a. IsEpochAt B.shape E upto (arc_value a))) errands.new }
{
    let replicas = cluster.replicas.as_slice();
    let order = &cluster.order;
    let work = |server: usize, errand: &mut Errand<B>|
        requires { IsSync R.row × (server < length replicas.now)
            × (upto ≤ length errand.now.seat.seen) }
        ensures { IfOk errand.exit.now.epoch
            (λ a. IsEpochAt B.shape errand.entry.now.seat.seen upto (arc_value a)) }
    { errand.run(rt, &replicas[server], order, upto) };
    thread::for_each_mut(rt, errands, workers as usize, &work);
}

/// The epochs that all have brought.
fn epochs_brought<B: Naming>(
    alloc: Global,
    errands: Vec<Errand<B>>,
) -> Result<Vec<Arc<Epoch>>, Memory>
    ensures counted { IfOk result (λ v. length v.items ≡ length errands.items) }
    ensures each { (E : List Placed) (upto : ℕ)
        → All (λ e. IfOk e.epoch (λ a. IsEpochAt B.shape E upto (arc_value a))) errands.items
        → IfOk result (λ v. All (λ a. IsEpochAt B.shape E upto (arc_value a)) v.items) }
{
    let mut epochs = Vec::new(alloc);
    for errand in errands {
        epochs.push(errand.epoch?)?;
    }
    Ok(epochs)
}
