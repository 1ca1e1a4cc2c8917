ghost use Rattle.std.specs.Prelude.{◌≡◌, length};

use tk_order::{Naming, Order};
use tk_replica::Replica;
use tk_shape::Shape;

/// One order, and a replica of it for each server.
#[derive(Drop)]
pub struct Cluster<B: Naming> {
    pub(crate) shape: Shape,
    pub(crate) order: Order<B>,
    pub(crate) replicas: Vec<Replica<B>>,
    pub(crate) ghost same: { shape ≡ B.shape },
    pub(crate) ghost counted: { length replicas.items ≡ shape.servers },
}
