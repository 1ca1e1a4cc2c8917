ghost use Rattle.std.specs.Prelude.{◌≡◌, All, length};
ghost use Rattle.std.specs.Arc.{arc_value};
ghost use Rattle.tk_replica.specs.declared.epoch.Epoch.{Epoch};

use std::sync::Arc;
use tk_board::Listed;
use tk_replica::Epoch;
use tk_shape::Shape;

/// The epochs of one number, one for each server.
#[derive(Drop)]
pub struct EpochSet {
    pub(crate) shape: Shape,
    pub(crate) number: u32,
    pub(crate) epochs: Vec<Arc<Epoch>>,
    pub(crate) ghost counted: { length epochs.items ≡ shape.servers },
    pub(crate) ghost one_shape: { All (λ a. (arc_value {X = Epoch} a).shape ≡ shape) epochs.items },
}

/// A set stands in the list of shown sets at the place of its number.
impl Listed for EpochSet {
    ghost use Rattle.std.specs.Prelude.{◌≡◌};

    ghost fits = { λ k set. set.number ≡ k };
}

impl EpochSet {
    /// The number of its epochs.
    pub fn number(&self) -> u32
        ensures { result ≡ self.now.number }
    {
        self.number
    }

    /// The shape of its epochs.
    pub fn shape(&self) -> &Shape
        ensures { result.now ≡ self.now.shape }
    {
        &self.shape
    }

    /// How many servers it has an epoch of.
    pub fn servers(&self) -> u32
        ensures { result ≡ self.now.shape.servers }
    {
        self.shape.servers
    }
}
