use crate::server::Server;

impl Server {
    ghost use Rattle.std.specs.Prelude.{◌≡◌, ◌≤◌, ℕ, List};
    ghost use Rattle.tk_shape.specs.declared.shape.Shape.{Shape};
    ghost use Rattle.tk_serve.specs.Seats.{Seat};
    ghost use Rattle.tk_serve.specs.Stands.{StandsAt};
    ghost use Rattle.tk_serve.specs.Releasing.{IsReadTo};

    /// Lets the epochs go that no client reads any more.
    pub(crate) fn release(&mut self)
        ensures shape { self.new.shape ≡ self.old.shape }
        ensures stands { (shape : Shape) (seats : List Seat) (g n : ℕ) → StandsAt shape seats g n self.old
            → StandsAt shape seats g n self.new }
        ensures goes { (e : ℕ) → IsReadTo e self.old → e ≤ self.new.state.floor }
    {
        let mut least = self.state.last();
        'clients: for desk in self.desks.as_slice() {
            least = least.min(desk.asked() / self.shape.ticks);
        }
        if self.state.floor() < least {
            self.state.release(least);
        }
    }
}
