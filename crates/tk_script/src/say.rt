ghost use Rattle.std.specs.Prelude.{◌≡◌};

use std::alloc::AllocError;
use std::marker::Model;
use tk_shape::Bytes;

/// A text that is said on a log, in a phase and a tick, both from 1.
#[derive(Debug, Drop)]
pub struct Say {
    pub phase: u32,
    pub tick: u32,
    pub log: u32,
    pub text: Bytes,
}

impl Clone for Say {
    ghost is_clone = { λ x y. y ≡ x };

    fn clone(&self) -> Result<Say, AllocError> {
        Ok(Say {
            phase: self.phase,
            tick: self.tick,
            log: self.log,
            text: self.text.clone()?,
        })
    }
}

/// What is said in a run, in order; seen as their list.
#[derive(Debug, Drop)]
pub struct Says {
    items: Vec<Say>,
}

impl Model for Says {
    ghost use Rattle.std.specs.Prelude.{List};
    ghost use Rattle.tk_script.specs.declared.say.Say.{Say};

    ghost Value = { List Say };

    ghost view = { λ l. l.items.items };
}

impl Says {
    ghost use Rattle.std.specs.Prelude.{◌≡◌};

    /// What is said, in this order.
    pub fn from_vec(items: Vec<Say>) -> Says
        ensures { result ≡ items.items }
    {
        Says { items }
    }

    /// What is said, in order.
    pub fn as_slice(&self) -> &[Say]
        ensures { result.now ≡ self.now }
    {
        self.items.as_slice()
    }

    /// What is said as a vector, in order.
    pub fn into_vec(self) -> Vec<Say>
        ensures { result.items ≡ self }
    {
        self.items
    }
}

impl Clone for Says {
    ghost is_clone = { λ x y. y ≡ x };

    fn clone(&self) -> Result<Says, AllocError> {
        let items = self.items.to_vec(*self.items.allocator())?;
        Ok(Says { items })
    }
}
