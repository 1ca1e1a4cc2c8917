ghost use Rattle.std.specs.Prelude.{◌≡◌};

use std::alloc::AllocError;
use std::marker::Model;
use tk_shape::Words;

/// Who writes a log, and who follows it: clients by number, the followers ascending.
#[derive(Debug, Drop)]
pub struct Role {
    pub writer: u32,
    pub followers: Words,
}

impl Clone for Role {
    ghost is_clone = { λ x y. y ≡ x };

    fn clone(&self) -> Result<Role, AllocError> {
        Ok(Role {
            writer: self.writer,
            followers: self.followers.clone()?,
        })
    }
}

/// The role of each log, by number; seen as their list.
#[derive(Debug, Drop)]
pub struct Roles {
    items: Vec<Role>,
}

impl Model for Roles {
    ghost use Rattle.std.specs.Prelude.{List};
    ghost use Rattle.tk_script.specs.declared.role.Role.{Role};

    ghost Value = { List Role };

    ghost view = { λ l. l.items.items };
}

impl Roles {
    ghost use Rattle.std.specs.Prelude.{◌≡◌};

    /// The roles of the logs from 0 on.
    pub fn from_vec(items: Vec<Role>) -> Roles
        ensures { result ≡ items.items }
    {
        Roles { items }
    }

    /// The role of each log, log 0 first.
    pub fn as_slice(&self) -> &[Role]
        ensures { result.now ≡ self.now }
    {
        self.items.as_slice()
    }

    /// The roles as a vector, log 0 first.
    pub fn into_vec(self) -> Vec<Role>
        ensures { result.items ≡ self }
    {
        self.items
    }
}

impl Clone for Roles {
    ghost is_clone = { λ x y. y ≡ x };

    fn clone(&self) -> Result<Roles, AllocError> {
        let items = self.items.to_vec(*self.items.allocator())?;
        Ok(Roles { items })
    }
}
