ghost use Rattle.std.specs.Prelude.{◌≡◌};

use std::alloc::AllocError;
use std::marker::Model;
use tk_handle::Handle;

/// The keys of a keyed script: a handle for each log, and a seed of 32 bytes for each client.
#[derive(Debug, Drop)]
pub struct Keys {
    pub handles: Handles,
    pub seeds: ClientSeeds,
}

impl Clone for Keys {
    ghost is_clone = { λ x y. y ≡ x };

    fn clone(&self) -> Result<Keys, AllocError> {
        Ok(Keys {
            handles: self.handles.clone()?,
            seeds: self.seeds.clone()?,
        })
    }
}

/// The handle of each log, by number; seen as their list.
#[derive(Debug, Drop)]
pub struct Handles {
    items: Vec<Handle>,
}

impl Model for Handles {
    ghost use Rattle.std.specs.Prelude.{List};
    ghost use Rattle.tk_handle.specs.declared.handle.Handle.{Handle};

    ghost Value = { List Handle };

    ghost view = { λ l. l.items.items };
}

impl Handles {
    ghost use Rattle.std.specs.Prelude.{◌≡◌};

    /// The handles of the logs from 0 on.
    pub fn from_vec(items: Vec<Handle>) -> Handles
        ensures { result ≡ items.items }
    {
        Handles { items }
    }

    /// The handle of each log, log 0 first.
    pub fn as_slice(&self) -> &[Handle]
        ensures { result.now ≡ self.now }
    {
        self.items.as_slice()
    }

    /// The handles as a vector, log 0 first.
    pub fn into_vec(self) -> Vec<Handle>
        ensures { result.items ≡ self }
    {
        self.items
    }
}

impl Clone for Handles {
    ghost is_clone = { λ x y. y ≡ x };

    fn clone(&self) -> Result<Handles, AllocError> {
        let items = Vec::from_slice(*self.items.allocator(), &self.items)?;
        Ok(Handles { items })
    }
}

/// The seed of each client, by number; seen as their list.
#[derive(Debug, Drop)]
pub struct ClientSeeds {
    items: Vec<[u8; 32]>,
}

impl Model for ClientSeeds {
    ghost use Rattle.std.specs.Prelude.{List, ℕ};

    ghost Value = { List (List ℕ) };

    ghost view = { λ l. l.items.items };
}

impl ClientSeeds {
    ghost use Rattle.std.specs.Prelude.{◌≡◌};

    /// The seeds of the clients from 0 on.
    pub fn from_vec(items: Vec<[u8; 32]>) -> ClientSeeds
        ensures { result ≡ items.items }
    {
        ClientSeeds { items }
    }

    /// The seed of each client, client 0 first.
    pub fn as_slice(&self) -> &[[u8; 32]]
        ensures { result.now ≡ self.now }
    {
        self.items.as_slice()
    }

    /// The seeds as a vector, client 0 first.
    pub fn into_vec(self) -> Vec<[u8; 32]>
        ensures { result.items ≡ self }
    {
        self.items
    }
}

impl Clone for ClientSeeds {
    ghost is_clone = { λ x y. y ≡ x };

    fn clone(&self) -> Result<ClientSeeds, AllocError> {
        let items = Vec::from_slice(*self.items.allocator(), &self.items)?;
        Ok(ClientSeeds { items })
    }
}
