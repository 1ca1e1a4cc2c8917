use std::alloc::Global;
use std::marker::Model;
use tk_shape::Memory;

/// What stands in one place of a turn's order: a client's write, or the mark of the phase's epoch.
#[derive(Clone, Copy, Debug, PartialEq, Eq)]
pub enum Item {
    Client(u32),
    Publish,
}

/// Items, seen as their list.
#[derive(Debug, Drop)]
pub struct Items {
    items: Vec<Item>,
}

impl Model for Items {
    ghost use Rattle.std.specs.Prelude.{List};
    ghost use Rattle.tk_schedule.specs.declared.item.Item.{Item};

    ghost Value = { List Item };

    ghost view = { λ i. i.items.items };
}

impl Items {
    ghost use Rattle.std.specs.Prelude.{◌≡◌, IfOk};

    /// A copy of a slice.
    pub fn from_slice(alloc: Global, items: &[Item]) -> Result<Items, Memory>
        ensures { IfOk result (λ i. i ≡ items.now) }
    {
        Ok(Items {
            items: Vec::from_slice(alloc, items)?,
        })
    }

    pub fn from_vec(items: Vec<Item>) -> Items
        ensures { result ≡ items.items }
    {
        Items { items }
    }

    pub fn as_slice(&self) -> &[Item]
        ensures { result.now ≡ self.now }
    {
        self.items.as_slice()
    }

    pub fn into_vec(self) -> Vec<Item>
        ensures { result.items ≡ self }
    {
        self.items
    }
}
