// Names in order.
ghost use Rattle.std.specs.Prelude.{◌≡◌, [], ◌∷◌, ◌++◌, OnOk, OnErr};

use std::alloc::{AllocError, Global};
use std::marker::Model;
use update_core::Datum;

/// Names in order.
#[derive(Drop)]
pub struct NameList {
    items: Vec<Datum>,
}

impl Model for NameList {
    ghost use Rattle.std.specs.Prelude.{List, ℕ};

    ghost Value = { List (List ℕ) };

    ghost view = { λ l. l.items.items };
}

impl NameList {
    /// The empty list, which takes no memory.
    pub fn new(alloc: Global) -> NameList
        ensures { result ≡ [] }
    {
        NameList {
            items: Vec::new(alloc),
        }
    }

    /// One more at the end. Where memory is refused the list is as it was.
    pub fn push(&mut self, name: Datum) -> Result<(), AllocError>
        ensures ok { OnOk result (self.new ≡ self.old ++ name ∷ []) }
        ensures err { OnErr result (self.new ≡ self.old) }
    {
        self.items.push(name)?;
        Ok(())
    }

    /// The names in order.
    pub fn as_slice(&self) -> &[Datum]
        ensures { result.now ≡ self.now }
    {
        &self.items
    }

    /// The names, which takes no memory.
    pub fn into_items(self) -> Vec<Datum>
        ensures { result.items ≡ self }
    {
        let NameList { items } = self;
        items
    }
}
