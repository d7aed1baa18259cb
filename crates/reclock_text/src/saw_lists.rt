// What operators have seen, in order.
ghost use Rattle.std.specs.Prelude.{◌≡◌, [], ◌∷◌, ◌++◌, OnOk, OnErr};

use crate::saws::Saw;
use std::alloc::{AllocError, Global};
use std::marker::Model;

/// What operators have seen, in order.
#[derive(Drop)]
pub struct SawList {
    items: Vec<Saw>,
}

impl Model for SawList {
    ghost use Rattle.std.specs.Prelude.{List};
    ghost use Rattle.reclock_text.specs.declared.saws.Saw.{Saw};

    ghost Value = { List Saw };

    ghost view = { λ l. l.items.items };
}

impl SawList {
    /// The empty list, which takes no memory.
    pub fn new(alloc: Global) -> SawList
        ensures { result ≡ [] }
    {
        SawList {
            items: Vec::new(alloc),
        }
    }

    /// One more at the end. Where memory is refused the list is as it was.
    pub fn push(&mut self, saw: Saw) -> Result<(), AllocError>
        ensures ok { OnOk result (self.new ≡ self.old ++ saw ∷ []) }
        ensures err { OnErr result (self.new ≡ self.old) }
    {
        self.items.push(saw)?;
        Ok(())
    }

    /// The items in order.
    pub fn as_slice(&self) -> &[Saw]
        ensures { result.now ≡ self.now }
    {
        &self.items
    }

    /// The items, which takes no memory.
    pub fn into_items(self) -> Vec<Saw>
        ensures { result.items ≡ self }
    {
        let SawList { items } = self;
        items
    }
}
