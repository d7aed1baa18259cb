// Clients in the order of their making.
ghost use Rattle.std.specs.Prelude.{◌≡◌, [], ◌∷◌, ◌++◌, OnOk, OnErr};

use crate::seats::Named;
use std::alloc::{AllocError, Global};
use std::marker::Model;

/// Clients in the order of their making.
#[derive(Drop)]
pub struct ClientList {
    items: Vec<Named>,
}

impl Model for ClientList {
    ghost use Rattle.std.specs.Prelude.{List};
    ghost use Rattle.step_text.specs.declared.seats.Named.{Named};

    ghost Value = { List Named };

    ghost view = { λ l. l.items.items };
}

impl ClientList {
    /// The empty list, which takes no memory.
    pub fn new(alloc: Global) -> ClientList
        ensures { result ≡ [] }
    {
        ClientList {
            items: Vec::new(alloc),
        }
    }

    /// One more at the end. Where memory is refused the list is as it was.
    pub fn push(&mut self, client: Named) -> Result<(), AllocError>
        ensures ok { OnOk result (self.new ≡ self.old ++ client ∷ []) }
        ensures err { OnErr result (self.new ≡ self.old) }
    {
        self.items.push(client)?;
        Ok(())
    }

    /// The clients in order.
    pub fn as_slice(&self) -> &[Named]
        ensures { result.now ≡ self.now }
    {
        &self.items
    }

    /// The clients, which takes no memory.
    pub fn into_items(self) -> Vec<Named>
        ensures { result.items ≡ self }
    {
        let ClientList { items } = self;
        items
    }
}
