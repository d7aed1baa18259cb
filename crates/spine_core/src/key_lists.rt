// KeyList: the keys of a batch's parts.
ghost use Rattle.std.specs.Prelude.{◌≡◌, ◌↔◌, IsTrue, [], ◌∷◌, ◌++◌, IfOk, OnOk, OnErr};

use std::alloc::{AllocError, Global};
use std::marker::Model;
use store_core::PartKey;

/// Keys in order.
#[derive(Drop)]
pub struct KeyList {
    items: Vec<PartKey>,
}

impl Model for KeyList {
    ghost use Rattle.std.specs.Prelude.{List};
    ghost use Rattle.store_core.specs.declared.part_keys.PartKey.{PartKey};

    ghost Value = { List PartKey };

    ghost view = { λ l. l.items.items };
}

impl KeyList {
    /// The empty list, which takes no memory.
    pub fn new(alloc: Global) -> KeyList
        ensures { result ≡ [] }
    {
        KeyList {
            items: Vec::new(alloc),
        }
    }

    /// One more at the end. Where memory is refused the list is as it was.
    pub fn push(&mut self, key: PartKey) -> Result<(), AllocError>
        ensures ok { OnOk result (self.new ≡ self.old ++ key ∷ []) }
        ensures err { OnErr result (self.new ≡ self.old) }
    {
        self.items.push(key)?;
        Ok(())
    }

    /// The keys in order.
    pub fn as_slice(&self) -> &[PartKey]
        ensures { result.now ≡ self.now }
    {
        &self.items
    }

    /// An equal list. It fails only for want of memory.
    pub fn copy(&self, alloc: Global) -> Result<KeyList, AllocError>
        ensures { IfOk result (λ copy. copy ≡ self.now) }
    {
        let items = self.items.to_vec(alloc)?;
        Ok(KeyList { items })
    }

    /// Whether the other list has the same keys in the same order.
    pub fn is_same(&self, other: &KeyList) -> bool
        ensures { IsTrue result ↔ (self.now ≡ other.now) }
    {
        self.items.as_slice() == other.items.as_slice()
    }
}
