// Shards in order, each with the number of its first version and the bytes of its versions.
ghost use Rattle.std.specs.Prelude.{◌≡◌, [], ◌∷◌, ◌++◌, IfOk, OnOk, OnErr};

use crate::byte_lists::BytesList;
use crate::shards::ShardId;
use std::alloc::{AllocError, Global};
use std::marker::Model;

/// Shards in order, each with the number of its first version and the bytes of its versions.
#[derive(Drop)]
pub struct ShardList {
    items: Vec<(ShardId, u64, BytesList)>,
}

impl Model for ShardList {
    ghost use Rattle.std.specs.Prelude.{List, ℕ};
    ghost use Rattle.store_core.specs.declared.shards.ShardId.{ShardId};

    ghost Value = { List (ShardId × ℕ × List (List ℕ)) };

    ghost view = { λ l. l.items.items };
}

// An equal table.
fn copied(
    alloc: Global,
    items: &[(ShardId, u64, BytesList)],
) -> Result<Vec<(ShardId, u64, BytesList)>, AllocError>
    ensures { IfOk result (λ copy. copy.items ≡ items.now) }
{
    let mut copy = Vec::with_capacity(alloc, items.len())?;
    for item in items {
        copy.push((item.0, item.1, item.2.copy(alloc)?))?;
    }
    Ok(copy)
}

impl ShardList {
    /// The empty list, which takes no memory.
    pub fn new(alloc: Global) -> ShardList
        ensures { result ≡ [] }
    {
        ShardList {
            items: Vec::new(alloc),
        }
    }

    /// One more at the end. Where memory is refused the list is as it was.
    pub fn push(&mut self, item: (ShardId, u64, BytesList)) -> Result<(), AllocError>
        ensures ok { OnOk result (self.new ≡ self.old ++ item ∷ []) }
        ensures err { OnErr result (self.new ≡ self.old) }
    {
        self.items.push(item)?;
        Ok(())
    }

    /// An equal list. It fails only for want of memory.
    pub fn copy(&self, alloc: Global) -> Result<ShardList, AllocError>
        ensures { IfOk result (λ copy. copy ≡ self.now) }
    {
        let items = copied(alloc, &self.items)?;
        Ok(ShardList { items })
    }

    /// The items in order.
    pub fn as_slice(&self) -> &[(ShardId, u64, BytesList)]
        ensures { result.now ≡ self.now }
    {
        &self.items
    }

    /// The items, which takes no memory.
    pub(crate) fn into_items(self) -> Vec<(ShardId, u64, BytesList)>
        ensures { result.items ≡ self }
    {
        let ShardList { items } = self;
        items
    }
}
