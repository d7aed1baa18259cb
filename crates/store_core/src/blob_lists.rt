// Blobs in order, each with its key.
ghost use Rattle.std.specs.Prelude.{◌≡◌, [], ◌∷◌, ◌++◌, IfOk, OnOk, OnErr};

use crate::byte_strings::Bytes;
use crate::part_keys::PartKey;
use std::alloc::{AllocError, Global};
use std::marker::Model;

/// Blobs in order, each with its key.
#[derive(Drop)]
pub struct BlobList {
    items: Vec<(PartKey, Bytes)>,
}

impl Model for BlobList {
    ghost use Rattle.std.specs.Prelude.{List, ℕ};
    ghost use Rattle.store_core.specs.declared.part_keys.PartKey.{PartKey};

    ghost Value = { List (PartKey × List ℕ) };

    ghost view = { λ l. l.items.items };
}

// An equal table.
fn copied(alloc: Global, items: &[(PartKey, Bytes)]) -> Result<Vec<(PartKey, Bytes)>, AllocError>
    ensures { IfOk result (λ copy. copy.items ≡ items.now) }
{
    let mut copy = Vec::with_capacity(alloc, items.len())?;
    for item in items {
        copy.push((item.0, item.1.copy()?))?;
    }
    Ok(copy)
}

impl BlobList {
    /// The empty list, which takes no memory.
    pub fn new(alloc: Global) -> BlobList
        ensures { result ≡ [] }
    {
        BlobList {
            items: Vec::new(alloc),
        }
    }

    /// One more at the end. Where memory is refused the list is as it was.
    pub fn push(&mut self, item: (PartKey, Bytes)) -> Result<(), AllocError>
        ensures ok { OnOk result (self.new ≡ self.old ++ item ∷ []) }
        ensures err { OnErr result (self.new ≡ self.old) }
    {
        self.items.push(item)?;
        Ok(())
    }

    /// An equal list. It fails only for want of memory.
    pub fn copy(&self, alloc: Global) -> Result<BlobList, AllocError>
        ensures { IfOk result (λ copy. copy ≡ self.now) }
    {
        let items = copied(alloc, &self.items)?;
        Ok(BlobList { items })
    }

    /// The items in order.
    pub fn as_slice(&self) -> &[(PartKey, Bytes)]
        ensures { result.now ≡ self.now }
    {
        &self.items
    }

    /// The items, which takes no memory.
    pub(crate) fn into_items(self) -> Vec<(PartKey, Bytes)>
        ensures { result.items ≡ self }
    {
        let BlobList { items } = self;
        items
    }
}
