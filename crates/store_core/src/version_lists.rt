// Versions in order.
ghost use Rattle.std.specs.Prelude.{◌≡◌, [], ◌∷◌, ◌++◌, IfOk, OnOk, OnErr};

use crate::versions::Version;
use std::alloc::{AllocError, Global};
use std::marker::Model;

/// Versions in order.
#[derive(Drop)]
pub struct VersionList {
    items: Vec<Version>,
}

impl Model for VersionList {
    ghost use Rattle.std.specs.Prelude.{List};
    ghost use Rattle.store_core.specs.declared.versions.Version.{Version};

    ghost Value = { List Version };

    ghost view = { λ l. l.items.items };
}

// An equal table.
fn copied(alloc: Global, items: &[Version]) -> Result<Vec<Version>, AllocError>
    ensures { IfOk result (λ copy. copy.items ≡ items.now) }
{
    let mut copy = Vec::with_capacity(alloc, items.len())?;
    for item in items {
        copy.push(item.copy()?)?;
    }
    Ok(copy)
}

impl VersionList {
    /// The empty list, which takes no memory.
    pub fn new(alloc: Global) -> VersionList
        ensures { result ≡ [] }
    {
        VersionList {
            items: Vec::new(alloc),
        }
    }

    /// The empty list, with room for so many. It fails only for want of memory.
    pub(crate) fn with_capacity(alloc: Global, count: usize) -> Result<VersionList, AllocError>
        ensures { IfOk result (λ list. list ≡ []) }
    {
        let items = Vec::with_capacity(alloc, count)?;
        Ok(VersionList { items })
    }

    /// One more at the end. Where memory is refused the list is as it was.
    pub fn push(&mut self, item: Version) -> Result<(), AllocError>
        ensures ok { OnOk result (self.new ≡ self.old ++ item ∷ []) }
        ensures err { OnErr result (self.new ≡ self.old) }
    {
        self.items.push(item)?;
        Ok(())
    }

    /// An equal list. It fails only for want of memory.
    pub fn copy(&self, alloc: Global) -> Result<VersionList, AllocError>
        ensures { IfOk result (λ copy. copy ≡ self.now) }
    {
        let items = copied(alloc, &self.items)?;
        Ok(VersionList { items })
    }

    /// The items in order.
    pub fn as_slice(&self) -> &[Version]
        ensures { result.now ≡ self.now }
    {
        &self.items
    }
}
