// RowList: rows in order.
ghost use Rattle.std.specs.Prelude.{◌≡◌, [], ◌∷◌, ◌++◌, IfOk, OnOk, OnErr};

use crate::rows::Row;
use std::alloc::{AllocError, Global};
use std::marker::Model;

/// Rows in order.
#[derive(Drop)]
pub struct RowList {
    items: Vec<Row>,
}

impl Model for RowList {
    ghost use Rattle.std.specs.Prelude.{List};
    ghost use Rattle.update_core.specs.declared.rows.Row.{Row};

    ghost Value = { List Row };

    ghost view = { λ l. l.items.items };
}

fn copied(alloc: Global, items: &[Row]) -> Result<Vec<Row>, AllocError>
    ensures { IfOk result (λ copy. copy.items ≡ items.now) }
{
    let mut copy = Vec::new(alloc);
    for item in items {
        copy.push(item.copy(alloc)?)?;
    }
    Ok(copy)
}

impl RowList {
    /// The empty list, which takes no memory.
    pub fn new(alloc: Global) -> RowList
        ensures { result ≡ [] }
    {
        RowList {
            items: Vec::new(alloc),
        }
    }

    /// One more at the end. Where memory is refused the list is as it was.
    pub fn push(&mut self, item: Row) -> Result<(), AllocError>
        ensures ok { OnOk result (self.new ≡ self.old ++ item ∷ []) }
        ensures err { OnErr result (self.new ≡ self.old) }
    {
        self.items.push(item)?;
        Ok(())
    }

    /// The items in order.
    pub fn as_slice(&self) -> &[Row]
        ensures { result.now ≡ self.now }
    {
        &self.items
    }

    /// The list of these items, which takes no memory.
    pub fn from_items(items: Vec<Row>) -> RowList
        ensures { result ≡ items.items }
    {
        RowList { items }
    }

    /// The items, which takes no memory.
    pub fn into_items(self) -> Vec<Row>
        ensures { result.items ≡ self }
    {
        let RowList { items } = self;
        items
    }

    /// An equal list. It fails only for want of memory.
    pub fn copy(&self, alloc: Global) -> Result<RowList, AllocError>
        ensures { IfOk result (λ copy. copy ≡ self.now) }
    {
        let items = copied(alloc, &self.items)?;
        Ok(RowList { items })
    }
}
