// AppendList: appends in order.
ghost use Rattle.std.specs.Prelude.{◌≡◌, [], ◌∷◌, ◌++◌, IfOk, OnOk, OnErr};

use std::alloc::{AllocError, Global};
use std::marker::Model;
use update_core::FeedAppend;

/// Appends in order.
#[derive(Drop)]
pub struct AppendList {
    items: Vec<FeedAppend>,
}

impl Model for AppendList {
    ghost use Rattle.std.specs.Prelude.{List};
    ghost use Rattle.update_core.specs.declared.appends.FeedAppend.{FeedAppend};

    ghost Value = { List FeedAppend };

    ghost view = { λ l. l.items.items };
}

fn copy_of(alloc: Global, append: &FeedAppend) -> Result<FeedAppend, AllocError>
    ensures { IfOk result (λ copy. copy ≡ append.now) }
{
    let rows = append.rows.copy(alloc)?;
    Ok(FeedAppend {
        lower: append.lower,
        upper: append.upper,
        rows,
    })
}

fn copied(alloc: Global, items: &[FeedAppend]) -> Result<Vec<FeedAppend>, AllocError>
    ensures { IfOk result (λ copy. copy.items ≡ items.now) }
{
    let mut copy = Vec::new(alloc);
    for item in items {
        copy.push(copy_of(alloc, item)?)?;
    }
    Ok(copy)
}

impl AppendList {
    /// The empty list, which takes no memory.
    pub fn new(alloc: Global) -> AppendList
        ensures { result ≡ [] }
    {
        AppendList {
            items: Vec::new(alloc),
        }
    }

    /// One more at the end. Where memory is refused the list is as it was.
    pub fn push(&mut self, item: FeedAppend) -> Result<(), AllocError>
        ensures ok { OnOk result (self.new ≡ self.old ++ item ∷ []) }
        ensures err { OnErr result (self.new ≡ self.old) }
    {
        self.items.push(item)?;
        Ok(())
    }

    /// The items in order.
    pub fn as_slice(&self) -> &[FeedAppend]
        ensures { result.now ≡ self.now }
    {
        &self.items
    }

    /// The list of these items, which takes no memory.
    pub fn from_items(items: Vec<FeedAppend>) -> AppendList
        ensures { result ≡ items.items }
    {
        AppendList { items }
    }

    /// The items, which takes no memory.
    pub fn into_items(self) -> Vec<FeedAppend>
        ensures { result.items ≡ self }
    {
        let AppendList { items } = self;
        items
    }

    /// An equal list. It fails only for want of memory.
    pub fn copy(&self, alloc: Global) -> Result<AppendList, AllocError>
        ensures { IfOk result (λ copy. copy ≡ self.now) }
    {
        let items = copied(alloc, &self.items)?;
        Ok(AppendList { items })
    }
}
