// UpdateList: updates in order.
ghost use Rattle.std.specs.Prelude.{◌≡◌, [], ◌∷◌, ◌++◌, IfOk, OnOk, OnErr};

use crate::updates::Update;
use std::alloc::{AllocError, Global};
use std::marker::Model;

/// Updates in order.
#[derive(Drop)]
pub struct UpdateList {
    items: Vec<Update>,
}

impl Model for UpdateList {
    ghost use Rattle.std.specs.Prelude.{List};
    ghost use Rattle.update_core.specs.declared.updates.Update.{Update};

    ghost Value = { List Update };

    ghost view = { λ l. l.items.items };
}

fn copied(alloc: Global, items: &[Update]) -> Result<Vec<Update>, AllocError>
    ensures { IfOk result (λ copy. copy.items ≡ items.now) }
{
    let mut copy = Vec::new(alloc);
    for item in items {
        copy.push(item.copy(alloc)?)?;
    }
    Ok(copy)
}

impl UpdateList {
    /// The empty list, which takes no memory.
    pub fn new(alloc: Global) -> UpdateList
        ensures { result ≡ [] }
    {
        UpdateList {
            items: Vec::new(alloc),
        }
    }

    /// One more at the end. Where memory is refused the list is as it was.
    pub fn push(&mut self, item: Update) -> Result<(), AllocError>
        ensures ok { OnOk result (self.new ≡ self.old ++ item ∷ []) }
        ensures err { OnErr result (self.new ≡ self.old) }
    {
        self.items.push(item)?;
        Ok(())
    }

    /// These updates after its own, moved and not copied. Where memory is refused the list is as it was.
    pub fn append(&mut self, more: UpdateList) -> Result<(), AllocError>
        ensures ok { OnOk result (self.new ≡ self.old ++ more) }
        ensures err { OnErr result (self.new ≡ self.old) }
    {
        let mut items = more.into_items();
        self.items.append(&mut items)
    }

    /// The items in order.
    pub fn as_slice(&self) -> &[Update]
        ensures { result.now ≡ self.now }
    {
        &self.items
    }

    /// The list of these items, which takes no memory.
    pub fn from_items(items: Vec<Update>) -> UpdateList
        ensures { result ≡ items.items }
    {
        UpdateList { items }
    }

    /// The items, which takes no memory.
    pub fn into_items(self) -> Vec<Update>
        ensures { result.items ≡ self }
    {
        let UpdateList { items } = self;
        items
    }

    /// An equal list. It fails only for want of memory.
    pub fn copy(&self, alloc: Global) -> Result<UpdateList, AllocError>
        ensures { IfOk result (λ copy. copy ≡ self.now) }
    {
        let items = copied(alloc, &self.items)?;
        Ok(UpdateList { items })
    }
}

impl UpdateList {
    ghost use Rattle.update_core.specs.Updates.{moved};

    /// Each time below since becomes since. It takes no memory.
    pub fn advance(&mut self, since: u64)
        ensures { self.new ≡ moved self.old since }
    {
        for update in self.items.iter_mut() {
            update.time = update.time.max(since);
        }
    }
}
