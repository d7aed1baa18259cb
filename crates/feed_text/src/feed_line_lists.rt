// Commands in order.
ghost use Rattle.std.specs.Prelude.{◌≡◌, [], ◌∷◌, ◌++◌, IfOk, OnOk, OnErr};

use crate::feed_lines::FeedLine;
use std::alloc::{AllocError, Global};
use std::marker::Model;

/// Commands in order.
#[derive(Drop)]
pub struct FeedLines {
    items: Vec<FeedLine>,
}

impl Model for FeedLines {
    ghost use Rattle.std.specs.Prelude.{List};
    ghost use Rattle.feed_text.specs.declared.feed_lines.FeedLine.{FeedLine};

    ghost Value = { List FeedLine };

    ghost view = { λ l. l.items.items };
}

fn copied(alloc: Global, items: &[FeedLine]) -> Result<Vec<FeedLine>, AllocError>
    ensures { IfOk result (λ copy. copy.items ≡ items.now) }
{
    let mut copy = Vec::new(alloc);
    for item in items {
        copy.push(item.copy(alloc)?)?;
    }
    Ok(copy)
}

impl FeedLines {
    /// The empty list, which takes no memory.
    pub fn new(alloc: Global) -> FeedLines
        ensures { result ≡ [] }
    {
        FeedLines {
            items: Vec::new(alloc),
        }
    }

    /// One more at the end. Where memory is refused the list is as it was.
    pub fn push(&mut self, line: FeedLine) -> Result<(), AllocError>
        ensures ok { OnOk result (self.new ≡ self.old ++ line ∷ []) }
        ensures err { OnErr result (self.new ≡ self.old) }
    {
        self.items.push(line)?;
        Ok(())
    }

    /// The commands in order.
    pub fn as_slice(&self) -> &[FeedLine]
        ensures { result.now ≡ self.now }
    {
        &self.items
    }

    /// The commands, which takes no memory.
    pub fn into_items(self) -> Vec<FeedLine>
        ensures { result.items ≡ self }
    {
        let FeedLines { items } = self;
        items
    }

    /// An equal list. It fails only for want of memory.
    pub fn copy(&self, alloc: Global) -> Result<FeedLines, AllocError>
        ensures { IfOk result (λ copy. copy ≡ self.now) }
    {
        let items = copied(alloc, &self.items)?;
        Ok(FeedLines { items })
    }
}
