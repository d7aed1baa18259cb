// One command of a feed.
ghost use Rattle.std.specs.Prelude.{◌≡◌, IfOk};

use std::alloc::{AllocError, Global};
use update_core::FeedAppend;

/// A command of a feed. See docs/DEFINITIONS.md, "Feeds".
#[derive(Drop)]
pub enum FeedLine {
    /// An append block.
    Append(FeedAppend),
    /// The content at a time.
    Snapshot { t: u64 },
    /// The updates after a time, up to the upper.
    Listen { t: u64 },
    /// A new since for the reader of the run.
    Since { to: u64 },
    /// Merges what is due, and collects what is then no more needed.
    Compact,
}

// An equal append.
fn copied(alloc: Global, append: &FeedAppend) -> Result<FeedAppend, AllocError>
    ensures { IfOk result (λ copy. copy ≡ append.now) }
{
    Ok(FeedAppend {
        lower: append.lower,
        upper: append.upper,
        rows: append.rows.copy(alloc)?,
    })
}

impl FeedLine {
    /// An equal command. It fails only for want of memory.
    pub fn copy(&self, alloc: Global) -> Result<FeedLine, AllocError>
        ensures { IfOk result (λ copy. copy ≡ self.now) }
    {
        match self {
            FeedLine::Append(append) => Ok(FeedLine::Append(copied(alloc, append)?)),
            FeedLine::Snapshot { t } => Ok(FeedLine::Snapshot { t: *t }),
            FeedLine::Listen { t } => Ok(FeedLine::Listen { t: *t }),
            FeedLine::Since { to } => Ok(FeedLine::Since { to: *to }),
            FeedLine::Compact => Ok(FeedLine::Compact),
        }
    }
}
