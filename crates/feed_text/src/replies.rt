// The reply to one command of a feed.
use update_core::{Frontier, RowList, UpdateList};

/// The reply to a command of a feed. See docs/DEFINITIONS.md, "Plain runs".
#[derive(Drop)]
pub enum RunReply {
    /// The append, or the since, was accepted.
    Accepted,
    /// The append's upper doesn't cover its lower.
    Empty,
    /// The first row, counted from 1, whose time is outside the append's range.
    Range {
        row: u64,
    },
    /// The collection's upper isn't at the append's lower.
    Mismatch {
        upper: Frontier,
    },
    /// With the append the collection's weight would pass 2^62.
    Heavy {
        weight: u64,
    },
    /// The content at the time asked for.
    Rows(RowList),
    /// The time is before the collection's since, or the frontier listened from isn't past it.
    Early {
        since: u64,
    },
    /// The collection's upper doesn't cover the time.
    Late {
        upper: Frontier,
    },
    /// The updates from the frontier listened from up to the upper, by time and datum.
    Step {
        updates: UpdateList,
        upper: Frontier,
    },
    /// The frontier listened from and the upper are Closed.
    Ended,
    /// The upper isn't past the frontier listened from.
    Quiet {
        upper: Frontier,
    },
    /// The since asked for is below the reader's own.
    Back {
        since: u64,
    },
}
