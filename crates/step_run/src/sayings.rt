// What is printed of a client.
use causes::NumberList;
use update_core::{Frontier, RowList, UpdateList};

/// What is printed of a client of a schedule, behind its name: why a command isn't begun, that a call failed, or what a command is
/// answered. See docs/DEFINITIONS.md, "Schedules executed".
#[derive(Drop)]
pub enum Saying {
    /// As many members stand as can.
    Full,
    /// The client has no member any more.
    Gone,
    /// A command is open.
    Open,
    /// The append's upper doesn't cover its lower.
    Empty,
    /// The first row, counted from 1, whose time is outside the append's range.
    Range {
        row: u64,
    },
    /// No listen stands.
    NoListen,
    /// No token is left.
    TokensSpent,
    /// A store call failed.
    Fault,
    /// The command is done.
    Accepted,
    /// The upper isn't at the append's lower.
    Mismatch {
        upper: Frontier,
    },
    /// With the append the weight would pass 2^62.
    Heavy {
        weight: u64,
    },
    /// The content at the time asked for.
    Rows(RowList),
    /// The time is before the shard's since, or the frontier listened from isn't past it.
    Early {
        since: u64,
    },
    /// The upper doesn't cover the time.
    Late {
        upper: Frontier,
    },
    /// The updates from the frontier listened from up to the upper.
    Step {
        updates: UpdateList,
        upper: Frontier,
    },
    /// The frontier listened from and the upper are Closed.
    Ended,
    /// The upper isn't past the frontier listened from.
    Quiet {
        upper: Frontier,
    },
    /// The since asked for is below the reader's own.
    Back {
        since: u64,
    },
    /// The pair that was due was merged, as this version.
    Merged {
        version: u64,
    },
    /// No pair was due in this version.
    Nothing {
        version: u64,
    },
    /// In this version the pair no longer stood.
    Superseded {
        version: u64,
    },
    /// In this version the member was gone.
    Expired {
        version: u64,
    },
    /// What lies below this floor is gone; so many deletes were answered.
    Collected {
        floor: u64,
        deleted: u64,
    },
    /// These members were removed.
    Removed(NumberList),
    /// No lease had run out in this version.
    NoneDue {
        version: u64,
    },
}
