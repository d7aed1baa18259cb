// ReadAnswer: what a reader answers.

use update_core::{Frontier, RowList, UpdateList};

/// What a reader answers to a command. `Legal` in specs/ says of each where it may come.
#[derive(Drop)]
pub enum ReadAnswer {
    /// The reader joined with this member, as this version; times from `since` on can be read.
    Opened {
        member: u64,
        version: u64,
        since: u64,
    },
    /// In this version, the last one then, as many members stand as can.
    MembersFull {
        version: u64,
    },
    /// The content at the time asked for.
    Rows(RowList),
    /// The time asked for is before the shard's since, or the listen's frontier isn't past it: it was `since`.
    Early {
        since: u64,
    },
    /// The content isn't known yet at the time asked for: the upper was `upper`.
    Late {
        upper: Frontier,
    },
    /// The updates from `from`, the listen's frontier, up to `to`, which it is now.
    Step {
        from: Frontier,
        to: Frontier,
        rows: UpdateList,
    },
    /// The upper, which was `upper`, wasn't past the listen's frontier.
    Quiet {
        upper: Frontier,
    },
    /// The listen's frontier and the upper are Closed.
    Ended,
    /// The reader's since was raised, as this version.
    Advanced {
        version: u64,
    },
    /// The reader's since, which was `since`, is above the one asked for.
    Back {
        since: u64,
    },
    /// The lease began again, as this version.
    Renewed {
        version: u64,
    },
    /// The reader left as this version, or was gone already in this one.
    Closed {
        version: u64,
    },
    /// The member was gone in this version, the last one then.
    Expired {
        version: u64,
    },
}
