// The commands that a schedule begins.
use update_core::FeedAppend;

/// A command that a client of a schedule begins. See docs/DEFINITIONS.md, "Schedules".
#[derive(Drop)]
pub enum Command {
    /// A writer's append, whose rows stand in lines of their own.
    Append(FeedAppend),
    /// The content at a time.
    Snapshot { t: u64 },
    /// The updates after a time, as a listen that goes on.
    Listen { t: u64 },
    /// What a listen that stands brings next.
    Next,
    /// A new since for the reader.
    Advance { to: u64 },
    /// A reader's or a compactor's lease runs anew.
    Renew,
    /// A writer, a reader or a compactor leaves.
    Close,
    /// A compactor merges the pair that is due.
    Merge,
    /// A collector takes away what nobody needs.
    Collect,
    /// An expirer removes the members whose lease has run out.
    Expire,
}
