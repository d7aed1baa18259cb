// Asked: what one begin of a client asks.

use store_core::ShardId;
use update_core::{Frontier, UpdateList};

/// What one `open` or `begin_..` of a client asks, with its arguments. Times, moments and leases are numbers as the caller
/// gives them.
#[derive(Drop)]
pub enum Asked {
    /// A writer joins the shard.
    OpenWriter {
        shard: ShardId,
    },
    /// A reader joins the shard at the moment `now`; its lease runs out at `now + lease` unless it is renewed.
    OpenReader {
        shard: ShardId,
        now: u64,
        lease: u64,
    },
    /// The rows are appended where the upper is at `expected`; it is then `new`.
    Append {
        rows: UpdateList,
        expected: u64,
        new: Frontier,
    },
    /// The writer leaves.
    CloseWriter,
    /// The content at the time `t`.
    Snapshot {
        t: u64,
    },
    /// The first step of a listen, from the frontier after `as_of`.
    Listen {
        as_of: u64,
    },
    /// The next step of the listen.
    Next,
    /// The reader's since is raised to `to`.
    Advance {
        to: u64,
    },
    /// The reader's lease begins again at the moment `now`.
    RenewReader {
        now: u64,
    },
    /// The reader leaves.
    CloseReader,
    /// A compactor joins the shard at the moment `now`; its lease runs out at `now + lease` unless it is renewed.
    OpenCompactor {
        shard: ShardId,
        now: u64,
        lease: u64,
    },
    /// The leftmost pair of batches that is due is merged.
    Merge,
    /// The compactor's lease begins again at the moment `now`.
    RenewCompactor {
        now: u64,
    },
    /// The compactor leaves.
    CloseCompactor,
    /// The versions below the floor, and the parts that merges up to it took, are removed.
    Collect,
    /// The members whose lease has run out at the moment `now` are removed.
    Expire {
        now: u64,
    },
}
