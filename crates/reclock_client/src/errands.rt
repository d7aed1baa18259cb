// Errand: what an operator's open command is for.
use remap_core::{SourceFrontier, SourceList};

/// What an operator's open command is for.
#[derive(Drop)]
pub enum Errand {
    /// Three members join.
    Open,
    /// The remap shard is read, and at the time each partition is raised to the offset seen.
    Mint { time: u64, seen: SourceFrontier },
    /// The remap shard is read.
    Sync,
    /// The rows that are bound from the data shard's upper up to the synced frontier are appended there.
    Publish { rows: SourceList },
    /// The members leave.
    Close,
}
