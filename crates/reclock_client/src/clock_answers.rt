// ClockAnswer: what an operator answers.
use update_core::Frontier;

/// What an operator's command comes to.
#[derive(Drop)]
pub enum ClockAnswer {
    /// Its three members have joined.
    Opened,
    /// A shard has all the members that it can have.
    MembersFull { version: u64 },
    /// The remap shard was raised at this time.
    Minted { time: u64 },
    /// The remap shard's upper doesn't lie at or below the time.
    Lost { upper: Frontier },
    /// The remap shard was read up to this frontier.
    Synced { upper: Frontier },
    /// The data shard's upper isn't below this frontier, the synced one.
    Published { upper: Frontier },
    /// A row of the remap shard at this time doesn't raise a partition, or raises one above 2^48.
    Foreign { time: u64 },
    /// The remap shard's since has passed what was to be read.
    Early { since: u64 },
    /// With the append a shard's weight, which was this, would have passed 2^62.
    Heavy { weight: u64 },
    /// Its members have left.
    Closed,
    /// The reader's member was gone in this version.
    Expired { version: u64 },
}
