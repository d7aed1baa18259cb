// CollectAnswer: what a collector answers.

/// What a collector answers to a collection. `LegalCollect` in specs/ says where it may come.
#[derive(Drop)]
pub enum CollectAnswer {
    /// What lies below the floor is gone. The collection's Scan showed this floor, 0 where the shard had no version; so many of
    /// its Deletes were answered.
    Collected { floor: u64, deleted: u64 },
}
