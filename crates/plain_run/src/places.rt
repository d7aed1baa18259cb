// Where a run takes place.
use store_core::ShardId;

/// The shard of a run, the two clients as which its writer and its reader call the store, and the number from which on the clients
/// are numbered that its lines make.
#[derive(Clone, Copy, Debug)]
pub struct Place {
    pub shard: ShardId,
    pub writer: u64,
    pub reader: u64,
    pub others: u64,
}
