// How far a shard has come.
use update_core::Frontier;

/// A shard's upper and its weight: those of its last version, or 0 where it has none.
#[derive(Drop)]
pub struct Extent {
    pub upper: Frontier,
    pub weight: u64,
}
