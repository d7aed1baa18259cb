// What a batch covers.
use update_core::Frontier;

/// The times of a batch: from `lower` on, up to `upper`, each moved to `since` where it was before.
#[derive(Clone, Copy, Debug, PartialEq, Eq)]
pub struct Desc {
    pub lower: u64,
    pub upper: Frontier,
    pub since: u64,
}
