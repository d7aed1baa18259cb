//! A compactor of a shard: a client that joins, merges batches that are due, renews its lease and leaves.
#![tactic(auto)]

mod compactors;
mod dues;
mod fitting;
mod founds;
pub mod laws;
mod machines;
mod pair_bounds;
mod pairs;
mod polling;
mod row_bounds;
mod settling;
mod taking;

pub use compactors::Compactor;
pub use history_core::{Asked, MergeAnswer};
pub use load_core::{BeginFault, Damage, Poll};
