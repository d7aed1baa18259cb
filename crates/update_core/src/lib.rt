//! Updates (datum, time, difference), frontiers, and consolidation.
#![tactic(auto)]

mod appends;
mod consolidating;
mod counting;
mod data;
mod frontiers;
pub mod laws;
pub mod merging;
mod row_lists;
mod rows;
mod sums;
mod update_lists;
mod updates;

pub use appends::FeedAppend;
pub use data::{Datum, DatumFault};
pub use frontiers::Frontier;
pub use row_lists::RowList;
pub use rows::Row;
pub use sums::{advance, consolidate, slice_between, sum_at, weight};
pub use update_lists::UpdateList;
pub use updates::Update;
