//! The lines of a feed of `reclock`, and the texts of its replies.
#![tactic(auto)]

mod feeds;
pub mod laws;
mod limits;
mod pairs;
mod printing;
mod reclock_parsing;
mod reclock_reading;
mod saw_lines;
mod saw_lists;
mod saws;
mod source_lines;
mod word_cuts;

pub use feeds::ReclockFeed;
pub use limits::{MAX_OFFSET, MAX_SAWS, MAX_WEIGHT};
pub use printing::{print_bindings, print_data, print_operator, print_unbound};
pub use reclock_parsing::parse_reclock;
pub use saw_lists::SawList;
pub use saws::Saw;
