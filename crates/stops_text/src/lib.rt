//! Stop numbers of workers as a text: `w:k` items with a comma between two.
#![tactic(auto)]

mod stop_lists;

pub use stop_lists::parse_stops;
