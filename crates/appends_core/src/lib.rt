//! Lists of appends, and when they are those of a feed. `docs/DEFINITIONS.md`, "Feeds of appends", states it in plain words.
#![tactic(auto)]

mod append_lists;
mod feed_checks;

pub use append_lists::AppendList;
pub use feed_checks::is_feed;
