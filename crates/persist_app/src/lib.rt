//! The calls that programs make: the words, a feed from a source, and its replies to a sink.
#![tactic(auto)]

mod clocks;
mod crew_words;
mod disk_ends;
mod disk_lefts;
mod disk_statuses;
mod ends;
mod last_lines;
mod on_disk;
mod plain;
mod served;
mod statuses;
mod system_clocks;
mod top;
mod watched;
mod watching;
mod words;

pub use clocks::{Clock, FixedClock};
pub use disk_ends::DiskEnded;
pub use disk_lefts::DiskLeft;
pub use ends::Ended;
pub use on_disk::persist_on_disk;
pub use plain::persist_plain;
pub use system_clocks::SystemClock;
pub use top::persist_top;
