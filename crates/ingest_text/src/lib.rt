//! The feed of `ingest` line by line: a since, appends that follow on one another, and questions.
#![tactic(auto)]

mod counts;
mod feeds;
mod ingest_parsing;
mod ingest_reading;
pub mod laws;
mod limits;
mod rules;
mod timed_lines;

pub use feeds::IngestFeed;
pub use ingest_parsing::parse_ingest;
pub use limits::{MAX_LISTENS, MAX_WEIGHT};
