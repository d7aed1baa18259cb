//! The command `ingest` between a source and a sink: a feed is read, ingested and answered.
#![tactic(auto)]

mod commands;
mod endings;

pub use commands::{Ingested, run_ingest};
pub use endings::IngestEnding;
