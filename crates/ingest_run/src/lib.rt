//! The command `ingest`: the appends of a feed by a crew of threads, and the replies to its questions by one thread after it.
#![tactic(auto)]

mod asking;
mod beginning;
mod bounds;
mod ends;
mod extents;
mod faults;
mod finishing;
mod ingests;
mod leaving;
mod looks;
mod sizes;

pub use faults::IngestFault;
pub use ingests::{IngestEnd, ingest};
pub use sizes::CrewSize;
