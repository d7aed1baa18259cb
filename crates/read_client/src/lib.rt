//! A reader of a shard: a client that joins, reads the collection at a time or step by step, and leaves, polled over any port.
#![tactic(auto)]

pub mod laws;
mod machines;
mod questions;
mod readers;
mod settling;
mod taking;

pub use history_core::{Asked, ReadAnswer};
pub use load_core::{BeginFault, Damage, Poll};
pub use readers::Reader;
