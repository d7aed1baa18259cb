//! A store that threads call by turns, and its ports.
#![tactic(auto)]

mod counted_stores;
mod shared_ports;
mod shared_stores;
mod single_turns;

pub use counted_stores::CountedStore;
pub use shared_ports::SharedPort;
pub use shared_stores::{SharedStore, shares_turnstile};
