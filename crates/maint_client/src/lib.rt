//! Clients that keep a shard in order, polled over any port: the expirer, which removes the members whose lease has run out, and the
//! collector, which removes the versions below the floor and the parts that merges up to it took.
#![tactic(auto)]

mod collectors;
mod expirers;
mod expiries;
pub mod laws;
mod sweeps;

pub use collectors::Collector;
pub use expirers::Expirer;
pub use expiries::Expiry;
pub use history_core::{Asked, CollectAnswer, ExpireAnswer};
pub use load_core::{BeginFault, Damage, Poll};
pub use sweeps::Sweep;
