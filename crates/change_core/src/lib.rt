//! A change of a shard's members that a client tries: a member joins, leaves, renews or advances. What it comes to, and what that
//! means, once for every kind of member.
#![tactic(auto)]

pub mod laws;
mod outcomes;

pub use outcomes::{Outcome, number_of, outcome_of};
