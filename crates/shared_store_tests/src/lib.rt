//! Threads at one store: what callers of a shared store write, proved by its contracts alone, and run by tests.
#![tactic(auto)]

mod callers;
mod openings;

pub use callers::{call_once, set_by_two, set_many};
pub use openings::{open_at, open_through, poll_to_end};

#[cfg(test)]
mod tests;
