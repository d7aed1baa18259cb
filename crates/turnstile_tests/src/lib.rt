//! Turns of threads at a tally: what callers of a turnstile write, proved by its contracts alone, and run by tests.
#![tactic(auto)]

mod adding;
mod marks;
mod tallies;
#[cfg(test)]
mod tests;

pub use adding::{add_by_threads, add_once};
pub use marks::Mark;
pub use tallies::Tally;
