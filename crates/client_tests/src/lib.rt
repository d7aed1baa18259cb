//! Clients at one store: what drives several of them by hand, over a store that tells nothing of its history, run by tests.
#![tactic(auto)]

mod drives;

pub use drives::{merge_on, read_on, write_on};

#[cfg(test)]
mod scenes;
#[cfg(test)]
mod tests;
