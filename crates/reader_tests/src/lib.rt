//! Tests of a reader at one store.
#![tactic(auto)]

#[cfg(test)]
mod readers;
