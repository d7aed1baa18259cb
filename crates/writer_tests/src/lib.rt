//! Tests of a writer at one store.
#![tactic(auto)]

#[cfg(test)]
mod writers;
