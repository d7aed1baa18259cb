//! Tests of a shard's transitions, the bytes of its versions, and histories.
#![tactic(auto)]

#[cfg(test)]
mod histories;
#[cfg(test)]
mod transitions;
#[cfg(test)]
mod versions;
