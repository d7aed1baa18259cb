//! Tests of updates, stores, batches and parts.
#![tactic(auto)]

#[cfg(test)]
mod batches;
#[cfg(test)]
mod clients;
#[cfg(test)]
mod parts;
#[cfg(test)]
mod slow_sums;
#[cfg(test)]
mod stores;
#[cfg(test)]
mod updates;
