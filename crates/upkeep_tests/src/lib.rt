//! Tests of a shard's upkeep: merges, collections and expiries beside writers and readers, as schedules of single store calls.
#![tactic(auto)]

#[cfg(test)]
mod executions;
#[cfg(test)]
mod faults;
#[cfg(test)]
mod keepings;
#[cfg(test)]
mod leases;
#[cfg(test)]
mod turns;
