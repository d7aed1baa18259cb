//! Tests of texts: words, feeds, schedules, shared feeds, sources, appends and bindings.
#![tactic(auto)]

#[cfg(test)]
mod appends;
#[cfg(test)]
mod bindings;
#[cfg(test)]
mod feeds;
#[cfg(test)]
mod ingests;
#[cfg(test)]
mod reclocks;
#[cfg(test)]
mod schedules;
#[cfg(test)]
mod streams;
#[cfg(test)]
mod words;
