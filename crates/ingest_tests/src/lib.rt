//! Tests of the command `ingest`, by the program's call, in threads.
#![tactic(auto)]

#[cfg(test)]
mod calls;
#[cfg(test)]
mod feeds;
#[cfg(test)]
mod gates;
#[cfg(test)]
mod hollow_stores;
#[cfg(test)]
mod ingests;
