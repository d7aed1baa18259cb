//! What a crash leaves of a collection whose store stands in a file: laws, no code. `docs/DEFINITIONS.md`, "What a crash leaves of a
//! collection", states them in plain words.
#![tactic(auto)]

pub mod laws;
