//! What the workers of a crew may call, and what their competing appends make of a collection: words and laws, no threads.
//! `docs/DEFINITIONS.md`, "Crews", states them in plain words.
#![tactic(auto)]

mod jobs;
pub mod laws;

pub use jobs::Job;
