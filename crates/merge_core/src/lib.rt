//! What a merge of two batches tries, and the parts that it sets. `docs/DEFINITIONS.md`, "What a merge drafts", states it.
#![tactic(auto)]

mod drafts;
pub mod laws;

pub use drafts::{MergeDraft, Owner, merge_draft};
