//! Tests of what merges draft.
#![tactic(auto)]

#[cfg(test)]
mod drafts;
