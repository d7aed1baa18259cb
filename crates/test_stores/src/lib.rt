//! Stores that tests share.
#![tactic(auto)]

mod untold_stores;

pub use untold_stores::UntoldStore;
