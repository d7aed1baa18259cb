//! Parts that are set under a token of a member, and then a transition that names them, tried until it is in or refused, with the
//! recovery by the token where a call has failed. What such a command comes to, and what that means in a history.
#![tactic(auto)]

pub mod laws;
mod storeds;
mod storings;

pub use storeds::{Stored, stored_of};
pub use storings::Storing;
