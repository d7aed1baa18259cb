//! Bytes that are read from left to right: places, and numbers with their highest byte first.
#![tactic(auto)]

mod reading;
mod shorts;

pub use reading::{next_byte, next_u16, next_u32, next_u64, place_of};
pub use shorts::Short;
