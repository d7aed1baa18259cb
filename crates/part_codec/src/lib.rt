//! Parts as bytes: the one spelling of the rows of a part, and the reading of it.
#![tactic(auto)]

mod decoding;
mod encoding;
pub mod laws;
mod part_faults;

pub use decoding::decode_part;
pub use encoding::encode_part;
pub use part_faults::PartFault;
