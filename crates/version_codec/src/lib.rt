//! The bytes of a version: the state of a shard, and the transition that made it.
#![tactic(auto)]

mod batch_fields;
mod decoding;
mod encoding;
mod fields;
mod heads;
mod key_sets;
pub mod laws;
mod steps;
mod version_faults;

pub use decoding::decode_version;
pub use encoding::encode_version;
pub use version_faults::VersionFault;
