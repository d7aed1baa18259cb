//! Blobs and numbered versions: calls, replies, histories, the traits of a store and of a port, and a store in memory.
#![tactic(auto)]

mod blob_lists;
mod byte_lists;
mod byte_strings;
mod calls;
mod contents;
mod direct_ports;
mod entries;
mod fault_lists;
mod faults;
pub mod laws;
mod mem_stores;
mod outcomes;
mod part_keys;
mod ports;
mod replies;
mod shard_lists;
mod shard_logs;
mod shards;
mod starting;
mod stores;
mod turns;
mod version_lists;
mod versions;

pub use blob_lists::BlobList;
pub use byte_lists::BytesList;
pub use byte_strings::Bytes;
pub use calls::Call;
pub use contents::Contents;
pub use direct_ports::DirectPort;
pub use entries::Entry;
pub use fault_lists::FaultList;
pub use faults::FaultAt;
pub use mem_stores::MemStore;
pub use outcomes::Outcome;
pub use part_keys::PartKey;
pub use ports::Port;
pub use replies::Reply;
pub use shard_lists::ShardList;
pub use shards::ShardId;
pub use stores::Store;
pub use turns::Turn;
pub use version_lists::VersionList;
pub use versions::Version;
