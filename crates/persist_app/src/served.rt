// The commands that are served.
use store_core::ShardId;

/// A command that the program has, and the shard that its words name.
#[derive(Clone, Copy, Debug)]
pub enum Served {
    /// `run`: a feed with one writer and one reader.
    Run(ShardId),
    /// `steps`: a schedule of store calls.
    Steps(ShardId),
}
