// What the words of `ingest` say.
use ingest_run::CrewSize;
use store_core::ShardId;

/// The shard that the words of `ingest` name, and the size of the crew.
#[derive(Drop)]
pub struct CrewWords {
    pub shard: ShardId,
    pub size: CrewSize,
}
