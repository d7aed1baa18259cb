// A whole feed of `ingest`, and what has been read of one.
use appends_core::AppendList;
use feed_text::FeedLines;
use update_core::FeedAppend;

/// A since, appends that follow on one another, and snapshots and listens. See docs/DEFINITIONS.md, "Feeds of ingest".
#[derive(Drop)]
pub struct IngestFeed {
    pub since: Option<u64>,
    pub appends: AppendList,
    pub queries: FeedLines,
}

// What the lines of a feed have said: what is whole, and the append block that is open.
#[derive(Drop)]
pub(crate) struct Said {
    pub(crate) feed: IngestFeed,
    pub(crate) block: Option<FeedAppend>,
}
