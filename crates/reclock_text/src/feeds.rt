// A whole feed of `reclock`.
use crate::saw_lists::SawList;
use remap_core::SourceList;

/// What a text says that operators have seen, and a source's rows. See docs/DEFINITIONS.md, "Feeds of reclock".
#[derive(Drop)]
pub struct ReclockFeed {
    pub saws: SawList,
    pub rows: SourceList,
}
