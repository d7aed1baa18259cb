// What one operator has seen at one time.
use remap_core::SourceFrontier;

/// An operator has seen these offsets at a time. See docs/DEFINITIONS.md, "Feeds of reclock".
#[derive(Drop)]
pub struct Saw {
    pub operator: u32,
    pub time: u64,
    pub frontier: SourceFrontier,
}
