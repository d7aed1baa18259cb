// What has been read of a feed, with its counts.
use crate::feeds::Said;
use update_core::Frontier;

// Where the appends end, what all rows weigh, and how many listens and commands there are; a block that is open is a command.
#[derive(Clone, Copy)]
pub(crate) struct Counts {
    pub(crate) end: Frontier,
    pub(crate) weight: u64,
    pub(crate) listens: u64,
    pub(crate) commands: u64,
}

// What the lines of a feed have said, and its counts.
#[derive(Drop)]
pub(crate) struct SoFar {
    pub(crate) said: Said,
    pub(crate) counts: Counts,
}
