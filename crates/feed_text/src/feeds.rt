// A whole feed.
use crate::feed_line_lists::FeedLines;

/// The commands that a text spells. See docs/DEFINITIONS.md, "Feeds".
#[derive(Drop)]
pub struct Feed {
    pub lines: FeedLines,
}
