// The limits of a feed of `reclock`, besides those of every feed.

/// A feed has at most this many lines of what was seen.
pub const MAX_SAWS: usize = 1_024;

/// An offset is at most this.
pub const MAX_OFFSET: u64 = 281_474_976_710_656;

/// The absolute differences of all rows sum to at most this.
pub const MAX_WEIGHT: u64 = 4_611_686_018_427_387_904;
