// The limits of a feed of `ingest`, besides those of every feed.

/// A feed has at most this many lines `listen T`.
pub const MAX_LISTENS: u64 = 8;

/// The absolute differences of all rows sum to at most this.
pub const MAX_WEIGHT: u64 = 4_611_686_018_427_387_904;
