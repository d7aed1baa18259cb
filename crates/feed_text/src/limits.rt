// The limits of a feed.

/// A feed has at most this many bytes.
pub const MAX_BYTES: usize = 16_777_216;

/// A feed has at most this many commands. An append block is one, and each other line is one.
pub const MAX_COMMANDS: usize = 2_048;

/// An append has at most this many rows.
pub const MAX_ROWS: usize = 65_536;
