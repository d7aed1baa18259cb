// How a run ends.

/// How a run ends, before its last line is written.
#[derive(Clone, Copy, Debug)]
pub enum Ending {
    /// All replies are written.
    Complete,
    /// The first line outside the grammar or a limit, counted from 1.
    BadLine { number: u64 },
    /// A read failed.
    InputFailed,
    /// A put failed.
    OutputFailed,
    /// A store call failed.
    StoreFailed,
    /// Memory was refused.
    Memory,
    /// The shard in the store is damaged.
    Damaged,
    /// As many members stand in the shard as can.
    MembersFull,
    /// The shard has its last version.
    Spent,
}
