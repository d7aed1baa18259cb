// How a schedule ends.

/// How a schedule ends, before its last line is written. See docs/DEFINITIONS.md, "Schedules executed".
#[derive(Clone, Copy, Debug)]
pub enum Ending {
    /// All lines were executed, and their text is written.
    Complete,
    /// A line is outside the grammar or a limit, and nothing was executed.
    BadLine { number: u64 },
    /// A read failed.
    InputFailed,
    /// A put failed.
    OutputFailed,
    /// A store call failed while a client was opened, or at a Head.
    StoreFailed,
    /// Memory was refused.
    Memory,
    /// The shard in the store is damaged.
    Damaged,
    /// The shard has its last version.
    Spent,
}
