// The statuses of a program's call.

/// What a program's call ends with. See docs/DEFINITIONS.md, "Statuses".
#[derive(Clone, Copy, Debug)]
pub enum Status {
    /// All replies are written.
    Complete = 0,
    /// The words are no command.
    Words = 2,
    /// A line is outside the grammar or a limit.
    Line = 3,
    /// A read failed.
    Input = 4,
    /// A put failed.
    Output = 5,
    /// A store call failed.
    Store = 6,
    /// Every writer was stopped, or ended by a call that failed, before the feed's end.
    Short = 7,
    /// Memory was refused.
    Memory = 8,
    /// The shard in the store is damaged.
    Damaged = 9,
    /// As many members stand in the shard as can.
    MembersFull = 10,
    /// The shard has its last version.
    Spent = 11,
    /// The shard doesn't suit the command.
    Unfit = 12,
}
