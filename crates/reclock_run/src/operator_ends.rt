// Why an operator's work ended early.

/// Why an operator's work ended early. See docs/DEFINITIONS.md, "Reclocks".
#[derive(Clone, Copy, Debug)]
pub enum OperatorEnd {
    /// Memory was refused to it.
    Memory,
    /// It found a shard damaged, or was told what no collection tells that only operators change.
    Damaged,
    /// No number is left for a version.
    Spent,
    /// As many members stand as can.
    MembersFull,
    /// A call of it failed.
    Faulted,
}
