// WriteAnswer: what a writer answers.

use update_core::Frontier;

/// What a writer answers to a command. `Legal` in specs/ says of each where it may come.
#[derive(Drop)]
pub enum WriteAnswer {
    /// The writer joined with this member, as this version.
    Opened { member: u64, version: u64 },
    /// In this version, the last one then, as many members stand as can.
    MembersFull { version: u64 },
    /// The append was accepted, once.
    Ok,
    /// The append was not accepted: the upper was not at the expected time, but `current`.
    Mismatch { current: Frontier },
    /// The append was not accepted: with it the weight, which was `weight`, would have passed 2^62.
    Heavy { weight: u64 },
    /// The writer left as this version, or was gone already in this one.
    Closed { version: u64 },
}
