// What a state says of the pair that is due.
use crate::pairs::Pair;

/// What the newest state says of the pair that is due, and its parts.
#[derive(Drop)]
pub(crate) enum Found {
    /// No pair is due in this version.
    Nothing { version: u64 },
    /// The pair that is due, and the rows that were got.
    Due(Pair),
    /// The member doesn't stand in this version.
    Gone { version: u64 },
}
