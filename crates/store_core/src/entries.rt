// Entries of a history.
use crate::calls::Call;
use crate::outcomes::Outcome;

/// A call of a client with its outcome.
#[derive(Drop)]
pub struct Entry {
    pub client: u64,
    pub call: Call,
    pub outcome: Outcome,
}
