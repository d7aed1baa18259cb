// ExpireAnswer: what an expirer answers.

use causes::NumberList;

/// What an expirer answers to an expiry. `LegalExpire` in specs/ says of each where it may come.
#[derive(Drop)]
pub enum ExpireAnswer {
    /// The members of these numbers were removed: all whose lease had run out, in the order of the state.
    Removed { members: NumberList },
    /// No lease has run out in this version, the last one then. It is 0 where the shard has no version.
    NoneDue { version: u64 },
}
