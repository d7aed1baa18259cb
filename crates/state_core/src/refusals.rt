// Why a transition is refused.
ghost use Rattle.std.specs.Prelude.{◌≡◌};
ghost use Rattle.state_core.specs.declared.refusals.Refusal.TheVariants.{Memory};

use std::alloc::AllocError;
use thiserror::Error;
use update_core::Frontier;

/// Why a transition doesn't apply to a state: after `Memory`, in the order in which the reasons are looked at. The state
/// is then as it was.
#[derive(Debug, Drop, Error)]
pub enum Refusal {
    /// Memory was refused.
    #[error("out of memory")]
    Memory,
    /// The transition breaks a rule of its shape.
    #[error("the transition isn't well formed")]
    Shape,
    /// The state has the last number.
    #[error("no number is left")]
    Spent,
    /// The member doesn't stand, or is of another kind.
    #[error("the member isn't there")]
    NoMember,
    /// The token isn't above the member's, which is `last`.
    #[error("the token is spent")]
    TokenOld { last: u64 },
    /// The collection isn't known up to the expected time, but up to `current`.
    #[error("the upper is another")]
    UpperIs { current: Frontier },
    /// The weight would pass the limit. It is `weight` now.
    #[error("the shard is too heavy")]
    Heavy { weight: u64 },
    /// The reader's since, which is `since`, would go back.
    #[error("since would go back")]
    Back { since: u64 },
    /// As many members stand as can stand, which are `count`.
    #[error("no more members can join")]
    MembersFull { count: u64 },
    /// The first of two batches isn't there with the other directly after it.
    #[error("the two batches aren't there")]
    NotPresent,
    /// No lease has run out.
    #[error("no lease has run out")]
    NotDue,
}

impl From<AllocError> for Refusal {
    ghost from_gives = { λ _ e. e ≡ Memory };

    fn from(_: AllocError) -> Self {
        Refusal::Memory
    }
}
