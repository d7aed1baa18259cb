// What a command that stores parts under a token comes to.
ghost use Rattle.std.specs.Prelude.{◌≡◌};
ghost use Rattle.token_machine.specs.Outcomes.{stored, token_outcome};

use load_core::{Damage, Tried, Trying};
use state_core::Refusal;

/// What a command that stores parts under a token, and then tries a transition that spends it, comes to.
#[derive(Debug, Drop)]
pub enum Stored {
    /// One call was answered. The command goes on.
    Going,
    /// One call failed. The command goes on.
    Fault,
    /// The transition is in, as this version: the call that was just answered.
    Now { version: u64 },
    /// The transition is in, as this version: the newest state has the token, and the last compare-and-set, which failed, was the one.
    Before { version: u64 },
    /// The newest state has a token of the member that this command didn't spend.
    Strange,
    /// The newest state refuses the transition, but not for its token.
    Refused(Refusal),
    /// No number is left.
    Spent,
    /// The reply shows that the shard is damaged.
    Damaged(Damage),
}

/// What a try under a token comes to.
pub fn stored_of(trying: &Trying, token: u64, tried: Tried) -> Stored
    ensures { result ≡ stored trying.now token tried }
{
    match tried {
        Tried::Committed { version } => Stored::Now { version },
        Tried::Begun | Tried::Again | Tried::Goes => Stored::Going,
        Tried::Fault => Stored::Fault,
        Tried::Refused(refusal) => token_outcome(trying, token, refusal),
        Tried::Spent => Stored::Spent,
        Tried::Damaged(damage) => Stored::Damaged(damage),
    }
}

fn token_outcome(trying: &Trying, token: u64, refusal: Refusal) -> Stored
    ensures { result ≡ token_outcome trying.now token refusal }
{
    match refusal {
        Refusal::TokenOld { last } => {
            if last == token && trying.failed {
                Stored::Before {
                    version: trying.tried.unwrap_or(0),
                }
            } else {
                Stored::Strange
            }
        }
        _ => Stored::Refused(refusal),
    }
}
