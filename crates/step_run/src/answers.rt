// What an expirer answers, and why a command isn't begun.
ghost use Rattle.std.specs.Prelude.{◌≡◌};
ghost use Rattle.step_run.specs.Sayings.{expire_says, refusal_says};

use crate::sayings::Saying;
use history_core::ExpireAnswer;
use load_core::BeginFault;

/// What an expirer's answer says.
pub fn expire_says(answer: ExpireAnswer) -> Option<Saying>
    ensures { result ≡ expire_says answer }
{
    match answer {
        ExpireAnswer::Removed { members } => Some(Saying::Removed(members)),
        ExpireAnswer::NoneDue { version } => Some(Saying::NoneDue { version }),
    }
}

/// What is said where a command isn't begun.
pub fn refusal_says(fault: BeginFault) -> Option<Saying>
    ensures { result ≡ refusal_says fault }
{
    match fault {
        BeginFault::Gone => Some(Saying::Gone),
        BeginFault::Open => Some(Saying::Open),
        BeginFault::NoListen => Some(Saying::NoListen),
        BeginFault::TokensSpent => Some(Saying::TokensSpent),
        BeginFault::EmptyRange => Some(Saying::Empty),
        BeginFault::OutOfRange { index } => Some(Saying::Range { row: index }),
        BeginFault::Memory | BeginFault::TooMany { .. } | BeginFault::TooHeavy => None,
    }
}
