// The words of what a poll comes to.
use reclock_client::{ClockAnswer, Poll};
use update_core::Frontier;

/// The word of an ended command, and its number. Closed is 2^64 - 1.
pub type Word = (&'static str, u64);

fn place(frontier: Frontier) -> u64 {
    frontier.time().unwrap_or(u64::MAX)
}

fn answer_word(answer: &ClockAnswer) -> Word {
    match answer {
        ClockAnswer::Opened => ("opened", 0),
        ClockAnswer::MembersFull { version } => ("full", *version),
        ClockAnswer::Minted { time } => ("minted", *time),
        ClockAnswer::Lost { upper } => ("lost", place(*upper)),
        ClockAnswer::Synced { upper } => ("synced", place(*upper)),
        ClockAnswer::Published { upper } => ("published", place(*upper)),
        ClockAnswer::Foreign { time } => ("foreign", *time),
        ClockAnswer::Early { since } => ("early", *since),
        ClockAnswer::Heavy { weight } => ("heavy", *weight),
        ClockAnswer::Closed => ("closed", 0),
        ClockAnswer::Expired { version } => ("expired", *version),
    }
}

/// The word of a poll. None where the command is still open.
pub fn poll_word(poll: &Poll<ClockAnswer>) -> Option<Word> {
    match poll {
        Poll::Busy | Poll::More | Poll::Fault => None,
        Poll::Spent => Some(("spent", 0)),
        Poll::Damaged(_) => Some(("damaged", 0)),
        Poll::Done(answer) => Some(answer_word(answer)),
    }
}
