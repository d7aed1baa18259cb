// What a change that a client tries comes to.
ghost use Rattle.std.specs.Prelude.{◌≡◌, option_copied};
ghost use Rattle.change_core.specs.Changes.{absent_outcome, committed_outcome, full_outcome, is_gone, join_outcome, last_member, member_outcome, number_of, outcome, refused_outcome, since_of};

use load_core::{Damage, Tried, Trying};
use state_core::{Refusal, State, Transition};

/// What a change that a client tries comes to. The versions are those of the newest state. See docs/DEFINITIONS.md, "Changes of members".
#[derive(Debug, Drop)]
pub enum Outcome {
    /// One call was answered. The change is to be tried on.
    Going,
    /// One call failed. The change is to be tried on.
    Fault,
    /// The member has joined: its number, the version in which it joined, and the shard's since there.
    Joined {
        member: u64,
        version: u64,
        since: u64,
    },
    /// 256 members stand, so none can join.
    Full {
        version: u64,
    },
    /// The change is in, as this version.
    Committed {
        version: u64,
    },
    /// The member's since is this one, past the time that was asked.
    Back {
        since: u64,
    },
    /// The member doesn't stand.
    Gone {
        version: u64,
    },
    /// The member is shown otherwise than it was left.
    Strange {
        version: u64,
    },
    /// No number is left.
    Spent,
    /// A version can't be read.
    Damaged(Damage),
}

/// What the change comes to for the member of this number, by what trying it comes to. See docs/DEFINITIONS.md, "Changes of members".
pub fn outcome_of(trying: &Trying, member: u64, tried: Tried) -> Outcome
    ensures { result ≡ outcome trying.now member tried }
{
    match tried {
        Tried::Committed { version } => {
            committed_of(trying.loader.state(), &trying.step, version)
        }
        Tried::Begun | Tried::Again | Tried::Goes => Outcome::Going,
        Tried::Fault => Outcome::Fault,
        Tried::Refused(refusal) => refused_of(trying.loader.state(), member, &trying.step, refusal),
        Tried::Spent => Outcome::Spent,
        Tried::Damaged(damage) => Outcome::Damaged(damage),
    }
}

// What the change comes to where it is in as a version, which is the newest.
fn committed_of(newest: Option<&State>, step: &Transition, version: u64) -> Outcome
    ensures { result ≡ committed_outcome (option_copied newest.entry) step.now version }
{
    match step {
        Transition::Join { .. } => Outcome::Joined {
            member: last_member(newest),
            version,
            since: since_of(newest),
        },
        _ => Outcome::Committed { version },
    }
}

// What it comes to for the member of this number where the newest state refuses it.
fn refused_of(newest: Option<&State>, member: u64, step: &Transition, refusal: Refusal) -> Outcome
    ensures { result ≡ refused_outcome (option_copied newest.entry) member step.now refusal }
{
    match step {
        Transition::Join { .. } => join_outcome(newest, refusal),
        _ => member_outcome(newest, member, refusal),
    }
}

fn join_outcome(newest: Option<&State>, refusal: Refusal) -> Outcome
    ensures { result ≡ join_outcome (option_copied newest.entry) refusal }
{
    let version = number_of(newest);
    match refusal {
        Refusal::MembersFull { .. } => full_outcome(version),
        _ => Outcome::Strange { version },
    }
}

// That no number is left comes before that 256 members stand.
fn full_outcome(version: u64) -> Outcome
    ensures { result ≡ full_outcome version }
{
    if version == u64::MAX {
        return Outcome::Spent;
    }
    Outcome::Full { version }
}

fn member_outcome(newest: Option<&State>, member: u64, refusal: Refusal) -> Outcome
    ensures { result ≡ member_outcome (option_copied newest.entry) member refusal }
{
    match refusal {
        Refusal::Back { since } => Outcome::Back { since },
        Refusal::NoMember => absent_outcome(newest, member),
        _ => Outcome::Strange {
            version: number_of(newest),
        },
    }
}

fn absent_outcome(newest: Option<&State>, member: u64) -> Outcome
    ensures { result ≡ absent_outcome (option_copied newest.entry) member }
{
    let version = number_of(newest);
    if is_gone(newest, member) {
        return Outcome::Gone { version };
    }
    Outcome::Strange { version }
}

/// The number of the newest state, or 0 where none is known.
pub fn number_of(newest: Option<&State>) -> u64
    ensures { result ≡ number_of (option_copied newest.entry) }
{
    match newest {
        Some(state) => state.number(),
        None => 0,
    }
}

fn since_of(newest: Option<&State>) -> u64
    ensures { result ≡ since_of (option_copied newest.entry) }
{
    match newest {
        Some(state) => state.since(),
        None => 0,
    }
}

// The number of the member that joined last.
fn last_member(newest: Option<&State>) -> u64
    ensures { result ≡ last_member (option_copied newest.entry) }
{
    match newest {
        Some(state) => state.next_member().saturating_sub(1),
        None => 0,
    }
}

fn is_gone(newest: Option<&State>, member: u64) -> bool
    ensures { result ≡ is_gone member (option_copied newest.entry) }
{
    match newest {
        Some(state) => state.member(member).is_none(),
        None => true,
    }
}
