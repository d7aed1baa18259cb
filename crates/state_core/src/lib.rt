//! The state of a shard, and the transitions that make one state of another.
#![tactic(auto)]

mod applying;
mod drafts;
mod kinds;
pub mod laws;
mod member_lists;
mod members;
mod refusals;
mod refusing;
mod states;
pub mod token_laws;
mod transitions;

pub use drafts::Draft;
pub use kinds::Kind;
pub use member_lists::MemberList;
pub use members::Member;
pub use refusals::Refusal;
pub use states::State;
pub use transitions::Transition;
