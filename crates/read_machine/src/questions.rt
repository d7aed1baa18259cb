// The trait of a question to a shard.
ghost use Rattle.std.specs.Prelude.{◌≡◌, ◌≤◌, ◌^◌, IfOk};
ghost use Rattle.update_core.specs.Limits.{max_weight};
ghost use Rattle.update_core.specs.Updates.{weight_of};
ghost use Rattle.read_machine.specs.Questions.{Questions};

use crate::looks::Look;
use state_core::{Kind, State};
use std::alloc::{AllocError, Global};
use update_core::UpdateList;

/// What a member asks of a shard: a state answers it, or names the parts that are to be read for it.
pub trait Question: Drop {
    /// What it is answered.
    type Answer;

    /// What is said of it.
    ghost question: { Questions Self Self.Answer };

    /// Whether a member of this kind asks it.
    fn takes(&self, kind: Kind) -> bool
        ensures { result ≡ question.takes kind };

    /// What a state says to it. It fails only for want of memory.
    fn look(&self, alloc: Global, state: &State) -> Result<Look<Self::Answer>, AllocError>
        ensures { IfOk result (λ look. look ≡ question.look self.now state.now) };

    /// The answer from the rows of the parts that the state named. It fails only for want of memory.
    fn answer(
        &self,
        alloc: Global,
        state: &State,
        rows: &UpdateList,
    ) -> Result<Self::Answer, AllocError>
        requires { weight_of rows.now ≤ max_weight }
        ensures { IfOk result (λ answer. answer ≡ question.answer self.now state.now rows.now) };

    /// The answer where the member doesn't stand in the newest version, which is this one.
    fn expired(&self, version: u64) -> Self::Answer
        ensures { result ≡ question.expired self.now version };
}
