// A pair of batches and what they hold.
ghost use Rattle.std.specs.Prelude.{◌≤◌, ◌^◌, IfOk};
ghost use Rattle.update_core.specs.Limits.{max_weight};
ghost use Rattle.update_core.specs.Updates.{weight_of};
ghost use Rattle.merge_core.specs.Drafting.{IsDraft};

use merge_core::{MergeDraft, Owner, merge_draft};
use spine_core::Batch;
use std::alloc::{AllocError, Global};
use update_core::UpdateList;

/// Two batches, one after the other, of which a state says that they are due; that state's since; and the rows of both.
#[derive(Drop)]
pub(crate) struct Pair {
    pub left: Batch,
    pub right: Batch,
    pub since: u64,
    pub rows: UpdateList,
}

impl Pair {
    /// The draft of its merge. All memory is taken here. It fails only for want of it.
    pub(crate) fn draft(&self, alloc: Global, owner: Owner) -> Result<MergeDraft, AllocError>
        requires { weight_of self.now.rows ≤ max_weight }
        ensures { IfOk result (IsDraft owner self.now.left self.now.right self.now.since self.now.rows) }
    {
        let left = self.left.copy(alloc)?;
        let right = self.right.copy(alloc)?;
        let rows = self.rows.copy(alloc)?;
        merge_draft(alloc, owner, left, right, self.since, rows)
    }
}
