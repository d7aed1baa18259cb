// The draft of a merge.
ghost use Rattle.std.specs.Prelude.{◌≡◌, ◌≤◌, ◌^◌, IfOk};
ghost use Rattle.std.specs.List.{AllByRecursion};
ghost use Rattle.update_core.specs.Limits.{max_weight};
ghost use Rattle.byte_core.specs.ByteLists.{IsBytes};
ghost use Rattle.update_core.specs.Updates.{weight_of};
ghost use Rattle.merge_core.specs.Drafting.{IsDraft, merged_batch};

use load_core::{Setting, cut_parts};
use spine_core::{Batch, Desc, KeyList};
use state_core::Transition;
use std::alloc::{AllocError, Global};
use store_core::{BytesList, ShardId};
use update_core::{UpdateList, advance, consolidate};

/// Whose a merge is: a keeper of a shard, and the token under which its parts are set.
#[derive(Clone, Copy)]
pub struct Owner {
    pub shard: ShardId,
    pub member: u64,
    pub token: u64,
}

/// The transition that a merge tries, and the setting of the parts that it names.
#[derive(Drop)]
pub struct MergeDraft {
    pub step: Transition,
    pub setting: Setting,
}

// Each number of a byte string is a byte's.
fn see(bytes: &[u8])
    ensures { IsBytes bytes.now }
{}

// The same of each of the parts.
fn see_all(parts: &BytesList)
    ensures { AllByRecursion IsBytes parts.now }
{
    for part in parts.as_slice() {
        see(part.as_slice());
    }
}

// The batch that takes the place of two.
fn batch_over(left: &Batch, right: &Batch, since: u64, parts: KeyList, rows: u64) -> Batch
    ensures { result ≡ merged_batch left.now right.now since parts rows }
{
    Batch {
        desc: Desc {
            lower: left.desc.lower,
            upper: right.desc.upper,
            since,
        },
        parts,
        rows,
    }
}

/// The draft of a merge of two batches, one after the other, that hold these rows. They are moved up to `since`, a time, and
/// consolidated, in the memory where they stand; each part has 4,096 rows but for the last, which has the rest. All memory is taken
/// here. It fails only for want of it.
pub fn merge_draft(
    alloc: Global,
    owner: Owner,
    left: Batch,
    right: Batch,
    since: u64,
    rows: UpdateList,
) -> Result<MergeDraft, AllocError>
    requires { weight_of rows ≤ max_weight }
    ensures { IfOk result (IsDraft owner left right since rows) }
{
    let mut rows = rows;
    advance(&mut rows, since);
    let updates = consolidate(alloc, rows)?;
    let setting = cut_parts(
        alloc,
        owner.shard,
        owner.member,
        owner.token,
        updates.as_slice(),
    )?;
    see_all(&setting.parts);
    let keys = setting.keys.copy(alloc)?;
    let count = updates.as_slice().len() as u64;
    let merged = batch_over(&left, &right, since, keys, count);
    let step = Transition::Merge {
        member: owner.member,
        token: owner.token,
        left,
        right,
        merged,
    };
    Ok(MergeDraft { step, setting })
}
