// What a trail accepts.
ghost use Rattle.std.specs.Prelude.{◌≡◌, IfOk, reverse};
ghost use Rattle.store_core.specs.declared.shards.ShardId.{ShardId};
ghost use Rattle.store_core.specs.Stores.{Stored};
ghost use Rattle.history_core.specs.Accepting.{IsOriginOf};
ghost use Rattle.history_core.specs.Stands.{accepted_of};
ghost use Rattle.history_core.specs.Walks.{walk_back};
ghost use Rattle.history_core.specs.WalkViews.{walked_of};

use crate::walks::Walk;
use std::alloc::{AllocError, Global};
use store_core::Entry;
use update_core::UpdateList;

fn walked(alloc: Global, start: &UpdateList, trail: &[Entry]) -> Result<Walk, AllocError>
    ensures { IfOk result (λ walk. walked_of walk ≡ walk_back start.now (reverse trail.now)) }
{
    let mut walk = Walk::new(alloc, start.copy(alloc)?);
    for entry in trail {
        walk.take(entry)?;
    }
    Ok(walk)
}

/// The updates at the start of a trail, and then the rows of each append that committed in it. It fails only for want of
/// memory.
pub fn accepted(
    alloc: Global,
    start: &UpdateList,
    trail: &[Entry],
) -> Result<UpdateList, AllocError>
    // Whatever store the trail began from.
    ensures { (origin : Stored) (shard : ShardId) → IsOriginOf origin shard start.now trail.now
        → IfOk result (λ list. list ≡ accepted_of shard start.now (record { start = origin; trail = trail.now })) }
{
    let walk = walked(alloc, start, trail)?;
    Ok(walk.into_rows())
}
