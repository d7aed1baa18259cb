ghost use Rattle.std.specs.Prelude.{◌≡◌, IfOk};

use spine_core::*;
use std::alloc::{AllocError, Global};
use std::test::Fail;
use store_core::{PartKey, ShardId};
use update_core::Frontier;

fn key(index: u64) -> PartKey {
    PartKey {
        shard: ShardId(7),
        member: 1,
        token: 2,
        index,
    }
}

// A batch with one part.
fn batch(alloc: Global, lower: u64, upper: Frontier, rows: u64) -> Result<Batch, AllocError>
    ensures lower { IfOk result (λ batch. batch.desc.lower ≡ lower) }
    ensures upper { IfOk result (λ batch. batch.desc.upper ≡ upper) }
{
    let mut parts = KeyList::new(alloc);
    parts.push(key(lower))?;
    let desc = Desc {
        lower,
        upper,
        since: 0,
    };
    Ok(Batch { desc, parts, rows })
}

// The frontier that a push was told to begin at.
fn end_told(pushed: &Result<(), SpineFault>) -> Option<Frontier> {
    match pushed {
        Err(SpineFault::NotNext { upper }) => Some(*upper),
        _ => None,
    }
}

#[test]
fn a_gap_is_refused(rt: HostRuntime) -> Result<(), Fail> {
    let alloc = rt.alloc();
    let mut spine = Spine::new(alloc);
    assert!(rt; spine.upper() == Frontier::at(0) && spine.rows() == 0);
    let refused = spine.push(batch(alloc, 5, Frontier::at(10), 1)?);
    assert!(rt; end_told(&refused) == Some(Frontier::at(0)));
    assert!(rt; spine.batches().is_empty());
    Ok(())
}

#[test]
fn two_small_batches_are_merged(rt: HostRuntime) -> Result<(), Fail> {
    let alloc = rt.alloc();
    let mut spine = Spine::new(alloc);
    spine.push(batch(alloc, 0, Frontier::at(5), 1)?)?;
    spine.push(batch(alloc, 5, Frontier::at(10), 1)?)?;
    assert!(rt; spine.rows() == 2);
    assert!(rt; spine.due() == Some((0, 1)));
    let left = batch(alloc, 0, Frontier::at(5), 1)?;
    let right = batch(alloc, 5, Frontier::at(10), 1)?;
    spine.replace(&left, &right, batch(alloc, 0, Frontier::at(10), 2)?)?;
    let again = spine.replace(&left, &right, batch(alloc, 0, Frontier::at(10), 2)?);
    assert!(rt; matches!(again, Err(SpineFault::Gone)));
    let copy = spine.copy(alloc)?;
    assert!(rt; copy.upper() == Frontier::at(10));
    assert_eq!(rt; copy.batches().len(), 1);
    let merged = copy.batches()[0].copy(alloc)?;
    assert!(rt; merged.rows == 2 && merged.parts.as_slice() == [key(0)].as_slice());
    assert!(rt;
        merged.is_same(&merged) && !merged.is_same(&left) && !left.parts.is_same(&right.parts)
    );
    Ok(())
}

#[test]
fn a_batch_of_twice_the_weight_stays(rt: HostRuntime) -> Result<(), Fail> {
    let alloc = rt.alloc();
    for (left, right, due) in [(9, 4, None), (8, 4, Some((0, 1)))] {
        let mut spine = Spine::new(alloc);
        spine.push(batch(alloc, 0, Frontier::at(5), left)?)?;
        spine.push(batch(alloc, 5, Frontier::closed(), right)?)?;
        assert!(rt; spine.rows() <= 1 << 62);
        assert!(rt; spine.due() == due, "at {left} and {right}");
    }
    Ok(())
}
