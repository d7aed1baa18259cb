use merge_core::{Owner, merge_draft};
use spine_core::{Batch, Desc, KeyList};
use state_core::Transition;
use std::alloc::{AllocError, Global};
use store_core::{PartKey, ShardId};
use update_core::{Datum, Frontier, Update, UpdateList, weight};

const SHARD: ShardId = ShardId(1);

fn batch(
    alloc: Global,
    lower: u64,
    upper: u64,
    token: u64,
    rows: u64,
) -> Result<Batch, AllocError> {
    let mut parts = KeyList::new(alloc);
    parts.push(PartKey {
        shard: SHARD,
        member: 0,
        token,
        index: 0,
    })?;
    let upper = Frontier::at(upper);
    Ok(Batch {
        desc: Desc {
            lower,
            upper,
            since: 0,
        },
        parts,
        rows,
    })
}

fn rows_of(alloc: Global, rows: &[(u8, u64, i64)]) -> Result<UpdateList, AllocError> {
    let mut list = UpdateList::new(alloc);
    for (datum, time, diff) in rows {
        let Ok(datum) = Datum::of(alloc, &[*datum]) else {
            return Err(AllocError);
        };
        list.push(Update {
            datum,
            time: *time,
            diff: *diff,
        })?;
    }
    Ok(list)
}

// At since 6 the x of time 1 meets the one that takes it back, and one row is left.
#[test]
fn two_batches_of_three_rows(rt: HostRuntime) -> Result<(), AllocError> {
    let alloc = rt.alloc();
    let rows = rows_of(alloc, &[(b'x', 1, 1), (b'x', 6, -1), (b'y', 7, 2)])?;
    if weight(&rows) > 1 << 62 {
        return Err(AllocError);
    }
    let owner = Owner {
        shard: SHARD,
        member: 3,
        token: 4,
    };
    let left = batch(alloc, 0, 5, 1, 1)?;
    let right = batch(alloc, 5, 10, 2, 2)?;
    let draft = merge_draft(alloc, owner, left, right, 6, rows)?;
    let Transition::Merge {
        member,
        token,
        merged,
        ..
    } = &draft.step
    else {
        return Err(AllocError);
    };
    assert_eq!(rt; (*member, *token, merged.rows), (3, 4, 1));
    let Desc {
        lower,
        upper,
        since,
    } = merged.desc;
    assert_eq!(rt; (lower, since), (0, 6));
    assert!(rt; upper == Frontier::at(10));
    let [key] = merged.parts.as_slice() else {
        return Err(AllocError);
    };
    assert_eq!(rt; (key.member, key.token, key.index), (3, 4, 0));
    let [part] = draft.setting.parts.as_slice() else {
        return Err(AllocError);
    };
    // The letters PART, the form, one row: y at 7, twice.
    let spelled =
        b"PART\x01\x00\x00\x00\x01\x01y\x00\x00\x00\x00\x00\x00\x00\x07\x00\x00\x00\x00\x00\x00\x00\x02";
    assert_eq!(rt; part.as_slice(), spelled.as_slice());
    Ok(())
}
