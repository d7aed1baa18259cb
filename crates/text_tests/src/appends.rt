// What makes a feed, by examples.
use appends_core::*;
use std::alloc::Global;
use std::test::Fail;
use update_core::{Datum, FeedAppend, Frontier, Update, UpdateList};

// One row at each of these times, with this difference.
fn rows_at(alloc: Global, times: &[u64], diff: i64) -> Result<UpdateList, Fail> {
    let mut rows = UpdateList::new(alloc);
    for time in times {
        let datum = Datum::of(alloc, b"a")?;
        rows.push(Update {
            datum,
            time: *time,
            diff,
        })?;
    }
    Ok(rows)
}

// Whether 0 to 10 with a row at 3, and then an append with these bounds and rows, make a feed.
fn is_second(
    alloc: Global,
    lower: u64,
    upper: Frontier,
    times: &[u64],
    diff: i64,
) -> Result<bool, Fail> {
    let mut appends = AppendList::new(alloc);
    appends.push(FeedAppend {
        lower: 0,
        upper: Frontier::at(10),
        rows: rows_at(alloc, &[3], 1)?,
    })?;
    appends.push(FeedAppend {
        lower,
        upper,
        rows: rows_at(alloc, times, diff)?,
    })?;
    Ok(is_feed(&appends))
}

#[test]
fn appends_make_a_feed_where_they_follow_on(rt: HostRuntime) -> Result<(), Fail> {
    let alloc = rt.alloc();
    let most = 1i64 << 62;
    assert!(rt; is_feed(&AppendList::new(alloc)));
    assert!(rt; is_second(alloc, 10, Frontier::at(20), &[10, 19], 1)?);
    assert!(rt; is_second(alloc, 10, Frontier::closed(), &[], 1)?);
    // A gap, an empty range, a row before it, a row behind it, and a weight of one too much.
    assert!(rt; !is_second(alloc, 11, Frontier::at(20), &[12], 1)?);
    assert!(rt; !is_second(alloc, 10, Frontier::at(10), &[], 1)?);
    assert!(rt; !is_second(alloc, 10, Frontier::at(20), &[9], 1)?);
    assert!(rt; !is_second(alloc, 10, Frontier::at(20), &[20], 1)?);
    assert!(rt; !is_second(alloc, 10, Frontier::at(20), &[10], most)?);
    assert!(rt; is_second(alloc, 10, Frontier::at(20), &[10], most - 1)?);
    Ok(())
}

// A copy is equal, so it makes the same feed.
#[test]
fn a_copy_has_the_same_appends(rt: HostRuntime) -> Result<(), Fail> {
    let alloc = rt.alloc();
    let mut appends = AppendList::new(alloc);
    appends.push(FeedAppend {
        lower: 0,
        upper: Frontier::closed(),
        rows: rows_at(alloc, &[7, 8], -1)?,
    })?;
    let copy = appends.copy(alloc)?;
    assert_eq!(rt; copy.as_slice().len(), 1);
    assert!(rt; is_feed(&copy));
    Ok(())
}
