use crate::slow_sums::sum_by_sort;
use std::alloc::Global;
use std::test::Fail;
use update_core::*;

fn list(alloc: Global, rows: &[(u8, u64, i64)]) -> Result<UpdateList, Fail> {
    let mut out = UpdateList::new(alloc);
    for row in rows {
        let (byte, time, diff) = *row;
        let datum = Datum::of(alloc, &[byte])?;
        out.push(Update { datum, time, diff })?;
    }
    Ok(out)
}

// Whether the updates are these, in this order.
fn are(updates: &[Update], want: &[(u8, u64, i64)]) -> bool {
    if updates.len() != want.len() {
        return false;
    }
    for (update, (byte, time, diff)) in updates.iter().zip(want) {
        if update.datum.bytes() != [*byte].as_slice()
            || update.time != *time
            || update.diff != *diff
        {
            return false;
        }
    }
    true
}

#[test]
fn a_datum_has_1_to_255_bytes(rt: HostRuntime) -> Result<(), Fail> {
    let none = Datum::of(rt.alloc(), b"");
    assert!(rt; matches!(none, Err(DatumFault::DatumSize { len: 0 })));
    let many = Datum::of(rt.alloc(), &[0; 256]);
    assert!(rt; matches!(many, Err(DatumFault::DatumSize { len: 256 })));
    let one = Datum::of(rt.alloc(), b"a")?;
    assert_eq!(rt; one.bytes(), b"a".as_slice());
    let copy = one.copy(rt.alloc())?;
    assert!(rt; copy == one && copy <= one);
    Ok(())
}

#[test]
fn frontiers(rt: HostRuntime) {
    let at = Frontier::at(5);
    let closed = Frontier::closed();
    assert!(rt; at.covers(4) && !at.covers(5) && closed.covers(u64::MAX));
    assert!(rt; at.reaches(5) && !at.reaches(4) && !closed.reaches(u64::MAX));
    assert!(rt; at.is_at(5) && !at.is_at(4) && !closed.is_at(5));
    assert!(rt; at.time() == Some(5) && closed.time() == None);
    assert!(rt; Frontier::after(4) == at && Frontier::after(u64::MAX) == closed);
    assert!(rt; at < closed && Frontier::at(4) < at && at == Frontier::at(5));
}

#[test]
fn consolidations(rt: HostRuntime) -> Result<(), Fail> {
    let alloc = rt.alloc();
    let mut rows = list(alloc, &[(97, 3, 1), (97, 3, -1)])?;
    rows.append(list(alloc, &[(98, 2, 5)])?)?;
    assert_eq!(rt; weight(&rows), 7);
    assert!(rt; weight(&rows) <= 1 << 62);
    let out = consolidate(alloc, rows)?;
    assert!(rt; are(out.as_slice(), &[(98, 2, 5)]));
    Ok(())
}

#[test]
fn sums_and_slices(rt: HostRuntime) -> Result<(), Fail> {
    let alloc = rt.alloc();
    let rows = list(alloc, &[(98, 9, 1), (97, 4, 2), (97, 3, 1)])?;
    assert!(rt; weight(&rows) <= 1 << 62);
    let part = slice_between(alloc, &rows, Frontier::at(4), Frontier::at(9))?;
    assert!(rt; are(part.as_slice(), &[(97, 4, 2)]));
    let all = slice_between(alloc, &rows, Frontier::at(0), Frontier::closed())?;
    assert!(rt; are(all.as_slice(), &[(97, 3, 1), (97, 4, 2), (98, 9, 1)]));
    let sums = sum_at(alloc, &rows, 4)?;
    let copy = sums.copy(alloc)?;
    assert_eq!(rt; copy.as_slice().len(), 1);
    let row = copy.as_slice()[0].copy(alloc)?;
    assert!(rt; row.datum.bytes() == b"a".as_slice() && row.diff == 3);
    let rows_again = RowList::from_items(sums.into_items());
    assert_eq!(rt; rows_again.as_slice().len(), 1);
    let mut more = RowList::new(alloc);
    more.push(row)?;
    assert_eq!(rt; more.as_slice().len(), 1);
    Ok(())
}

#[test]
fn lists_of_updates(rt: HostRuntime) -> Result<(), Fail> {
    let alloc = rt.alloc();
    let rows = list(alloc, &[(97, 3, 1), (98, 9, -2)])?;
    let mut copy = rows.copy(alloc)?;
    advance(&mut copy, 4);
    assert!(rt; are(copy.as_slice(), &[(97, 4, 1), (98, 9, -2)]));
    let same = UpdateList::from_items(rows.into_items());
    assert_eq!(rt; same.as_slice().len(), 2);
    let first = same.as_slice()[0].copy(alloc)?;
    assert!(rt; first.time == 3 && first.diff == 1);
    Ok(())
}

fn are_same(rows: &[Row], others: &[Row]) -> bool {
    if rows.len() != others.len() {
        return false;
    }
    for (row, other) in rows.iter().zip(others) {
        if row.datum != other.datum || row.diff != other.diff {
            return false;
        }
    }
    true
}

// How many rows a sum has, where a sort comes to the same rows.
fn rows_at(alloc: Global, rows: &UpdateList, t: u64) -> Result<Option<usize>, Fail> {
    if weight(rows) > 1 << 62 {
        return Ok(None);
    }
    let counted = sum_at(alloc, rows, t)?;
    let sorted = sum_by_sort(alloc, rows, t)?;
    if are_same(counted.as_slice(), sorted.as_slice()) {
        return Ok(Some(counted.as_slice().len()));
    }
    Ok(None)
}

#[test]
fn a_sort_comes_to_the_same_sums(rt: HostRuntime) -> Result<(), Fail> {
    let alloc = rt.alloc();
    let rows = list(
        alloc,
        &[
            (99, 1, 5),
            (97, 4, 2),
            (98, 2, -7),
            (97, 3, 1),
            (99, 5, -5),
            (98, 6, 9),
            (97, 7, -3),
        ],
    )?;
    for (time, len) in [
        (0, 0),
        (1, 1),
        (2, 2),
        (3, 3),
        (4, 3),
        (5, 2),
        (6, 2),
        (7, 1),
    ] {
        assert!(rt; rows_at(alloc, &rows, time)? == Some(len));
    }
    Ok(())
}
