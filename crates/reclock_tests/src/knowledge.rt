// What operators know of one source.
use crate::scenes::source;
use reclock_client::Operator;
use remap_core::{Bindings, SourceFrontier, reclocked, weight};
use std::alloc::Global;
use std::test::Fail;
use update_core::Update;

fn reaches(frontier: &SourceFrontier, zero: u64, one: u64) -> bool {
    frontier.get(0) == zero && frontier.get(1) == one
}

// Whether the bindings are 10 with offset 3 of partition 0, and 20 with offset 5 of it and 2 of partition 1.
fn are_two(bindings: &Bindings) -> bool {
    if bindings.len() != 2 {
        return false;
    }
    let (first, early) = bindings.at(0);
    let (second, late) = bindings.at(1);
    first == 10 && reaches(early, 3, 0) && second == 20 && reaches(late, 5, 2)
}

/// Whether these are a, b and c at these times.
pub fn are_three(rows: &[Update], times: [u64; 3]) -> bool {
    if rows.len() != 3 {
        return false;
    }
    for (row, (time, byte)) in rows.iter().zip(times.iter().zip(b"abc")) {
        if row.time != *time || row.datum.bytes() != [*byte].as_slice() || row.diff != 1 {
            return false;
        }
    }
    true
}

// Whether the operator's collection is a at 10, and b and c at 20.
fn is_bound(alloc: Global, operator: &Operator) -> Result<bool, Fail> {
    let rows = source(alloc)?;
    if weight(&rows) > 1 << 62 {
        return Ok(false);
    }
    let list = operator.collection(alloc, &rows)?;
    Ok(are_three(list.as_slice(), [10, 20, 20]))
}

// Whether the two bindings give each offset the least time that covers it.
fn are_least(bindings: &Bindings) -> bool {
    bindings.reclock(0, 2) == Some(10)
        && bindings.reclock(0, 3) == Some(20)
        && bindings.reclock(1, 0) == Some(20)
        && bindings.reclock(1, 2).is_none()
}

// Whether the first row, bound at 10, is at 20 where that is the since.
fn is_moved(alloc: Global, bindings: &Bindings) -> Result<bool, Fail> {
    let rows = source(alloc)?;
    if weight(&rows) > 1 << 62 {
        return Ok(false);
    }
    let list = reclocked(alloc, &rows, bindings, 20)?;
    Ok(are_three(list.as_slice(), [20, 20, 20]))
}

/// Whether the operator knows the two bindings, and the rows at their times.
pub fn knows(alloc: Global, operator: &Operator) -> Result<bool, Fail> {
    let bindings = operator.bindings();
    Ok(
        are_two(bindings)
            && are_least(bindings)
            && is_bound(alloc, operator)?
            && is_moved(alloc, bindings)?,
    )
}
