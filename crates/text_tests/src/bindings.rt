// The rules of bindings, by examples.
ghost use Rattle.std.specs.Prelude.{IfOk};
ghost use Rattle.remap_core.specs.Extending.{UpToTime};

use remap_core::*;
use std::alloc::Global;
use std::test::Fail;
use update_core::{Datum, Frontier, UpdateList};

// A frontier with these offsets.
fn reached(offsets: &[(u8, u64)]) -> Result<SourceFrontier, Fail> {
    let mut frontier = SourceFrontier::new();
    for pair in offsets {
        let (partition, next) = *pair;
        frontier.set(partition, next)?;
    }
    Ok(frontier)
}

// 10 with offset 3 of partition 0, and 20 with offset 5 of it and 2 of partition 1.
fn two(alloc: Global) -> Result<Bindings, Fail> {
    let mut bindings = Bindings::new(alloc);
    bindings.add(10, reached(&[(0, 3)])?)?;
    bindings.add(20, reached(&[(0, 5), (1, 2)])?)?;
    Ok(bindings)
}

fn rows(alloc: Global, given: &[(u8, u64, u8)]) -> Result<SourceList, Fail> {
    let mut out = SourceList::new(alloc);
    for row in given {
        let (partition, offset, byte) = *row;
        let datum = Datum::of(alloc, &[byte])?;
        out.push(SourceRow {
            partition,
            offset,
            datum,
            diff: 1,
        })?;
    }
    Ok(out)
}

// Whether the updates have these times and data, once each.
fn are(updates: &UpdateList, want: &[(u64, u8)]) -> bool {
    let updates = updates.as_slice();
    if updates.len() != want.len() {
        return false;
    }
    for (update, (time, byte)) in updates.iter().zip(want) {
        if update.time != *time || update.datum.bytes() != [*byte].as_slice() || update.diff != 1 {
            return false;
        }
    }
    true
}

#[test]
fn offsets_are_at_most_2_to_48(rt: HostRuntime) -> Result<(), Fail> {
    let mut frontier = SourceFrontier::new();
    let over = frontier.set(0, (1 << 48) + 1);
    assert!(rt; matches!(over, Err(OffsetFault::OffsetSize)));
    assert!(rt; frontier.get(0) == 0 && !frontier.covers(0, 0));
    frontier.set(255, 1 << 48)?;
    assert!(rt; frontier.get(255) == 1 << 48 && frontier.covers(255, 0) && frontier.get(254) == 0);
    Ok(())
}

#[test]
fn bindings_rise(rt: HostRuntime) -> Result<(), Fail> {
    let mut bindings = Bindings::new(rt.alloc());
    bindings.add(10, reached(&[(3, 7), (4, 1)])?)?;
    let again = bindings.add(10, reached(&[(3, 8), (4, 1)])?);
    assert!(rt; matches!(again, Err(BindFault::NotLater { last: 10 })));
    let back = bindings.add(20, reached(&[(3, 6), (4, 0)])?);
    assert!(rt; matches!(back, Err(BindFault::Back { partition: 3 })));
    assert_eq!(rt; bindings.len(), 1);
    bindings.add(20, reached(&[(3, 7), (4, 1)])?)?;
    assert_eq!(rt; bindings.len(), 2);
    let (time, frontier) = bindings.at(0);
    assert!(rt; time == 10 && frontier.get(3) == 7);
    Ok(())
}

#[test]
fn the_least_covering_time(rt: HostRuntime) -> Result<(), Fail> {
    let bindings = two(rt.alloc())?;
    assert!(rt; bindings.reclock(0, 2) == Some(10));
    assert!(rt; bindings.reclock(0, 3) == Some(20));
    assert!(rt; bindings.reclock(1, 0) == Some(20));
    assert!(rt; bindings.reclock(1, 2) == None);
    Ok(())
}

#[test]
fn rows_at_their_times(rt: HostRuntime) -> Result<(), Fail> {
    let alloc = rt.alloc();
    let bindings = two(alloc)?;
    let given = rows(alloc, &[(1, 0, 99), (0, 3, 98), (0, 2, 97), (1, 2, 100)])?;
    assert!(rt; weight(&given) <= 1 << 62);
    let out = reclocked(alloc, &given, &bindings, 0)?;
    assert!(rt; are(&out, &[(10, 97), (20, 98), (20, 99)]));
    let later = reclocked(alloc, &given, &bindings, 20)?;
    assert!(rt; are(&later, &[(20, 97), (20, 98), (20, 99)]));
    assert_eq!(rt; unbound(&given, &bindings), 1);
    Ok(())
}

#[test]
fn a_row_without_a_binding(rt: HostRuntime) -> Result<(), Fail> {
    let alloc = rt.alloc();
    let given = rows(alloc, &[(0, 0, 97)])?;
    assert!(rt; weight(&given) <= 1 << 62);
    let out = reclocked(alloc, &given, &Bindings::new(alloc), 0)?;
    assert!(rt; are(&out, &[]));
    assert_eq!(rt; unbound(&given, &Bindings::new(alloc)), 1);
    Ok(())
}

// 10 with offset 3 of partition 0.
fn raised_once(alloc: Global) -> Result<Bindings, Fail>
    ensures { IfOk result (λ bindings. UpToTime 10 bindings) }
{
    let mut bindings = Bindings::new(alloc);
    bindings.raise(10, 0, 3)?;
    Ok(bindings)
}

#[test]
fn a_raise_at_the_last_time_makes_no_binding(rt: HostRuntime) -> Result<(), Fail> {
    let mut bindings = raised_once(rt.alloc())?;
    bindings.raise(10, 1, 2)?;
    assert!(rt; bindings.len() == 1 && bindings.reclock(0, 2) == Some(10));
    assert!(rt; bindings.reclock(1, 1) == Some(10) && bindings.reclock(1, 2) == None);
    Ok(())
}

#[test]
fn no_raise_above_2_to_48(rt: HostRuntime) -> Result<(), Fail> {
    let mut bindings = Bindings::new(rt.alloc());
    let over = bindings.raise(10, 0, (1 << 48) + 1);
    assert!(rt; matches!(over, Err(RaiseFault::OffsetSize)) && bindings.len() == 0);
    Ok(())
}

#[test]
fn what_is_published(rt: HostRuntime) -> Result<(), Fail> {
    let alloc = rt.alloc();
    let bindings = two(alloc)?;
    let given = rows(alloc, &[(0, 0, 97), (1, 0, 98)])?;
    assert!(rt; weight(&given) <= 1 << 62);
    let out = published(alloc, &given, &bindings, Frontier::at(11), Frontier::at(21))?;
    assert!(rt; are(&out, &[(20, 98)]));
    Ok(())
}

#[test]
fn lists_of_rows(rt: HostRuntime) -> Result<(), Fail> {
    let alloc = rt.alloc();
    let mut given = rows(alloc, &[(0, 2, 97)])?;
    given.append(rows(alloc, &[(1, 5, 98)])?)?;
    let copy = given.copy(alloc)?;
    let same = SourceList::from_items(copy.into_items());
    assert_eq!(rt; same.as_slice().len(), 2);
    let last = same.as_slice()[1].copy(alloc)?;
    assert!(rt;
        last.partition == 1
            && last.offset == 5
            && last.datum.bytes() == b"b".as_slice()
            && last.diff == 1
    );
    Ok(())
}
