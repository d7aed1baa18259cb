// Rows of a remap shard, read one at a time.
use history_core::ReadAnswer;
use reclock_client::*;
use remap_core::Bindings;
use std::alloc::Global;
use std::test::Fail;
use update_core::{Datum, Frontier, Update, UpdateList};

// What a step with one row at 12 comes to, after a reading up to 11.
fn with_row(alloc: Global, bytes: &[u8], diff: i64) -> Result<Poll<ClockAnswer>, Fail> {
    let mut course = Course {
        since: 0,
        bindings: Bindings::new(alloc),
        intake: Intake::Nothing,
        synced: Frontier::at(11),
        listens: true,
        errand: Some(Errand::Sync),
        step: Step::Next,
        joined: true,
    };
    let datum = Datum::of(alloc, bytes)?;
    let mut rows = UpdateList::new(alloc);
    rows.push(Update {
        datum,
        time: 12,
        diff,
    })?;
    let from = Frontier::at(11);
    let to = Frontier::at(13);
    Ok(course.after_reader(alloc, ReadAnswer::Step { from, to, rows }))
}

fn is_foreign(poll: &Poll<ClockAnswer>) -> bool {
    matches!(poll, Poll::Done(ClockAnswer::Foreign { time: 12 }))
}

#[test]
fn rows_that_raise_no_partition_are_foreign(rt: HostRuntime) -> Result<(), Fail> {
    let alloc = rt.alloc();
    assert!(rt; matches!(with_row(alloc, &[7], 1 << 48)?, Poll::More));
    assert!(rt; is_foreign(&with_row(alloc, &[7], (1 << 48) + 1)?));
    assert!(rt; is_foreign(&with_row(alloc, &[7], -1)?));
    assert!(rt; is_foreign(&with_row(alloc, &[7, 7], 1)?));
    Ok(())
}
