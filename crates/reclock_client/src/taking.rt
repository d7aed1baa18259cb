// Rows of a remap shard, bound one by one.
ghost use Rattle.std.specs.Prelude.{◌≡◌, ℕ, IfOk, drop, false, true};
ghost use Rattle.remap_core.specs.Extending.{partition_of, reached, rows_at, with_row, with_rows, UpToTime};
ghost use Rattle.remap_core.specs.RemapShards.{offset_of};
ghost use Rattle.reclock_client.specs.Reading.{AllRaise, Binds, is_rise, left};

use crate::intakes::Intake;
use crate::sightings::rise_in;
use remap_core::Bindings;
use std::alloc::{AllocError, Global};
use update_core::{Datum, Row, Update, UpdateList};

// Binds one row. Whether memory was there for it.
fn bind_one(bindings: &mut Bindings, time: u64, datum: &Datum, diff: i64) -> bool
    requires up_to { UpToTime time bindings.old }
    requires rise { is_rise (reached bindings.old) datum.now diff ≡ true }
    ensures bound { result ≡ true → bindings.new ≡ with_row bindings.old time (partition_of datum.now) (offset_of diff) }
    ensures unchanged { result ≡ false → bindings.new ≡ bindings.old }
{
    match rise_in(&bindings.reached(), datum, diff) {
        Some((partition, by)) => bindings.raise(time, partition, by).is_ok(),
        None => false,
    }
}

// Binds the rows of a step that are left. What is left then, for want of memory.
fn bind_changes(bindings: &mut Bindings, rows: UpdateList, done: usize) -> Intake
    requires { AllRaise bindings.old (drop done rows) }
    ensures { (since : ℕ) → Binds since bindings.old (drop done rows) bindings.new result }
{
    let mut done = done;
    while done < rows.as_slice().len() {
        let row = &rows.as_slice()[done];
        if !bind_one(bindings, row.time, &row.datum, row.diff) {
            return Intake::Changes { rows, done };
        }
        done += 1;
    }
    Intake::Nothing
}

// The rows of a content as updates at a time.
fn updates_at(alloc: Global, time: u64, rows: &[Row]) -> Result<UpdateList, AllocError>
    ensures { IfOk result (λ out. out ≡ rows_at time rows.now) }
{
    let mut out = UpdateList::new(alloc);
    for row in rows {
        out.push(Update {
            datum: row.datum.copy(alloc)?,
            time,
            diff: row.diff,
        })?;
    }
    Ok(out)
}

/// Binds the rows that are left, where a content is at this since. What is left then, for want of memory.
pub fn bound_on(alloc: Global, bindings: &mut Bindings, since: u64, intake: Intake) -> Intake
    requires { AllRaise bindings.old (left since intake) }
    ensures { Binds since bindings.old (left since intake) bindings.new result }
{
    match intake {
        Intake::Nothing => Intake::Nothing,
        Intake::Changes { rows, done } => bind_changes(bindings, rows, done),
        Intake::Content { rows } => match updates_at(alloc, since, rows.as_slice()) {
            Ok(updates) => bind_changes(bindings, updates, 0),
            Err(_) => Intake::Content { rows },
        },
    }
}
