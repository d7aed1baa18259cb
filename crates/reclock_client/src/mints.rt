// The rows of a mint.
ghost use Rattle.std.specs.Prelude.{◌≡◌, ◌-◌, ◌<◌, ◌≤◌, ◌^◌, [], ◌∷◌, ◌++◌, pos, IfOk, OnOk};
ghost use Rattle.reclock_client.specs.Minting.{rise_of, rises};

use remap_core::SourceFrontier;
use std::alloc::{AllocError, Global};
use update_core::{Datum, DatumFault, Update, UpdateList};

// The datum of a partition.
fn datum_of(alloc: Global, partition: u8) -> Result<Datum, AllocError>
    ensures { IfOk result (λ d. d ≡ partition ∷ []) }
{
    match Datum::of(alloc, &[partition]) {
        Ok(datum) => Ok(datum),
        Err(_) => Err(AllocError),
    }
}

// Puts a partition's row at the end, where it is raised.
fn put_rise(
    alloc: Global,
    rows: &mut UpdateList,
    partition: u8,
    time: u64,
    had: &SourceFrontier,
    seen: &SourceFrontier,
) -> Result<(), AllocError>
    ensures { OnOk result (rows.new ≡ rows.old ++ rise_of time had.now seen.now partition) }
{
    let before = had.get(partition);
    let after = seen.get(partition);
    if before >= after {
        return Ok(());
    }
    rows.push(Update {
        datum: datum_of(alloc, partition)?,
        time,
        diff: raise_by(before, after),
    })
}

// How far an offset is above another, as a difference.
fn raise_by(before: u64, after: u64) -> i64
    requires less { before < after }
    requires within { after ≤ 2 ^ 48 }
    ensures { result ≡ pos (after - before) }
{
    (after - before) as i64
}

/// The rows at a time that raise each partition to the greater of what was reached and what was seen. It fails only for want of
/// memory.
pub fn mint_rows(
    alloc: Global,
    time: u64,
    had: &SourceFrontier,
    seen: &SourceFrontier,
) -> Result<UpdateList, AllocError>
    ensures { IfOk result (λ rows. rows ≡ rises time had.now seen.now) }
{
    let mut rows = UpdateList::new(alloc);
    for partition in 0..=u8::MAX {
        put_rise(alloc, &mut rows, partition, time, had, seen)?;
    }
    Ok(rows)
}
