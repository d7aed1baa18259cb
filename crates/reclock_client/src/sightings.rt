// What the rows of a remap shard are looked at for, before they are bound.
ghost use Rattle.std.specs.Prelude.{◌≡◌, Some, None, if◌then◌else◌, nat_lt};
ghost use Rattle.remap_core.specs.Extending.{partition_of, rows_at};
ghost use Rattle.remap_core.specs.RemapShards.{offset_of};
ghost use Rattle.reclock_client.specs.Reading as reading;
ghost use Rattle.reclock_client.specs.Reading.{foreign_time, is_one_byte, is_rise, risen};

use remap_core::SourceFrontier;
use update_core::{Datum, Row, Update};

/// The most that an offset is: 2^48.
const MOST: u64 = 1 << 48;

// The one byte of some bytes.
fn only_byte(bytes: &[u8]) -> Option<u8>
    ensures { result ≡ (if is_one_byte bytes.now then Some (partition_of bytes.now) else None) }
{
    match bytes {
        [partition] => Some(*partition),
        _ => None,
    }
}

// A positive difference.
fn amount(diff: i64) -> Option<u64>
    ensures { result ≡ (if nat_lt 0 (offset_of diff) then Some (offset_of diff) else None) }
{
    if diff <= 0 {
        return None;
    }
    Some(diff.unsigned_abs())
}

/// What a datum with a difference raises: its partition, and by how much. None where it raises none, from these offsets to at
/// most 2^48.
pub fn rise_in(frontier: &SourceFrontier, datum: &Datum, diff: i64) -> Option<(u8, u64)>
    ensures { result ≡ (if is_rise frontier.now datum.now diff then Some (partition_of datum.now, offset_of diff) else None) }
{
    let partition = only_byte(datum.bytes())?;
    let by = amount(diff)?;
    if by > MOST - frontier.get(partition) {
        return None;
    }
    Some((partition, by))
}

// The offsets after a rise.
fn risen(frontier: &SourceFrontier, datum: &Datum, diff: i64) -> Option<SourceFrontier>
    ensures { result ≡ (if is_rise frontier.now datum.now diff then Some (risen frontier.now datum.now diff) else None) }
{
    let (partition, by) = rise_in(frontier, datum, diff)?;
    let had = frontier.get(partition);
    let mut frontier = *frontier;
    match frontier.set(partition, had + by) {
        Ok(()) => Some(frontier),
        Err(_) => None,
    }
}

/// The time of the first row that doesn't raise a partition.
pub fn foreign_change(frontier: &SourceFrontier, rows: &[Update]) -> Option<u64>
    ensures { result ≡ foreign_time frontier.now rows.now }
{
    let mut reached = *frontier;
    for row in rows {
        match risen(&reached, &row.datum, row.diff) {
            Some(next) => reached = next,
            None => return Some(row.time),
        }
    }
    None
}

/// The same of a content's rows, which are at one time.
pub fn foreign_row(time: u64, frontier: &SourceFrontier, rows: &[Row]) -> Option<u64>
    ensures { result ≡ foreign_time frontier.now (rows_at time rows.now) }
{
    let mut reached = *frontier;
    for row in rows {
        match risen(&reached, &row.datum, row.diff) {
            Some(next) => reached = next,
            None => return Some(time),
        }
    }
    None
}

/// Whether times don't fall, from this one on.
pub fn in_time(from: u64, rows: &[Update]) -> bool
    ensures { result ≡ reading.in_time from rows.now }
{
    let mut last = from;
    for row in rows {
        if last > row.time {
            return false;
        }
        last = row.time;
    }
    true
}
