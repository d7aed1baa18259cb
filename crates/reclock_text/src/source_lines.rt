// The line of a row of a source.
ghost use Rattle.std.specs.Prelude.{◌≡◌, ◌≢◌, IfOk, MatchOption, ◌<◌, ◌≤◌, ◌^◌};
ghost use Rattle.std.specs.List.{AllByRecursion};
ghost use Rattle.remap_core.specs.declared.source_rows.SourceRow.{SourceRow};
ghost use Rattle.reclock_text.specs.Sources.{IsSourceRow, NoPart, part_line, source_line};

use crate::limits::MAX_OFFSET;
use crate::word_cuts::{behind, number_and_rest};
use feed_text::row;
use remap_core::SourceRow;
use std::alloc::{AllocError, Global};
use update_core::Update;

// A line's partition, and the rest of the line.
fn partition_and_rest(line: &[u8]) -> Option<(u8, &[u8])>
    ensures { MatchOption result (NoPart line.now) (λ found. (found.0 < 256) × (line.now ≡ part_line found.0 found.1.now)) }
{
    let rest = behind(b"row", line)?;
    let (partition, rest) = number_and_rest(rest)?;
    if partition > 255 {
        return None;
    }
    Some((partition as u8, rest))
}

// The row of a source with its offset, where that is within the limit.
fn within(partition: u8, update: Update) -> Option<SourceRow>
    ensures { MatchOption result (2 ^ 48 < update.time)
        (λ r. (r ≡ record { partition = partition; offset = update.time; datum = update.datum; diff = update.diff })
        × (update.time ≤ 2 ^ 48)) }
{
    let Update { datum, time, diff } = update;
    if time > MAX_OFFSET {
        return None;
    }
    Some(SourceRow {
        partition,
        offset: time,
        datum,
        diff,
    })
}

// The row of a source that a line spells. It takes memory for the datum.
pub(crate) fn source_row(alloc: Global, line: &[u8]) -> Result<Option<SourceRow>, AllocError>
    requires { AllByRecursion (λ b. b ≢ 10) line.now }
    ensures { IfOk result (λ found. MatchOption found
        ((r : SourceRow) → IsSourceRow r → line.now ≡ source_line r → ⊥)
        (λ r. IsSourceRow r × (line.now ≡ source_line r))) }
{
    match partition_and_rest(line) {
        None => Ok(None),
        Some((partition, rest)) => match row(alloc, rest)? {
            None => Ok(None),
            Some(update) => Ok(within(partition, update)),
        },
    }
}
