// The next line of a feed of `reclock`.
ghost use Rattle.std.specs.Prelude.{◌≡◌, ◌≢◌, ◌⊎◌, ◌<◌, ◌≤◌, ◌^◌, [], ◌∷◌, ◌++◌, IfOk, IfSome, MatchOption, length};
ghost use Rattle.std.specs.List.{AllByRecursion};
ghost use Rattle.feed_text.specs.declared.limits.TheConstants.{MAX_ROWS};
ghost use Rattle.remap_core.specs.Reclocking.{weight_of_rows};
ghost use Rattle.reclock_text.specs.declared.feeds.ReclockFeed.{ReclockFeed};
ghost use Rattle.reclock_text.specs.declared.limits.TheConstants.{MAX_SAWS, MAX_WEIGHT};
ghost use Rattle.reclock_text.specs.Feeds.{Takes, nothing};

use crate::feeds::ReclockFeed;
use crate::limits::{MAX_SAWS, MAX_WEIGHT};
use crate::saw_lines::saw;
use crate::saw_lists::SawList;
use crate::saws::Saw;
use crate::source_lines::source_row;
use feed_text::MAX_ROWS;
use remap_core::{SourceList, SourceRow};
use std::alloc::{AllocError, Global};

// What the lines of a feed have said, and the sum of the absolute differences.
#[derive(Drop)]
pub(crate) struct SoFar {
    pub(crate) feed: ReclockFeed,
    pub(crate) weight: u64,
}

// Nothing said.
pub(crate) fn nothing(alloc: Global) -> SoFar
    ensures feed { result.feed ≡ nothing }
    ensures weighed { result.weight ≡ weight_of_rows result.feed.rows }
{
    SoFar {
        feed: ReclockFeed {
            saws: SawList::new(alloc),
            rows: SourceList::new(alloc),
        },
        weight: 0,
    }
}

// One more that was seen, where there is room.
fn with_saw(so_far: SoFar, saw: Saw) -> Result<Option<SoFar>, AllocError>
    ensures { IfOk result (λ found. MatchOption found
        (MAX_SAWS ≤ length so_far.feed.saws)
        (λ r. (length so_far.feed.saws < MAX_SAWS)
        × (r ≡ record so_far { feed = record so_far.feed { saws = so_far.feed.saws ++ saw ∷ [] } }))) }
{
    if so_far.feed.saws.as_slice().len() >= MAX_SAWS {
        return Ok(None);
    }
    let mut so_far = so_far;
    so_far.feed.saws.push(saw)?;
    Ok(Some(so_far))
}

// One more row, where there is room and the differences don't sum to too much.
fn with_row(so_far: SoFar, row: SourceRow) -> Result<Option<SoFar>, AllocError>
    requires light { so_far.weight ≤ MAX_WEIGHT }
    requires weighed { so_far.weight ≡ weight_of_rows so_far.feed.rows }
    ensures { IfOk result (λ found. MatchOption found
        ((MAX_ROWS ≤ length so_far.feed.rows) ⊎ (MAX_WEIGHT < weight_of_rows (so_far.feed.rows ++ row ∷ [])))
        (λ r. (length so_far.feed.rows < MAX_ROWS) × (weight_of_rows (so_far.feed.rows ++ row ∷ []) ≤ MAX_WEIGHT)
        × (r.feed ≡ record so_far.feed { rows = so_far.feed.rows ++ row ∷ [] })
        × (r.weight ≡ weight_of_rows (so_far.feed.rows ++ row ∷ [])))) }
{
    if so_far.feed.rows.as_slice().len() >= MAX_ROWS {
        return Ok(None);
    }
    let more = row.diff.unsigned_abs();
    if more > MAX_WEIGHT - so_far.weight {
        return Ok(None);
    }
    let mut so_far = so_far;
    so_far.feed.rows.push(row)?;
    so_far.weight += more;
    Ok(Some(so_far))
}

// The next line.
pub(crate) fn with_line(
    alloc: Global,
    so_far: SoFar,
    operators: u32,
    line: &[u8],
) -> Result<Option<SoFar>, AllocError>
    requires one_line { AllByRecursion (λ b. b ≢ 10) line.now }
    requires light { so_far.weight ≤ MAX_WEIGHT }
    requires weighed { so_far.weight ≡ weight_of_rows so_far.feed.rows }
    ensures taken { IfOk result (λ found. MatchOption found
        ((t : ReclockFeed) → Takes operators so_far.feed line.now t → ⊥)
        (λ r. Takes operators so_far.feed line.now r.feed)) }
    ensures weighed { IfOk result (λ found. IfSome found
        (λ r. (r.weight ≤ MAX_WEIGHT) × (r.weight ≡ weight_of_rows r.feed.rows))) }
{
    match saw(line, operators) {
        Some(saw) => with_saw(so_far, saw),
        None => match source_row(alloc, line)? {
            Some(row) => with_row(so_far, row),
            None => Ok(None),
        },
    }
}
