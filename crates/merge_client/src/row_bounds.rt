// What a batch says of its rows.
ghost use Rattle.std.specs.Prelude.{◌≡◌};
ghost use Rattle.merge_client.specs.Fitting.{is_unfit, lies_below, row_bound};

use spine_core::Batch;
use update_core::Update;

/// What a batch says of the rows that its parts hold.
#[derive(Clone, Copy)]
pub(crate) struct RowBound {
    /// No row lies below it.
    pub lower: u64,
    /// There are no more rows.
    pub rows: u64,
}

impl RowBound {
    /// What this batch says.
    pub(crate) fn of(batch: &Batch) -> RowBound
        ensures { result ≡ row_bound batch.now }
    {
        RowBound {
            lower: batch.desc.lower,
            rows: batch.rows,
        }
    }

    /// Whether this speaks against the rows of a part, with which the parts of the batch hold so many rows.
    pub(crate) fn is_unfit(self, held: usize, part: &[Update]) -> bool
        ensures { result ≡ is_unfit self held part.now }
    {
        if self.rows < held as u64 {
            return true;
        }
        lies_below(self.lower, part)
    }
}

// Whether a row lies below this time.
fn lies_below(lower: u64, rows: &[Update]) -> bool
    ensures { result ≡ lies_below lower rows.now }
{
    for row in rows {
        if row.time < lower {
            return true;
        }
    }
    false
}
