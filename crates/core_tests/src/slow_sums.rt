// A sum by a sort of all updates, which the tests hold against the one that is used.
ghost use Rattle.std.specs.Prelude.{◌≡◌, ◌≤◌, ◌^◌, IfOk, map};
ghost use Rattle.update_core.specs.Updates.{seen_datum, weight_of, IsSum, sum_of, datum_entry, row_entry, until};

use std::alloc::{AllocError, Global};
use std::collections::VecDeque;
use update_core::merging::consolidate_by;
use update_core::{Datum, Row, RowList, Update, UpdateList};

fn rows_in_order(alloc: Global, entries: VecDeque<(&Datum, i64)>) -> Result<RowList, AllocError>
    ensures { IfOk result (λ out. map row_entry out ≡ map seen_datum entries.entry.items) }
{
    let mut rest = entries;
    let mut out = RowList::new(alloc);
    while let Some((datum, diff)) = rest.pop_front() {
        let datum = datum.copy(alloc)?;
        out.push(Row { datum, diff })?;
    }
    Ok(out)
}

fn entries_until<'a>(
    alloc: Global,
    rows: &'a [Update],
    t: u64,
) -> Result<Vec<(&'a Datum, i64)>, AllocError>
    ensures { IfOk result (λ out. map seen_datum out.items ≡ map datum_entry (until t rows.now)) }
{
    let mut out = Vec::new(alloc);
    for update in rows {
        if update.time <= t {
            out.push((&update.datum, update.diff))?;
        }
    }
    Ok(out)
}

// The same as `sum_at`, in n log n steps for n updates.
pub fn sum_by_sort(alloc: Global, rows: &UpdateList, t: u64) -> Result<RowList, AllocError>
    requires { weight_of rows.now ≤ 2 ^ 62 }
    ensures sums { IfOk result (λ out. IsSum rows.now t out) }
    ensures exact { IfOk result (λ out. out ≡ sum_of rows.now t) }
{
    let entries = entries_until(alloc, rows.as_slice(), t)?;
    let merged = consolidate_by(alloc, entries)?;
    rows_in_order(alloc, VecDeque::from(merged))
}
