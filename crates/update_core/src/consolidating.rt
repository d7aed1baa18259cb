// Consolidation of updates in the memory where they stand.
ghost use Rattle.std.specs.Prelude.{◌≡◌, ℕ, List, ◌+◌, ◌+ℤ◌, ◌≤◌, ◌^◌, true, false, map, OnOk};
ghost use Rattle.std.specs.Int.RustNames.{unsigned_abs};
ghost use Rattle.std.specs.List.Sorted.{IsStrictlySortedBy, IsPermutation};
ghost use Rattle.std.specs.Map.{keys_of};
ghost use Rattle.std.specs.Ordering.{eq_by_cmp};
ghost use Rattle.update_core.specs.Limits.{max_weight};
ghost use Rattle.update_core.specs.Totals.{total, IsConsolidation};
ghost use Rattle.update_core.specs.Updates.{moment_cmp, moment_entry, weight_of};
ghost use Rattle.update_core.specs.Weights.{Ascending};

use crate::updates::Update;
use std::alloc::AllocError;
use std::cmp::Ordering;

// By datum, and then by time.
fn cmp_moments(a: &Update, b: &Update) -> Ordering
    ensures { result ≡ moment_cmp (a.now.datum, a.now.time) (b.now.datum, b.now.time) }
{
    a.datum.cmp(&b.datum).then(a.time.cmp(&b.time))
}

// Whether a later update has the datum and time of one that is kept, which then takes its difference.
fn absorbs(kept: &mut Update, later: &Update) -> bool
    ensures same { result ≡ eq_by_cmp moment_cmp (later.now.datum, later.now.time) (kept.old.datum, kept.old.time) }
    ensures sum { result ≡ true → unsigned_abs kept.old.diff + unsigned_abs later.now.diff ≤ max_weight
        → kept.new ≡ record kept.old { diff = kept.old.diff +ℤ later.now.diff } }
    ensures apart { result ≡ false → kept.new ≡ kept.old }
{
    if cmp_moments(later, kept) != Ordering::Equal {
        return false;
    }
    kept.diff = kept.diff.saturating_add(later.diff);
    true
}

// Puts the updates in order.
fn sort(rows: &mut Vec<Update>) -> Result<(), AllocError>
    ensures same { IsPermutation rows.old.items rows.new.items }
    ensures ascending { OnOk result (Ascending moment_cmp (keys_of (map moment_entry rows.new.items))) }
{
    rows.sort_by(|a, b| cmp_moments(a, b))?;
    Ok(())
}

// Joins the updates at each datum and time, where they are in order.
fn join(rows: &mut Vec<Update>)
    requires ascending { Ascending moment_cmp (keys_of (map moment_entry rows.old.items)) }
    requires room { weight_of rows.old.items ≤ max_weight }
    ensures rising { IsStrictlySortedBy moment_cmp (keys_of (map moment_entry rows.new.items)) }
    ensures same { (m : List ℕ × ℕ) → total moment_cmp (map moment_entry rows.new.items) m
        ≡ total moment_cmp (map moment_entry rows.old.items) m }
{
    rows.dedup_by(|later, kept| absorbs(kept, later));
}

// Leaves out the updates that count nothing.
fn drop_zeros(rows: &mut Vec<Update>)
    requires { IsStrictlySortedBy moment_cmp (keys_of (map moment_entry rows.old.items)) }
    ensures { IsConsolidation moment_cmp (map moment_entry rows.old.items) (map moment_entry rows.new.items) }
{
    rows.retain(|row| row.diff != 0);
}

// The consolidation of the updates, in their memory.
pub fn consolidate_in_place(rows: &mut Vec<Update>) -> Result<(), AllocError>
    requires { weight_of rows.old.items ≤ max_weight }
    ensures { OnOk result (IsConsolidation moment_cmp (map moment_entry rows.old.items) (map moment_entry rows.new.items)) }
{
    sort(rows)?;
    join(rows);
    drop_zeros(rows);
    Ok(())
}
