// Sums by key in an ordered map, whatever the keys are.
ghost use Rattle.std.specs.Prelude.{◌≡◌, ◌+◌, ◌≤◌, ◌^◌, OnOk};
ghost use Rattle.std.specs.Int.RustNames.{unsigned_abs};
ghost use Rattle.update_core.specs.Limits.{max_weight};
ghost use Rattle.update_core.specs.Totals.{counted};
ghost use Rattle.update_core.specs.Weights.{weight};

use std::alloc::AllocError;
use std::collections::BTreeMap;

// Adds a difference to the sum at its key. A sum that comes to 0 stays.
pub fn count<K: Ord + Drop>(
    sums: &mut BTreeMap<K, i64>,
    key: K,
    diff: i64,
) -> Result<(), AllocError>
    requires room { weight sums.old.entries + unsigned_abs diff ≤ max_weight }
    ensures { OnOk result (sums.new.entries ≡ counted K.cmp key diff sums.old.entries) }
{
    let sum = sums.entry(key)?.or_insert(0);
    *sum += diff;
    Ok(())
}
