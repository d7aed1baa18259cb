// Whether appends are those of a feed.
ghost use Rattle.std.specs.Prelude.{◌↔◌, IsTrue};
ghost use Rattle.std.specs.List.{AllByRecursion};
ghost use Rattle.appends_core.specs.Feeds.{IsFeed, IsFit, IsWithin, MayFollow};

use crate::append_lists::AppendList;
use update_core::{FeedAppend, Frontier, Update, weight};

// How many rows one append may have.
const MAX_ROWS: usize = 65_536;

// How much all appends may weigh.
const MAX_WEIGHT: u128 = 1 << 62;

fn is_within(row: &Update, lower: u64, upper: Frontier) -> bool
    ensures { IsTrue result ↔ IsWithin lower upper row.now }
{
    lower <= row.time && upper.covers(row.time)
}

fn are_within(rows: &[Update], lower: u64, upper: Frontier) -> bool
    ensures { IsTrue result ↔ AllByRecursion (IsWithin lower upper) rows.now }
{
    for row in rows {
        if !is_within(row, lower, upper) {
            return false;
        }
    }
    true
}

// Whether an append has its rows in its range, and no more than one may have.
fn is_fit(append: &FeedAppend) -> bool
    ensures { IsTrue result ↔ IsFit append.now }
{
    let rows = append.rows.as_slice();
    rows.len() <= MAX_ROWS && are_within(rows, append.lower, append.upper)
}

// Whether an append may follow where those before it ended, with so much weight left.
fn may_follow(append: &FeedAppend, upper: Frontier, left: u128) -> bool
    ensures { IsTrue result ↔ MayFollow upper left append.now }
{
    if !upper.is_at(append.lower) {
        return false;
    }
    if !append.upper.covers(append.lower) {
        return false;
    }
    is_fit(append) && weight(&append.rows) <= left
}

/// Whether the appends are those of a feed: the first begins at 0, each other where the one before it ended, each ends later than it
/// begins, has its rows in its range and 65,536 at most, and together they weigh 2^62 at most. It takes no memory, and one look at
/// each row. (docs/DEFINITIONS.md, "Feeds of appends".)
pub fn is_feed(appends: &AppendList) -> bool
    ensures { IsTrue result ↔ IsFeed appends.now }
{
    let mut upper = Frontier::at(0);
    let mut left = MAX_WEIGHT;
    for append in appends.as_slice() {
        if !may_follow(append, upper, left) {
            return false;
        }
        left -= weight(&append.rows);
        upper = append.upper;
    }
    true
}
