// Where a feed's appends begin and end, and what a shard must be for them.
ghost use Rattle.std.specs.Prelude.{◌≡◌, ◌≤◌, ◌^◌, ◌↔◌, if◌then◌else◌, true, IsTrue, IfErr, OnOk};
ghost use Rattle.update_core.specs.Frontiers.{is_at};
ghost use Rattle.update_core.specs.Updates.{weight_of};
ghost use Rattle.appends_core.specs.Feeds.{IsFeed, end_of_feed, from_upper, weight_of_all};
ghost use Rattle.crew_core.specs.Completing.{IsBound};
ghost use Rattle.ingest_run.specs.Bounds.{SuitsFeed, Unsuited, begins_in};

use crate::extents::Extent;
use crate::faults::IngestFault;
use update_core::{FeedAppend, Frontier, weight};

// The greatest weight of a collection.
const MAX_WEIGHT: u128 = 1 << 62;

/// Whether both are the same frontier.
pub(crate) fn is_same(a: Frontier, b: Frontier) -> bool
    ensures { IsTrue result ↔ (a ≡ b) }
{
    a.time() == b.time()
}

/// Where the feed ends.
pub(crate) fn end_of(appends: &[FeedAppend]) -> Frontier
    ensures { result ≡ end_of_feed appends.now }
{
    let mut upper = Frontier::at(0);
    for append in appends {
        upper = append.upper;
    }
    upper
}

// Whether one of the appends begins at this frontier.
fn is_begun(appends: &[FeedAppend], upper: Frontier) -> bool
    ensures { result ≡ begins_in upper appends.now }
{
    for append in appends {
        if upper.is_at(append.lower) {
            return true;
        }
    }
    false
}

// Whether an append counts: an earlier one does, or it begins at this frontier.
fn counts(begun: bool, upper: Frontier, append: &FeedAppend) -> bool
    ensures { result ≡ (if begun then true else is_at upper append.now.lower) }
{
    if begun {
        return true;
    }
    upper.is_at(append.lower)
}

// What an append adds to the sum, where it counts.
fn counted_weight(counts: bool, append: &FeedAppend) -> u128
    ensures { result ≡ (if counts then weight_of append.now.rows else 0) }
{
    if counts { weight(&append.rows) } else { 0 }
}

// The weights of the appends from the one on that begins at this frontier.
fn weight_from(appends: &[FeedAppend], upper: Frontier) -> u128
    requires light { weight_of_all appends.now ≤ 2 ^ 62 }
    ensures sum { result ≡ weight_of_all (from_upper upper appends.now) }
    ensures small { result ≤ 2 ^ 62 }
{
    let mut sum = 0;
    let mut begun = false;
    for append in appends {
        begun = counts(begun, upper, append);
        sum += counted_weight(begun, append);
    }
    sum
}

// Whether an append begins at this frontier, or the feed ends there.
fn is_bound(appends: &[FeedAppend], upper: Frontier) -> bool
    ensures { IsTrue result ↔ IsBound appends.now upper }
{
    if is_same(upper, end_of(appends)) {
        return true;
    }
    is_begun(appends, upper)
}

/// Whether a shard that has come so far suits the feed: an append begins at its upper, or the feed ends there, and with the appends
/// from there on it weighs no more than a collection may.
pub(crate) fn suits(appends: &[FeedAppend], extent: &Extent) -> Result<(), IngestFault>
    requires feed { IsFeed appends.now }
    ensures ok { OnOk result (SuitsFeed appends.now extent.now) }
    ensures err { IfErr result (Unsuited appends.now extent.now) }
{
    if !is_bound(appends, extent.upper) {
        return Err(IngestFault::Misfit {
            upper: extent.upper,
        });
    }
    if u128::from(extent.weight) + weight_from(appends, extent.upper) > MAX_WEIGHT {
        return Err(IngestFault::Heavy {
            weight: extent.weight,
        });
    }
    Ok(())
}
