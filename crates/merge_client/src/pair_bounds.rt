// What the pair that is due says of its rows.
ghost use Rattle.std.specs.Prelude.{◌≡◌};
ghost use Rattle.std.specs.List.{slice_get};
ghost use Rattle.std.specs.Option.{option_copied};
ghost use Rattle.merge_client.specs.Fitting.{bound_by, bound_of, is_unfit_at, misfit_of, noted_rows, unfit_key};
ghost use Rattle.merge_client.specs.Finding.{places_in};

use crate::dues::{batch_at, due_places};
use crate::row_bounds::RowBound;
use load_core::Getting;
use spine_core::Batch;
use state_core::State;
use store_core::PartKey;

/// What the two batches of a pair say of the rows that their parts hold.
#[derive(Clone, Copy)]
pub(crate) struct PairBound {
    /// What the left batch says.
    pub left: RowBound,
    /// How many parts the left batch has.
    pub parts: usize,
    /// What the right batch says.
    pub right: RowBound,
}

impl PairBound {
    /// How many rows the left batch's parts hold: all, as long as no part of the right one is got, and then as many as before.
    pub(crate) fn noted_rows(self, getting: &Getting, before: usize) -> usize
        ensures { result ≡ noted_rows self getting.now before }
    {
        if getting.place <= self.parts {
            return getting.rows.as_slice().len();
        }
        before
    }

    /// The key of the part at this place, before which so many rows were got, where it is got and doesn't fit its batch.
    pub(crate) fn misfit(
        self,
        left_rows: usize,
        place: usize,
        count: usize,
        getting: &Getting,
    ) -> Option<PartKey>
        ensures { result ≡ misfit_of self left_rows place count getting.now }
    {
        if place < getting.place {
            return self.unfit_key(left_rows, place, count, getting);
        }
        None
    }

    // Its key, where its batch speaks against it.
    fn unfit_key(
        self,
        left_rows: usize,
        place: usize,
        count: usize,
        getting: &Getting,
    ) -> Option<PartKey>
        ensures { result ≡ unfit_key self left_rows place count getting.now }
    {
        if self.is_unfit_at(left_rows, place, count, getting) {
            return key_at(getting, place);
        }
        None
    }

    // Whether its batch speaks against that part.
    fn is_unfit_at(self, left_rows: usize, place: usize, count: usize, getting: &Getting) -> bool
        ensures { result ≡ is_unfit_at self left_rows place count getting.now }
    {
        let rows = getting.rows.as_slice();
        let part = rows.get(count..).unwrap_or(&[]);
        if place < self.parts {
            return self.left.is_unfit(rows.len(), part);
        }
        self.right
            .is_unfit(rows.len().saturating_sub(left_rows), part)
    }
}

// The key of the part at this place.
fn key_at(getting: &Getting, place: usize) -> Option<PartKey>
    ensures { result ≡ slice_get getting.now.keys place }
{
    getting.keys.as_slice().get(place).copied()
}

/// What the pair that is due in this state says.
pub(crate) fn bound_in(state: &State) -> Option<PairBound>
    ensures { result ≡ bound_by state.now (places_in state.now) }
{
    match due_places(state) {
        Some((left, right)) => bound_of(batch_at(state, left), batch_at(state, right)),
        None => None,
    }
}

fn bound_of(left: Option<&Batch>, right: Option<&Batch>) -> Option<PairBound>
    ensures { result ≡ bound_of (option_copied left.entry) (option_copied right.entry) }
{
    match (left, right) {
        (Some(left), Some(right)) => Some(PairBound {
            left: RowBound::of(left),
            parts: left.parts.as_slice().len(),
            right: RowBound::of(right),
        }),
        _ => None,
    }
}
