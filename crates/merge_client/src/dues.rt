// The question which pair is due.
ghost use Rattle.std.specs.Prelude.{◌≡◌, ◌++◌, IfOk, OnOk};
ghost use Rattle.std.specs.List.{slice_get};
ghost use Rattle.std.specs.Option.{option_copied};
ghost use Rattle.merge_client.specs.Finding.{finding, found_at, look_at, places_in};

use crate::founds::Found;
use crate::pairs::Pair;
use read_machine::{Look, Question};
use spine_core::{Batch, KeyList};
use state_core::{Kind, State};
use std::alloc::{AllocError, Global};
use update_core::UpdateList;

/// Which pair of batches is due, the leftmost of all; its parts are read.
#[derive(Clone, Copy)]
pub(crate) struct Due;

impl Question for Due {
    type Answer = Found;

    ghost question = { finding };

    fn takes(&self, kind: Kind) -> bool {
        kind.is_keeper()
    }

    fn look(&self, alloc: Global, state: &State) -> Result<Look<Found>, AllocError> {
        match due_places(state) {
            Some((left, right)) => {
                look_at(alloc, state, batch_at(state, left), batch_at(state, right))
            }
            None => Ok(Look::Answer(nothing(state))),
        }
    }

    fn answer(&self, alloc: Global, state: &State, rows: &UpdateList) -> Result<Found, AllocError> {
        match due_places(state) {
            Some((left, right)) => found_at(
                alloc,
                state,
                rows,
                batch_at(state, left),
                batch_at(state, right),
            ),
            None => Ok(nothing(state)),
        }
    }

    fn expired(&self, version: u64) -> Found {
        Found::Gone { version }
    }
}

// The places of the leftmost batch that is due to be merged with the next, and of that one.
pub(crate) fn due_places(state: &State) -> Option<(usize, usize)>
    ensures { result ≡ places_in state.now }
{
    let _ = state.members();
    state.spine().due()
}

pub(crate) fn batch_at(state: &State, place: usize) -> Option<&Batch>
    ensures { option_copied result ≡ slice_get state.now.batches place }
{
    state.spine().batches().get(place)
}

fn nothing(state: &State) -> Found
    ensures { result ≡ Found.Nothing state.now.number }
{
    Found::Nothing {
        version: state.number(),
    }
}

fn look_at(
    alloc: Global,
    state: &State,
    left: Option<&Batch>,
    right: Option<&Batch>,
) -> Result<Look<Found>, AllocError>
    ensures { IfOk result (λ look. look ≡ look_at state.now (option_copied left.entry) (option_copied right.entry)) }
{
    match (left, right) {
        (Some(left), Some(right)) => {
            let mut keys = left.parts.copy(alloc)?;
            add_keys(&mut keys, &right.parts)?;
            Ok(Look::Parts(keys))
        }
        _ => Ok(Look::Answer(nothing(state))),
    }
}

fn add_keys(keys: &mut KeyList, more: &KeyList) -> Result<(), AllocError>
    ensures { OnOk result (keys.new ≡ keys.old ++ more.now) }
{
    for key in more.as_slice() {
        keys.push(*key)?;
    }
    Ok(())
}

fn found_at(
    alloc: Global,
    state: &State,
    rows: &UpdateList,
    left: Option<&Batch>,
    right: Option<&Batch>,
) -> Result<Found, AllocError>
    ensures { IfOk result (λ found. found ≡ found_at state.now rows.now (option_copied left.entry) (option_copied right.entry)) }
{
    match (left, right) {
        (Some(left), Some(right)) => Ok(Found::Due(Pair {
            left: left.copy(alloc)?,
            right: right.copy(alloc)?,
            since: state.since(),
            rows: rows.copy(alloc)?,
        })),
        _ => Ok(nothing(state)),
    }
}
