// What a snapshot or a step of a listen makes of a state.
ghost use Rattle.std.specs.Prelude.{◌≡◌, ◌++◌, ◌&&◌, IfOk, OnOk, Some, []};
ghost use Rattle.update_core.specs.Collections.{is_closed, is_past, listen_answer, snapshot_answer};
ghost use Rattle.state_core.specs.States.{keys_of};
ghost use Rattle.history_core.specs.Questions.{begun_by, ending_past};
ghost use Rattle.history_core.specs.Legal.{collection_in};
ghost use Rattle.read_client.specs.Asking.{asking, content_look, question_of, step_look};

use history_core::{Asked, ReadAnswer};
use read_machine::Look;
use spine_core::{Batch, KeyList};
use state_core::{Kind, State};
use std::alloc::{AllocError, Global};
use update_core::{Frontier, UpdateList, slice_between, sum_at};

/// What is asked of a collection: the content at a time, or a step of a listen from a frontier.
#[derive(Drop)]
pub(crate) enum Question {
    Content { t: u64 },
    Step { from: Frontier },
}

impl read_machine::Question for Question {
    type Answer = ReadAnswer;

    ghost question = { asking };

    fn takes(&self, kind: Kind) -> bool {
        kind.is_reader()
    }

    fn look(&self, alloc: Global, state: &State) -> Result<Look<ReadAnswer>, AllocError> {
        match self {
            Question::Content { t } => ask_content(alloc, state, *t),
            Question::Step { from } => ask_step(alloc, state, *from),
        }
    }

    fn answer(
        &self,
        alloc: Global,
        state: &State,
        rows: &UpdateList,
    ) -> Result<ReadAnswer, AllocError> {
        match self {
            Question::Content { t } => {
                let rows = sum_at(alloc, rows, *t)?;
                Ok(ReadAnswer::Rows(rows))
            }
            Question::Step { from } => {
                let to = state.upper();
                let rows = slice_between(alloc, rows, *from, to)?;
                Ok(ReadAnswer::Step {
                    from: *from,
                    to,
                    rows,
                })
            }
        }
    }

    fn expired(&self, version: u64) -> ReadAnswer {
        ReadAnswer::Expired { version }
    }
}

/// What a command asks of the collection, where it reads it.
pub(crate) fn question_of(asked: &Asked, listen: Option<Frontier>) -> Option<Question>
    ensures { result ≡ question_of (Some asked.now) listen }
{
    match asked {
        Asked::Snapshot { t } => Some(Question::Content { t: *t }),
        Asked::Listen { .. } | Asked::Next => match listen {
            Some(from) => Some(Question::Step { from }),
            None => None,
        },
        _ => None,
    }
}

fn ask_content(alloc: Global, state: &State, t: u64) -> Result<Look<ReadAnswer>, AllocError>
    ensures { IfOk result (λ look. look ≡ content_look t state.now (snapshot_answer (collection_in [] state.now) t)) }
{
    if t < state.since() {
        return Ok(Look::Answer(ReadAnswer::Early {
            since: state.since(),
        }));
    }
    if !state.upper().covers(t) {
        return Ok(Look::Answer(ReadAnswer::Late {
            upper: state.upper(),
        }));
    }
    let keys = keys_begun_by(alloc, state.spine().batches(), t)?;
    Ok(Look::Parts(keys))
}

fn ask_step(alloc: Global, state: &State, from: Frontier) -> Result<Look<ReadAnswer>, AllocError>
    ensures { IfOk result (λ look. look ≡ step_look from state.now (listen_answer (collection_in [] state.now) from)) }
{
    let upper = state.upper();
    if from.reaches(state.since()) {
        return Ok(Look::Answer(ReadAnswer::Early {
            since: state.since(),
        }));
    }
    if both_closed(from, upper) {
        return Ok(Look::Answer(ReadAnswer::Ended));
    }
    if !passes(upper, from) {
        return Ok(Look::Answer(ReadAnswer::Quiet { upper }));
    }
    let keys = keys_ending_past(alloc, state.spine().batches(), from)?;
    Ok(Look::Parts(keys))
}

/// Whether the upper is past a frontier. None is past Closed.
fn passes(upper: Frontier, from: Frontier) -> bool
    ensures { result ≡ is_past upper from }
{
    match from.time() {
        Some(t) => upper.covers(t),
        None => false,
    }
}

/// Whether both frontiers are Closed.
fn both_closed(from: Frontier, upper: Frontier) -> bool
    ensures { result ≡ (is_closed from && is_closed upper) }
{
    from.time().is_none() && upper.time().is_none()
}

// The keys of the batches that begin at a time or before it.
fn keys_begun_by(alloc: Global, batches: &[Batch], t: u64) -> Result<KeyList, AllocError>
    ensures { IfOk result (λ keys. keys ≡ keys_of (begun_by t batches.now)) }
{
    let mut keys = KeyList::new(alloc);
    for batch in batches {
        if batch.desc.lower <= t {
            add_keys(&mut keys, &batch.parts)?;
        }
    }
    Ok(keys)
}

// The keys of the batches that end past a frontier.
fn keys_ending_past(alloc: Global, batches: &[Batch], from: Frontier) -> Result<KeyList, AllocError>
    ensures { IfOk result (λ keys. keys ≡ keys_of (ending_past from batches.now)) }
{
    let mut keys = KeyList::new(alloc);
    for batch in batches {
        if from < batch.desc.upper {
            add_keys(&mut keys, &batch.parts)?;
        }
    }
    Ok(keys)
}

fn add_keys(keys: &mut KeyList, more: &KeyList) -> Result<(), AllocError>
    ensures { OnOk result (keys.new ≡ keys.old ++ more.now) }
{
    for key in more.as_slice() {
        keys.push(*key)?;
    }
    Ok(())
}
