// What a line makes of a schedule so far.
ghost use Rattle.std.specs.Prelude.{◌≡◌, ◌≢◌, ℕ, ◌^◌, ◌<◌, ◌∷◌, ◌++◌, None, List, IfOk, MatchOption, length};
ghost use Rattle.std.specs.Fmt.{decimal};
ghost use Rattle.std.specs.List.{AllByRecursion};
ghost use Rattle.step_text.specs.declared.schedules.SoFar.{SoFar};
ghost use Rattle.step_text.specs.declared.verbs.Verb.TheVariants as verbs;
ghost use Rattle.step_text.specs.declared.seats.Seat.{Seat};
ghost use Rattle.step_text.specs.Commands.{IsShort, command_text};
ghost use Rattle.step_text.specs.Words.{IsName, IsPolls};
ghost use Rattle.step_text.specs.Schedules.{MadeAs, Opened, Short, Stands, TakesRest, has, seat_named};

use crate::commands::Command;
use crate::counts::polls;
use crate::makes::Made;
use crate::names::is_name;
use crate::schedules::{Block, SoFar};
use crate::seats::{Named, Seat, seat_of};
use crate::step_lines::StepLine;
use feed_text::{append_head, cut_at};
use std::alloc::{AllocError, Global};
use update_core::{Datum, DatumFault};

/// A schedule makes at most this many clients.
pub const MAX_CLIENTS: usize = 64;

// A name and the number behind it.
#[derive(Clone, Copy)]
pub(crate) struct NamedNumber<'a> {
    pub(crate) name: &'a [u8],
    pub(crate) number: u64,
}

// A word, a space, and a number.
pub(crate) fn named_number(text: &[u8]) -> Option<NamedNumber<'_>>
    ensures { MatchOption result
        ((name : List ℕ) (n : ℕ) → AllByRecursion (λ b. b ≢ 32) name → n < 2 ^ 64 → text.now ≡ name ++ 32 ∷ decimal n → ⊥)
        (λ x. (x.number < 2 ^ 64) × (text.now ≡ x.name.now ++ 32 ∷ decimal x.number) × AllByRecursion (λ b. b ≢ 32) x.name.now) }
{
    let (name, number) = cut_at(b' ', text)?;
    let number = feed_text::number(number)?;
    Some(NamedNumber { name, number })
}

// The client that stands under a name.
pub(crate) fn standing(so_far: &SoFar, name: &[u8]) -> Option<Seat>
    ensures { MatchOption result
        ((seat : Seat) → Stands so_far.now name.now seat → ⊥)
        (λ seat. Stands so_far.now name.now seat) }
{
    if !is_name(name) {
        return None;
    }
    let seat = seat_of(so_far.clients.as_slice(), name)?;
    if so_far.stopped.contains(seat.number) {
        return None;
    }
    Some(seat)
}

// A name that is new, where it is one and there is room.
fn new_name(alloc: Global, so_far: &SoFar, name: &[u8]) -> Result<Option<Datum>, AllocError>
    ensures { IfOk result (λ found. MatchOption found
        (IsName name.now → seat_named name.now so_far.now.clients ≡ None → length so_far.now.clients < MAX_CLIENTS → ⊥)
        (λ d. (d ≡ name.now) × IsName name.now × (seat_named name.now so_far.now.clients ≡ None)
        × (length so_far.now.clients < MAX_CLIENTS))) }
{
    if !is_name(name) {
        return Ok(None);
    }
    if so_far.clients.as_slice().len() >= MAX_CLIENTS {
        return Ok(None);
    }
    if seat_of(so_far.clients.as_slice(), name).is_some() {
        return Ok(None);
    }
    match Datum::of(alloc, name) {
        Ok(name) => Ok(Some(name)),
        Err(DatumFault::Memory) => Err(AllocError),
        Err(DatumFault::DatumSize { .. }) => Ok(None),
    }
}

// The schedule with one more client.
pub(crate) fn making(
    alloc: Global,
    so_far: SoFar,
    name: &[u8],
    made: Made,
) -> Result<Option<SoFar>, AllocError>
    ensures { IfOk result (λ found. MatchOption found
        ((t : SoFar) → MadeAs so_far name.now made t → ⊥)
        (λ t. MadeAs so_far name.now made t)) }
{
    match new_name(alloc, &so_far, name)? {
        None => Ok(None),
        Some(first) => {
            let second = first.copy(alloc)?;
            let mut so_far = so_far;
            let number = so_far.clients.as_slice().len() as u64;
            let seat = Seat { number, made };
            so_far.names.push(first)?;
            so_far.clients.push(Named { name: second, seat })?;
            so_far.lines.push(StepLine::Make(made))?;
            Ok(Some(so_far))
        }
    }
}

// The line `moment M`, behind its first word.
pub(crate) fn at_moment(so_far: SoFar, rest: &[u8]) -> Result<Option<SoFar>, AllocError>
    ensures { IfOk result (λ found. MatchOption found
        ((t : SoFar) → TakesRest verbs.Moment so_far rest.now t → ⊥)
        (λ t. TakesRest verbs.Moment so_far rest.now t)) }
{
    match feed_text::number(rest) {
        None => Ok(None),
        Some(to) => {
            if to < so_far.moment {
                return Ok(None);
            }
            let mut so_far = so_far;
            so_far.lines.push(StepLine::Moment { to })?;
            so_far.moment = to;
            Ok(Some(so_far))
        }
    }
}

// The line `stop NAME`, behind its first word.
pub(crate) fn stopping(so_far: SoFar, rest: &[u8]) -> Result<Option<SoFar>, AllocError>
    ensures { IfOk result (λ found. MatchOption found
        ((t : SoFar) → TakesRest verbs.Stop so_far rest.now t → ⊥)
        (λ t. TakesRest verbs.Stop so_far rest.now t)) }
{
    match standing(&so_far, rest) {
        None => Ok(None),
        Some(seat) => {
            let mut so_far = so_far;
            let client = seat.number;
            so_far.lines.push(StepLine::Stop { client })?;
            so_far.stopped.push(client)?;
            Ok(Some(so_far))
        }
    }
}

// A word, a space, and a count of polls.
fn named_polls(text: &[u8]) -> Option<NamedNumber<'_>>
    ensures { MatchOption result
        ((name : List ℕ) (n : ℕ) → AllByRecursion (λ b. b ≢ 32) name → IsPolls n → text.now ≡ name ++ 32 ∷ decimal n → ⊥)
        (λ x. IsPolls x.number × (text.now ≡ x.name.now ++ 32 ∷ decimal x.number) × AllByRecursion (λ b. b ≢ 32) x.name.now) }
{
    let (name, number) = cut_at(b' ', text)?;
    let number = polls(number)?;
    Some(NamedNumber { name, number })
}

// The line `reader NAME LEASE`, behind its first word.
pub(crate) fn reading(
    alloc: Global,
    so_far: SoFar,
    rest: &[u8],
) -> Result<Option<SoFar>, AllocError>
    ensures { IfOk result (λ found. MatchOption found
        ((t : SoFar) → TakesRest verbs.Reader so_far rest.now t → ⊥)
        (λ t. TakesRest verbs.Reader so_far rest.now t)) }
{
    match named_number(rest) {
        None => Ok(None),
        Some(words) => making(
            alloc,
            so_far,
            words.name,
            Made::Reader {
                lease: words.number,
            },
        ),
    }
}

// The line `compactor NAME LEASE`, behind its first word.
pub(crate) fn compacting(
    alloc: Global,
    so_far: SoFar,
    rest: &[u8],
) -> Result<Option<SoFar>, AllocError>
    ensures { IfOk result (λ found. MatchOption found
        ((t : SoFar) → TakesRest verbs.Compactor so_far rest.now t → ⊥)
        (λ t. TakesRest verbs.Compactor so_far rest.now t)) }
{
    match named_number(rest) {
        None => Ok(None),
        Some(words) => making(
            alloc,
            so_far,
            words.name,
            Made::Compactor {
                lease: words.number,
            },
        ),
    }
}

// The line `step NAME K`, behind its first word.
pub(crate) fn stepping(so_far: SoFar, rest: &[u8]) -> Result<Option<SoFar>, AllocError>
    ensures { IfOk result (λ found. MatchOption found
        ((t : SoFar) → TakesRest verbs.Step so_far rest.now t → ⊥)
        (λ t. TakesRest verbs.Step so_far rest.now t)) }
{
    match named_polls(rest) {
        None => Ok(None),
        Some(words) => match standing(&so_far, words.name) {
            None => Ok(None),
            Some(seat) => {
                let mut so_far = so_far;
                so_far.lines.push(StepLine::Step {
                    client: seat.number,
                    polls: words.number,
                })?;
                Ok(Some(so_far))
            }
        },
    }
}

// Whether a client of this kind has the command.
fn has_command(made: Made, command: &Command) -> bool
    ensures { result ≡ has made command.now }
{
    match made {
        Made::Writer => matches!(command, Command::Append(_) | Command::Close),
        Made::Reader { .. } => matches!(
            command,
            Command::Snapshot { .. }
                | Command::Listen { .. }
                | Command::Next
                | Command::Advance { .. }
                | Command::Renew
                | Command::Close
        ),
        Made::Compactor { .. } => {
            matches!(command, Command::Merge | Command::Renew | Command::Close)
        }
        Made::Collector => matches!(command, Command::Collect),
        Made::Expirer => matches!(command, Command::Expire),
    }
}

// A command of one line is begun.
pub(crate) fn begun(
    so_far: SoFar,
    seat: Seat,
    command: Command,
) -> Result<Option<SoFar>, AllocError>
    requires { IsShort command }
    ensures { IfOk result (λ found. MatchOption found
        ((t : SoFar) → Short so_far seat (command_text command) t → ⊥)
        (λ t. Short so_far seat (command_text command) t)) }
{
    if !has_command(seat.made, &command) {
        return Ok(None);
    }
    let mut so_far = so_far;
    so_far.lines.push(StepLine::Begin {
        client: seat.number,
        what: command,
    })?;
    Ok(Some(so_far))
}

// An append block is opened.
pub(crate) fn opened(alloc: Global, so_far: SoFar, seat: Seat, what: &[u8]) -> Option<SoFar>
    ensures { MatchOption result
        ((t : SoFar) → Opened so_far seat what.now t → ⊥)
        (λ t. Opened so_far seat what.now t) }
{
    match append_head(alloc, what) {
        None => None,
        Some(append) => match seat.made {
            Made::Writer => {
                let mut so_far = so_far;
                so_far.block = Some(Block {
                    client: seat.number,
                    append,
                });
                Some(so_far)
            }
            _ => None,
        },
    }
}
