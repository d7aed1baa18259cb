// The next line of a schedule.
ghost use Rattle.std.specs.Prelude.{◌≡◌, ◌≢◌, ◌⊎◌, ◌<◌, ◌↔◌, IsTrue, IfOk, MatchOption, length};
ghost use Rattle.std.specs.List.{AllByRecursion};
ghost use Rattle.step_text.specs.declared.schedules.Block.{Block};
ghost use Rattle.step_text.specs.declared.schedules.SoFar.{SoFar};
ghost use Rattle.step_text.specs.declared.verbs.Verb.TheVariants as verbs;
ghost use Rattle.feed_text.specs.declared.limits.TheConstants.{MAX_COMMANDS};
ghost use Rattle.step_text.specs.Schedules.{DotLine, Free, Opened, RowLine, Short, Takes, TakesRest};

use crate::commands::Command;
use crate::makes::Made;
use crate::rules::{
    at_moment, begun, compacting, making, opened, reading, standing, stepping, stopping,
};
use crate::schedules::{Block, SoFar};
use crate::seats::Seat;
use crate::short_commands::short_command;
use crate::step_lines::StepLine;
use crate::verbs::{Verb, verb_of};
use feed_text::{MAX_COMMANDS, MAX_ROWS, cut_at, row};
use std::alloc::{AllocError, Global};

// A command is begun, or an append block is opened.
fn begins(
    alloc: Global,
    so_far: SoFar,
    seat: Seat,
    what: &[u8],
) -> Result<Option<SoFar>, AllocError>
    ensures { IfOk result (λ found. MatchOption found
        ((t : SoFar) → Short so_far seat what.now t ⊎ Opened so_far seat what.now t → ⊥)
        (λ t. Short so_far seat what.now t ⊎ Opened so_far seat what.now t)) }
{
    match short_command(what) {
        Some(command) => begun(so_far, seat, command),
        None => Ok(opened(alloc, so_far, seat, what)),
    }
}

// The line that begins a command, behind its first word.
fn beginning(alloc: Global, so_far: SoFar, rest: &[u8]) -> Result<Option<SoFar>, AllocError>
    ensures { IfOk result (λ found. MatchOption found
        ((t : SoFar) → TakesRest verbs.Begin so_far rest.now t → ⊥)
        (λ t. TakesRest verbs.Begin so_far rest.now t)) }
{
    match cut_at(b' ', rest) {
        None => Ok(None),
        Some((name, what)) => match standing(&so_far, name) {
            None => Ok(None),
            Some(seat) => begins(alloc, so_far, seat, what),
        },
    }
}

// A line behind its first word.
fn with_rest(
    alloc: Global,
    so_far: SoFar,
    verb: Verb,
    rest: &[u8],
) -> Result<Option<SoFar>, AllocError>
    ensures { IfOk result (λ found. MatchOption found
        ((t : SoFar) → TakesRest verb so_far rest.now t → ⊥)
        (λ t. TakesRest verb so_far rest.now t)) }
{
    match verb {
        Verb::Writer => making(alloc, so_far, rest, Made::Writer),
        Verb::Reader => reading(alloc, so_far, rest),
        Verb::Compactor => compacting(alloc, so_far, rest),
        Verb::Collector => making(alloc, so_far, rest, Made::Collector),
        Verb::Expirer => making(alloc, so_far, rest, Made::Expirer),
        Verb::Moment => at_moment(so_far, rest),
        Verb::Begin => beginning(alloc, so_far, rest),
        Verb::Step => stepping(so_far, rest),
        Verb::Stop => stopping(so_far, rest),
    }
}

// A line of one word.
fn bare_line(so_far: SoFar, line: &[u8]) -> Result<Option<SoFar>, AllocError>
    requires { AllByRecursion (λ x. x ≢ 32) line.now }
    ensures { IfOk result (λ found. MatchOption found
        ((t : SoFar) → Free so_far line.now t → ⊥)
        (λ t. Free so_far line.now t)) }
{
    if line == b"head".as_slice() {
        let mut so_far = so_far;
        so_far.lines.push(StepLine::Head)?;
        return Ok(Some(so_far));
    }
    Ok(None)
}

// A line outside a block.
pub(crate) fn free_line(
    alloc: Global,
    so_far: SoFar,
    line: &[u8],
) -> Result<Option<SoFar>, AllocError>
    ensures { IfOk result (λ found. MatchOption found
        ((t : SoFar) → Free so_far line.now t → ⊥)
        (λ t. Free so_far line.now t)) }
{
    match cut_at(b' ', line) {
        None => bare_line(so_far, line),
        Some((word, rest)) => match verb_of(word) {
            None => Ok(None),
            Some(verb) => with_rest(alloc, so_far, verb, rest),
        },
    }
}

// A line in a block.
pub(crate) fn block_line(
    alloc: Global,
    so_far: SoFar,
    block: Block,
    line: &[u8],
) -> Result<Option<SoFar>, AllocError>
    requires { AllByRecursion (λ b. b ≢ 10) line.now }
    ensures { IfOk result (λ found. MatchOption found
        ((t : SoFar) → DotLine so_far block line.now t ⊎ RowLine so_far block line.now t → ⊥)
        (λ t. DotLine so_far block line.now t ⊎ RowLine so_far block line.now t)) }
{
    let mut so_far = so_far;
    let Block { client, append } = block;
    if line == b".".as_slice() {
        so_far.block = None;
        so_far.lines.push(StepLine::Begin {
            client,
            what: Command::Append(append),
        })?;
        return Ok(Some(so_far));
    }
    if append.rows.as_slice().len() >= MAX_ROWS {
        return Ok(None);
    }
    match row(alloc, line)? {
        None => Ok(None),
        Some(update) => {
            let mut append = append;
            append.rows.push(update)?;
            so_far.block = Some(Block { client, append });
            Ok(Some(so_far))
        }
    }
}

// The next line.
pub(crate) fn with_line(
    alloc: Global,
    so_far: SoFar,
    line: &[u8],
) -> Result<Option<SoFar>, AllocError>
    requires { AllByRecursion (λ b. b ≢ 10) line.now }
    ensures { IfOk result (λ found. MatchOption found
        ((t : SoFar) → Takes so_far line.now t → ⊥)
        (λ t. Takes so_far line.now t)) }
{
    let SoFar {
        names,
        clients,
        stopped,
        lines,
        moment,
        block,
    } = so_far;
    let room = lines.as_slice().len() < MAX_COMMANDS;
    let free = SoFar {
        names,
        clients,
        stopped,
        lines,
        moment,
        block: None,
    };
    match block {
        Some(block) => block_line(alloc, free, block, line),
        None => with_room(alloc, free, room, line),
    }
}

// A line outside a block, where there is room for it.
fn with_room(
    alloc: Global,
    so_far: SoFar,
    room: bool,
    line: &[u8],
) -> Result<Option<SoFar>, AllocError>
    requires { IsTrue room ↔ (length so_far.lines < MAX_COMMANDS) }
    ensures { IfOk result (λ found. MatchOption found
        ((t : SoFar) → (length so_far.lines < MAX_COMMANDS) × Free so_far line.now t → ⊥)
        (λ t. (length so_far.lines < MAX_COMMANDS) × Free so_far line.now t)) }
{
    if room {
        return free_line(alloc, so_far, line);
    }
    Ok(None)
}
