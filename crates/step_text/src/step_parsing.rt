// The schedule that a text spells.
ghost use Rattle.std.specs.Prelude.{◌≡◌, ◌≢◌, ◌+◌, ◌≤◌, length, take, IfOk, IfErr};
ghost use Rattle.std.specs.List.{AllByRecursion};
ghost use Rattle.feed_text.specs.declared.limits.TheConstants.{MAX_BYTES};
ghost use Rattle.feed_text.specs.Grammar.{lines_read};
ghost use Rattle.feed_text.specs.Lines.{lines_of};
ghost use Rattle.step_text.specs.Schedules.{IsFaultOf, IsStop, IsStuck, Leads, Spells, Takes, start};

use crate::client_lists::ClientList;
use crate::name_lists::NameList;
use crate::schedules::{Schedule, SoFar};
use crate::step_line_lists::StepLines;
use crate::step_reading::with_line;
use causes::NumberList;
use feed_text::{LineFault, MAX_BYTES, looked_at, next_line};
use std::alloc::Global;

// What the lines of a text have said, and how many they are.
#[derive(Drop)]
struct LinesRead {
    so_far: SoFar,
    number: u64,
}

// Nothing said.
fn nothing(alloc: Global) -> SoFar
    ensures { result ≡ start }
{
    SoFar {
        names: NameList::new(alloc),
        clients: ClientList::new(alloc),
        stopped: NumberList::new(alloc),
        lines: StepLines::new(alloc),
        moment: 0,
        block: None,
    }
}

// The schedule after one more line, which has this number.
fn next(alloc: Global, so_far: SoFar, line: &[u8], number: u64) -> Result<SoFar, LineFault>
    requires { AllByRecursion (λ b. b ≢ 10) line.now }
    ensures ok { IfOk result (λ t. Takes so_far line.now t) }
    ensures stuck { IfErr result (λ fault. IsStuck so_far line.now number fault) }
{
    match with_line(alloc, so_far, line)? {
        Some(next) => Ok(next),
        None => Err(LineFault::Line { number }),
    }
}

// What the lines of a text say.
fn read_lines(alloc: Global, text: &[u8]) -> Result<LinesRead, LineFault>
    requires { length text.now ≤ MAX_BYTES + 1 }
    ensures read { IfOk result (λ r. Leads start (lines_of text.now) r.so_far) }
    ensures number { IfOk result (λ r. r.number ≡ length (lines_of text.now)) }
    ensures fault { IfErr result (λ fault. IsStop (lines_of text.now) fault) }
{
    let mut so_far = nothing(alloc);
    let mut number = 0;
    let mut rest = text;
    while !rest.is_empty() {
        let (line, after) = next_line(rest);
        so_far = next(alloc, so_far, line, number + 1)?;
        number += 1;
        rest = after;
    }
    Ok(LinesRead { so_far, number })
}

// The schedule that the lines of a text have said.
fn finished(read: LinesRead, bytes: &[u8]) -> Result<Schedule, LineFault>
    requires leads { Leads start (lines_read bytes.now) read.so_far }
    requires number { read.number ≡ length (lines_read bytes.now) }
    ensures read { IfOk result (λ schedule. Spells schedule bytes.now) }
    ensures fault { IfErr result (λ fault. IsFaultOf bytes.now fault) }
{
    let LinesRead { so_far, number } = read;
    if bytes.len() > MAX_BYTES {
        return Err(LineFault::Line { number });
    }
    if so_far.block.is_some() {
        return Err(LineFault::Line { number });
    }
    Ok(Schedule {
        names: so_far.names,
        lines: so_far.lines,
    })
}

/// The schedule that a text spells. A fault is the first line at fault, or `Memory` where memory is refused.
/// A text of more than MAX_BYTES bytes is at fault no later than in the line with the first byte that is too many.
pub fn parse_steps(alloc: Global, bytes: &[u8]) -> Result<Schedule, LineFault>
    ensures read { IfOk result (λ schedule. Spells schedule bytes.now) }
    ensures fault { IfErr result (λ fault. IsFaultOf bytes.now fault) }
{
    let read = read_lines(alloc, looked_at(bytes))?;
    finished(read, bytes)
}
