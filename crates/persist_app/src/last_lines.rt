// The last lines of commands.
ghost use Rattle.std.specs.Prelude.{◌≡◌, ◌≤◌, ◌∷◌, [], ◌++◌, Some, None, IfOk};
ghost use Rattle.std.specs.Fmt.{decimal};
ghost use Rattle.feed_text.specs.Grammar.{frontier_text};
ghost use Rattle.plain_run.specs.declared.endings.Ending.{Ending};
ghost use Rattle.persist_app.specs.Endings.{EndsWith, Finishes};
ghost use Rattle.persist_app.specs.TopEnds.{EndsWithOr, FinishesIngest, heavy_text};

use crate::statuses::Status;
use feed_text::{Sink, print_line_fault, put_all};
use ingest_command::IngestEnding;
use itoa::Buffer;
use plain_run::Ending;
use std::alloc::{AllocError, Global};
use update_core::Frontier;

/// Writes the last line. A put that fails makes the status that of the output.
pub(crate) fn end_with<Si: Sink>(out: &mut Si, line: &[u8], status: u8) -> u8
    ensures ends { EndsWith result status line.now (Si.taken out.old) (Si.taken out.new) (Si.faults out.old) (Si.faults out.new) }
    ensures later { Si.faults out.old ≤ Si.faults out.new }
{
    match put_all(out, line) {
        Ok(()) => status,
        Err(_) => Status::Output as u8,
    }
}

// Names the line at fault, where memory for that is there.
fn end_with_line<Si: Sink>(alloc: Global, out: &mut Si, number: u64) -> u8
    ensures { Finishes (Some (Ending.BadLine number)) result (Si.taken out.old) (Si.taken out.new) (Si.faults out.old) (Si.faults out.new) }
{
    let mut line = Vec::new(alloc);
    match print_line_fault(&mut line, number) {
        Ok(()) => end_with(out, &line, Status::Line as u8),
        Err(_) => end_with(out, b"memory\n", Status::Memory as u8),
    }
}

/// Writes the last line of a run that has ended so, and gives its status.
pub(crate) fn finish_run<Si: Sink>(alloc: Global, ending: Ending, out: &mut Si) -> u8
    ensures { Finishes (Some ending) result (Si.taken out.old) (Si.taken out.new) (Si.faults out.old) (Si.faults out.new) }
{
    match ending {
        Ending::Complete => Status::Complete as u8,
        Ending::BadLine { number } => end_with_line(alloc, out, number),
        Ending::InputFailed => end_with(out, b"input failed\n", Status::Input as u8),
        Ending::OutputFailed => Status::Output as u8,
        Ending::StoreFailed => end_with(out, b"store failed\n", Status::Store as u8),
        Ending::Memory => end_with(out, b"memory\n", Status::Memory as u8),
        Ending::Damaged => end_with(out, b"damaged\n", Status::Damaged as u8),
        Ending::MembersFull => end_with(out, b"members full\n", Status::MembersFull as u8),
        Ending::Spent => end_with(out, b"spent\n", Status::Spent as u8),
    }
}

/// Writes the last line of a command, where its words are one, and gives its status.
pub(crate) fn finish<Si: Sink>(alloc: Global, ending: Option<Ending>, out: &mut Si) -> u8
    ensures { Finishes ending result (Si.taken out.old) (Si.taken out.new) (Si.faults out.old) (Si.faults out.new) }
{
    match ending {
        Some(ending) => finish_run(alloc, ending, out),
        None => end_with(out, b"words\n", Status::Words as u8),
    }
}

// A word and a number on a line.
fn number_line(alloc: Global, word: &[u8], number: u64) -> Result<Vec<u8>, AllocError>
    ensures { IfOk result (λ line. line.items ≡ word.now ++ (decimal number ++ 10 ∷ [])) }
{
    let mut buffer = Buffer::new();
    let mut line = Vec::new(alloc);
    line.extend_from_slice(word)?;
    line.extend_from_slice(buffer.format(number).as_bytes())?;
    line.push(b'\n')?;
    Ok(line)
}

// A word and the frontier behind all times on a line.
fn closed_line(alloc: Global, word: &[u8]) -> Result<Vec<u8>, AllocError>
    ensures { IfOk result (λ line. line.items ≡ word.now ++ (frontier_text None ++ 10 ∷ [])) }
{
    let mut line = Vec::new(alloc);
    line.extend_from_slice(word)?;
    line.extend_from_slice(b"closed\n")?;
    Ok(line)
}

// A word and a frontier on a line.
fn frontier_line(alloc: Global, word: &[u8], frontier: Frontier) -> Result<Vec<u8>, AllocError>
    ensures { IfOk result (λ line. line.items ≡ word.now ++ (frontier_text frontier ++ 10 ∷ [])) }
{
    match frontier.time() {
        Some(time) => number_line(alloc, word, time),
        None => closed_line(alloc, word),
    }
}

// Names a frontier, where memory for that is there.
fn end_at<Si: Sink>(alloc: Global, out: &mut Si, word: &[u8], frontier: Frontier, status: u8) -> u8
    ensures { EndsWithOr result status (word.now ++ (frontier_text frontier ++ 10 ∷ []))
        (Si.taken out.old) (Si.taken out.new) (Si.faults out.old) (Si.faults out.new) }
{
    match frontier_line(alloc, word, frontier) {
        Ok(line) => end_with(out, &line, status),
        Err(_) => end_with(out, b"memory\n", Status::Memory as u8),
    }
}

// Names a weight, where memory for that is there.
fn end_with_weight<Si: Sink>(alloc: Global, out: &mut Si, weight: u64) -> u8
    ensures { EndsWithOr result 12 (heavy_text weight) (Si.taken out.old) (Si.taken out.new) (Si.faults out.old) (Si.faults out.new) }
{
    match number_line(alloc, b"heavy ", weight) {
        Ok(line) => end_with(out, &line, Status::Unfit as u8),
        Err(_) => end_with(out, b"memory\n", Status::Memory as u8),
    }
}

/// Writes the last line of an `ingest` that has ended so, and gives its status.
pub(crate) fn finish_ingest<Si: Sink>(alloc: Global, ending: IngestEnding, out: &mut Si) -> u8
    ensures { FinishesIngest ending result (Si.taken out.old) (Si.taken out.new) (Si.faults out.old) (Si.faults out.new) }
{
    match ending {
        IngestEnding::AsRun(ending) => finish_run(alloc, ending, out),
        IngestEnding::Upper { upper } => end_at(alloc, out, b"upper ", upper, Status::Short as u8),
        IngestEnding::Misfit { upper } => {
            end_at(alloc, out, b"misfit ", upper, Status::Unfit as u8)
        }
        IngestEnding::Heavy { weight } => end_with_weight(alloc, out, weight),
    }
}
