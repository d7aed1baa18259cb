// The feed of `reclock` that a text spells.
ghost use Rattle.std.specs.Prelude.{◌≡◌, ◌≢◌, ◌+◌, ◌≤◌, length, IfOk, IfErr};
ghost use Rattle.std.specs.List.{AllByRecursion};
ghost use Rattle.feed_text.specs.declared.limits.TheConstants.{MAX_BYTES};
ghost use Rattle.feed_text.specs.Grammar.{lines_read};
ghost use Rattle.feed_text.specs.Lines.{lines_of};
ghost use Rattle.remap_core.specs.Reclocking.{weight_of_rows};
ghost use Rattle.reclock_text.specs.declared.limits.TheConstants.{MAX_WEIGHT};
ghost use Rattle.reclock_text.specs.Feeds.{IsFaultOf, IsStop, IsStuck, IsWithin, Leads, Spells, Takes, nothing};

use crate::feeds::ReclockFeed;
use crate::reclock_reading::{SoFar, nothing, with_line};
use feed_text::{LineFault, MAX_BYTES, looked_at, next_line};
use std::alloc::Global;

// What the lines of a text have said, and how many they are.
#[derive(Drop)]
struct LinesRead {
    feed: ReclockFeed,
    number: u64,
}

// What has been said after one more line, which has this number.
fn next(
    alloc: Global,
    so_far: SoFar,
    operators: u32,
    line: &[u8],
    number: u64,
) -> Result<SoFar, LineFault>
    requires one_line { AllByRecursion (λ b. b ≢ 10) line.now }
    requires light { so_far.weight ≤ MAX_WEIGHT }
    requires weighed { so_far.weight ≡ weight_of_rows so_far.feed.rows }
    ensures ok { IfOk result (λ t. Takes operators so_far.feed line.now t.feed) }
    ensures weighed { IfOk result (λ t. (t.weight ≤ MAX_WEIGHT) × (t.weight ≡ weight_of_rows t.feed.rows)) }
    ensures stuck { IfErr result (λ fault. IsStuck operators so_far.feed line.now number fault) }
{
    match with_line(alloc, so_far, operators, line)? {
        Some(next) => Ok(next),
        None => Err(LineFault::Line { number }),
    }
}

// What the lines of a text say.
fn read_lines(alloc: Global, text: &[u8], operators: u32) -> Result<LinesRead, LineFault>
    requires { length text.now ≤ MAX_BYTES + 1 }
    ensures read { IfOk result (λ r. Leads operators nothing (lines_of text.now) r.feed) }
    ensures number { IfOk result (λ r. r.number ≡ length (lines_of text.now)) }
    ensures fault { IfErr result (λ fault. IsStop operators (lines_of text.now) fault) }
{
    let mut so_far = nothing(alloc);
    let mut number = 0;
    let mut rest = text;
    while !rest.is_empty() {
        let (line, after) = next_line(rest);
        so_far = next(alloc, so_far, operators, line, number + 1)?;
        number += 1;
        rest = after;
    }
    Ok(LinesRead {
        feed: so_far.feed,
        number,
    })
}

// The feed that the lines of a text have said.
fn finished(read: LinesRead, bytes: &[u8], operators: u32) -> Result<ReclockFeed, LineFault>
    requires leads { Leads operators nothing (lines_read bytes.now) read.feed }
    requires number { read.number ≡ length (lines_read bytes.now) }
    ensures read { IfOk result (λ feed. Spells operators feed bytes.now) }
    ensures within { IfOk result (λ feed. IsWithin operators feed) }
    ensures fault { IfErr result (λ fault. IsFaultOf operators bytes.now fault) }
{
    let LinesRead { feed, number } = read;
    if bytes.len() > MAX_BYTES {
        return Err(LineFault::Line { number });
    }
    Ok(feed)
}

/// The feed that a text spells for so many operators. A fault is the first line at fault, or `Memory` where memory is refused.
/// A text of more than MAX_BYTES bytes is at fault no later than in the line with the first byte that is too many.
pub fn parse_reclock(alloc: Global, bytes: &[u8], operators: u32) -> Result<ReclockFeed, LineFault>
    ensures read { IfOk result (λ feed. Spells operators feed bytes.now) }
    ensures within { IfOk result (λ feed. IsWithin operators feed) }
    ensures fault { IfErr result (λ fault. IsFaultOf operators bytes.now fault) }
{
    let read = read_lines(alloc, looked_at(bytes), operators)?;
    finished(read, bytes, operators)
}
