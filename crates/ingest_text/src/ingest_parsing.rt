// The feed of `ingest` that a text spells.
ghost use Rattle.std.specs.Prelude.{◌≡◌, ◌≢◌, ◌+◌, ◌≤◌, length, IfOk, IfErr};
ghost use Rattle.std.specs.List.{AllByRecursion};
ghost use Rattle.appends_core.specs.Feeds.{IsFeed};
ghost use Rattle.feed_text.specs.declared.limits.TheConstants.{MAX_BYTES};
ghost use Rattle.feed_text.specs.Grammar.{lines_read};
ghost use Rattle.feed_text.specs.Lines.{lines_of};
ghost use Rattle.ingest_text.specs.Feeds.{IsFaultOf, IsFewEnough, IsStop, IsStuck, Leads, Spells, Takes, nothing};
ghost use Rattle.ingest_text.specs.Reading.{IsCounted};

use crate::counts::SoFar;
use crate::feeds::{IngestFeed, Said};
use crate::ingest_reading::{nothing, with_line};
use feed_text::{LineFault, MAX_BYTES, looked_at, next_line};
use std::alloc::Global;

// What the lines of a text have said, and how many they are.
#[derive(Drop)]
struct LinesRead {
    said: Said,
    number: u64,
}

// What has been said after one more line, which has this number.
fn next(alloc: Global, so_far: SoFar, line: &[u8], number: u64) -> Result<SoFar, LineFault>
    requires counted { IsCounted so_far.said so_far.counts }
    requires one_line { AllByRecursion (λ b. b ≢ 10) line.now }
    ensures ok { IfOk result (λ t. Takes so_far.said line.now t.said) }
    ensures counted { IfOk result (λ t. IsCounted t.said t.counts) }
    ensures stuck { IfErr result (λ fault. IsStuck so_far.said line.now number fault) }
{
    match with_line(alloc, so_far, line)? {
        Some(next) => Ok(next),
        None => Err(LineFault::Line { number }),
    }
}

// What the lines of a text say.
fn read_lines(alloc: Global, text: &[u8]) -> Result<LinesRead, LineFault>
    requires { length text.now ≤ MAX_BYTES + 1 }
    ensures read { IfOk result (λ r. Leads nothing (lines_of text.now) r.said) }
    ensures number { IfOk result (λ r. r.number ≡ length (lines_of text.now)) }
    ensures fault { IfErr result (λ fault. IsStop (lines_of text.now) fault) }
{
    let mut so_far = nothing(alloc);
    let mut number = 0;
    let mut rest = text;
    while !rest.is_empty() {
        let (line, after) = next_line(rest);
        so_far = next(alloc, so_far, line, number + 1)?;
        number += 1;
        rest = after;
    }
    Ok(LinesRead {
        said: so_far.said,
        number,
    })
}

// The feed that the lines of a text have said.
fn finished(read: LinesRead, bytes: &[u8]) -> Result<IngestFeed, LineFault>
    requires leads { Leads nothing (lines_read bytes.now) read.said }
    requires number { read.number ≡ length (lines_read bytes.now) }
    ensures read { IfOk result (λ feed. Spells feed bytes.now) }
    ensures appends { IfOk result (λ feed. IsFeed feed.appends) }
    ensures few { IfOk result (λ feed. IsFewEnough feed) }
    ensures fault { IfErr result (λ fault. IsFaultOf bytes.now fault) }
{
    let LinesRead { said, number } = read;
    if bytes.len() > MAX_BYTES {
        return Err(LineFault::Line { number });
    }
    if said.block.is_some() {
        return Err(LineFault::Line { number });
    }
    Ok(said.feed)
}

/// The feed that a text spells. A fault is the first line at fault, or `Memory` where memory is refused.
/// A text of more than MAX_BYTES bytes is at fault no later than in the line with the first byte that is too many.
pub fn parse_ingest(alloc: Global, bytes: &[u8]) -> Result<IngestFeed, LineFault>
    ensures read { IfOk result (λ feed. Spells feed bytes.now) }
    ensures appends { IfOk result (λ feed. IsFeed feed.appends) }
    ensures few { IfOk result (λ feed. IsFewEnough feed) }
    ensures fault { IfErr result (λ fault. IsFaultOf bytes.now fault) }
{
    let read = read_lines(alloc, looked_at(bytes))?;
    finished(read, bytes)
}
