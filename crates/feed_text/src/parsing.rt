// The feed that a text spells.
ghost use Rattle.std.specs.Prelude.{◌≡◌, ◌+◌, ◌≤◌, length, take, IfOk, IfErr};
ghost use Rattle.feed_text.specs.Faults.{IsFaultOf, StopsAt};
ghost use Rattle.feed_text.specs.Grammar.{lines_read, Spells};
ghost use Rattle.feed_text.specs.Lines.{lines_of};
ghost use Rattle.feed_text.specs.Reading.{taken_lines, IsTaken};

use crate::feed_readers::FeedReader;
use crate::feeds::Feed;
use crate::limits::MAX_BYTES;
use crate::line_cuts::next_line;
use crate::line_faults::LineFault;
use std::alloc::Global;

/// The bytes that are looked at: up to the first that is too many.
pub fn looked_at(bytes: &[u8]) -> &[u8]
    ensures { result.now ≡ take (MAX_BYTES + 1) bytes.now }
{
    if bytes.len() > MAX_BYTES {
        &bytes[..MAX_BYTES + 1]
    } else {
        bytes
    }
}

// What a reader takes of the lines of a text.
fn read_lines(alloc: Global, text: &[u8]) -> Result<FeedReader, LineFault>
    requires { length text.now ≤ MAX_BYTES + 1 }
    ensures taken { IfOk result (λ reader. IsTaken reader.commands reader.block reader.number) }
    ensures read { IfOk result (λ reader. taken_lines reader.commands reader.block ≡ lines_of text.now) }
    ensures fault { IfErr result (λ fault. StopsAt (lines_of text.now) fault) }
{
    let mut reader = FeedReader::new(alloc);
    let mut rest = text;
    while !rest.is_empty() {
        let (line, after) = next_line(rest);
        reader = reader.with_line(alloc, line)?;
        rest = after;
    }
    Ok(reader)
}

// The feed of a reader that has taken the lines of a text.
fn finished(reader: FeedReader, bytes: &[u8]) -> Result<Feed, LineFault>
    requires taken { IsTaken reader.commands reader.block reader.number }
    requires read { taken_lines reader.commands reader.block ≡ lines_read bytes.now }
    ensures read { IfOk result (λ feed. Spells feed.lines bytes.now) }
    ensures fault { IfErr result (λ fault. IsFaultOf bytes.now fault) }
{
    let FeedReader {
        commands,
        block,
        number,
    } = reader;
    if bytes.len() > MAX_BYTES {
        return Err(LineFault::Line { number });
    }
    match block {
        None => Ok(Feed { lines: commands }),
        Some(_) => Err(LineFault::Line { number }),
    }
}

/// The feed that a text spells. A fault is the first line at fault, or `Memory` where memory is refused.
/// A text of more than MAX_BYTES bytes is at fault no later than in the line with the first byte that is too many.
pub fn parse_feed(alloc: Global, bytes: &[u8]) -> Result<Feed, LineFault>
    ensures read { IfOk result (λ feed. Spells feed.lines bytes.now) }
    ensures fault { IfErr result (λ fault. IsFaultOf bytes.now fault) }
{
    let reader = read_lines(alloc, looked_at(bytes))?;
    finished(reader, bytes)
}
