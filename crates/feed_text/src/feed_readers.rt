// FeedReader: what has been read of a feed, line by line.
ghost use Rattle.std.specs.Prelude.{◌≡◌, ◌≢◌, ◌+◌, ◌<◌, ◌≤◌, ◌^◌, length, None, Some, [], ◌∷◌, ◌++◌, IfOk, IfErr, MatchOption};
ghost use Rattle.std.specs.List.{AllByRecursion};
ghost use Rattle.feed_text.specs.Faults.{IsRefusal};
ghost use Rattle.feed_text.specs.Grammar.{dot_line, feed_lines, IsAppend};
ghost use Rattle.feed_text.specs.Reading.{block_lines, taken_lines, IsTaken, IsNoRow};

use crate::command_lines::{append_head, one_line_command};
use crate::feed_line_lists::FeedLines;
use crate::feed_lines::FeedLine;
use crate::limits::{MAX_COMMANDS, MAX_ROWS};
use crate::line_faults::LineFault;
use crate::row_lines::row;
use std::alloc::{AllocError, Global};
use update_core::FeedAppend;

// The commands that are whole, the append block that is open, and the number of the lines.
#[derive(Drop)]
pub(crate) struct FeedReader {
    pub(crate) commands: FeedLines,
    pub(crate) block: Option<FeedAppend>,
    pub(crate) number: u64,
}

// The block with one more row, where the line is one and there is room.
fn with_row(alloc: Global, block: FeedAppend, line: &[u8]) -> Result<Option<FeedAppend>, AllocError>
    requires within { IsAppend block }
    requires one_line { AllByRecursion (λ b. b ≢ 10) line.now }
    ensures { IfOk result (λ found. MatchOption found
        (IsNoRow block.rows line.now)
        (λ b. IsAppend b
        × (block_lines b.lower b.upper b.rows ≡ block_lines block.lower block.upper block.rows ++ line.now ∷ []))) }
{
    if block.rows.as_slice().len() >= MAX_ROWS {
        return Ok(None);
    }
    match row(alloc, line)? {
        None => Ok(None),
        Some(update) => {
            let mut block = block;
            block.rows.push(update)?;
            Ok(Some(block))
        }
    }
}

// The next line where a block is open: its dot, or a row.
fn in_block(
    alloc: Global,
    commands: FeedLines,
    block: FeedAppend,
    number: u64,
    line: &[u8],
) -> Result<FeedReader, LineFault>
    requires taken { IsTaken commands (Some block) number }
    requires few { number + 1 < 2 ^ 64 }
    requires one_line { AllByRecursion (λ b. b ≢ 10) line.now }
    ensures taken { IfOk result (λ reader. IsTaken reader.commands reader.block reader.number) }
    ensures ok { IfOk result
        (λ reader. taken_lines reader.commands reader.block ≡ taken_lines commands (Some block) ++ line.now ∷ []) }
    ensures number { IfOk result (λ reader. reader.number ≡ number + 1) }
    ensures fault { IfErr result
        (λ fault. IsRefusal (taken_lines commands (Some block) ++ line.now ∷ []) (number + 1) fault) }
{
    if line == b".".as_slice() {
        let mut commands = commands;
        commands.push(FeedLine::Append(block))?;
        return Ok(FeedReader {
            commands,
            block: None,
            number: number + 1,
        });
    }
    match with_row(alloc, block, line)? {
        Some(block) => Ok(FeedReader {
            commands,
            block: Some(block),
            number: number + 1,
        }),
        None => Err(LineFault::Line { number: number + 1 }),
    }
}

// The next line where no block is open: it begins a command.
fn between_commands(
    alloc: Global,
    commands: FeedLines,
    number: u64,
    line: &[u8],
) -> Result<FeedReader, LineFault>
    requires taken { IsTaken commands None number }
    requires few { number + 1 < 2 ^ 64 }
    ensures taken { IfOk result (λ reader. IsTaken reader.commands reader.block reader.number) }
    ensures ok { IfOk result
        (λ reader. taken_lines reader.commands reader.block ≡ taken_lines commands None ++ line.now ∷ []) }
    ensures number { IfOk result (λ reader. reader.number ≡ number + 1) }
    ensures fault { IfErr result
        (λ fault. IsRefusal (taken_lines commands None ++ line.now ∷ []) (number + 1) fault) }
{
    let number = number + 1;
    if commands.as_slice().len() >= MAX_COMMANDS {
        return Err(LineFault::Line { number });
    }
    if let Some(block) = append_head(alloc, line) {
        return Ok(FeedReader {
            commands,
            block: Some(block),
            number,
        });
    }
    match one_line_command(line) {
        Some(command) => {
            let mut commands = commands;
            commands.push(command)?;
            Ok(FeedReader {
                commands,
                block: None,
                number,
            })
        }
        None => Err(LineFault::Line { number }),
    }
}

impl FeedReader {
    // Nothing read.
    pub(crate) fn new(alloc: Global) -> FeedReader
        ensures taken { IsTaken result.commands result.block result.number }
        ensures lines { taken_lines result.commands result.block ≡ [] }
        ensures number { result.number ≡ 0 }
    {
        FeedReader {
            commands: FeedLines::new(alloc),
            block: None,
            number: 0,
        }
    }

    // The reader after one more line. A fault has the line's number: no feed begins with the lines up to it.
    pub(crate) fn with_line(self, alloc: Global, line: &[u8]) -> Result<FeedReader, LineFault>
        requires taken { IsTaken self.commands self.block self.number }
        requires few { self.number + 1 < 2 ^ 64 }
        requires one_line { AllByRecursion (λ b. b ≢ 10) line.now }
        ensures taken { IfOk result (λ reader. IsTaken reader.commands reader.block reader.number) }
        ensures ok { IfOk result
            (λ reader. taken_lines reader.commands reader.block ≡ taken_lines self.commands self.block ++ line.now ∷ []) }
        ensures number { IfOk result (λ reader. reader.number ≡ self.number + 1) }
        ensures fault { IfErr result
            (λ fault. IsRefusal (taken_lines self.commands self.block ++ line.now ∷ []) (self.number + 1) fault) }
    {
        let FeedReader {
            commands,
            block,
            number,
        } = self;
        match block {
            Some(block) => in_block(alloc, commands, block, number, line),
            None => between_commands(alloc, commands, number, line),
        }
    }
}
