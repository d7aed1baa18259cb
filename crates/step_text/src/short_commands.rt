// The commands that have one line.
ghost use Rattle.std.specs.Prelude.{◌≡◌, MatchOption};
ghost use Rattle.step_text.specs.declared.commands.Command.{Command};
ghost use Rattle.step_text.specs.Commands.{IsBare, IsShort, IsTimed, command_text};

use crate::commands::Command;
use feed_text::{cut_at, number};

// The command that one word says.
fn bare_command(word: &[u8]) -> Option<Command>
    ensures { MatchOption result
        ((command : Command) → IsBare command → word.now ≡ command_text command → ⊥)
        (λ command. IsBare command × (word.now ≡ command_text command)) }
{
    if word == b"next".as_slice() {
        return Some(Command::Next);
    }
    if word == b"renew".as_slice() {
        return Some(Command::Renew);
    }
    if word == b"close".as_slice() {
        return Some(Command::Close);
    }
    if word == b"merge".as_slice() {
        return Some(Command::Merge);
    }
    if word == b"collect".as_slice() {
        return Some(Command::Collect);
    }
    if word == b"expire".as_slice() {
        return Some(Command::Expire);
    }
    None
}

// The command that a word and a time say.
fn timed_command(text: &[u8]) -> Option<Command>
    ensures { MatchOption result
        ((command : Command) → IsTimed command → text.now ≡ command_text command → ⊥)
        (λ command. IsTimed command × (text.now ≡ command_text command)) }
{
    let (word, time) = cut_at(b' ', text)?;
    let time = number(time)?;
    if word == b"snapshot".as_slice() {
        return Some(Command::Snapshot { t: time });
    }
    if word == b"listen".as_slice() {
        return Some(Command::Listen { t: time });
    }
    if word == b"advance".as_slice() {
        return Some(Command::Advance { to: time });
    }
    None
}

/// The command that a text says whole, without further lines: any but an append.
pub fn short_command(text: &[u8]) -> Option<Command>
    ensures { MatchOption result
        ((command : Command) → IsShort command → text.now ≡ command_text command → ⊥)
        (λ command. IsShort command × (text.now ≡ command_text command)) }
{
    match bare_command(text) {
        Some(command) => Some(command),
        None => timed_command(text),
    }
}
