// The lines that begin a command.
ghost use Rattle.std.specs.Prelude.{◌≡◌, ℕ, ◌^◌, ◌<◌, Option, [], ◌∷◌, IfSome, MatchOption};
ghost use Rattle.feed_text.specs.Grammar.{append_line, command_lines, IsAppend, IsCommand, IsNoCommand};

use crate::feed_lines::FeedLine;
use crate::line_cuts::cut_at;
use crate::numbers::{frontier, number};
use std::alloc::Global;
use update_core::{FeedAppend, UpdateList};

/// The append that a line begins, with no rows yet.
pub fn append_head(alloc: Global, line: &[u8]) -> Option<FeedAppend>
    ensures { MatchOption result
        ((l : ℕ) (u : Option ℕ) → l < 2 ^ 64 → IfSome u (λ t. t < 2 ^ 64) → line.now ≡ append_line l u → ⊥)
        (λ a. IsAppend a × (a.rows ≡ []) × (line.now ≡ append_line a.lower a.upper)) }
{
    let (word, rest) = cut_at(b' ', line)?;
    if word != b"append".as_slice() {
        return None;
    }
    let (lower, upper) = cut_at(b' ', rest)?;
    let lower = number(lower)?;
    let upper = frontier(upper)?;
    Some(FeedAppend {
        lower,
        upper,
        rows: UpdateList::new(alloc),
    })
}

// The command that a line spells on its own: a word and a time, or the word `compact` alone.
pub(crate) fn one_line_command(line: &[u8]) -> Option<FeedLine>
    ensures { MatchOption result
        (IsNoCommand line.now)
        (λ command. IsCommand command × (command_lines command ≡ line.now ∷ [])) }
{
    if line == b"compact".as_slice() {
        return Some(FeedLine::Compact);
    }
    let (word, time) = cut_at(b' ', line)?;
    let time = number(time)?;
    if word == b"snapshot".as_slice() {
        return Some(FeedLine::Snapshot { t: time });
    }
    if word == b"listen".as_slice() {
        return Some(FeedLine::Listen { t: time });
    }
    if word == b"since".as_slice() {
        return Some(FeedLine::Since { to: time });
    }
    None
}
