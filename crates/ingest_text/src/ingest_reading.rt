// The next line of a feed of `ingest`.
ghost use Rattle.std.specs.Prelude.{◌≡◌, ◌≢◌, ◌⊎◌, None, Some, [], ◌∷◌, IfOk, MatchOption};
ghost use Rattle.std.specs.List.{AllByRecursion};
ghost use Rattle.feed_text.specs.declared.feed_lines.FeedLine.{FeedLine};
ghost use Rattle.feed_text.specs.Grammar.{command_lines, dot_line};
ghost use Rattle.ingest_text.specs.Feeds.{Free, IsQuery, QueryLine, SinceLine, Takes, nothing};
ghost use Rattle.ingest_text.specs.Reading.{Answers, IsCounted};

use crate::counts::{Counts, SoFar};
use crate::feeds::{IngestFeed, Said};
use crate::rules::{adding, asking, beginning, ending, opening};
use crate::timed_lines::time_behind;
use appends_core::AppendList;
use feed_text::{FeedLine, FeedLines, append_head, row};
use std::alloc::{AllocError, Global};
use update_core::{FeedAppend, Frontier};

// Nothing said.
pub(crate) fn nothing(alloc: Global) -> SoFar
    ensures said { result.said ≡ nothing }
    ensures counted { IsCounted result.said result.counts }
{
    SoFar {
        said: Said {
            feed: IngestFeed {
                since: None,
                appends: AppendList::new(alloc),
                queries: FeedLines::new(alloc),
            },
            block: None,
        },
        counts: Counts {
            end: Frontier::at(0),
            weight: 0,
            listens: 0,
            commands: 0,
        },
    }
}

// The question that a line asks.
fn query(line: &[u8]) -> Option<FeedLine>
    ensures { MatchOption result
        ((q : FeedLine) → IsQuery q → command_lines q ≡ line.now ∷ [] → ⊥)
        (λ q. IsQuery q × (command_lines q ≡ line.now ∷ [])) }
{
    match time_behind(b"snapshot", line) {
        Some(t) => Some(FeedLine::Snapshot { t }),
        None => match time_behind(b"listen", line) {
            Some(t) => Some(FeedLine::Listen { t }),
            None => None,
        },
    }
}

// A question, or a line that nothing takes.
fn question(feed: IngestFeed, counts: Counts, line: &[u8]) -> Result<Option<SoFar>, AllocError>
    requires { IsCounted (record { feed = feed; block = None }) counts }
    ensures { IfOk result (Answers (λ t. QueryLine (record { feed = feed; block = None }) line.now t)) }
{
    match query(line) {
        None => Ok(None),
        Some(query) => asking(feed, counts, query),
    }
}

// The line `since S`, or another that begins no append.
fn short_line(feed: IngestFeed, counts: Counts, line: &[u8]) -> Result<Option<SoFar>, AllocError>
    requires { IsCounted (record { feed = feed; block = None }) counts }
    ensures { IfOk result (Answers (λ t. SinceLine (record { feed = feed; block = None }) line.now t
        ⊎ QueryLine (record { feed = feed; block = None }) line.now t)) }
{
    match time_behind(b"since", line) {
        Some(to) => Ok(beginning(feed, counts, to)),
        None => question(feed, counts, line),
    }
}

// A line outside a block.
fn free_line(
    alloc: Global,
    feed: IngestFeed,
    counts: Counts,
    line: &[u8],
) -> Result<Option<SoFar>, AllocError>
    requires { IsCounted (record { feed = feed; block = None }) counts }
    ensures { IfOk result (Answers (λ t. Free (record { feed = feed; block = None }) line.now t)) }
{
    match append_head(alloc, line) {
        Some(block) => Ok(opening(feed, counts, block)),
        None => short_line(feed, counts, line),
    }
}

// The dot that ends a block.
fn closing(feed: IngestFeed, counts: Counts, block: FeedAppend) -> Result<Option<SoFar>, AllocError>
    requires { IsCounted (record { feed = feed; block = Some block }) counts }
    ensures { IfOk result (Answers (λ t. Takes (record { feed = feed; block = Some block }) dot_line t)) }
{
    let so_far = ending(feed, counts, block)?;
    Ok(Some(so_far))
}

// A line in a block.
fn block_line(
    alloc: Global,
    feed: IngestFeed,
    counts: Counts,
    block: FeedAppend,
    line: &[u8],
) -> Result<Option<SoFar>, AllocError>
    requires counted { IsCounted (record { feed = feed; block = Some block }) counts }
    requires one_line { AllByRecursion (λ b. b ≢ 10) line.now }
    ensures { IfOk result (Answers (λ t. Takes (record { feed = feed; block = Some block }) line.now t)) }
{
    if line == b".".as_slice() {
        return closing(feed, counts, block);
    }
    match row(alloc, line)? {
        None => Ok(None),
        Some(row) => adding(feed, counts, block, row),
    }
}

// The next line.
pub(crate) fn with_line(
    alloc: Global,
    so_far: SoFar,
    line: &[u8],
) -> Result<Option<SoFar>, AllocError>
    requires counted { IsCounted so_far.said so_far.counts }
    requires one_line { AllByRecursion (λ b. b ≢ 10) line.now }
    ensures { IfOk result (Answers (λ t. Takes so_far.said line.now t)) }
{
    let SoFar { said, counts } = so_far;
    let Said { feed, block } = said;
    match block {
        Some(block) => block_line(alloc, feed, counts, block, line),
        None => free_line(alloc, feed, counts, line),
    }
}
