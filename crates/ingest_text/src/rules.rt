// What a command or a row makes of a feed, where it may stand.
ghost use Rattle.std.specs.Prelude.{◌≡◌, ◌≤◌, None, Some, [], ◌∷◌, IfOk};
ghost use Rattle.ingest_text.specs.Feeds.{MayAdd, MayAsk, MayOpen, listens_in, nothing, with_append, with_block, with_query, with_row, with_since};
ghost use Rattle.ingest_text.specs.Reading.{Does, IsCounted};

use crate::counts::{Counts, SoFar};
use crate::feeds::{IngestFeed, Said};
use crate::limits::{MAX_LISTENS, MAX_WEIGHT};
use feed_text::{FeedLine, MAX_COMMANDS, MAX_ROWS};
use std::alloc::AllocError;
use update_core::{FeedAppend, Update};

// A since, where nothing was said.
pub(crate) fn beginning(feed: IngestFeed, counts: Counts, to: u64) -> Option<SoFar>
    requires { IsCounted (record { feed = feed; block = None }) counts }
    ensures { Does (record { feed = feed; block = None } ≡ nothing) (with_since (record { feed = feed; block = None }) to) result }
{
    if counts.commands > 0 {
        return None;
    }
    let mut feed = feed;
    feed.since = Some(to);
    let mut counts = counts;
    counts.commands = 1;
    Some(SoFar {
        said: Said { feed, block: None },
        counts,
    })
}

// A block, where it may be opened.
pub(crate) fn opening(feed: IngestFeed, counts: Counts, block: FeedAppend) -> Option<SoFar>
    requires counted { IsCounted (record { feed = feed; block = None }) counts }
    requires empty { block.rows ≡ [] }
    ensures { Does (MayOpen feed block.lower block.upper) (with_block (record { feed = feed; block = None }) block) result }
{
    if !feed.queries.as_slice().is_empty() {
        return None;
    }
    if !counts.end.is_at(block.lower) {
        return None;
    }
    if !block.upper.covers(block.lower) {
        return None;
    }
    if counts.commands >= MAX_COMMANDS as u64 {
        return None;
    }
    let mut counts = counts;
    counts.commands += 1;
    Some(SoFar {
        said: Said {
            feed,
            block: Some(block),
        },
        counts,
    })
}

// One where a question is a listen, else none.
fn listens(query: &FeedLine) -> u64
    ensures count { result ≡ listens_in (query.now ∷ []) }
    ensures few { result ≤ 1 }
{
    match query {
        FeedLine::Listen { .. } => 1,
        _ => 0,
    }
}

// A question, where it may be asked.
pub(crate) fn asking(
    feed: IngestFeed,
    counts: Counts,
    query: FeedLine,
) -> Result<Option<SoFar>, AllocError>
    requires { IsCounted (record { feed = feed; block = None }) counts }
    ensures { IfOk result (Does (MayAsk feed query) (with_query (record { feed = feed; block = None }) query)) }
{
    let more = listens(&query);
    if counts.listens + more > MAX_LISTENS {
        return Ok(None);
    }
    if counts.commands >= MAX_COMMANDS as u64 {
        return Ok(None);
    }
    let mut feed = feed;
    feed.queries.push(query)?;
    let mut counts = counts;
    counts.listens += more;
    counts.commands += 1;
    Ok(Some(SoFar {
        said: Said { feed, block: None },
        counts,
    }))
}

// A row in the block that is open, where it may stand there.
pub(crate) fn adding(
    feed: IngestFeed,
    counts: Counts,
    block: FeedAppend,
    row: Update,
) -> Result<Option<SoFar>, AllocError>
    requires { IsCounted (record { feed = feed; block = Some block }) counts }
    ensures { IfOk result (Does (MayAdd feed block row) (with_row (record { feed = feed; block = Some block }) block row)) }
{
    if row.time < block.lower {
        return Ok(None);
    }
    if !block.upper.covers(row.time) {
        return Ok(None);
    }
    if block.rows.as_slice().len() >= MAX_ROWS {
        return Ok(None);
    }
    let more = row.diff.unsigned_abs();
    if more > MAX_WEIGHT - counts.weight {
        return Ok(None);
    }
    let mut block = block;
    block.rows.push(row)?;
    let mut counts = counts;
    counts.weight += more;
    Ok(Some(SoFar {
        said: Said {
            feed,
            block: Some(block),
        },
        counts,
    }))
}

// The block that is open, ended.
pub(crate) fn ending(
    feed: IngestFeed,
    counts: Counts,
    block: FeedAppend,
) -> Result<SoFar, AllocError>
    requires { IsCounted (record { feed = feed; block = Some block }) counts }
    ensures { IfOk result (λ x. (x.said ≡ with_append (record { feed = feed; block = Some block }) block) × IsCounted x.said x.counts) }
{
    let mut feed = feed;
    let mut counts = counts;
    counts.end = block.upper;
    feed.appends.push(block)?;
    Ok(SoFar {
        said: Said { feed, block: None },
        counts,
    })
}
