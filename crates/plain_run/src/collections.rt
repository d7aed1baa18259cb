// The plain collection, kept as one list.
ghost use Rattle.std.specs.Prelude.{◌≡◌, IfOk, OnOk, OnErr, None, Some, ◌&&◌, position};
ghost use Rattle.update_core.specs.Collections.{empty_collection, append_answer, after_append, snapshot_answer, listen_answer, is_closed, is_past};
ghost use Rattle.update_core.specs.Updates.{weight_of};
ghost use Rattle.plain_run.specs.PlainRuns.{append_reply, append_text, collection_after, collection_since, is_outside, listen_text, since_reply, snapshot_text};

use feed_text::RunReply;
use std::alloc::{AllocError, Global};
use std::marker::Model;
use update_core::{FeedAppend, Frontier, UpdateList, consolidate, slice_between, sum_at, weight};

/// The greatest weight of a collection.
pub(crate) const MAX_WEIGHT: u128 = 1 << 62;

/// A collection whose accepted updates are kept in one list. See docs/DEFINITIONS.md, "The plain collection".
#[derive(Drop)]
pub struct PlainCollection {
    updates: UpdateList,
    since: u64,
    upper: Frontier,
    weight: u64,
}

impl Model for PlainCollection {
    ghost use Rattle.std.specs.Prelude.{◌≤◌};
    ghost use Rattle.update_core.specs.Collections.{Collection};
    ghost use Rattle.update_core.specs.Limits.{max_weight};
    ghost use Rattle.update_core.specs.Updates.{weight_of};

    ghost Value = { Collection };

    ghost view = { λ c. record { updates = c.updates; since = c.since; upper = c.upper; weight = c.weight } };

    ghost invariant = { λ c. (weight_of c.updates ≤ c.weight) × (c.weight ≤ max_weight) };
}

/// The place of the first row that is outside the append's range.
pub(crate) fn first_outside(append: &FeedAppend) -> Option<usize>
    ensures { result ≡ position (is_outside append.now) append.now.rows }
{
    append.rows.as_slice().iter().position(|row| !(append.lower <= row.time
        && append.upper.covers(row.time)))
}

/// Whether the upper is past a frontier. None is past Closed.
pub(crate) fn passes(upper: Frontier, from: Frontier) -> bool
    ensures { result ≡ is_past upper from }
{
    match from.time() {
        Some(t) => upper.covers(t),
        None => false,
    }
}

/// Whether both frontiers are Closed.
pub(crate) fn both_closed(from: Frontier, upper: Frontier) -> bool
    ensures { result ≡ (is_closed from && is_closed upper) }
{
    from.time().is_none() && upper.time().is_none()
}

impl PlainCollection {
    /// The empty collection, which takes no memory.
    pub fn new(alloc: Global) -> PlainCollection
        ensures { result ≡ empty_collection }
    {
        PlainCollection {
            updates: UpdateList::new(alloc),
            since: 0,
            upper: Frontier::at(0),
            weight: 0,
        }
    }

    /// Appends the rows where the append isn't empty, each row is in range, the upper is at its lower and the weight
    /// stays within 2^62. It fails only for want of memory, and then the collection is as it was.
    pub fn append(&mut self, alloc: Global, append: FeedAppend) -> Result<RunReply, AllocError>
        ensures reply { IfOk result (λ reply. reply ≡ append_reply self.old append) }
        ensures after { OnOk result (self.new ≡ collection_after self.old append) }
        ensures err { OnErr result (self.new ≡ self.old) }
    {
        if !append.upper.covers(append.lower) {
            return Ok(RunReply::Empty);
        }
        if let Some(place) = first_outside(&append) {
            return Ok(RunReply::Range {
                row: place as u64 + 1,
            });
        }
        self.accept(alloc, append)
    }

    // An append that is in range.
    fn accept(&mut self, alloc: Global, append: FeedAppend) -> Result<RunReply, AllocError>
        ensures reply { IfOk result (λ reply. reply ≡ append_text (append_answer self.old append.lower (weight_of append.rows))) }
        ensures after { OnOk result (self.new ≡ after_append self.old append.rows append.lower append.upper (weight_of append.rows)) }
        ensures err { OnErr result (self.new ≡ self.old) }
    {
        let FeedAppend { lower, upper, rows } = append;
        if self.upper != Frontier::at(lower) {
            return Ok(RunReply::Mismatch { upper: self.upper });
        }
        let weight = weight(&rows);
        if weight > MAX_WEIGHT - u128::from(self.weight) {
            return Ok(RunReply::Heavy {
                weight: self.weight,
            });
        }
        let rows = consolidate(alloc, rows)?;
        self.updates.append(rows)?;
        self.upper = upper;
        self.weight += weight as u64;
        Ok(RunReply::Accepted)
    }

    /// The content at a time, where the collection is known there. It fails only for want of memory.
    pub fn snapshot(&self, alloc: Global, t: u64) -> Result<RunReply, AllocError>
        ensures { IfOk result (λ reply. reply ≡ snapshot_text (snapshot_answer self.now t)) }
    {
        if t < self.since {
            return Ok(RunReply::Early { since: self.since });
        }
        if !self.upper.covers(t) {
            return Ok(RunReply::Late { upper: self.upper });
        }
        Ok(RunReply::Rows(sum_at(alloc, &self.updates, t)?))
    }

    /// The updates from a frontier up to the upper; early where the since is from the frontier on, ended where both are
    /// Closed, quiet where the upper isn't past the frontier. It fails only for want of memory.
    pub fn listen(&self, alloc: Global, from: Frontier) -> Result<RunReply, AllocError>
        ensures { IfOk result (λ reply. reply ≡ listen_text (listen_answer self.now from)) }
    {
        if from.reaches(self.since) {
            return Ok(RunReply::Early { since: self.since });
        }
        if both_closed(from, self.upper) {
            return Ok(RunReply::Ended);
        }
        if !passes(self.upper, from) {
            return Ok(RunReply::Quiet { upper: self.upper });
        }
        let updates = slice_between(alloc, &self.updates, from, self.upper)?;
        Ok(RunReply::Step {
            updates,
            upper: self.upper,
        })
    }

    /// Moves the since to this time, where that isn't below it. It is the since of the one reader, the caller's.
    pub fn advance(&mut self, to: u64) -> RunReply
        ensures reply { result ≡ since_reply self.old.since to }
        ensures after { self.new ≡ collection_since self.old to }
    {
        if to < self.since {
            return RunReply::Back { since: self.since };
        }
        self.since = to;
        RunReply::Accepted
    }
}
