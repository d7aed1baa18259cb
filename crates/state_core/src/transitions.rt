// Transitions of a shard's state.
ghost use Rattle.std.specs.Prelude.{◌≡◌, IfOk};

use crate::kinds::Kind;
use spine_core::{Batch, KeyList};
use std::alloc::{AllocError, Global};
use update_core::Frontier;

/// How a shard's state becomes the next one.
#[derive(Drop)]
pub enum Transition {
    /// There is a state: the first transition, and no other.
    Init,
    /// One more member, whose lease of `lease` begins at the moment `now`. A writer has no lease.
    Join {
        kind: Kind,
        now: u64,
        lease: u64,
    },
    /// The member is gone.
    Leave {
        member: u64,
    },
    /// A reader's or keeper's lease begins again at the moment `now`, and it holds the new version.
    Renew {
        member: u64,
        now: u64,
    },
    /// A reader needs no time before `to` any more.
    Advance {
        member: u64,
        to: u64,
    },
    /// Each member whose lease has run out at the moment `now` is gone.
    Expire {
        now: u64,
    },
    /// A writer adds a batch from the time `expected` up to the frontier `new`, under one of its tokens.
    Append {
        member: u64,
        token: u64,
        expected: u64,
        new: Frontier,
        parts: KeyList,
        rows: u64,
        weight: u64,
    },
    /// A keeper puts one batch in place of two neighbours, under one of its tokens.
    Merge {
        member: u64,
        token: u64,
        left: Batch,
        right: Batch,
        merged: Batch,
    },
}

impl Transition {
    /// An equal transition. It fails only for want of memory.
    pub fn copy(&self, alloc: Global) -> Result<Transition, AllocError>
        ensures { IfOk result (λ copy. copy ≡ self.now) }
    {
        let copy = match self {
            Transition::Init => Transition::Init,
            Transition::Join { kind, now, lease } => Transition::Join {
                kind: *kind,
                now: *now,
                lease: *lease,
            },
            Transition::Leave { member } => Transition::Leave { member: *member },
            Transition::Renew { member, now } => Transition::Renew {
                member: *member,
                now: *now,
            },
            Transition::Advance { member, to } => Transition::Advance {
                member: *member,
                to: *to,
            },
            Transition::Expire { now } => Transition::Expire { now: *now },
            Transition::Append {
                member,
                token,
                expected,
                new,
                parts,
                rows,
                weight,
            } => Transition::Append {
                member: *member,
                token: *token,
                expected: *expected,
                new: *new,
                parts: parts.copy(alloc)?,
                rows: *rows,
                weight: *weight,
            },
            Transition::Merge {
                member,
                token,
                left,
                right,
                merged,
            } => Transition::Merge {
                member: *member,
                token: *token,
                left: left.copy(alloc)?,
                right: right.copy(alloc)?,
                merged: merged.copy(alloc)?,
            },
        };
        Ok(copy)
    }
}
