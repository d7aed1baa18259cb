// Reading of a transition.
ghost use Rattle.std.specs.Prelude.{◌≡◌, [], ◌∷◌, ◌++◌};
ghost use Rattle.state_core.specs.Steps.{init, acts_for};
ghost use Rattle.state_core.specs.Drafts.{drafted};
ghost use Rattle.version_codec.specs.Reading.{Gives, step_key_at, step_keys_at, counted_keys_at, step_batch_at, join_at, one_at, two_at, append_at, merge_at, fields_at, whole_step_at, is_shaped_alone, is_below, step_at};

use crate::fields::{frontier_of, next_frontier, next_kind, next_number};
use crate::version_faults::VersionFault;
use byte_core::{next_byte, place_of};
use spine_core::{Batch, Desc, KeyList, Spine};
use state_core::{Draft, MemberList, State, Transition};
use std::alloc::Global;
use store_core::{PartKey, ShardId};
use update_core::Frontier;

#[tactic(auto, unfolding(crate::specs::Reading::step_key_at))]
fn next_key(total: usize, shard: ShardId, bytes: &[u8]) -> Result<(PartKey, &[u8]), VersionFault>
    ensures { Gives (λ x. (x.0, x.1.now)) result (step_key_at total shard bytes.now) }
{
    let (member, rest) = next_number(total, bytes)?;
    let (token, rest) = next_number(total, rest)?;
    let (index, rest) = next_number(total, rest)?;
    let key = PartKey {
        shard,
        member,
        token,
        index,
    };
    Ok((key, rest))
}

fn next_keys(
    alloc: Global,
    total: usize,
    shard: ShardId,
    count: u64,
    bytes: &[u8],
) -> Result<(KeyList, &[u8]), VersionFault>
    ensures { Gives (λ x. (x.0, x.1.now)) result (step_keys_at total shard [] count bytes.now) }
{
    let mut keys = KeyList::new(alloc);
    let mut rest = bytes;
    for _ in 0..count {
        let (key, after) = next_key(total, shard, rest)?;
        keys.push(key)?;
        rest = after;
    }
    Ok((keys, rest))
}

#[tactic(auto, unfolding(crate::specs::Reading::counted_keys_at))]
fn next_counted_keys(
    alloc: Global,
    total: usize,
    shard: ShardId,
    bytes: &[u8],
) -> Result<(KeyList, &[u8]), VersionFault>
    ensures { Gives (λ x. (x.0, x.1.now)) result (counted_keys_at total shard bytes.now) }
{
    let (count, rest) = next_number(total, bytes)?;
    next_keys(alloc, total, shard, count, rest)
}

#[tactic(auto, unfolding(crate::specs::Reading::step_batch_at))]
fn next_batch(
    alloc: Global,
    total: usize,
    shard: ShardId,
    bytes: &[u8],
) -> Result<(Batch, &[u8]), VersionFault>
    ensures { Gives (λ x. (x.0, x.1.now)) result (step_batch_at total shard bytes.now) }
{
    let (lower, rest) = next_number(total, bytes)?;
    let (upper, rest) = next_frontier(total, rest)?;
    let (since, rest) = next_number(total, rest)?;
    let (rows, rest) = next_number(total, rest)?;
    let (parts, rest) = next_counted_keys(alloc, total, shard, rest)?;
    let desc = Desc {
        lower,
        upper: frontier_of(upper),
        since,
    };
    Ok((Batch { desc, parts, rows }, rest))
}

#[tactic(auto, unfolding(crate::specs::Reading::join_at))]
fn next_join(total: usize, bytes: &[u8]) -> Result<(Transition, &[u8]), VersionFault>
    ensures { Gives (λ x. (x.0, x.1.now)) result (join_at total bytes.now) }
{
    let (kind, rest) = next_kind(total, bytes)?;
    let (now, rest) = next_number(total, rest)?;
    let (lease, rest) = next_number(total, rest)?;
    Ok((Transition::Join { kind, now, lease }, rest))
}

#[tactic(auto, unfolding(crate::specs::Reading::one_at))]
fn next_leave(total: usize, bytes: &[u8]) -> Result<(Transition, &[u8]), VersionFault>
    ensures { Gives (λ x. (x.0, x.1.now)) result (one_at Transition.Leave total bytes.now) }
{
    let (member, rest) = next_number(total, bytes)?;
    Ok((Transition::Leave { member }, rest))
}

#[tactic(auto, unfolding(crate::specs::Reading::two_at))]
fn next_renew(total: usize, bytes: &[u8]) -> Result<(Transition, &[u8]), VersionFault>
    ensures { Gives (λ x. (x.0, x.1.now)) result (two_at Transition.Renew total bytes.now) }
{
    let (member, rest) = next_number(total, bytes)?;
    let (now, rest) = next_number(total, rest)?;
    Ok((Transition::Renew { member, now }, rest))
}

#[tactic(auto, unfolding(crate::specs::Reading::two_at))]
fn next_advance(total: usize, bytes: &[u8]) -> Result<(Transition, &[u8]), VersionFault>
    ensures { Gives (λ x. (x.0, x.1.now)) result (two_at Transition.Advance total bytes.now) }
{
    let (member, rest) = next_number(total, bytes)?;
    let (to, rest) = next_number(total, rest)?;
    Ok((Transition::Advance { member, to }, rest))
}

#[tactic(auto, unfolding(crate::specs::Reading::one_at))]
fn next_expire(total: usize, bytes: &[u8]) -> Result<(Transition, &[u8]), VersionFault>
    ensures { Gives (λ x. (x.0, x.1.now)) result (one_at Transition.Expire total bytes.now) }
{
    let (now, rest) = next_number(total, bytes)?;
    Ok((Transition::Expire { now }, rest))
}

#[tactic(auto, unfolding(crate::specs::Reading::append_at))]
fn next_append(
    alloc: Global,
    total: usize,
    shard: ShardId,
    bytes: &[u8],
) -> Result<(Transition, &[u8]), VersionFault>
    ensures { Gives (λ x. (x.0, x.1.now)) result (append_at total shard bytes.now) }
{
    let (member, rest) = next_number(total, bytes)?;
    let (token, rest) = next_number(total, rest)?;
    let (expected, rest) = next_number(total, rest)?;
    let (new, rest) = next_frontier(total, rest)?;
    let (rows, rest) = next_number(total, rest)?;
    let (weight, rest) = next_number(total, rest)?;
    let (parts, rest) = next_counted_keys(alloc, total, shard, rest)?;
    let step = Transition::Append {
        member,
        token,
        expected,
        new: frontier_of(new),
        parts,
        rows,
        weight,
    };
    Ok((step, rest))
}

#[tactic(auto, unfolding(crate::specs::Reading::merge_at))]
fn next_merge(
    alloc: Global,
    total: usize,
    shard: ShardId,
    bytes: &[u8],
) -> Result<(Transition, &[u8]), VersionFault>
    ensures { Gives (λ x. (x.0, x.1.now)) result (merge_at total shard bytes.now) }
{
    let (member, rest) = next_number(total, bytes)?;
    let (token, rest) = next_number(total, rest)?;
    let (left, rest) = next_batch(alloc, total, shard, rest)?;
    let (right, rest) = next_batch(alloc, total, shard, rest)?;
    let (merged, rest) = next_batch(alloc, total, shard, rest)?;
    let step = Transition::Merge {
        member,
        token,
        left,
        right,
        merged,
    };
    Ok((step, rest))
}

// The fields that follow a tag, which stands at the front of `start`.
#[tactic(auto, unfolding(crate::specs::Reading::fields_at))]
fn next_step_fields<'a>(
    alloc: Global,
    total: usize,
    shard: ShardId,
    start: &[u8],
    tag: u8,
    bytes: &'a [u8],
) -> Result<(Transition, &'a [u8]), VersionFault>
    ensures { Gives (λ x. (x.0, x.1.now)) result (fields_at total shard start.now tag bytes.now) }
{
    match tag {
        0 => Ok((Transition::Init, bytes)),
        1 => next_join(total, bytes),
        2 => next_leave(total, bytes),
        3 => next_renew(total, bytes),
        4 => next_advance(total, bytes),
        5 => next_expire(total, bytes),
        6 => next_append(alloc, total, shard, bytes),
        7 => next_merge(alloc, total, shard, bytes),
        _ => Err(VersionFault::Tag {
            place: place_of(total, start),
        }),
    }
}

#[tactic(auto, unfolding(crate::specs::Reading::whole_step_at))]
fn next_whole_step(
    alloc: Global,
    total: usize,
    shard: ShardId,
    bytes: &[u8],
) -> Result<(Transition, &[u8]), VersionFault>
    ensures { Gives (λ x. (x.0, x.1.now)) result (whole_step_at total shard bytes.now) }
{
    let (tag, rest) = next_byte(total, bytes)?;
    next_step_fields(alloc, total, shard, bytes, tag, rest)
}

// The first state with another since.
fn init_since(alloc: Global, shard: ShardId, since: u64) -> State
    ensures { result ≡ record (init shard) { since = since } }
{
    State::of(Draft {
        shard,
        number: 0,
        next_member: 0,
        since,
        upper: Frontier::at(0),
        weight: 0,
        members: MemberList::new(alloc),
        spine: Spine::new(alloc),
    })
}

// Whether a transition keeps the rules of its shape that don't speak of the state before.
fn is_shaped_alone(alloc: Global, shard: ShardId, step: &Transition) -> bool
    ensures { result ≡ is_shaped_alone shard step.now }
{
    match step {
        Transition::Merge { merged, .. } => {
            init_since(alloc, shard, merged.desc.since).is_shaped(step)
        }
        Transition::Join { .. } => State::init(alloc, shard).is_shaped(step),
        Transition::Append { .. } => State::init(alloc, shard).is_shaped(step),
        Transition::Init => true,
        Transition::Leave { .. } => true,
        Transition::Renew { .. } => true,
        Transition::Advance { .. } => true,
        Transition::Expire { .. } => true,
    }
}

// The member that a transition needs to be one's own.
fn acts_for(step: &Transition) -> Option<u64>
    ensures { result ≡ acts_for step.now }
{
    match step {
        Transition::Init => None,
        Transition::Join { .. } => None,
        Transition::Expire { .. } => None,
        Transition::Leave { member } => Some(*member),
        Transition::Renew { member, .. } => Some(*member),
        Transition::Advance { member, .. } => Some(*member),
        Transition::Append { member, .. } => Some(*member),
        Transition::Merge { member, .. } => Some(*member),
    }
}

fn is_below(member: Option<u64>, next: u64) -> bool
    ensures { result ≡ is_below member next }
{
    match member {
        None => true,
        Some(member) => member < next,
    }
}

#[tactic(auto, unfolding(crate::specs::Reading::step_at))]
pub(crate) fn next_step<'a>(
    alloc: Global,
    total: usize,
    draft: &Draft,
    bytes: &'a [u8],
) -> Result<(Transition, &'a [u8]), VersionFault>
    ensures { Gives (λ x. (x.0, x.1.now)) result (step_at total (drafted draft.now) bytes.now) }
{
    let (step, rest) = next_whole_step(alloc, total, draft.shard, bytes)?;
    let is_fit = is_shaped_alone(alloc, draft.shard, &step)
        && is_below(acts_for(&step), draft.next_member);
    if is_fit {
        Ok((step, rest))
    } else {
        Err(VersionFault::Rule {
            place: place_of(total, bytes),
        })
    }
}
