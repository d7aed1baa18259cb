// Reading of the fields of a state, and of its members.
ghost use Rattle.std.specs.Prelude.{◌≡◌, ◌≤◌, ◌<◌, ◌^◌, ◌+◌, ◌*◌, [], length, IfOk};
ghost use Rattle.std.specs.Int.{w16};
ghost use Rattle.store_core.specs.Stores.{last_of};
ghost use Rattle.state_core.specs.Steps.{init};
ghost use Rattle.state_core.specs.States.{least_since};
ghost use Rattle.state_core.specs.Drafts.{drafted};
ghost use Rattle.version_codec.specs.Reading.{Gives, head_at, may_join, joined_at, most_since, most_token, unless_writer, member_at, members_at, member_count_at, reader_place, since_is, all_members_at, wide_at};
ghost use Rattle.update_core.specs.Limits.{most};

use crate::fields::{frontier_of, next_frontier, next_kind, next_limited, next_number};
use crate::version_faults::VersionFault;
use byte_core::{next_u16, place_of};
use spine_core::Spine;
use state_core::{Draft, Kind, Member, MemberList};
use std::alloc::Global;
use store_core::ShardId;

const MOST_MEMBERS: u16 = 256;

const MOST_WEIGHT: u64 = 1 << 62;

#[tactic(auto, unfolding(crate::specs::Reading::head_at))]
pub(crate) fn next_head(
    alloc: Global,
    total: usize,
    shard: ShardId,
    number: u64,
    bytes: &[u8],
) -> Result<(Draft, &[u8]), VersionFault>
    ensures read { Gives (λ x. (drafted x.0, x.1.now)) result (head_at total (record (init shard) { number = number }) bytes.now) }
    ensures no_member { IfOk result (λ x. x.0.members ≡ []) }
    ensures no_batch { IfOk result (λ x. x.0.spine ≡ []) }
{
    let (next_member, rest) = next_limited(total, number, bytes)?;
    let (since, rest) = next_number(total, rest)?;
    let (upper, rest) = next_frontier(total, rest)?;
    let (weight, rest) = next_limited(total, MOST_WEIGHT, rest)?;
    let draft = Draft {
        shard,
        number,
        next_member,
        since,
        upper: frontier_of(upper),
        weight,
        members: MemberList::new(alloc),
        spine: Spine::new(alloc),
    };
    Ok((draft, rest))
}

fn may_join(members: &[Member], next: u64, number: u64) -> bool
    ensures { result ≡ may_join (last_of members.now) next number }
{
    match members {
        [] => number < next,
        [.., before] => before.number < number && number < next,
    }
}

fn most_since(kind: Kind) -> u64
    ensures { result ≡ most_since kind }
{
    if kind.is_reader() { u64::MAX } else { 0 }
}

fn most_token(kind: Kind) -> u64
    ensures { result ≡ most_token kind }
{
    if kind.is_reader() { 0 } else { u64::MAX }
}

fn unless_writer(kind: Kind, most: u64) -> u64
    ensures { result ≡ unless_writer kind most }
{
    if kind.is_writer() { 0 } else { most }
}

#[tactic(auto, unfolding(crate::specs::Reading::joined_at))]
fn next_joined<'a>(
    total: usize,
    draft: &Draft,
    bytes: &'a [u8],
) -> Result<(u64, &'a [u8]), VersionFault>
    ensures { Gives (λ x. (x.0, x.1.now)) result (joined_at total (drafted draft.now) bytes.now) }
{
    let (number, rest) = next_number(total, bytes)?;
    if may_join(draft.members.as_slice(), draft.next_member, number) {
        Ok((number, rest))
    } else {
        Err(VersionFault::Rule {
            place: place_of(total, bytes),
        })
    }
}

#[tactic(auto, unfolding(crate::specs::Reading::member_at))]
fn next_member<'a>(
    total: usize,
    draft: &Draft,
    bytes: &'a [u8],
) -> Result<(Member, &'a [u8]), VersionFault>
    ensures { Gives (λ x. (x.0, x.1.now)) result (member_at total (drafted draft.now) bytes.now) }
{
    let (number, rest) = next_joined(total, draft, bytes)?;
    let (kind, rest) = next_kind(total, rest)?;
    let (since, rest) = next_limited(total, most_since(kind), rest)?;
    let (hold, rest) = next_limited(total, unless_writer(kind, draft.number), rest)?;
    let (beat, rest) = next_limited(total, unless_writer(kind, u64::MAX), rest)?;
    let (lease, rest) = next_limited(total, unless_writer(kind, u64::MAX), rest)?;
    let (token, rest) = next_limited(total, most_token(kind), rest)?;
    let member = Member {
        number,
        kind,
        since,
        hold,
        beat,
        lease,
        token,
    };
    Ok((member, rest))
}

fn next_members(
    total: usize,
    draft: Draft,
    count: u16,
    bytes: &[u8],
) -> Result<(Draft, &[u8]), VersionFault>
    ensures read { Gives (λ x. (drafted x.0, x.1.now)) result (members_at total (drafted draft) count bytes.now) }
    ensures count { IfOk result (λ x. length x.0.members ≡ length draft.members + count) }
    ensures spine { IfOk result (λ x. x.0.spine ≡ draft.spine) }
{
    let mut draft = draft;
    let mut rest = bytes;
    for _ in 0..count {
        let (member, after) = next_member(total, &draft, rest)?;
        draft.members.push(member)?;
        rest = after;
    }
    Ok((draft, rest))
}

#[tactic(auto, unfolding(crate::specs::Reading::member_count_at))]
fn next_member_count(total: usize, bytes: &[u8]) -> Result<(u16, &[u8]), VersionFault>
    ensures read { Gives (λ x. (x.0, x.1.now)) result (member_count_at total bytes.now) }
    ensures few { IfOk result (λ x. x.0 ≤ 256) }
{
    let (count, rest) = next_u16(total, bytes)?;
    if count > MOST_MEMBERS {
        return Err(VersionFault::Rule {
            place: place_of(total, bytes),
        });
    }
    Ok((count, rest))
}

// The place of the last reader's since, where the members begin at `start`: each has 49 bytes, and its since is from the tenth on.
fn reader_place(start: u64, members: &[Member]) -> u64
    requires { start + 49 * length members.now + 9 < 2 ^ 64 }
    ensures { result ≡ reader_place 0 start members.now }
{
    let mut found = 0;
    let mut place = start;
    for member in members {
        if member.kind.is_reader() {
            found = place + 9;
        }
        place += 49;
    }
    found
}

fn is_since(least: Option<u64>, since: u64) -> bool
    ensures { result ≡ since_is least since }
{
    match least {
        None => true,
        Some(least) => since == least,
    }
}

#[tactic(auto, unfolding(crate::specs::Reading::all_members_at))]
pub(crate) fn all_members(
    total: usize,
    draft: Draft,
    bytes: &[u8],
) -> Result<(Draft, &[u8]), VersionFault>
    requires small { total < 2 ^ 63 }
    requires none { draft.members ≡ [] }
    ensures read { Gives (λ x. (drafted x.0, x.1.now)) result (all_members_at total (drafted draft) bytes.now) }
    ensures spine { IfOk result (λ x. x.0.spine ≡ draft.spine) }
{
    let (count, rest) = next_member_count(total, bytes)?;
    let start = place_of(total, rest);
    let (draft, rest) = next_members(total, draft, count, rest)?;
    if is_since(draft.members.least_since(), draft.since) {
        Ok((draft, rest))
    } else {
        Err(VersionFault::Rule {
            place: reader_place(start, draft.members.as_slice()),
        })
    }
}
