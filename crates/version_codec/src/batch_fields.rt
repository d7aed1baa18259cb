// Reading of the batches of a state.
ghost use Rattle.std.specs.Prelude.{◌≡◌, ◌≤◌, ◌<◌, ◌-◌, true, [], ◌∷◌, ◌++◌, IfOk, IfErr, OnOk};
ghost use Rattle.spine_core.specs.Spines.{rows_of, spine_upper};
ghost use Rattle.update_core.specs.Frontiers.{covers, is_at};
ghost use Rattle.state_core.specs.Refusals.{is_part_count, member_of};
ghost use Rattle.state_core.specs.States.{keys_of};
ghost use Rattle.state_core.specs.Drafts.{drafted};
ghost use Rattle.version_codec.specs.Reading.{Gives, limited_at, most_spent, index_at, key_at, keys_at, lower_at, may_end, upper_at, part_count_at, batch_at, batches_at, batch_count_at, all_batches_at};

use crate::fields::{frontier_of, next_below, next_frontier, next_limited, next_number};
use crate::key_sets::KeySet;
use crate::version_faults::VersionFault;
use byte_core::place_of;
use spine_core::{Batch, Desc, KeyList, Spine};
use state_core::{Draft, MemberList};
use std::alloc::Global;
use store_core::{PartKey, ShardId};

const ROWS_OF_A_PART: u128 = 4096;

fn most_spent(members: &MemberList, number: u64) -> u64
    ensures { result ≡ most_spent (member_of number members.now) }
{
    match members.find(number) {
        Some(member) => member.token,
        None => u64::MAX,
    }
}

#[tactic(auto, unfolding(crate::specs::Reading::index_at))]
fn next_index(
    total: usize,
    shard: ShardId,
    member: u64,
    token: u64,
    seen: KeySet,
    bytes: &[u8],
) -> Result<(PartKey, KeySet, &[u8]), VersionFault>
    ensures read { Gives (λ x. (x.0, x.2.now)) result (index_at total shard member token seen bytes.now) }
    ensures seen { IfOk result (λ x. x.1 ≡ seen ++ x.0 ∷ []) }
{
    let (index, rest) = next_number(total, bytes)?;
    let key = PartKey {
        shard,
        member,
        token,
        index,
    };
    let (seen, is_new) = seen.with(key)?;
    if is_new {
        Ok((key, seen, rest))
    } else {
        Err(VersionFault::Rule {
            place: place_of(total, bytes),
        })
    }
}

#[tactic(auto, unfolding(crate::specs::Reading::key_at))]
fn next_key<'a>(
    total: usize,
    draft: &Draft,
    seen: KeySet,
    bytes: &'a [u8],
) -> Result<(PartKey, KeySet, &'a [u8]), VersionFault>
    ensures read { Gives (λ x. (x.0, x.2.now)) result (key_at total (drafted draft.now) seen bytes.now) }
    ensures seen { IfOk result (λ x. x.1 ≡ seen ++ x.0 ∷ []) }
{
    let (member, rest) = next_below(total, draft.next_member, bytes)?;
    let (token, rest) = next_limited(total, most_spent(&draft.members, member), rest)?;
    next_index(total, draft.shard, member, token, seen, rest)
}

// The keys of a batch after their count.
fn next_keys<'a>(
    alloc: Global,
    total: usize,
    draft: &Draft,
    count: u64,
    seen: KeySet,
    bytes: &'a [u8],
) -> Result<(KeyList, KeySet, &'a [u8]), VersionFault>
    requires { seen ≡ keys_of draft.now.spine }
    ensures read { Gives (λ x. (x.0, x.2.now)) result (keys_at total (drafted draft.now) [] count bytes.now) }
    ensures seen { IfOk result (λ x. x.1 ≡ keys_of draft.now.spine ++ x.0) }
{
    let mut keys = KeyList::new(alloc);
    let mut seen = seen;
    let mut rest = bytes;
    for _ in 0..count {
        let (key, more, after) = next_key(total, draft, seen, rest)?;
        keys.push(key)?;
        seen = more;
        rest = after;
    }
    Ok((keys, seen, rest))
}

#[tactic(auto, unfolding(crate::specs::Reading::lower_at))]
fn next_lower<'a>(
    total: usize,
    draft: &Draft,
    bytes: &'a [u8],
) -> Result<(u64, &'a [u8]), VersionFault>
    ensures read { Gives (λ x. (x.0, x.1.now)) result (lower_at total (drafted draft.now) bytes.now) }
    ensures at { IfOk result (λ x. is_at (spine_upper draft.now.spine) x.0 ≡ true) }
{
    let (lower, rest) = next_number(total, bytes)?;
    if draft.spine.upper().is_at(lower) {
        Ok((lower, rest))
    } else {
        Err(VersionFault::Rule {
            place: place_of(total, bytes),
        })
    }
}

#[tactic(auto, unfolding(crate::specs::Reading::upper_at))]
fn next_upper<'a>(
    total: usize,
    draft: &Draft,
    is_last: bool,
    lower: u64,
    bytes: &'a [u8],
) -> Result<(Option<u64>, &'a [u8]), VersionFault>
    ensures read { Gives (λ x. (x.0, x.1.now)) result (upper_at total (drafted draft.now) is_last lower bytes.now) }
    ensures covers { IfOk result (λ x. covers x.0 lower ≡ true) }
{
    let (time, rest) = next_frontier(total, bytes)?;
    let upper = frontier_of(time);
    if upper.covers(lower) && (!is_last || draft.upper == upper) {
        Ok((time, rest))
    } else {
        Err(VersionFault::Rule {
            place: place_of(total, bytes),
        })
    }
}

// Whether a batch with this many rows has this many parts.
fn is_part_count(rows: u64, parts: u64) -> bool
    ensures { result ≡ is_part_count rows parts }
{
    let room = ROWS_OF_A_PART * u128::from(parts);
    let rows = u128::from(rows);
    rows <= room && room < rows + ROWS_OF_A_PART
}

#[tactic(auto, unfolding(crate::specs::Reading::part_count_at))]
fn next_part_count(total: usize, rows: u64, bytes: &[u8]) -> Result<(u64, &[u8]), VersionFault>
    ensures { Gives (λ x. (x.0, x.1.now)) result (part_count_at total rows bytes.now) }
{
    let (count, rest) = next_number(total, bytes)?;
    if is_part_count(rows, count) {
        Ok((count, rest))
    } else {
        Err(VersionFault::Rule {
            place: place_of(total, bytes),
        })
    }
}

// The rows of a batch, of which so many are left.
#[tactic(auto, unfolding(crate::specs::Reading::limited_at))]
fn next_rows(total: usize, left: u64, bytes: &[u8]) -> Result<(u64, &[u8]), VersionFault>
    ensures read { Gives (λ x. (x.0, x.1.now)) result (limited_at total left bytes.now) }
    ensures few { IfOk result (λ x. x.0 ≤ left) }
{
    let (rows, rest) = next_number(total, bytes)?;
    if left < rows {
        return Err(VersionFault::Rule {
            place: place_of(total, bytes),
        });
    }
    Ok((rows, rest))
}

#[tactic(auto, unfolding(crate::specs::Reading::batch_at))]
fn next_batch<'a>(
    alloc: Global,
    total: usize,
    draft: &Draft,
    left: u64,
    seen: KeySet,
    is_last: bool,
    bytes: &'a [u8],
) -> Result<(Batch, KeySet, &'a [u8]), VersionFault>
    requires left { left ≡ draft.now.weight - rows_of draft.now.spine }
    requires seen { seen ≡ keys_of draft.now.spine }
    ensures read { Gives (λ x. (x.0, x.2.now)) result (batch_at total (drafted draft.now) is_last bytes.now) }
    ensures seen { IfOk result (λ x. x.1 ≡ keys_of draft.now.spine ++ x.0.parts) }
    ensures follows { IfOk result (λ x. is_at (spine_upper draft.now.spine) x.0.desc.lower ≡ true) }
    ensures covers { IfOk result (λ x. covers x.0.desc.upper x.0.desc.lower ≡ true) }
    ensures few { IfOk result (λ x. x.0.rows ≤ left) }
{
    let (lower, rest) = next_lower(total, draft, bytes)?;
    let (upper, rest) = next_upper(total, draft, is_last, lower, rest)?;
    let (since, rest) = next_limited(total, draft.since, rest)?;
    let (rows, rest) = next_rows(total, left, rest)?;
    let (count, rest) = next_part_count(total, rows, rest)?;
    let (parts, seen, rest) = next_keys(alloc, total, draft, count, seen, rest)?;
    let desc = Desc {
        lower,
        upper: frontier_of(upper),
        since,
    };
    let batch = Batch { desc, parts, rows };
    Ok((batch, seen, rest))
}

// Puts a batch at the end that is from the spine's upper on, so that only memory can be refused.
fn put_batch(spine: &mut Spine, batch: Batch) -> Result<(), VersionFault>
    requires follows { is_at (spine_upper spine.old) batch.desc.lower ≡ true }
    requires covers { covers batch.desc.upper batch.desc.lower ≡ true }
    ensures ok { OnOk result (spine.new ≡ spine.old ++ batch ∷ []) }
    ensures err { IfErr result (λ fault. fault ≡ VersionFault.Memory) }
{
    match spine.push(batch) {
        Ok(()) => Ok(()),
        Err(_) => Err(VersionFault::Memory),
    }
}

fn next_batches(
    alloc: Global,
    total: usize,
    draft: Draft,
    count: u64,
    bytes: &[u8],
) -> Result<(Draft, &[u8]), VersionFault>
    requires { draft.spine ≡ [] }
    ensures { Gives (λ x. (drafted x.0, x.1.now)) result (batches_at total (drafted draft) count bytes.now) }
{
    let mut draft = draft;
    let mut left = draft.weight;
    let mut seen = KeySet::new(alloc);
    let mut rest = bytes;
    for i in 0..count {
        let (batch, more, after) = next_batch(
            alloc,
            total,
            &draft,
            left,
            seen,
            i + 1 == count,
            rest,
        )?;
        left -= batch.rows;
        seen = more;
        put_batch(&mut draft.spine, batch)?;
        rest = after;
    }
    Ok((draft, rest))
}

#[tactic(auto, unfolding(crate::specs::Reading::batch_count_at))]
fn next_batch_count<'a>(
    total: usize,
    draft: &Draft,
    bytes: &'a [u8],
) -> Result<(u64, &'a [u8]), VersionFault>
    ensures { Gives (λ x. (x.0, x.1.now)) result (batch_count_at total (drafted draft.now) bytes.now) }
{
    let (count, rest) = next_number(total, bytes)?;
    if count > 0 || draft.upper.is_at(0) {
        Ok((count, rest))
    } else {
        Err(VersionFault::Rule {
            place: place_of(total, bytes),
        })
    }
}

#[tactic(auto, unfolding(crate::specs::Reading::all_batches_at))]
pub(crate) fn all_batches(
    alloc: Global,
    total: usize,
    draft: Draft,
    bytes: &[u8],
) -> Result<(Draft, &[u8]), VersionFault>
    requires { draft.spine ≡ [] }
    ensures { Gives (λ x. (drafted x.0, x.1.now)) result (all_batches_at total (drafted draft) bytes.now) }
{
    let (count, rest) = next_batch_count(total, &draft, bytes)?;
    next_batches(alloc, total, draft, count, rest)
}
