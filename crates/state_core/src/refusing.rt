// Why a transition is refused, by looking at a state alone. Nothing here takes memory.
ghost use Rattle.std.specs.Prelude.{◌≡◌, ◌+◌, ◌^◌, not, nat_le, nat_lt, Some, None, if◌then◌else◌};
ghost use Rattle.update_core.specs.Limits.{max_members};
ghost use Rattle.update_core.specs.Frontiers.{frontier_eq};
ghost use Rattle.state_core.specs.Refusals.{any_kind, are_keys, follows, is_key, is_keeper, is_part_count, is_shaped};
ghost use Rattle.state_core.specs.Refusals.{of_member, refusal_by_kind, refusal_of};
ghost use Rattle.state_core.specs.States.{is_reader, is_writer};
ghost use Rattle.state_core.specs.declared.refusals.Refusal.TheVariants.{TokenOld, UpperIs, Heavy, Back};
ghost use Rattle.state_core.specs.declared.refusals.Refusal.TheVariants.{MembersFull, NotPresent};

use crate::members::Member;
use crate::refusals::Refusal;
use crate::states::State;
use crate::transitions::Transition;
use spine_core::Batch;
use store_core::{PartKey, ShardId};
use update_core::Frontier;

const MOST_MEMBERS: usize = 256;

const MOST_ROWS: u64 = 65_536;

const ROWS_OF_A_PART: u128 = 4096;

const MOST_WEIGHT: u64 = 1 << 62;

// Whether a batch with this many rows has this many parts.
fn is_part_count(rows: u64, parts: usize) -> bool
    ensures { result ≡ is_part_count rows parts }
{
    let room = ROWS_OF_A_PART * parts as u128;
    let rows = u128::from(rows);
    rows <= room && room < rows + ROWS_OF_A_PART
}

// Whether two batches have at least this many rows in all.
fn is_sum_at_least(rows: u64, left: u64, right: u64) -> bool
    ensures { result ≡ nat_le rows (left + right) }
{
    u128::from(rows) <= u128::from(left) + u128::from(right)
}

// Whether the key has these fields.
fn is_key(key: PartKey, shard: ShardId, member: u64, token: u64, index: u64) -> bool
    ensures { result ≡ is_key shard member token index key }
{
    key.shard.0 == shard.0 && key.member == member && key.token == token && key.index == index
}

// Whether the keys are the member's under the token, numbered from 0 on.
fn are_keys(shard: ShardId, member: u64, token: u64, keys: &[PartKey]) -> bool
    ensures { result ≡ are_keys shard member token 0 keys.now }
{
    for i in 0..keys.len() {
        if !is_key(keys[i], shard, member, token, i as u64) {
            return false;
        }
    }
    true
}

// Whether left is somewhere directly followed by right.
fn follows(batches: &[Batch], left: &Batch, right: &Batch) -> bool
    ensures { result ≡ follows left.now right.now batches.now }
{
    let mut left_before = false;
    for batch in batches {
        if left_before && batch.is_same(right) {
            return true;
        }
        left_before = batch.is_same(left);
    }
    false
}

// A refusal where as many members stand as can stand.
fn join_refusal(members: usize) -> Option<Refusal>
    ensures { result ≡ (if nat_le max_members members then Some (MembersFull members) else None) }
{
    if members >= MOST_MEMBERS {
        Some(Refusal::MembersFull {
            count: members as u64,
        })
    } else {
        None
    }
}

// A refusal where the member doesn't stand.
fn leave_refusal(found: Option<Member>) -> Option<Refusal>
    ensures { result ≡ of_member found any_kind (λ _. None) }
{
    match found {
        Some(_) => None,
        None => Some(Refusal::NoMember),
    }
}

// A refusal where no reader or keeper stands.
fn renew_refusal(found: Option<Member>) -> Option<Refusal>
    ensures { result ≡ of_member found (λ k. not (is_writer k)) (λ _. None) }
{
    match found {
        Some(member) => {
            if member.kind.is_writer() {
                Some(Refusal::NoMember)
            } else {
                None
            }
        }
        None => Some(Refusal::NoMember),
    }
}

// A refusal where no reader stands, or its since would go back.
fn advance_refusal(found: Option<Member>, to: u64) -> Option<Refusal>
    ensures { result ≡ of_member found is_reader (λ m. if nat_lt to m.since then Some (Back m.since) else None) }
{
    let Some(member) = found else {
        return Some(Refusal::NoMember);
    };
    if !member.kind.is_reader() {
        return Some(Refusal::NoMember);
    }
    if to < member.since {
        return Some(Refusal::Back {
            since: member.since,
        });
    }
    None
}

// A refusal where no writer stands, its token is spent, the upper is another or the shard would be too heavy.
fn append_refusal(
    found: Option<Member>,
    token: u64,
    current: Frontier,
    expected: u64,
    had: u64,
    weight: u64,
) -> Option<Refusal>
    ensures { result ≡ of_member found is_writer (λ m.
        if nat_le token m.token then Some (TokenOld m.token)
        else if not (frontier_eq current (Some expected)) then Some (UpperIs current)
        else if nat_lt (2 ^ 62) (had + weight) then Some (Heavy had) else None) }
{
    let Some(member) = found else {
        return Some(Refusal::NoMember);
    };
    if !member.kind.is_writer() {
        return Some(Refusal::NoMember);
    }
    if token <= member.token {
        return Some(Refusal::TokenOld { last: member.token });
    }
    if current != Frontier::at(expected) {
        return Some(Refusal::UpperIs { current });
    }
    if u128::from(had) + u128::from(weight) > u128::from(MOST_WEIGHT) {
        return Some(Refusal::Heavy { weight: had });
    }
    None
}

// A refusal where no keeper stands, its token is spent or the two batches don't stand one after the other.
fn merge_refusal(
    found: Option<Member>,
    token: u64,
    batches: &[Batch],
    left: &Batch,
    right: &Batch,
) -> Option<Refusal>
    ensures { result ≡ of_member found is_keeper (λ m.
        if nat_le token m.token then Some (TokenOld m.token)
        else if follows left.now right.now batches.now then None else Some NotPresent) }
{
    let Some(member) = found else {
        return Some(Refusal::NoMember);
    };
    if !member.kind.is_keeper() {
        return Some(Refusal::NoMember);
    }
    if token <= member.token {
        return Some(Refusal::TokenOld { last: member.token });
    }
    if follows(batches, left, right) {
        None
    } else {
        Some(Refusal::NotPresent)
    }
}

impl State {
    /// The first refusal that the transition meets, which is what `apply` answers, or None where it applies. It takes no
    /// memory.
    pub fn refusal_of(&self, step: &Transition) -> Option<Refusal>
        ensures { result ≡ refusal_of self.now step.now }
    {
        if !self.is_shaped(step) {
            return Some(Refusal::Shape);
        }
        if self.number() == u64::MAX {
            return Some(Refusal::Spent);
        }
        self.refusal_by_kind(step)
    }

    /// The first refusal after `Shape` and `Spent` that the transition meets: what stands where no number is left, so
    /// that nothing can be committed. It takes no memory.
    pub fn refusal_by_kind(&self, step: &Transition) -> Option<Refusal>
        ensures { result ≡ refusal_by_kind self.now step.now }
    {
        match step {
            Transition::Init => Some(Refusal::Shape),
            Transition::Join { .. } => join_refusal(self.members().len()),
            Transition::Leave { member } => leave_refusal(self.member(*member).copied()),
            Transition::Renew { member, .. } => renew_refusal(self.member(*member).copied()),
            Transition::Advance { member, to } => {
                advance_refusal(self.member(*member).copied(), *to)
            }
            Transition::Expire { now } => {
                if self.is_due(*now) {
                    None
                } else {
                    Some(Refusal::NotDue)
                }
            }
            Transition::Append {
                member,
                token,
                expected,
                weight,
                ..
            } => append_refusal(
                self.member(*member).copied(),
                *token,
                self.upper(),
                *expected,
                self.weight(),
                *weight,
            ),
            Transition::Merge {
                member,
                token,
                left,
                right,
                ..
            } => merge_refusal(
                self.member(*member).copied(),
                *token,
                self.spine().batches(),
                left,
                right,
            ),
        }
    }

    /// Whether the transition keeps the rules of its shape.
    pub fn is_shaped(&self, step: &Transition) -> bool
        ensures { result ≡ is_shaped self.now step.now }
    {
        match step {
            Transition::Init => false,
            Transition::Join { kind, now, lease } => {
                !kind.is_writer() || *now == 0 && *lease == 0
            }
            Transition::Append {
                member,
                token,
                expected,
                new,
                parts,
                rows,
                weight,
            } => {
                new.covers(*expected)
                    && *rows <= MOST_ROWS
                    && *rows <= *weight
                    && *weight <= MOST_WEIGHT + 1
                    && are_keys(self.shard(), *member, *token, parts.as_slice())
                    && is_part_count(*rows, parts.as_slice().len())
            }
            Transition::Merge {
                member,
                token,
                left,
                right,
                merged,
            } => {
                left.desc.upper == Frontier::at(right.desc.lower)
                    && merged.desc.lower == left.desc.lower
                    && merged.desc.upper == right.desc.upper
                    && left.desc.since <= merged.desc.since
                    && right.desc.since <= merged.desc.since
                    && merged.desc.since <= self.since()
                    && is_sum_at_least(merged.rows, left.rows, right.rows)
                    && are_keys(self.shard(), *member, *token, merged.parts.as_slice())
                    && is_part_count(merged.rows, merged.parts.as_slice().len())
            }
            _ => true,
        }
    }
}
