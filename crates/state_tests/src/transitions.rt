use crate::versions::one_append;
use spine_core::{Batch, Desc, KeyList};
use state_core::*;
use std::alloc::{AllocError, Global};
use std::test::Fail;
use store_core::{PartKey, ShardId};
use update_core::Frontier;
use version_codec::*;

const SHARD: ShardId = ShardId(7);

// The keys of a batch with this many rows, at most one part's.
fn keys(alloc: Global, member: u64, token: u64, rows: u64) -> Result<KeyList, AllocError> {
    let mut keys = KeyList::new(alloc);
    if rows > 0 {
        keys.push(PartKey {
            shard: SHARD,
            member,
            token,
            index: 0,
        })?;
    }
    Ok(keys)
}

// The batch of a member's token from `lower` to `upper`.
fn batch(
    alloc: Global,
    member: u64,
    token: u64,
    lower: u64,
    upper: u64,
    rows: u64,
) -> Result<Batch, AllocError> {
    let parts = keys(alloc, member, token, rows)?;
    let upper = Frontier::at(upper);
    let desc = Desc {
        lower,
        upper,
        since: 0,
    };
    Ok(Batch { desc, parts, rows })
}

// An append of ten times.
fn append(
    alloc: Global,
    member: u64,
    token: u64,
    expected: u64,
    rows: u64,
    weight: u64,
) -> Result<Transition, AllocError> {
    Ok(Transition::Append {
        member,
        token,
        expected,
        new: Frontier::at(expected.saturating_add(10)),
        parts: keys(alloc, member, token, rows)?,
        rows,
        weight,
    })
}

// A merge of the two batches of a busy state, the left one with this many rows.
fn merge(alloc: Global, member: u64, token: u64, rows: u64) -> Result<Transition, AllocError> {
    Ok(Transition::Merge {
        member,
        token,
        left: batch(alloc, 0, 1, 0, 10, rows)?,
        right: batch(alloc, 0, 2, 10, 20, 2)?,
        merged: batch(alloc, member, token, 0, 20, 4)?,
    })
}

fn join(kind: Kind, now: u64, lease: u64) -> Transition {
    Transition::Join { kind, now, lease }
}

// What a refusal tells, by its place in the order.
fn told(refusal: &Refusal) -> (u64, u64) {
    match refusal {
        Refusal::Memory => (0, 0),
        Refusal::Shape => (1, 0),
        Refusal::Spent => (2, 0),
        Refusal::NoMember => (3, 0),
        Refusal::TokenOld { last } => (4, *last),
        Refusal::UpperIs { current } => (5, current.time().unwrap_or(u64::MAX)),
        Refusal::Heavy { weight } => (6, *weight),
        Refusal::Back { since } => (7, *since),
        Refusal::MembersFull { count } => (8, *count),
        Refusal::NotPresent => (9, 0),
        Refusal::NotDue => (10, 0),
    }
}

fn are_same(left: &[Batch], right: &[Batch]) -> bool {
    if left.len() != right.len() {
        return false;
    }
    for i in 0..left.len() {
        if !left[i].is_same(&right[i]) {
            return false;
        }
    }
    true
}

// What a state tells in numbers: its number, the next member, since, upper, weight, floor, and how many members and
// batches there are.
fn numbers(state: &State) -> [u64; 8] {
    [
        state.number(),
        state.next_member(),
        state.since(),
        state.upper().time().unwrap_or(u64::MAX),
        state.weight(),
        state.floor(),
        state.members().len() as u64,
        state.spine().batches().len() as u64,
    ]
}

fn is_same(left: &State, right: &State) -> bool {
    left.shard() == right.shard()
        && numbers(left) == numbers(right)
        && left.members() == right.members()
        && are_same(left.spine().batches(), right.spine().batches())
}

// Whether the step is refused so, in a look and when it is applied, and leaves the state as it was.
fn is_refused(
    alloc: Global,
    state: &mut State,
    step: &Transition,
    want: (u64, u64),
) -> Result<bool, AllocError> {
    let before = state.copy(alloc)?;
    let Some(looked) = state.refusal_of(step) else {
        return Ok(false);
    };
    let Err(answer) = state.apply(alloc, step) else {
        return Ok(false);
    };
    Ok(told(&looked) == want && told(&answer) == want && is_same(state, &before))
}

// Applies a step and tells the state's numbers.
fn after(alloc: Global, state: &mut State, step: &Transition) -> Result<[u64; 8], Refusal> {
    state.apply(alloc, step)?;
    Ok(numbers(state))
}

// A writer, a reader from 5 on and a keeper, and two batches up to 20.
fn busy(alloc: Global) -> Result<State, Refusal> {
    let mut state = State::init(alloc, SHARD);
    state.apply(alloc, &join(Kind::Writer, 0, 0))?;
    state.apply(alloc, &join(Kind::Reader, 0, 100))?;
    state.apply(alloc, &join(Kind::Keeper, 5, 1000))?;
    state.apply(alloc, &append(alloc, 0, 1, 0, 3, 4)?)?;
    state.apply(alloc, &append(alloc, 0, 2, 10, 2, 2)?)?;
    state.apply(alloc, &Transition::Advance { member: 1, to: 5 })?;
    Ok(state)
}

#[test]
fn a_refused_transition_changes_nothing(rt: HostRuntime) -> Result<(), Fail> {
    let alloc = rt.alloc();
    let mut state = busy(alloc)?;
    let cases = [
        (Transition::Init, (1, 0)),
        (join(Kind::Writer, 1, 0), (1, 0)),
        (Transition::Leave { member: 9 }, (3, 0)),
        (Transition::Renew { member: 0, now: 1 }, (3, 0)),
        (Transition::Advance { member: 2, to: 9 }, (3, 0)),
        (Transition::Advance { member: 1, to: 4 }, (7, 5)),
        (Transition::Expire { now: 99 }, (10, 0)),
    ];
    for (step, want) in &cases {
        assert!(rt; is_refused(alloc, &mut state, step, *want)?, "at {want:?}");
    }
    Ok(())
}

#[test]
fn a_refused_append_changes_nothing(rt: HostRuntime) -> Result<(), Fail> {
    let alloc = rt.alloc();
    let mut state = busy(alloc)?;
    let cases = [
        (0, 3, 20, 3, 2, (1, 0)),
        (1, 3, 20, 1, 1, (3, 0)),
        (0, 2, 10, 1, 1, (4, 2)),
        (0, 3, 10, 0, 1 << 62, (5, 20)),
        (0, 3, 20, 0, 1 << 62, (6, 6)),
    ];
    for (member, token, expected, rows, weight, want) in cases {
        let step = append(alloc, member, token, expected, rows, weight)?;
        assert!(rt; is_refused(alloc, &mut state, &step, want)?, "at {want:?}");
    }
    Ok(())
}

#[test]
fn a_refused_merge_changes_nothing(rt: HostRuntime) -> Result<(), Fail> {
    let alloc = rt.alloc();
    let mut state = busy(alloc)?;
    for (member, token, rows, want) in [(0, 3, 3, (3, 0)), (2, 1, 4, (9, 0))] {
        let step = merge(alloc, member, token, rows)?;
        assert!(rt; is_refused(alloc, &mut state, &step, want)?, "at {want:?}");
    }
    Ok(())
}

// A state with the last number, in which member 0 stands.
fn last(alloc: Global) -> Result<State, Fail> {
    let bytes = one_append(alloc)?;
    let (state, _step) = decode_version(alloc, SHARD, u64::MAX, &bytes)?;
    Ok(state)
}

#[test]
fn after_the_last_number_a_look_tells_more(rt: HostRuntime) -> Result<(), Fail> {
    let alloc = rt.alloc();
    let mut state = last(alloc)?;
    let step = Transition::Leave { member: 7 };
    assert!(rt; is_refused(alloc, &mut state, &step, (2, 0))?);
    let looked = state.refusal_by_kind(&step);
    assert!(rt; matches!(looked, Some(Refusal::NoMember)));
    Ok(())
}

#[test]
fn no_more_than_256_members_join(rt: HostRuntime) -> Result<(), Fail> {
    let alloc = rt.alloc();
    let mut state = State::init(alloc, SHARD);
    for _ in 0..256 {
        state.apply(alloc, &join(Kind::Keeper, 0, 1))?;
    }
    let step = join(Kind::Writer, 0, 0);
    assert!(rt; is_refused(alloc, &mut state, &step, (8, 256))?);
    Ok(())
}

#[test]
fn a_lease_runs_out_at_its_last_moment(rt: HostRuntime) -> Result<(), Fail> {
    let alloc = rt.alloc();
    let mut state = State::init(alloc, SHARD);
    state.apply(alloc, &join(Kind::Reader, 0, 100))?;
    let early = Transition::Expire { now: 99 };
    assert!(rt; is_refused(alloc, &mut state, &early, (10, 0))?);
    let due = Transition::Expire { now: 100 };
    assert!(rt; after(alloc, &mut state, &due)? == [2, 1, 0, 0, 0, 2, 0, 0]);
    Ok(())
}

// The writer at the end of the run.
fn writer() -> Member {
    Member {
        number: 0,
        kind: Kind::Writer,
        since: 0,
        hold: 0,
        beat: 0,
        lease: 0,
        token: 2,
    }
}

// The keeper at the end of the run.
fn keeper() -> Member {
    Member {
        number: 2,
        kind: Kind::Keeper,
        since: 0,
        hold: 6,
        beat: 5,
        lease: 1000,
        token: 1,
    }
}

#[test]
fn a_run(rt: HostRuntime) -> Result<(), Fail> {
    let alloc = rt.alloc();
    let mut state = State::init(alloc, SHARD);
    let first = append(alloc, 0, 1, 0, 3, 4)?;
    let second = append(alloc, 0, 2, 10, 2, 2)?;
    let merged = merge(alloc, 2, 1, 3)?;
    let steps = [
        (join(Kind::Writer, 0, 0), [1, 1, 0, 0, 0, 1, 1, 0]),
        (join(Kind::Reader, 0, 100), [2, 2, 0, 0, 0, 2, 2, 0]),
        (join(Kind::Keeper, 5, 1000), [3, 3, 0, 0, 0, 2, 3, 0]),
        (first, [4, 3, 0, 10, 4, 2, 3, 1]),
        (second, [5, 3, 0, 20, 6, 2, 3, 2]),
        (merged, [6, 3, 0, 20, 6, 2, 3, 1]),
        (
            Transition::Renew { member: 1, now: 7 },
            [7, 3, 0, 20, 6, 6, 3, 1],
        ),
        (
            Transition::Advance { member: 1, to: 5 },
            [8, 3, 5, 20, 6, 6, 3, 1],
        ),
        (Transition::Leave { member: 1 }, [9, 3, 5, 20, 6, 6, 2, 1]),
    ];
    for (step, want) in &steps {
        let step = step.copy(alloc)?;
        assert!(rt; after(alloc, &mut state, &step)? == *want, "at {want:?}");
    }
    assert!(rt; state.members() == [writer(), keeper()].as_slice());
    assert!(rt; state.member(1).is_none() && state.member(2) == Some(&keeper()));
    let merged = [batch(alloc, 2, 1, 0, 20, 4)?];
    assert!(rt; are_same(state.spine().batches(), &merged));
    Ok(())
}
