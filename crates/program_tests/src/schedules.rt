// Schedules, by examples.
use crate::programs::{Case, ended};
use persist_app::*;
use std::alloc::{AllocError, Global};
use std::test::Fail;
use store_core::{FaultAt, FaultList, MemStore};

// Two appends that are merged, and a reader's lease that begins anew. An `@` stands for it.
pub const MERGED: &str =
    "writer A\ncompactor C 1000\nreader R 1000\nbegin A append 0 5\n1 1 x\n.\nstep A 9\nbegin A append 5 10\n6 1 y\n.\nstep A 9\nbegin C merge\nstep C 9\nbegin R renew\nstep R 9\n";

pub const MERGED_SAID: &str = "A ok\nA ok\nC merged 6\nR ok\n";

// A text with what its first byte stands for.
pub fn whole(alloc: Global, text: &str, start: &str) -> Result<String, AllocError> {
    let mut all = String::new(alloc);
    match text.strip_prefix("@") {
        Some(rest) => {
            all.push_str(start)?;
            all.push_str(rest)?;
        }
        None => all.push_str(text)?,
    }
    Ok(all)
}

pub fn faults_of(alloc: Global, calls: &[(u64, bool)]) -> Result<FaultList, AllocError> {
    let mut faults = FaultList::new(alloc);
    for call in calls {
        faults.push(FaultAt {
            number: call.0,
            took: call.1,
        })?;
    }
    Ok(faults)
}

pub fn steps<'a>(schedule: &'a str) -> Case<'a> {
    Case {
        words: "steps",
        feed: schedule.as_bytes(),
        reads: &[],
        puts: &[],
    }
}

// The calls that fail, and whether they take effect; a schedule; the status, and what is written.
#[test]
fn schedules_are_executed(rt: HostRuntime) -> Result<(), Fail> {
    let alloc = rt.alloc();
    for (name, fails, schedule, status, said) in [
        (
            "a line is at fault",
            [].as_slice(),
            "writer A\nhead\nstep B 1\n",
            3,
            "line 3\n",
        ),
        (
            "a falling moment",
            [].as_slice(),
            "moment 5\nmoment 4\n",
            3,
            "line 2\n",
        ),
        ("nothing", [].as_slice(), "", 0, ""),
        (
            "a client can't join",
            [(1, false)].as_slice(),
            "head\nwriter A\n",
            6,
            "head none\nstore failed\n",
        ),
        (
            "a Head fails",
            [(1, true)].as_slice(),
            "head\nhead\nhead\n",
            6,
            "head none\nstore failed\n",
        ),
        (
            "a Set fails",
            [(3, false)].as_slice(),
            "writer A\nbegin A append 0 5\n1 1 x\n.\nstep A 9\nhead\n",
            0,
            "A fault\nA ok\nhead 2\n",
        ),
        (
            "why commands aren't begun",
            [].as_slice(),
            "writer A\nbegin A append 5 5\n.\nbegin A append 0 5\n5 1 x\n.\nbegin A close\nbegin A close\nstep A 9\nbegin A close\nreader R 5\nbegin R next\n",
            0,
            "A empty\nA range 1\nA open\nA ok\nA gone\nR no listen\n",
        ),
    ] {
        let schedule = whole(alloc, schedule, MERGED)?;
        let said = whole(alloc, said, MERGED_SAID)?;
        let store = MemStore::new(alloc, faults_of(alloc, fails)?);
        let (ended, taken) = ended(alloc, &steps(schedule.as_str()), store)?;
        assert_eq!(rt; ended.status, status, "{name}");
        assert_eq!(rt; taken.as_slice(), said.as_bytes(), "{name}");
    }
    Ok(())
}

#[test]
fn a_schedule_runs_on_the_shard_of_its_words(rt: HostRuntime) -> Result<(), Fail> {
    let alloc = rt.alloc();
    let mut store = MemStore::new(alloc, FaultList::new(alloc));
    for (words, said) in [
        ("steps", "A ok\nhead 2\n"),
        (
            "steps --shard 0000000000000000000000000000000a",
            "A ok\nhead 2\n",
        ),
        (
            "steps --shard=00000000-0000-0000-0000-00000000000A",
            "A mismatch 5\nhead 3\n",
        ),
    ] {
        let case = Case {
            words,
            ..steps("writer A\nbegin A append 0 5\n1 1 x\n.\nstep A 9\nhead\n")
        };
        let (ended, taken) = ended(alloc, &case, store)?;
        assert_eq!(rt; ended.status, 0, "{words}");
        assert_eq!(rt; taken.as_slice(), said.as_bytes(), "{words}");
        store = ended.store;
    }
    Ok(())
}

#[test]
fn faults_around_a_schedule_are_told(rt: HostRuntime) -> Result<(), Fail> {
    let alloc = rt.alloc();
    for (reads, puts, status, said) in [
        (
            [0].as_slice(),
            [].as_slice(),
            4,
            b"input failed\n".as_slice(),
        ),
        ([].as_slice(), [0].as_slice(), 5, b"".as_slice()),
        ([].as_slice(), [1].as_slice(), 5, b"head none\n".as_slice()),
    ] {
        let case = Case {
            reads,
            puts,
            ..steps("head\nhead\n")
        };
        let store = MemStore::new(alloc, FaultList::new(alloc));
        let (ended, taken) = ended(alloc, &case, store)?;
        assert_eq!(rt; ended.status, status, "{reads:?} {puts:?}");
        assert_eq!(rt; taken.as_slice(), said, "{reads:?} {puts:?}");
    }
    Ok(())
}

// A schedule ends where a call of an opening line or a Head fails.
#[test]
fn each_opening_call_fails_in_turn(rt: HostRuntime) -> Result<(), Fail> {
    let alloc = rt.alloc();
    let opening = "writer A\nreader R 5\ncompactor C 5\nhead\n";
    for number in 0..9 {
        for took in [true, false] {
            let store = MemStore::new(alloc, faults_of(alloc, &[(number, took)])?);
            let (ended, taken) = ended(alloc, &steps(opening), store)?;
            let (status, said) = if number < 8 {
                (6, "store failed\n")
            } else {
                (0, "head 3\n")
            };
            assert_eq!(rt; ended.status, status, "{number} {took}");
            assert_eq!(rt; taken.as_slice(), said.as_bytes(), "{number} {took}");
        }
    }
    Ok(())
}
