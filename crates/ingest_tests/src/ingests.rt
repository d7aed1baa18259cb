// The command `ingest`.
use crate::calls::{Case, case_of, empty, ended, failing};
use crate::feeds::{REPLIES, appends, twenty};
use crate::gates::TurnGate;
use crate::hollow_stores::HollowStore;
use crew::OpenGate;
use std::alloc::{AllocError, Global};
use std::sync::Wait;
use std::test::Fail;
use std::thread::Threads;
use store_core::{Bytes, MemStore};

#[test]
fn twenty_appends_come_in_by_any_crew(rt: HostRuntime) -> Result<(), Fail> {
    let feed = twenty(rt.alloc())?;
    for (words, status, written) in [
        (
            "ingest --writers 1 --compactors 0 --collectors 0",
            0,
            REPLIES,
        ),
        (
            "ingest --writers 4 --compactors 2 --collectors 1",
            0,
            REPLIES,
        ),
        (
            "ingest --writers 4 --compactors 2 --collectors 1 --stop 0:5",
            0,
            REPLIES,
        ),
        (
            "ingest --stop 0:0 --collectors 0 --compactors 0 --writers 1",
            7,
            b"upper 0\n".as_slice(),
        ),
    ] {
        let case = case_of(words, &feed);
        let store = empty(rt.alloc());
        let (end, taken) = ended(&rt, rt.alloc(), &case, store, &OpenGate)?;
        assert_eq!(rt; end.status, status, "{words}");
        assert_eq!(rt; taken.as_slice(), written, "{words}");
    }
    Ok(())
}

// Fifty crews, no two of the same size, print the same.
#[test]
fn fifty_crews_print_the_same(rt: HostRuntime) -> Result<(), Fail> {
    let alloc = rt.alloc();
    let feed = twenty(alloc)?;
    for k in 0..50u64 {
        let writers = k % 16;
        let compactors = k % 9;
        let collectors = k / 10;
        let words = format!(in alloc;
            "ingest --writers {writers} --compactors {compactors} --collectors {collectors}"
        )?;
        let case = case_of(&words, &feed);
        let (end, taken) = ended(&rt, alloc, &case, empty(alloc), &OpenGate)?;
        if writers == 0 {
            assert_eq!(rt; (end.status, taken.as_slice()), (2, b"words\n".as_slice()));
        } else {
            assert_eq!(rt; (end.status, taken.as_slice()), (0, REPLIES));
        }
    }
    Ok(())
}

// The words of a crew of 32 workers, all of which are stopped but for so many writers.
fn all_stop_but(alloc: Global, going: u64) -> Result<String, AllocError> {
    let mut stops = String::new(alloc);
    for worker in going..32 {
        let calls = 30u64.saturating_add(worker);
        let comma = if worker == going { "" } else { "," };
        let stop = format!(in alloc; "{comma}{worker}:{calls}")?;
        stops.push_str(&stop)?;
    }
    format!(in alloc; "ingest --writers 16 --compactors 8 --collectors 8 --stop {stops}")
}

#[test]
fn all_of_32_workers_may_stop(rt: HostRuntime) -> Result<(), Fail> {
    let alloc = rt.alloc();
    let feed = appends(alloc, 500, 1, b"snapshot 4999\n")?;
    for (going, status, written) in [(1u64, 0, b"500 d0\n.\n".as_slice()), (0, 7, b"upper ")] {
        let words = all_stop_but(alloc, going)?;
        let case = case_of(&words, &feed);
        let (end, taken) = ended(&rt, alloc, &case, empty(alloc), &OpenGate)?;
        assert_eq!(rt; end.status, status);
        assert!(rt; taken.starts_with(written));
    }
    Ok(())
}

// The store after a run of a feed.
fn after_run<R: Threads + Wait + Sync>(
    rt: &R,
    alloc: Global,
    feed: &[u8],
) -> Result<MemStore, Fail> {
    let (end, _) = ended(rt, alloc, &case_of("run", feed), empty(alloc), &OpenGate)?;
    Ok(end.store)
}

const ONE: &str = "ingest --writers 1 --compactors 0 --collectors 0";

#[test]
fn the_start_suits_or_is_named(rt: HostRuntime) -> Result<(), Fail> {
    for (first, feed, status, written) in [
        (
            b"append 0 10\n1 1 z\n.\n".as_slice(),
            b"append 0 10\n1 1 a\n.\nappend 10 20\n11 1 b\n.\nsnapshot 19\n".as_slice(),
            0,
            b"1 b\n1 z\n.\n".as_slice(),
        ),
        (
            b"append 0 7\n.\n",
            b"append 0 10\n1 1 a\n.\nsnapshot 9\n",
            12,
            b"misfit 7\n",
        ),
        (
            b"append 0 closed\n.\n",
            b"append 0 10\n.\n",
            12,
            b"misfit closed\n",
        ),
        (b"append 0 10\n.\n", b"snapshot 9\n", 12, b"misfit 10\n"),
        (
            b"append 0 10\n1 4611686018427387904 z\n.\n",
            b"append 0 10\n.\nappend 10 20\n11 1 a\n.\n",
            12,
            b"heavy 4611686018427387904\n",
        ),
        (
            b"append 0 10\n1 4611686018427387904 z\n.\n",
            b"append 0 10\n1 1 a\n.\n",
            0,
            b"",
        ),
        (b"", b"snapshot 9\n", 0, b"late 0\n"),
        (
            b"",
            b"since 5\nappend 0 10\n1 1 a\n.\nsnapshot 4\nsnapshot 9\nlisten 4\n",
            0,
            b"early 5\n1 a\n.\nearly 5\n",
        ),
        (
            b"",
            b"append 0 10\n1 1 a\n.\nsnapshot 10\nlisten 9\nlisten 18446744073709551615\n",
            0,
            b"late 10\nquiet 10\nquiet 10\n",
        ),
    ] {
        let store = after_run(&rt, rt.alloc(), first)?;
        let (end, taken) = ended(&rt, rt.alloc(), &case_of(ONE, feed), store, &OpenGate)?;
        assert_eq!(rt; end.status, status);
        assert_eq!(rt; taken.as_slice(), written);
    }
    Ok(())
}

#[test]
fn what_is_no_ingest_is_told(rt: HostRuntime) -> Result<(), Fail> {
    for (words, feed, reads, puts, status, written) in [
        (
            "ingest --writers 1",
            b"".as_slice(),
            [].as_slice(),
            [].as_slice(),
            2,
            b"words\n".as_slice(),
        ),
        (ONE, b"?\n", &[], &[], 3, b"line 1\n"),
        (ONE, b"append 0 5\n1 1 x\n", &[], &[], 3, b"line 2\n"),
        (ONE, b"append 0 5\n.\n", &[0], &[], 4, b"input failed\n"),
        (ONE, b"append 0 5\n.\nsnapshot 4\n", &[], &[0], 5, b""),
        (
            "run",
            b"append 0 5\n1 1 x\n.\nsnapshot 4\n",
            &[],
            &[],
            0,
            b"ok\n1 x\n.\n",
        ),
        ("gen 0 1", b"", &[], &[], 2, b"words\n"),
    ] {
        let case = Case {
            words,
            feed,
            reads,
            puts,
        };
        let store = empty(rt.alloc());
        let (end, taken) = ended(&rt, rt.alloc(), &case, store, &OpenGate)?;
        assert_eq!(rt; end.status, status, "{words}");
        assert_eq!(rt; taken.as_slice(), written, "{words}");
    }
    Ok(())
}

// A crew on one thread would wait for itself in one of the two orders.
#[test]
fn either_of_two_workers_may_wait(rt: HostRuntime) -> Result<(), Fail> {
    for words in [
        "ingest --writers 2 --compactors 0 --collectors 0",
        "ingest --writers 1 --compactors 1 --collectors 0",
        "ingest --writers 1 --compactors 0 --collectors 1",
    ] {
        for first in [0u32, 1] {
            let case = case_of(words, b"append 0 10\n1 1 a\n.\nsnapshot 9\n");
            let gate = TurnGate::new(first);
            let store = empty(rt.alloc());
            let (end, taken) = ended(&rt, rt.alloc(), &case, store, &gate)?;
            assert_eq!(rt; (end.status, gate.ran_out()), (0, 0), "{words}");
            assert_eq!(rt; taken.as_slice(), b"1 a\n.\n".as_slice(), "{words}");
        }
    }
    Ok(())
}

// Each call fails in turn: one outside of the crew is told, and one of a worker is made up for by another.
#[test]
fn each_call_may_fail(rt: HostRuntime) -> Result<(), Fail> {
    let words = "ingest --writers 2 --compactors 1 --collectors 1";
    for took in [false, true] {
        for number in 0..50u64 {
            let case = case_of(words, b"append 0 5\n1 1 x\n.\nappend 5 9\n.\nsnapshot 8\n");
            let store = failing(rt.alloc(), number, took)?;
            let (end, taken) = ended(&rt, rt.alloc(), &case, store, &OpenGate)?;
            let written = match end.status {
                0 => b"1 x\n.\n".as_slice(),
                6 => b"store failed\n",
                _ => b"?",
            };
            assert_eq!(rt; taken.as_slice(), written);
        }
    }
    Ok(())
}

// The part of one row: y, time 1, difference 1.
const PART: [u8; 27] = [
    0x50, 0x41, 0x52, 0x54, 1, 0, 0, 0, 1, 1, 0x79, 0, 0, 0, 0, 0, 0, 0, 1, 0, 0, 0, 0, 0, 0, 0, 1,
];

#[test]
fn a_store_that_answers_gets_otherwise_is_believed_or_damaged(rt: HostRuntime) -> Result<(), Fail> {
    let alloc = rt.alloc();
    for (bytes, status, written) in [
        (None, 9, b"damaged\n".as_slice()),
        (Some(PART.as_slice()), 0, b"1 y\n.\n".as_slice()),
    ] {
        let bytes = match bytes {
            Some(bytes) => Some(Bytes::of(alloc, bytes.to_vec(alloc)?)?),
            None => None,
        };
        let case = case_of(ONE, b"append 0 5\n1 1 x\n.\nsnapshot 4\n");
        let store = HollowStore {
            store: empty(alloc),
            bytes,
        };
        let (end, taken) = ended(&rt, alloc, &case, store, &OpenGate)?;
        assert_eq!(rt; end.status, status);
        assert_eq!(rt; taken.as_slice(), written);
    }
    Ok(())
}
