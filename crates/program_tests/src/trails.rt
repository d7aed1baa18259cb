// What calls schedules make, one by one.
use crate::programs::ended;
use crate::schedules::{MERGED, MERGED_SAID, faults_of, steps, whole};
use persist_app::*;
use std::alloc::{AllocError, Global};
use std::test::Fail;
use store_core::{Call, Entry, MemStore, PartKey};

fn of_key(alloc: Global, name: &str, key: &PartKey) -> Result<String, AllocError> {
    let member = key.member;
    let token = key.token;
    let index = key.index;
    format!(in alloc; "{name}(m{member} t{token} i{index})")
}

// A call in short.
fn call_text(alloc: Global, call: &Call) -> Result<String, AllocError> {
    match call {
        Call::Head { .. } => String::from_str(alloc, "Head"),
        Call::Scan { from, .. } => format!(in alloc; "Scan({from})"),
        Call::Cas { expected, .. } => match expected {
            Some(number) => format!(in alloc; "Cas({number})"),
            None => String::from_str(alloc, "Cas(none)"),
        },
        Call::Truncate { below, .. } => format!(in alloc; "Truncate({below})"),
        Call::Get { key } => of_key(alloc, "Get", key),
        Call::Set { key, .. } => of_key(alloc, "Set", key),
        Call::Delete { key } => of_key(alloc, "Delete", key),
    }
}

// Each call behind its client's number.
fn trail_text(alloc: Global, trail: &[Entry]) -> Result<String, AllocError> {
    let mut text = String::new(alloc);
    for entry in trail {
        if !text.is_empty() {
            text.push_str("; ")?;
        }
        let client = entry.client;
        let call = call_text(alloc, &entry.call)?;
        let words = format!(in alloc; "{client} {call}")?;
        text.push_str(&words)?;
    }
    Ok(text)
}

// The calls that fail, and whether they take effect; a schedule; what is written, and the calls that were made.
#[test]
fn the_calls_of_schedules_are_as_worked_out(rt: HostRuntime) -> Result<(), Fail> {
    let alloc = rt.alloc();
    for (name, fails, schedule, said, calls) in [
        (
            "two writers race",
            [].as_slice(),
            "writer A\nwriter B\nbegin A append 0 10\n1 1 a\n.\nbegin B append 0 10\n1 1 b\n.\nstep A 1\nstep B 2\nstep A 2\n",
            "B ok\nA mismatch 10\n",
            "0 Scan(0); 0 Cas(none); 0 Cas(0); 1 Scan(0); 1 Cas(1); 0 Set(m0 t1 i0); 1 Set(m1 t1 i0); 1 Cas(2); 0 Cas(1); 0 Scan(2)",
        ),
        (
            "the answer to an append is lost",
            [(11, true)].as_slice(),
            "writer A\ncompactor C 100\nwriter B\nbegin B append 0 5\n1 1 x\n.\nstep B 9\nbegin A append 5 10\n6 1 y\n.\nstep A 3\nbegin C merge\nstep C 9\nstep A 2\nreader R 100\nbegin R snapshot 9\nstep R 9\n",
            "B ok\nA fault\nC merged 6\nA ok\nR 1 x\nR 1 y\nR .\n",
            "0 Scan(0); 0 Cas(none); 0 Cas(0); 1 Scan(0); 1 Cas(1); 2 Scan(0); 2 Cas(2); 2 Set(m2 t1 i0); 2 Cas(3); 0 Scan(2); 0 Set(m0 t1 i0); 0 Cas(4); 1 Scan(3); 1 Get(m2 t1 i0); 1 Get(m0 t1 i0); 1 Set(m1 t1 i0); 1 Cas(5); 0 Scan(5); 3 Scan(0); 3 Cas(6); 3 Scan(8); 3 Get(m1 t1 i0)",
        ),
        (
            "a collector stops",
            [].as_slice(),
            "@collector G\nbegin G collect\nstep G 2\nstop G\ncollector H\nbegin H collect\nstep H 9\nbegin R snapshot 9\nstep R 9\n",
            "@H collected 6 2\nR 1 x\nR 1 y\nR .\n",
            "0 Scan(0); 0 Cas(none); 0 Cas(0); 1 Scan(0); 1 Cas(1); 2 Scan(0); 2 Cas(2); 0 Set(m0 t1 i0); 0 Cas(1); 0 Scan(2); 0 Cas(3); 0 Set(m0 t2 i0); 0 Cas(4); 1 Scan(3); 1 Get(m0 t1 i0); 1 Get(m0 t2 i0); 1 Set(m1 t1 i0); 1 Cas(5); 2 Cas(3); 2 Scan(4); 2 Cas(6); 3 Scan(0); 3 Delete(m0 t1 i0); 4 Scan(0); 4 Delete(m0 t1 i0); 4 Delete(m0 t2 i0); 4 Truncate(6); 2 Scan(8); 2 Get(m1 t1 i0)",
        ),
        (
            "a collector is slow",
            [].as_slice(),
            "@collector G\nbegin G collect\nstep G 1\nbegin A append 10 15\n11 1 z\n.\nstep A 9\nbegin C merge\nstep C 9\nbegin R renew\nstep R 9\ncollector H\nbegin H collect\nstep H 9\nstep G 9\nhead\nbegin R snapshot 14\nstep R 9\n",
            "@A ok\nC merged 9\nR ok\nH collected 9 4\nG collected 6 2\nhead 10\nR 1 x\nR 1 y\nR 1 z\nR .\n",
            "0 Scan(0); 0 Cas(none); 0 Cas(0); 1 Scan(0); 1 Cas(1); 2 Scan(0); 2 Cas(2); 0 Set(m0 t1 i0); 0 Cas(1); 0 Scan(2); 0 Cas(3); 0 Set(m0 t2 i0); 0 Cas(4); 1 Scan(3); 1 Get(m0 t1 i0); 1 Get(m0 t2 i0); 1 Set(m1 t1 i0); 1 Cas(5); 2 Cas(3); 2 Scan(4); 2 Cas(6); 3 Scan(0); 0 Set(m0 t3 i0); 0 Cas(5); 0 Scan(6); 0 Cas(7); 1 Scan(7); 1 Get(m1 t1 i0); 1 Get(m0 t3 i0); 1 Set(m1 t2 i0); 1 Cas(8); 2 Cas(7); 2 Scan(8); 2 Cas(9); 4 Scan(0); 4 Delete(m0 t1 i0); 4 Delete(m0 t2 i0); 4 Delete(m1 t1 i0); 4 Delete(m0 t3 i0); 4 Truncate(9); 3 Delete(m0 t1 i0); 3 Delete(m0 t2 i0); 3 Truncate(6); 5 Head; 2 Scan(11); 2 Get(m1 t2 i0)",
        ),
        (
            "a reader's lease runs out",
            [].as_slice(),
            "writer A\ncompactor C 1000\nreader R 100\nbegin A append 0 5\n1 1 x\n.\nstep A 9\nbegin A append 5 10\n6 1 y\n.\nstep A 9\nbegin R snapshot 9\nstep R 2\nmoment 200\nexpirer E\nbegin E expire\nstep E 9\nbegin C merge\nstep C 9\ncollector G\nbegin G collect\nstep G 9\nstep R 9\n",
            "A ok\nA ok\nE removed 2\nC merged 7\nG collected 7 2\nR expired 7\n",
            "0 Scan(0); 0 Cas(none); 0 Cas(0); 1 Scan(0); 1 Cas(1); 2 Scan(0); 2 Cas(2); 0 Set(m0 t1 i0); 0 Cas(1); 0 Scan(2); 0 Cas(3); 0 Set(m0 t2 i0); 0 Cas(4); 2 Scan(4); 2 Get(m0 t1 i0); 3 Scan(0); 3 Cas(5); 1 Scan(3); 1 Get(m0 t1 i0); 1 Get(m0 t2 i0); 1 Set(m1 t1 i0); 1 Cas(6); 4 Scan(0); 4 Delete(m0 t1 i0); 4 Delete(m0 t2 i0); 4 Truncate(7); 2 Get(m0 t2 i0); 2 Scan(6)",
        ),
        (
            "a lease runs out at its moment",
            [].as_slice(),
            "writer A\nreader R 100\nexpirer E\nmoment 99\nbegin E expire\nstep E 9\nmoment 100\nbegin E expire\nstep E 9\n",
            "E none 2\nE removed 1\n",
            "0 Scan(0); 0 Cas(none); 0 Cas(0); 1 Scan(0); 1 Cas(1); 2 Scan(0); 2 Cas(2)",
        ),
        (
            "nothing is due, and a listen is quiet",
            [].as_slice(),
            "@begin C merge\nstep C 9\nbegin R listen 4\nstep R 9\nbegin R next\nstep R 9\n",
            "@C nothing 7\nR 6 1 y\nR upto 10\nR quiet 10\n",
            "0 Scan(0); 0 Cas(none); 0 Cas(0); 1 Scan(0); 1 Cas(1); 2 Scan(0); 2 Cas(2); 0 Set(m0 t1 i0); 0 Cas(1); 0 Scan(2); 0 Cas(3); 0 Set(m0 t2 i0); 0 Cas(4); 1 Scan(3); 1 Get(m0 t1 i0); 1 Get(m0 t2 i0); 1 Set(m1 t1 i0); 1 Cas(5); 2 Cas(3); 2 Scan(4); 2 Cas(6); 1 Scan(7); 2 Scan(8); 2 Get(m1 t1 i0); 2 Scan(8)",
        ),
    ] {
        let schedule = whole(alloc, schedule, MERGED)?;
        let said = whole(alloc, said, MERGED_SAID)?;
        let store = MemStore::new(alloc, faults_of(alloc, fails)?);
        let (ended, taken) = ended(alloc, &steps(schedule.as_str()), store)?;
        assert_eq!(rt; ended.status, 0, "{name}");
        assert_eq!(rt; taken.as_slice(), said.as_bytes(), "{name}");
        let made = trail_text(alloc, ended.store.trail())?;
        assert_eq!(rt; made.as_str(), calls, "{name}");
    }
    Ok(())
}
