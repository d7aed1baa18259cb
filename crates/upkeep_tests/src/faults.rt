// Each call of a merge, a collection and an expiry fails in turn.
use crate::executions::{Executed, execute, failing, fresh};
use std::alloc::{AllocError, Global};
use std::test::Fail;
use store_core::Entry;

// A reader holds two parts while a compactor merges them; they are collected once the reader's lease is renewed; then what
// hasn't been renewed is expired. A writer and the readers go on.
const COURSE: &str =
    "writer A\ncompactor C 1000\nreader R 1000\nbegin A append 0 5\n1 1 x\n.\nstep A 99\nbegin A append 5 10\n6 1 y\n.\nstep A 99\nbegin R snapshot 9\nstep R 2\nbegin C merge\nstep C 99\nstep R 99\nbegin R renew\nstep R 99\ncollector G\nbegin G collect\nstep G 99\nbegin A append 10 15\n11 1 z\n.\nstep A 99\nbegin R snapshot 14\nstep R 99\nmoment 5000\nexpirer E\nbegin E expire\nstep E 99\nreader Q 1000\nbegin Q snapshot 14\nstep Q 99\nbegin A append 15 20\n.\nstep A 99\n";

const SAID: &str =
    "A ok\nA ok\nC merged 6\nR 1 x\nR 1 y\nR .\nR ok\nG collected 6 2\nA ok\nR 1 x\nR 1 y\nR 1 z\nR .\nE removed 1 2\nQ 1 x\nQ 1 y\nQ 1 z\nQ .\nA ok\n";

// The answer to an expiry was lost: nothing is due to the next try.
const SAID_NONE: &str =
    "A ok\nA ok\nC merged 6\nR 1 x\nR 1 y\nR .\nR ok\nG collected 6 2\nA ok\nR 1 x\nR 1 y\nR 1 z\nR .\nE none 9\nQ 1 x\nQ 1 y\nQ 1 z\nQ .\nA ok\n";

// The calls of the compactor's merge, of the collector and of the expirer, by their numbers. The compactor's first two calls open it.
fn upkeep_calls(alloc: Global, trail: &[Entry]) -> Result<Vec<u64>, AllocError> {
    let mut numbers = Vec::new(alloc);
    let mut opening = 2;
    for (place, entry) in trail.iter().enumerate() {
        let number = place as u64;
        match entry.client {
            1 if opening > 0 => opening -= 1,
            1 | 3 | 4 => numbers.push(number)?,
            _ => {}
        }
    }
    Ok(numbers)
}

// The lines that tell no fault, and how many tell one.
fn without_faults(alloc: Global, text: &[u8]) -> Result<(Vec<u8>, usize), AllocError> {
    let mut rest = Vec::new(alloc);
    let mut faults = 0usize;
    for line in text.split(|byte| *byte == b'\n') {
        if line.ends_with(b" fault") {
            faults = faults.saturating_add(1);
        } else if !line.is_empty() {
            rest.extend_from_slice(line)?;
            rest.push(b'\n')?;
        }
    }
    Ok((rest, faults))
}

// What the course comes to where this call fails: whether one fault was told, and what else was said.
fn with_fault(alloc: Global, number: u64, took: bool) -> Result<(bool, Vec<u8>), Fail> {
    let Executed { complete, text, .. } = execute(alloc, COURSE, failing(alloc, number, took)?)?;
    let (said, faults) = without_faults(alloc, &text)?;
    Ok((complete && faults == 1, said))
}

#[test]
fn upkeep_goes_on_after_each_fault(rt: HostRuntime) -> Result<(), Fail> {
    let alloc = rt.alloc();
    let course = execute(alloc, COURSE, fresh(alloc))?;
    assert!(rt; course.complete);
    assert_eq!(rt; course.text.as_slice(), SAID.as_bytes());
    let calls = upkeep_calls(alloc, course.store.trail())?;
    // Five calls of the merge, four of the collection and two of the expiry.
    assert_eq!(rt; calls.len(), 11);
    let mut lost = 0usize;
    for number in calls.iter() {
        for took in [true, false] {
            let (once, said) = with_fault(alloc, *number, took)?;
            assert!(rt; once, "{number} {took}");
            if said.as_slice() == SAID_NONE.as_bytes() {
                assert!(rt; took, "{number}");
                lost = lost.saturating_add(1);
            } else {
                assert_eq!(rt; said.as_slice(), SAID.as_bytes(), "{number} {took}");
            }
        }
    }
    assert_eq!(rt; lost, 1);
    Ok(())
}
