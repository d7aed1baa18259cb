// What the ends of a crew's workers make of an ingest.
ghost use Rattle.std.specs.Prelude.{◌≡◌};
ghost use Rattle.ingest_run.specs.Verdicts.{any_end, are_halted, crew_verdict, has_found_damage, is_full_end, is_halted, is_memory_end, is_spent_end, short_of_end};

use crate::faults::IngestFault;
use crew::WorkerEnd;
use update_core::Frontier;

// Whether memory was refused to the worker.
fn is_memory_end(end: &WorkerEnd) -> bool
    ensures { result ≡ is_memory_end end.now }
{
    match end {
        WorkerEnd::Memory => true,
        _ => false,
    }
}

// Whether the worker found the shard damaged. Over a collection that suits the feed no worker is a misfit, or told too heavy.
fn has_found_damage(end: &WorkerEnd) -> bool
    ensures { result ≡ has_found_damage end.now }
{
    match end {
        WorkerEnd::Damaged(_) => true,
        WorkerEnd::Misfit { .. } => true,
        WorkerEnd::Heavy { .. } => true,
        _ => false,
    }
}

// Whether no number was left for the worker.
fn is_spent_end(end: &WorkerEnd) -> bool
    ensures { result ≡ is_spent_end end.now }
{
    match end {
        WorkerEnd::Spent => true,
        _ => false,
    }
}

// Whether the worker found 256 members.
fn is_full_end(end: &WorkerEnd) -> bool
    ensures { result ≡ is_full_end end.now }
{
    match end {
        WorkerEnd::MembersFull { .. } => true,
        _ => false,
    }
}

// Whether the worker was stopped, or ended by a call that failed.
fn is_halted(end: &WorkerEnd) -> bool
    ensures { result ≡ is_halted end.now }
{
    match end {
        WorkerEnd::Stopped => true,
        WorkerEnd::Faulted => true,
        _ => false,
    }
}

fn any_memory_end(ends: &[WorkerEnd]) -> bool
    ensures { result ≡ any_end is_memory_end ends.now }
{
    for end in ends {
        if is_memory_end(end) {
            return true;
        }
    }
    false
}

fn any_damage(ends: &[WorkerEnd]) -> bool
    ensures { result ≡ any_end has_found_damage ends.now }
{
    for end in ends {
        if has_found_damage(end) {
            return true;
        }
    }
    false
}

fn any_spent_end(ends: &[WorkerEnd]) -> bool
    ensures { result ≡ any_end is_spent_end ends.now }
{
    for end in ends {
        if is_spent_end(end) {
            return true;
        }
    }
    false
}

fn any_full_end(ends: &[WorkerEnd]) -> bool
    ensures { result ≡ any_end is_full_end ends.now }
{
    for end in ends {
        if is_full_end(end) {
            return true;
        }
    }
    false
}

// Whether each of the first so many workers was halted.
fn are_halted(ends: &[WorkerEnd], count: u32) -> bool
    ensures { result ≡ are_halted count ends.now }
{
    let mut left = count;
    for end in ends {
        if left == 0 {
            return true;
        }
        if !is_halted(end) {
            return false;
        }
        left -= 1;
    }
    true
}

/// The fault that workers found, where one did: want of memory before damage, damage before a last version, and that before full members.
pub(crate) fn crew_verdict(ends: &[WorkerEnd]) -> Result<(), IngestFault>
    ensures { result ≡ crew_verdict ends.now }
{
    if any_memory_end(ends) {
        return Err(IngestFault::Memory);
    }
    if any_damage(ends) {
        return Err(IngestFault::Damaged);
    }
    if any_spent_end(ends) {
        return Err(IngestFault::Spent);
    }
    if any_full_end(ends) {
        return Err(IngestFault::MembersFull);
    }
    Ok(())
}

/// What it is where the upper isn't the feed's end. Where a writer wasn't halted, the store contradicts what that writer was told.
pub(crate) fn short_of_end(ends: &[WorkerEnd], writers: u32, upper: Frontier) -> IngestFault
    ensures { result ≡ short_of_end ends.now writers upper }
{
    if are_halted(ends, writers) {
        return IngestFault::Upper { upper };
    }
    IngestFault::Damaged
}
