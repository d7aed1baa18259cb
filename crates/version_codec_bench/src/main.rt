//! Prints what versions are with any one byte changed, cut anywhere, or lengthened. A line of standard input is a shard,
//! a number and the bytes in hex of a version that lies there.
#![tactic(auto)]

mod answers;
mod origins;
mod runs;

use answers::Answer;
use anyhow::Result;
use origins::Origin;
use runs::Run;
use std::alloc::Global;

fn set(bytes: &mut [u8], at: usize, byte: u8) {
    if let Some(slot) = bytes.get_mut(at) {
        *slot = byte;
    }
}

// What the version is with each of the 256 bytes at this place.
fn changed(alloc: Global, origin: &Origin, at: usize) -> Result<Vec<Run>> {
    let mut bytes = origin.bytes.as_slice().to_vec(alloc)?;
    let mut runs: Vec<Run> = Vec::new(alloc);
    for byte in 0..=255u8 {
        set(&mut bytes, at, byte);
        let answer = origin.answer(alloc, &bytes)?;
        match runs.last_mut() {
            Some(run) if run.answer == answer => run.last = byte,
            _ => runs.push(Run {
                first: byte,
                last: byte,
                answer,
            })?,
        }
    }
    Ok(runs)
}

fn print_changed(rt: &impl Print, alloc: Global, origin: &Origin) -> Result<()> {
    for at in 0..origin.bytes.len() {
        let mut before = ":";
        print!(rt; "{at}")?;
        for run in &changed(alloc, origin, at)? {
            print!(rt; "{before} {run}")?;
            before = ",";
        }
        println!(rt)?;
    }
    Ok(())
}

fn print_cut(rt: &impl Print, alloc: Global, origin: &Origin) -> Result<()> {
    for end in 0..origin.bytes.len() {
        let answer = origin.answer(alloc, &origin.bytes[..end])?;
        println!(rt; "cut {end} {answer}")?;
    }
    Ok(())
}

fn print_longer(rt: &impl Print, alloc: Global, origin: &Origin, more: &[u8]) -> Result<()> {
    let mut bytes = origin.bytes.as_slice().to_vec(alloc)?;
    bytes.extend_from_slice(more)?;
    let answer = origin.answer(alloc, &bytes)?;
    println!(rt; "longer by {} {answer}", more.len())?;
    Ok(())
}

// With a byte of 00, one of ff, its own last byte, its first eight, and all of it once more.
fn print_lengthened(rt: &impl Print, alloc: Global, origin: &Origin) -> Result<()> {
    let bytes = origin.bytes.as_slice();
    print_longer(rt, alloc, origin, b"\x00")?;
    print_longer(rt, alloc, origin, b"\xff")?;
    print_longer(rt, alloc, origin, &bytes[bytes.len().saturating_sub(1)..])?;
    print_longer(rt, alloc, origin, &bytes[..bytes.len().min(8)])?;
    print_longer(rt, alloc, origin, bytes)
}

fn print_table(rt: &impl Print, alloc: Global, origin: &Origin) -> Result<()> {
    let answer = origin.answer(alloc, &origin.bytes)?;
    println!(rt;
        "number {}, {} bytes: {answer}",
        origin.number,
        origin.bytes.len()
    )?;
    print_changed(rt, alloc, origin)?;
    print_cut(rt, alloc, origin)?;
    print_lengthened(rt, alloc, origin)
}

fn main(rt: HostRuntime) -> Result<()> {
    let alloc = rt.alloc();
    for line in rt.lines(alloc) {
        let origin = Origin::of(alloc, line?.as_str())?;
        print_table(&rt, alloc, &origin)?;
    }
    Ok(())
}
