// What stays in a store, and what compaction costs.
use crate::executions::{SHARD, execute, fresh, run_feed};
use std::alloc::{AllocError, Global};
use std::test::Fail;
use store_core::{Call, Entry, MemStore, PartKey, Reply, Store};
use version_codec::decode_version;

const LETTERS: [&str; 8] = ["A", "B", "C", "D", "E", "F", "G", "H"];

#[test]
fn a_compactor_finds_the_shard_full(rt: HostRuntime) -> Result<(), Fail> {
    let alloc = rt.alloc();
    let mut store = fresh(alloc);
    let mut writers = String::new(alloc);
    for first in LETTERS {
        for second in LETTERS {
            let line = format!(in alloc; "writer {first}{second}\n")?;
            writers.push_str(&line)?;
        }
    }
    for round in 0..4 {
        let executed = execute(alloc, writers.as_str(), store)?;
        assert_eq!(rt; executed.text.as_slice(), b"".as_slice());
        assert!(rt; executed.complete, "{round}");
        store = executed.store;
    }
    let executed = execute(alloc, "compactor C 100\nhead\n", store)?;
    assert_eq!(rt; executed.text.as_slice(), b"C full\nhead 256\n".as_slice());
    Ok(())
}

// Appends of one row each, with a compaction after each few.
fn appends(alloc: Global, count: u64, each: u64) -> Result<Vec<u8>, AllocError> {
    let mut text = Vec::new(alloc);
    for number in 0..count {
        let next = number.saturating_add(1);
        let lines = format!(in alloc; "append {number} {next}\n{number} 1 d{number}\n.\n")?;
        text.extend_from_slice(lines.as_bytes())?;
        if next.is_multiple_of(each) {
            text.extend_from_slice(b"compact\n")?;
        }
    }
    Ok(text)
}

// The parts that calls have set and not deleted, as none of them failed.
fn present(alloc: Global, trail: &[Entry]) -> Result<Vec<PartKey>, AllocError> {
    let mut keys: Vec<PartKey> = Vec::new(alloc);
    for entry in trail {
        match &entry.call {
            Call::Set { key, .. } => keys.push(*key)?,
            Call::Delete { key } => keys.retain(|other| other != key),
            _ => {}
        }
    }
    Ok(keys)
}

// The parts that the last version names.
fn named(alloc: Global, store: &mut MemStore) -> Result<Vec<PartKey>, Fail> {
    let mut keys = Vec::new(alloc);
    if let Reply::Version(Some(version)) = store.call(9, &Call::Head { shard: SHARD })? {
        let bytes = version.bytes.as_slice();
        if let Ok((state, _)) = decode_version(alloc, SHARD, version.number, bytes) {
            for batch in state.spine().batches() {
                keys.extend_from_slice(batch.parts.as_slice())?;
            }
        }
    }
    Ok(keys)
}

#[test]
fn only_named_parts_are_left(rt: HostRuntime) -> Result<(), Fail> {
    let alloc = rt.alloc();
    let feed = appends(alloc, 200, 200)?;
    let mut executed = run_feed(alloc, &feed, fresh(alloc))?;
    assert!(rt; executed.complete);
    let left = present(alloc, executed.store.trail())?;
    let named = named(alloc, &mut executed.store)?;
    assert!(rt; named.len() >= 1 && named.len() <= 64);
    assert_eq!(rt; left.len(), named.len());
    for key in named.iter() {
        assert!(rt; left.contains(key));
    }
    Ok(())
}

// How many bytes compactors have set, all but the writer and the reader.
fn merged_bytes(trail: &[Entry]) -> usize {
    let mut sum = 0usize;
    for entry in trail {
        if let Call::Set { bytes, .. } = &entry.call {
            if entry.client > 1 {
                sum = sum.saturating_add(bytes.as_slice().len());
            }
        }
    }
    sum
}

fn bytes_merged(alloc: Global, count: u64) -> Result<usize, Fail> {
    let feed = appends(alloc, count, 10)?;
    let executed = run_feed(alloc, &feed, fresh(alloc))?;
    Ok(merged_bytes(executed.store.trail()))
}

// Twice as many appends cost less than three times the bytes: a row is merged once for each doubling, not once for each append.
#[test]
fn merges_write_n_log_n_bytes(rt: HostRuntime) -> Result<(), Fail> {
    let alloc = rt.alloc();
    let some = bytes_merged(alloc, 50)?;
    let twice = bytes_merged(alloc, 100)?;
    let more = bytes_merged(alloc, 200)?;
    assert!(rt; some > 0);
    assert!(rt; twice <= some.saturating_mul(3), "{some} {twice}");
    assert!(rt; more <= twice.saturating_mul(3), "{twice} {more}");
    Ok(())
}
