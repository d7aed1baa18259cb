use history_core::*;
use std::alloc::{AllocError, Global};
use std::test::Fail;
use store_core::{Bytes, Call, Entry, Outcome, PartKey, ShardId};
use update_core::{Update, UpdateList};

// The bytes are written here field by field, and not by the encoders.

const SHARD: ShardId = ShardId(1);

fn key(member: u64, token: u64) -> PartKey {
    PartKey {
        shard: SHARD,
        member,
        token,
        index: 0,
    }
}

fn put(out: &mut Vec<u8>, numbers: &[u64]) -> Result<(), AllocError> {
    for number in numbers {
        out.extend_from_slice(&number.to_be_bytes())?;
    }
    Ok(())
}

// A part with one row for each of these data, at the time that is its byte.
fn part(alloc: Global, data: &[u8]) -> Result<Bytes, AllocError> {
    let mut out = Vec::new(alloc);
    out.extend_from_slice(b"PART\x01\x00\x00\x00")?;
    out.push(u8::try_from(data.len()).unwrap_or(0))?;
    for datum in data {
        out.extend_from_slice(&[1, *datum])?;
        put(&mut out, &[u64::from(*datum), 1])?;
    }
    Bytes::of(alloc, out)
}

// A batch of rows in one part.
fn put_batch(
    out: &mut Vec<u8>,
    lower: u64,
    upper: u64,
    rows: u64,
    key: PartKey,
) -> Result<(), AllocError> {
    put(out, &[lower])?;
    out.push(0)?;
    put(out, &[upper, 0, rows, 1, key.member, key.token, key.index])
}

// A state's fields before its members.
fn head(alloc: Global, next_member: u64, upper: u64, weight: u64) -> Result<Vec<u8>, AllocError> {
    let mut out = Vec::new(alloc);
    out.extend_from_slice(b"PVER\x01")?;
    put(&mut out, &[next_member, 0])?;
    out.push(0)?;
    put(&mut out, &[upper, weight])?;
    Ok(out)
}

// The writer 0 with its token, and the keeper 1 with its hold and token.
fn put_members(out: &mut Vec<u8>, spent: u64, hold: u64, merged: u64) -> Result<(), AllocError> {
    out.extend_from_slice(&[0, 2])?;
    put(out, &[0])?;
    out.push(0)?;
    put(out, &[0, 0, 0, 0, spent, 1])?;
    out.push(2)?;
    put(out, &[0, hold, 0, 100, merged])
}

fn put_append(out: &mut Vec<u8>, token: u64, lower: u64, upper: u64) -> Result<(), AllocError> {
    out.push(6)?;
    put(out, &[0, token, lower])?;
    out.push(0)?;
    put(out, &[upper, 1, 1, 1, 0, token, 0])
}

// Version 0.
fn first(alloc: Global) -> Result<Vec<u8>, AllocError> {
    let mut out = head(alloc, 0, 0, 0)?;
    out.extend_from_slice(&[0, 0])?;
    put(&mut out, &[0])?;
    out.push(0)?;
    Ok(out)
}

// Version 1: the writer joins.
fn writer_joins(alloc: Global) -> Result<Vec<u8>, AllocError> {
    let mut out = head(alloc, 1, 0, 0)?;
    out.extend_from_slice(&[0, 1])?;
    put(&mut out, &[0])?;
    out.push(0)?;
    put(&mut out, &[0, 0, 0, 0, 0, 0])?;
    out.extend_from_slice(&[1, 0])?;
    put(&mut out, &[0, 0])?;
    Ok(out)
}

// Version 2: the keeper joins.
fn keeper_joins(alloc: Global) -> Result<Vec<u8>, AllocError> {
    let mut out = head(alloc, 2, 0, 0)?;
    put_members(&mut out, 0, 2, 0)?;
    put(&mut out, &[0])?;
    out.extend_from_slice(&[1, 2])?;
    put(&mut out, &[0, 100])?;
    Ok(out)
}

// Version 3: the writer appends from 0 up to 5.
fn early(alloc: Global) -> Result<Vec<u8>, AllocError> {
    let mut out = head(alloc, 2, 5, 1)?;
    put_members(&mut out, 1, 2, 0)?;
    put(&mut out, &[1])?;
    put_batch(&mut out, 0, 5, 1, key(0, 1))?;
    put_append(&mut out, 1, 0, 5)?;
    Ok(out)
}

// Version 4: the writer appends from 5 up to 10.
fn late(alloc: Global) -> Result<Vec<u8>, AllocError> {
    let mut out = head(alloc, 2, 10, 2)?;
    put_members(&mut out, 2, 2, 0)?;
    put(&mut out, &[2])?;
    put_batch(&mut out, 0, 5, 1, key(0, 1))?;
    put_batch(&mut out, 5, 10, 1, key(0, 2))?;
    put_append(&mut out, 2, 5, 10)?;
    Ok(out)
}

// Version 5: the keeper merges both batches.
fn merge(alloc: Global) -> Result<Vec<u8>, AllocError> {
    let mut out = head(alloc, 2, 10, 2)?;
    put_members(&mut out, 2, 5, 1)?;
    put(&mut out, &[1])?;
    put_batch(&mut out, 0, 10, 2, key(1, 1))?;
    out.push(7)?;
    put(&mut out, &[1, 1])?;
    put_batch(&mut out, 0, 5, 1, key(0, 1))?;
    put_batch(&mut out, 5, 10, 1, key(0, 2))?;
    put_batch(&mut out, 0, 10, 2, key(1, 1))?;
    Ok(out)
}

fn cas(alloc: Global, expected: Option<u64>, version: Vec<u8>) -> Result<Call, AllocError> {
    Ok(Call::Cas {
        shard: SHARD,
        expected,
        bytes: Bytes::of(alloc, version)?,
    })
}

fn set(key: PartKey, bytes: Bytes) -> Call {
    Call::Set { key, bytes }
}

fn add(
    trail: &mut Vec<Entry>,
    client: u64,
    call: Call,
    outcome: Outcome,
) -> Result<(), AllocError> {
    trail.push(Entry {
        client,
        call,
        outcome,
    })?;
    Ok(())
}

fn begin(alloc: Global) -> Result<Vec<Entry>, AllocError> {
    let mut trail = Vec::new(alloc);
    add(
        &mut trail,
        0,
        cas(alloc, None, first(alloc)?)?,
        Outcome::Took,
    )?;
    add(
        &mut trail,
        0,
        cas(alloc, Some(0), writer_joins(alloc)?)?,
        Outcome::Took,
    )?;
    add(
        &mut trail,
        1,
        cas(alloc, Some(1), keeper_joins(alloc)?)?,
        Outcome::Took,
    )?;
    Ok(trail)
}

// The first append: lost, then in though it was answered Failed, and then too late.
fn append_early(alloc: Global, trail: &mut Vec<Entry>) -> Result<(), AllocError> {
    add(
        trail,
        0,
        set(key(0, 1), part(alloc, b"\x03")?),
        Outcome::Took,
    )?;
    add(
        trail,
        0,
        cas(alloc, Some(2), early(alloc)?)?,
        Outcome::FailedLost,
    )?;
    add(
        trail,
        0,
        cas(alloc, Some(2), early(alloc)?)?,
        Outcome::FailedTook,
    )?;
    add(trail, 0, cas(alloc, Some(2), early(alloc)?)?, Outcome::Took)
}

fn append_late(alloc: Global, trail: &mut Vec<Entry>) -> Result<(), AllocError> {
    add(
        trail,
        0,
        set(key(0, 2), part(alloc, b"\x07")?),
        Outcome::Took,
    )?;
    add(trail, 0, cas(alloc, Some(3), late(alloc)?)?, Outcome::Took)
}

fn merge_and_collect(alloc: Global, trail: &mut Vec<Entry>) -> Result<(), AllocError> {
    add(
        trail,
        1,
        set(key(1, 1), part(alloc, b"\x03\x07")?),
        Outcome::Took,
    )?;
    add(trail, 1, cas(alloc, Some(4), merge(alloc)?)?, Outcome::Took)?;
    add(
        trail,
        2,
        Call::Scan {
            shard: SHARD,
            from: 0,
        },
        Outcome::Took,
    )?;
    add(trail, 2, Call::Delete { key: key(0, 1) }, Outcome::Took)?;
    add(trail, 2, Call::Delete { key: key(0, 2) }, Outcome::Took)?;
    add(
        trail,
        2,
        Call::Truncate {
            shard: SHARD,
            below: 5,
        },
        Outcome::Took,
    )
}

// Whether the datum is one byte, which is the time too, and the difference is 1.
fn is_plain(update: &Update) -> bool {
    match update.datum.bytes() {
        [byte] => u64::from(*byte) == update.time && update.diff == 1,
        _ => false,
    }
}

// The times of the plain updates that a trail accepts.
fn times(alloc: Global, trail: &[Entry]) -> Result<Vec<u64>, AllocError> {
    let list = accepted(alloc, &UpdateList::new(alloc), trail)?;
    let mut times = Vec::new(alloc);
    for update in list.as_slice() {
        if is_plain(update) {
            times.push(update.time)?;
        }
    }
    Ok(times)
}

#[test]
fn nothing_is_accepted_of_nothing(rt: HostRuntime) -> Result<(), Fail> {
    let alloc = rt.alloc();
    let list = accepted(alloc, &UpdateList::new(alloc), &[])?;
    assert!(rt; list.as_slice().is_empty());
    Ok(())
}

#[test]
fn two_appends_a_merge_and_a_collection(rt: HostRuntime) -> Result<(), Fail> {
    let alloc = rt.alloc();
    let mut trail = begin(alloc)?;
    assert!(rt; times(alloc, trail.as_slice())?.is_empty());
    append_early(alloc, &mut trail)?;
    assert_eq!(rt; times(alloc, trail.as_slice())?.as_slice(), [3].as_slice());
    append_late(alloc, &mut trail)?;
    assert_eq!(rt;
        times(alloc, trail.as_slice())?.as_slice(),
        [3, 7].as_slice()
    );
    merge_and_collect(alloc, &mut trail)?;
    assert_eq!(rt;
        times(alloc, trail.as_slice())?.as_slice(),
        [3, 7].as_slice()
    );
    Ok(())
}
