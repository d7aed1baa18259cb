ghost use Rattle.std.specs.Prelude.{IfOk};
ghost use Rattle.std.specs.List.{AllByRecursion};
ghost use Rattle.std.specs.Map.{keys_of};
ghost use Rattle.store_core.specs.Starting.{CanStart, NoneTwice, same_key, same_shard, shards_of};

use crate::clients::{Broken, ask_twice};
use std::alloc::{AllocError, Global};
use std::test::Fail;
use store_core::*;

const SHARD: ShardId = ShardId(1);

const KEY: PartKey = PartKey {
    shard: ShardId(1),
    member: 2,
    token: 3,
    index: 0,
};

fn cas(alloc: Global, expected: Option<u64>) -> Result<Call, Fail> {
    Ok(Call::Cas {
        shard: SHARD,
        expected,
        bytes: bytes(alloc, b"v")?,
    })
}

fn set(alloc: Global, text: &[u8]) -> Result<Call, Fail> {
    Ok(Call::Set {
        key: KEY,
        bytes: bytes(alloc, text)?,
    })
}

fn bytes(alloc: Global, text: &[u8]) -> Result<Bytes, Fail> {
    Ok(Bytes::of(alloc, text.to_vec(alloc)?)?)
}

fn fault(alloc: Global, took: bool) -> Result<FaultList, Fail> {
    let mut faults = FaultList::new(alloc);
    faults.push(FaultAt { number: 0, took })?;
    Ok(faults)
}

fn one_blob(alloc: Global, bytes: Bytes) -> Result<BlobList, AllocError>
    ensures { IfOk result (λ blobs. NoneTwice same_key (keys_of blobs)) }
{
    let mut blobs = BlobList::new(alloc);
    blobs.push((KEY, bytes))?;
    Ok(blobs)
}

fn one_shard(alloc: Global, bytes: Bytes) -> Result<ShardList, AllocError>
    ensures shards { IfOk result (λ shards. NoneTwice same_shard (shards_of shards)) }
    ensures versions { IfOk result (λ shards. AllByRecursion CanStart shards) }
{
    let mut versions = BytesList::new(alloc);
    versions.push(bytes)?;
    let mut shards = ShardList::new(alloc);
    shards.push((SHARD, u64::MAX, versions))?;
    Ok(shards)
}

fn last_store(alloc: Global) -> Result<MemStore, Fail> {
    let blobs = one_blob(alloc, bytes(alloc, b"x")?)?;
    let shards = one_shard(alloc, bytes(alloc, b"v")?)?;
    Ok(MemStore::starting(alloc, blobs, shards, FaultList::new(alloc))?)
}

fn found_in(reply: Reply) -> Option<Bytes> {
    match reply {
        Reply::Bytes(found) => found,
        _ => None,
    }
}

fn versions_in(alloc: Global, reply: Reply) -> VersionList {
    match reply {
        Reply::Versions(found) => found,
        _ => VersionList::new(alloc),
    }
}

#[test]
fn an_empty_store_answers(rt: HostRuntime) -> Result<(), Fail> {
    let alloc = rt.alloc();
    let mut store = MemStore::new(alloc, FaultList::new(alloc));
    let first = cas(alloc, None)?;
    let one = store.call(1, &first)?;
    assert!(rt; matches!(one, Reply::Committed(0)));
    let two = store.call(1, &first)?;
    assert!(rt; matches!(two, Reply::Mismatch));
    let below = 5;
    let cut = store.call(
        1,
        &Call::Truncate {
            shard: SHARD,
            below,
        },
    )?;
    assert!(rt; matches!(cut, Reply::Truncated));
    let found = store.call(
        1,
        &Call::Scan {
            shard: SHARD,
            from: 0,
        },
    )?;
    let versions = versions_in(alloc, found);
    assert!(rt; versions.as_slice().len() == 1 && versions.as_slice()[0].number == 0);
    let got = store.call(1, &Call::Get { key: KEY })?;
    assert!(rt; matches!(got, Reply::Bytes(None)));
    let gone = store.call(1, &Call::Delete { key: KEY })?;
    assert!(rt; matches!(gone, Reply::Deleted));
    assert!(rt; store.trail().len() == 6);
    Ok(())
}

#[test]
fn no_number_follows_the_last(rt: HostRuntime) -> Result<(), Fail> {
    let alloc = rt.alloc();
    let mut store = last_store(alloc)?;
    let spent = store.call(1, &cas(alloc, Some(u64::MAX))?)?;
    assert!(rt; matches!(spent, Reply::Spent));
    let found = found_in(store.call(1, &Call::Get { key: KEY })?).ok_or("no bytes")?;
    assert_eq!(rt; found.as_slice(), b"x".as_slice());
    Ok(())
}

#[test]
fn a_call_that_fails_takes_effect_or_is_lost(rt: HostRuntime) -> Result<(), Fail> {
    let alloc = rt.alloc();
    for took in [true, false] {
        let mut store = MemStore::new(alloc, fault(alloc, took)?);
        let failed = store.call(1, &set(alloc, b"x")?)?;
        assert!(rt; matches!(failed, Reply::Failed));
        let found = found_in(store.call(1, &Call::Get { key: KEY })?);
        assert!(rt; found.is_some() == took, "after took: {took}");
    }
    Ok(())
}

#[test]
fn a_port_passes_calls_on(rt: HostRuntime) -> Result<(), Fail> {
    let alloc = rt.alloc();
    let mut store = MemStore::new(alloc, FaultList::new(alloc));
    let mut port = DirectPort::new(&mut store, 7);
    let head = port.try_call(&Call::Head { shard: SHARD })?;
    assert!(rt; matches!(head, Turn::Reply(Reply::Version(None))));
    let fetched = ask_twice(&mut store, 7, SHARD, KEY)?;
    assert!(rt; matches!(fetched, Turn::Reply(Reply::Bytes(None))));
    let mut broken = Broken { failed: 0 };
    let failed = ask_twice(&mut broken, 7, SHARD, KEY)?;
    assert!(rt; matches!(failed, Turn::Reply(Reply::Failed)));
    assert!(rt; broken.failed == 2);
    Ok(())
}

#[test]
fn lists_are_in_order(rt: HostRuntime) -> Result<(), Fail> {
    let alloc = rt.alloc();
    let faults = fault(alloc, true)?;
    assert!(rt; faults.as_slice().len() == 1 && faults.as_slice()[0].took);
    let blobs = one_blob(alloc, bytes(alloc, b"x")?)?;
    assert!(rt; blobs.as_slice().len() == 1 && blobs.as_slice()[0].0 == KEY);
    let shards = one_shard(alloc, bytes(alloc, b"v")?)?;
    assert!(rt; shards.as_slice().len() == 1 && shards.as_slice()[0].0 == SHARD);
    assert!(rt; shards.as_slice()[0].2.as_slice().len() == 1);
    Ok(())
}

#[test]
fn copies_have_the_same_items(rt: HostRuntime) -> Result<(), Fail> {
    let alloc = rt.alloc();
    let faults = fault(alloc, true)?.copy(alloc)?;
    assert!(rt; faults.as_slice().len() == 1 && faults.as_slice()[0].took);
    let blobs = one_blob(alloc, bytes(alloc, b"x")?)?.copy(alloc)?;
    assert!(rt; blobs.as_slice().len() == 1 && blobs.as_slice()[0].0 == KEY);
    assert_eq!(rt; blobs.as_slice()[0].1.as_slice(), b"x".as_slice());
    let shards = one_shard(alloc, bytes(alloc, b"v")?)?.copy(alloc)?;
    assert!(rt; shards.as_slice().len() == 1 && shards.as_slice()[0].1 == u64::MAX);
    assert_eq!(rt;
        shards.as_slice()[0].2.as_slice()[0].as_slice(),
        b"v".as_slice()
    );
    let mut versions = VersionList::new(alloc);
    versions.push(Version {
        number: 7,
        bytes: bytes(alloc, b"v")?,
    })?;
    let copy = versions.copy(alloc)?;
    assert!(rt; copy.as_slice().len() == 1 && copy.as_slice()[0].number == 7);
    assert_eq!(rt; copy.as_slice()[0].bytes.as_slice(), b"v".as_slice());
    Ok(())
}

// A Cas on a shard with no version, a Get and a Delete of a key that isn't there, and a Cas that has been made.
#[test]
fn calls_that_change_a_store(rt: HostRuntime) -> Result<(), Fail> {
    let alloc = rt.alloc();
    let mut contents = Contents::new(alloc);
    let first = cas(alloc, None)?;
    assert!(rt; contents.changes(&first));
    assert!(rt; !contents.changes(&cas(alloc, Some(0))?));
    assert!(rt; !contents.changes(&Call::Get { key: KEY }));
    assert!(rt; contents.changes(&Call::Delete { key: KEY }));
    let made = contents.apply(alloc, &first)?;
    assert!(rt; matches!(made, Reply::Committed(0)));
    assert!(rt; !contents.changes(&first));
    assert!(rt; contents.changes(&cas(alloc, Some(0))?));
    Ok(())
}
