ghost use Rattle.std.specs.Prelude.{◌≡◌, IfOk};
ghost use Rattle.store_core.specs.Histories.{IsScanFrom};
ghost use Rattle.load_core.specs.Trying.{IsSound};

use load_core::*;
use state_core::{Kind, Transition};
use std::alloc::Global;
use std::test::Fail;
use store_core::{
    Bytes, DirectPort, FaultAt, FaultList, MemStore, Port, Reply, ShardId, Turn, Version,
    VersionList,
};
use version_codec::VersionFault;

const SHARD: ShardId = ShardId(1);

// The first version's bytes: the letters PVER, the form and 44 bytes of 0.
const FIRST: [u8; 49] = [
    0x50, 0x56, 0x45, 0x52, 1, 0, 0, 0, 0, 0, 0, 0, 0, 0, 0, 0, 0, 0, 0, 0, 0, 0, 0, 0, 0, 0, 0, 0,
    0, 0, 0, 0, 0, 0, 0, 0, 0, 0, 0, 0, 0, 0, 0, 0, 0, 0, 0, 0, 0,
];

// Those with a last byte that names no transition.
const UNNAMED: [u8; 49] = [
    0x50, 0x56, 0x45, 0x52, 1, 0, 0, 0, 0, 0, 0, 0, 0, 0, 0, 0, 0, 0, 0, 0, 0, 0, 0, 0, 0, 0, 0, 0,
    0, 0, 0, 0, 0, 0, 0, 0, 0, 0, 0, 0, 0, 0, 0, 0, 0, 0, 0, 0, 9,
];

fn version(alloc: Global, number: u64, bytes: &[u8]) -> Result<Version, Fail>
    ensures { IfOk result (λ version. version.number ≡ number) }
{
    let bytes = Bytes::of(alloc, bytes.to_vec(alloc)?)?;
    Ok(Version { number, bytes })
}

fn one(alloc: Global, bytes: &[u8]) -> Result<VersionList, Fail>
    ensures { IfOk result (IsScanFrom 0) }
{
    let mut versions = VersionList::new(alloc);
    versions.push(version(alloc, 0, bytes)?)?;
    Ok(versions)
}

fn two(alloc: Global, first: &[u8], second: &[u8]) -> Result<VersionList, Fail>
    ensures { IfOk result (IsScanFrom 0) }
{
    let mut versions = VersionList::new(alloc);
    versions.push(version(alloc, 0, first)?)?;
    versions.push(version(alloc, 1, second)?)?;
    Ok(versions)
}

fn word(loaded: Loaded) -> (&'static str, u64, u64) {
    match loaded {
        Loaded::Ready => ("ready", 0, 0),
        Loaded::New => ("new", 0, 0),
        Loaded::Fault => ("fault", 0, 0),
        Loaded::Damaged(Damage::Version { number, fault }) => match fault {
            VersionFault::Short { place } => ("short", number, place),
            VersionFault::Tag { place } => ("tag", number, place),
            _ => ("another fault", number, 0),
        },
        Loaded::Damaged(_) => ("another damage", 0, 0),
    }
}

#[test]
fn without_versions_a_shard_is_new(rt: HostRuntime) -> Result<(), Fail> {
    let alloc = rt.alloc();
    let mut loader = Loader::new(SHARD);
    let loaded = loader.take(alloc, Reply::Versions(VersionList::new(alloc)))?;
    assert_eq!(rt; word(loaded), ("new", 0, 0));
    assert!(rt; loader.state().is_none());
    let mut loader = Loader::new(SHARD);
    let loaded = loader.take(alloc, Reply::Failed)?;
    assert_eq!(rt; word(loaded), ("fault", 0, 0));
    Ok(())
}

#[test]
fn the_newest_version_is_loaded(rt: HostRuntime) -> Result<(), Fail> {
    let alloc = rt.alloc();
    let mut loader = Loader::new(SHARD);
    let loaded = loader.take(alloc, Reply::Versions(two(alloc, &FIRST, &FIRST)?))?;
    assert_eq!(rt; word(loaded), ("ready", 0, 0));
    let number = match loader.state() {
        Some(state) => state.number(),
        None => 99,
    };
    assert_eq!(rt; number, 1);
    Ok(())
}

#[test]
fn the_first_bad_version_is_named(rt: HostRuntime) -> Result<(), Fail> {
    let alloc = rt.alloc();
    let mut loader = Loader::new(SHARD);
    let loaded = loader.take(alloc, Reply::Versions(one(alloc, &FIRST[..48])?))?;
    assert_eq!(rt; word(loaded), ("short", 0, 48));
    let mut loader = Loader::new(SHARD);
    let loaded = loader.take(alloc, Reply::Versions(two(alloc, &UNNAMED, &FIRST)?))?;
    assert_eq!(rt; word(loaded), ("tag", 0, 48));
    assert!(rt; loader.state().is_none());
    Ok(())
}

fn joining() -> Trying
    ensures { IsSound result }
{
    let step = Transition::Join {
        kind: Kind::Writer,
        now: 0,
        lease: 0,
    };
    Trying::new(Loader::new(SHARD), step)
}

#[tactic(auto, using(load_core::proofs::Turning::turn_row))]
fn poll<P: Port>(alloc: Global, port: &mut P, trying: &mut Trying) -> Result<Option<Tried>, Fail>
    requires { IsSound trying.old }
    ensures { IsSound trying.new }
{
    trying.prepare(alloc)?;
    let call = trying.next_call()?;
    match port.try_call(&call)? {
        Turn::Busy => Ok(None),
        Turn::Reply(reply) => {
            let tried = trying.react(alloc, reply)?;
            Ok(Some(tried))
        }
    }
}

// Whether the shard's first version is committed by the next two polls.
fn is_begun<P: Port>(alloc: Global, port: &mut P, trying: &mut Trying) -> Result<bool, Fail>
    requires { IsSound trying.old }
    ensures { IsSound trying.new }
{
    let goes = matches!(poll(alloc, port, trying)?, Some(Tried::Goes));
    let begun = matches!(poll(alloc, port, trying)?, Some(Tried::Begun));
    Ok(goes && begun)
}

// Whether a call fails and the scan after it gives a version to commit.
fn is_again_ready<P: Port>(alloc: Global, port: &mut P, trying: &mut Trying) -> Result<bool, Fail>
    requires { IsSound trying.old }
    ensures { IsSound trying.new }
{
    let failed = matches!(poll(alloc, port, trying)?, Some(Tried::Fault));
    let goes = matches!(poll(alloc, port, trying)?, Some(Tried::Goes));
    Ok(failed && goes)
}

#[test]
fn a_member_joins_a_shard_without_versions(rt: HostRuntime) -> Result<(), Fail> {
    let alloc = rt.alloc();
    let mut store = MemStore::new(alloc, FaultList::new(alloc));
    let mut port = DirectPort::new(&mut store, 7);
    let mut trying = joining();
    let begun = is_begun(alloc, &mut port, &mut trying)?;
    assert!(rt; begun);
    let done = poll(alloc, &mut port, &mut trying)?;
    assert!(rt; matches!(&done, Some(Tried::Committed { version: 1 })));
    assert!(rt; trying.calls == 3 && trying.tried == Some(1));
    Ok(())
}

#[test]
fn the_first_version_has_known_bytes(rt: HostRuntime) -> Result<(), Fail> {
    let first = first_version(rt.alloc(), SHARD)?;
    assert!(rt; first.bytes.as_slice() == FIRST.as_slice());
    Ok(())
}

// The call with the number 2 takes effect, but is answered as failed.
fn a_fault(alloc: Global) -> Result<FaultList, Fail> {
    let mut faults = FaultList::new(alloc);
    faults.push(FaultAt {
        number: 2,
        took: true,
    })?;
    Ok(faults)
}

#[test]
fn a_failed_commit_is_followed_by_a_scan(rt: HostRuntime) -> Result<(), Fail> {
    let alloc = rt.alloc();
    let mut store = MemStore::new(alloc, a_fault(alloc)?);
    let mut port = DirectPort::new(&mut store, 7);
    let mut trying = joining();
    let begun = is_begun(alloc, &mut port, &mut trying)?;
    assert!(rt; begun);
    // The join that failed is in, and the next one gets another member's number.
    let ready = is_again_ready(alloc, &mut port, &mut trying)?;
    assert!(rt; ready);
    let done = poll(alloc, &mut port, &mut trying)?;
    assert!(rt; matches!(&done, Some(Tried::Committed { version: 2 })));
    assert!(rt; trying.failed);
    Ok(())
}
