ghost use Rattle.std.specs.Prelude.{IfOk, ◌≡◌};
ghost use Rattle.std.specs.List.{AllByRecursion};
ghost use Rattle.store_core.specs.Starting.{CanStart, NoneTwice, same_shard, shards_of};
ghost use Rattle.load_core.specs.Trying.{IsSound as IsTriable};
ghost use Rattle.read_client.specs.Reading.{IsSound};

use load_core::{Attempt, Loader, Tried, Trying, first_version};
use read_client::*;
use spine_core::KeyList;
use state_core::{Kind, Transition};
use std::alloc::{AllocError, Global};
use std::test::Fail;
use store_core::{
    BlobList, Bytes, BytesList, Call, DirectPort, FaultAt, FaultList, MemStore, PartKey, Port,
    ShardId, ShardList, Turn,
};
use test_stores::UntoldStore;
use update_core::Frontier;

const SHARD: ShardId = ShardId(1);

// The part with the one row (a, 3, 1).
const PART: [u8; 27] = [
    0x50, 0x41, 0x52, 0x54, 1, 0, 0, 0, 1, 1, 0x61, 0, 0, 0, 0, 0, 0, 0, 3, 0, 0, 0, 0, 0, 0, 0, 1,
];

// How many calls a store with that part has had.
const PREPARED: u64 = 6;

const KEY: PartKey = PartKey {
    shard: SHARD,
    member: 0,
    token: 1,
    index: 0,
};

// ---- a store with an append

// One call more; whether the transition is committed with it.
#[tactic(auto, using(load_core::proofs::Turning::turn_row))]
fn try_once<P: Port>(alloc: Global, port: &mut P, trying: &mut Trying) -> Result<bool, Fail>
    requires { IsTriable trying.old }
    ensures { IsTriable trying.new }
{
    trying.prepare(alloc)?;
    let call = trying.next_call()?;
    match port.try_call(&call)? {
        Turn::Busy => Ok(false),
        Turn::Reply(reply) => {
            let tried = trying.react(alloc, reply)?;
            Ok(matches!(&tried, Tried::Committed { .. }))
        }
    }
}

// The transition is committed, by at most four calls.
fn commit<P: Port>(alloc: Global, port: &mut P, step: Transition) -> Result<(), Fail> {
    let mut trying = Trying::new(Loader::new(SHARD), step);
    if try_once(alloc, port, &mut trying)? {
        return Ok(());
    }
    if try_once(alloc, port, &mut trying)? {
        return Ok(());
    }
    if try_once(alloc, port, &mut trying)? {
        return Ok(());
    }
    try_once(alloc, port, &mut trying)?;
    Ok(())
}

fn the_append(alloc: Global) -> Result<Transition, Fail> {
    let mut parts = KeyList::new(alloc);
    parts.push(KEY)?;
    Ok(Transition::Append {
        member: 0,
        token: 1,
        expected: 0,
        new: Frontier::at(5),
        parts,
        rows: 1,
        weight: 1,
    })
}

fn join(kind: Kind, lease: u64) -> Transition {
    Transition::Join {
        kind,
        now: 0,
        lease,
    }
}

// Another client has joined as a writer, set the part, and appended its row from 0 up to 5: the last version is 2.
fn write<P: Port>(alloc: Global, port: &mut P) -> Result<(), Fail> {
    commit(alloc, port, join(Kind::Writer, 0))?;
    let bytes = Bytes::of(alloc, PART.to_vec(alloc)?)?;
    port.try_call(&Call::Set { key: KEY, bytes })?;
    commit(alloc, port, the_append(alloc)?)
}

fn empty_store(alloc: Global, faults: FaultList) -> UntoldStore {
    UntoldStore {
        store: MemStore::new(alloc, faults),
    }
}

fn written(alloc: Global, faults: FaultList) -> Result<UntoldStore, Fail> {
    let mut store = empty_store(alloc, faults);
    let mut port = DirectPort::new(&mut store, 7);
    write(alloc, &mut port)?;
    Ok(store)
}

// ---- a reader

// One call more, where a command is open.
fn step(
    alloc: Global,
    store: &mut UntoldStore,
    reader: &mut Reader,
) -> Result<Option<ReadAnswer>, Fail>
    requires { IsSound reader.old }
    ensures { IsSound reader.new }
{
    if !reader.busy() {
        return Ok(None);
    }
    match reader.poll(alloc, &mut DirectPort::new(store, 3))? {
        Poll::Done(answer) => Ok(Some(answer)),
        _ => Ok(None),
    }
}

// The name of an answer, and two of its numbers.
fn word(answer: Option<ReadAnswer>) -> (&'static str, u64, u64) {
    match answer {
        None => ("none", 0, 0),
        Some(
            ReadAnswer::Opened {
                member,
                version,
                ..
            },
        ) => ("opened", member, version),
        Some(ReadAnswer::MembersFull { version }) => ("full", version, 0),
        Some(ReadAnswer::Rows(rows)) => ("rows", rows.as_slice().len() as u64, 0),
        Some(ReadAnswer::Early { since }) => ("early", since, 0),
        Some(ReadAnswer::Late { .. }) => ("late", 0, 0),
        Some(ReadAnswer::Step { rows, .. }) => ("step", rows.as_slice().len() as u64, 0),
        Some(ReadAnswer::Quiet { .. }) => ("quiet", 0, 0),
        Some(ReadAnswer::Ended) => ("ended", 0, 0),
        Some(ReadAnswer::Advanced { version }) => ("advanced", version, 0),
        Some(ReadAnswer::Back { since }) => ("back", since, 0),
        Some(ReadAnswer::Renewed { version }) => ("renewed", version, 0),
        Some(ReadAnswer::Closed { version }) => ("closed", version, 0),
        Some(ReadAnswer::Expired { version }) => ("expired", version, 0),
    }
}

// What the open command is answered, within twelve calls.
fn answer(
    alloc: Global,
    store: &mut UntoldStore,
    reader: &mut Reader,
) -> Result<(&'static str, u64, u64), Fail>
    requires { IsSound reader.old }
    ensures { IsSound reader.new }
{
    for _ in 0..12u64 {
        let answered = step(alloc, store, reader)?;
        if answered.is_some() {
            return Ok(word(answered));
        }
    }
    Ok(("open", 0, 0))
}

// What is answered to a snapshot at a time, and its calls.
fn snapshot(
    alloc: Global,
    store: &mut UntoldStore,
    reader: &mut Reader,
    t: u64,
) -> Result<(&'static str, u64, u64), Fail>
    requires { IsSound reader.old }
    ensures { IsSound reader.new }
{
    match reader.begin_snapshot(t) {
        Ok(()) => answer(alloc, store, reader),
        Err(_) => Ok(("not begun", 0, 0)),
    }
}

fn listen(
    alloc: Global,
    store: &mut UntoldStore,
    reader: &mut Reader,
    as_of: u64,
) -> Result<(&'static str, u64, u64), Fail>
    requires { IsSound reader.old }
    ensures { IsSound reader.new }
{
    match reader.begin_listen(as_of) {
        Ok(()) => answer(alloc, store, reader),
        Err(_) => Ok(("not begun", 0, 0)),
    }
}

fn next(
    alloc: Global,
    store: &mut UntoldStore,
    reader: &mut Reader,
) -> Result<(&'static str, u64, u64), Fail>
    requires { IsSound reader.old }
    ensures { IsSound reader.new }
{
    match reader.begin_next() {
        Ok(()) => answer(alloc, store, reader),
        Err(BeginFault::NoListen) => Ok(("no listen", 0, 0)),
        Err(BeginFault::Gone) => Ok(("gone", 0, 0)),
        Err(_) => Ok(("not begun", 0, 0)),
    }
}

fn advance(
    alloc: Global,
    store: &mut UntoldStore,
    reader: &mut Reader,
    to: u64,
) -> Result<(&'static str, u64, u64), Fail>
    requires { IsSound reader.old }
    ensures { IsSound reader.new }
{
    match reader.begin_advance(to) {
        Ok(()) => answer(alloc, store, reader),
        Err(_) => Ok(("not begun", 0, 0)),
    }
}

fn renew(
    alloc: Global,
    store: &mut UntoldStore,
    reader: &mut Reader,
    now: u64,
) -> Result<(&'static str, u64, u64), Fail>
    requires { IsSound reader.old }
    ensures { IsSound reader.new }
{
    match reader.begin_renew(now) {
        Ok(()) => answer(alloc, store, reader),
        Err(_) => Ok(("not begun", 0, 0)),
    }
}

fn close(
    alloc: Global,
    store: &mut UntoldStore,
    reader: &mut Reader,
) -> Result<(&'static str, u64, u64), Fail>
    requires { IsSound reader.old }
    ensures { IsSound reader.new }
{
    match reader.begin_close() {
        Ok(()) => answer(alloc, store, reader),
        Err(_) => Ok(("not begun", 0, 0)),
    }
}

// ---- commands one after the other

#[derive(Drop)]
enum Ask {
    Snapshot(u64),
    Listen(u64),
    Next,
    Advance(u64),
    Renew(u64),
    Close,
}

// A command, and what is wanted: the name of the answer, its number, and the calls that it makes, where these are looked at.
#[derive(Drop)]
struct Scene {
    ask: Ask,
    name: &'static str,
    number: Option<u64>,
    calls: Option<u64>,
}

fn wanting(ask: Ask, name: &'static str, number: u64, calls: u64) -> Scene {
    Scene {
        ask,
        name,
        number: Some(number),
        calls: Some(calls),
    }
}

fn naming(ask: Ask, name: &'static str) -> Scene {
    Scene {
        ask,
        name,
        number: None,
        calls: None,
    }
}

fn is_wanted(wanted: Option<u64>, found: u64) -> bool {
    match wanted {
        Some(number) => number == found,
        None => true,
    }
}

fn make(
    alloc: Global,
    store: &mut UntoldStore,
    reader: &mut Reader,
    ask: &Ask,
) -> Result<(&'static str, u64, u64), Fail>
    requires { IsSound reader.old }
    ensures { IsSound reader.new }
{
    match ask {
        Ask::Snapshot(t) => snapshot(alloc, store, reader, *t),
        Ask::Listen(as_of) => listen(alloc, store, reader, *as_of),
        Ask::Next => next(alloc, store, reader),
        Ask::Advance(to) => advance(alloc, store, reader, *to),
        Ask::Renew(now) => renew(alloc, store, reader, *now),
        Ask::Close => close(alloc, store, reader),
    }
}

// How many of the commands are answered as wanted.
fn count(
    alloc: Global,
    store: &mut UntoldStore,
    reader: &mut Reader,
    scenes: &[Scene],
) -> Result<u64, Fail>
    requires { IsSound reader.old }
    ensures { IsSound reader.new }
{
    let mut count: u64 = 0;
    for scene in scenes {
        let told = make(alloc, store, reader, &scene.ask)?;
        let calls = reader.calls();
        if told.0 == scene.name
            && is_wanted(scene.number, told.1)
            && is_wanted(scene.calls, calls)
        {
            count = count.saturating_add(1);
        }
    }
    Ok(count)
}

// The same of a reader that opens on a store with an append, where a call may fail.
fn play(alloc: Global, faults: FaultList, scenes: &[Scene]) -> Result<u64, Fail> {
    let mut store = written(alloc, faults)?;
    let mut reader = Reader::open(alloc, SHARD, 10, 100);
    answer(alloc, &mut store, &mut reader)?;
    count(alloc, &mut store, &mut reader, scenes)
}

// The open's version is 3, and its member 1.
#[test]
fn a_reader_opens(rt: HostRuntime) -> Result<(), Fail> {
    let alloc = rt.alloc();
    let mut store = written(alloc, FaultList::new(alloc))?;
    let mut reader = Reader::open(alloc, SHARD, 10, 100);
    assert_eq!(rt; answer(alloc, &mut store, &mut reader)?, ("opened", 1, 3));
    assert_eq!(rt; reader.calls(), 2);
    Ok(())
}

// One scan from the number after the newest one and one get; nothing more where nothing is to be read.
#[test]
fn a_reader_reads(rt: HostRuntime) -> Result<(), Fail> {
    let alloc = rt.alloc();
    let scenes = [
        wanting(Ask::Snapshot(4), "rows", 1, 2),
        wanting(Ask::Snapshot(5), "late", 0, 1),
        wanting(Ask::Next, "no listen", 0, 1),
        wanting(Ask::Listen(2), "step", 1, 2),
        wanting(Ask::Next, "quiet", 0, 1),
        wanting(Ask::Snapshot(4), "rows", 1, 2),
    ];
    assert_eq!(rt; play(alloc, FaultList::new(alloc), &scenes)?, 6);
    Ok(())
}

#[test]
fn a_reader_changes_and_leaves(rt: HostRuntime) -> Result<(), Fail> {
    let alloc = rt.alloc();
    let scenes = [
        wanting(Ask::Advance(4), "advanced", 4, 1),
        wanting(Ask::Advance(2), "back", 4, 1),
        wanting(Ask::Snapshot(3), "early", 4, 1),
        wanting(Ask::Renew(50), "renewed", 5, 1),
        wanting(Ask::Close, "closed", 6, 1),
        wanting(Ask::Next, "gone", 0, 1),
    ];
    assert_eq!(rt; play(alloc, FaultList::new(alloc), &scenes)?, 6);
    Ok(())
}

// How many of a snapshot, a listen and a close are answered as wanted where this call fails.
fn answered_past(alloc: Global, number: u64, took: bool) -> Result<u64, Fail> {
    let mut faults = FaultList::new(alloc);
    faults.push(FaultAt { number, took })?;
    let scenes = [
        naming(Ask::Snapshot(4), "rows"),
        naming(Ask::Listen(2), "step"),
        naming(Ask::Close, "closed"),
    ];
    play(alloc, faults, &scenes)
}

#[test]
fn each_call_may_fail(rt: HostRuntime) -> Result<(), Fail> {
    let alloc = rt.alloc();
    for place in 0..9u64 {
        assert_eq!(rt; answered_past(alloc, PREPARED + place, true)?, 3);
        assert_eq!(rt; answered_past(alloc, PREPARED + place, false)?, 3);
    }
    Ok(())
}

// The bytes of a version with as many members as a shard can have.
fn full_version(alloc: Global) -> Result<Bytes, Fail> {
    let mut ready = first_version(alloc, SHARD)?;
    let step = join(Kind::Reader, 9);
    for _ in 0..256 {
        let _ = ready.after.members();
        if let Attempt::Ready(next) = Attempt::of(alloc, &ready.after, &step)? {
            ready = next;
        }
    }
    Ok(ready.bytes)
}

// A shard whose one version has this number.
fn one_version(alloc: Global, number: u64, bytes: Bytes) -> Result<ShardList, AllocError>
    ensures shards { IfOk result (λ shards. NoneTwice same_shard (shards_of shards)) }
    ensures versions { IfOk result (λ shards. AllByRecursion CanStart shards) }
{
    let mut versions = BytesList::new(alloc);
    versions.push(bytes)?;
    let mut shards = ShardList::new(alloc);
    shards.push((SHARD, number, versions))?;
    Ok(shards)
}

// One call of the open command, and what its poll comes to.
fn poll_word(
    alloc: Global,
    store: &mut UntoldStore,
    reader: &mut Reader,
) -> Result<(&'static str, u64, u64), Fail>
    requires { IsSound reader.old }
    ensures { IsSound reader.new }
{
    if !reader.busy() {
        return Ok(("idle", 0, 0));
    }
    match reader.poll(alloc, &mut DirectPort::new(store, 3))? {
        Poll::Done(answer) => Ok(word(Some(answer))),
        Poll::Spent => Ok(("spent", 0, 0)),
        _ => Ok(("another poll", 0, 0)),
    }
}

// What a reader's open is answered where as many members stand as can, at this number; nothing can be asked after it.
fn open_at(alloc: Global, number: u64) -> Result<(&'static str, u64, u64), Fail> {
    let shards = one_version(alloc, number, full_version(alloc)?)?;
    let store = MemStore::starting(alloc, BlobList::new(alloc), shards, FaultList::new(alloc))?;
    let mut store = UntoldStore { store };
    let mut reader = Reader::open(alloc, SHARD, 10, 100);
    let answered = poll_word(alloc, &mut store, &mut reader)?;
    match next(alloc, &mut store, &mut reader)? {
        ("gone", _, _) => Ok(answered),
        other => Ok(other),
    }
}

// No more than 256 members stand at once; that no number is left is told before.
#[test]
fn a_full_shard_lets_nobody_in(rt: HostRuntime) -> Result<(), Fail> {
    let alloc = rt.alloc();
    assert_eq!(rt; open_at(alloc, 256)?, ("full", 256, 0));
    assert_eq!(rt; open_at(alloc, u64::MAX)?, ("spent", 0, 0));
    Ok(())
}
