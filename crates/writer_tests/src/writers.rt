// Tests of the writer.
ghost use Rattle.std.specs.Prelude.{IfOk};
ghost use Rattle.std.specs.List.{AllByRecursion};
ghost use Rattle.store_core.specs.Starting.{CanStart, NoneTwice, same_shard, shards_of};
ghost use Rattle.write_client.specs.Writing.{IsSound};

use load_core::{Attempt, first_version};
use state_core::{Kind, Transition};
use std::alloc::{AllocError, Global};
use std::test::Fail;
use store_core::{BlobList, Bytes, BytesList, DirectPort, FaultList, MemStore, ShardId, ShardList};
use test_stores::UntoldStore;
use update_core::{Datum, Frontier, Update, UpdateList};
use write_client::*;

const SHARD: ShardId = ShardId(1);

fn empty_store(alloc: Global) -> UntoldStore {
    UntoldStore {
        store: MemStore::new(alloc, FaultList::new(alloc)),
    }
}

// As many rows at a time.
fn rows_at(alloc: Global, count: u64, time: u64) -> Result<UpdateList, Fail> {
    let mut rows = UpdateList::new(alloc);
    for _ in 0..count {
        let datum = Datum::of(alloc, b"a")?;
        rows.push(Update {
            datum,
            time,
            diff: 1,
        })?;
    }
    Ok(rows)
}

// One row at each of two times.
fn two_rows(alloc: Global, first: u64, second: u64) -> Result<UpdateList, Fail> {
    let mut rows = rows_at(alloc, 1, first)?;
    let more = rows_at(alloc, 1, second)?;
    rows.append(more)?;
    Ok(rows)
}

// Polls the open command once, where one is open.
fn poll_once(
    alloc: Global,
    writer: &mut Writer,
    store: &mut UntoldStore,
) -> Result<Option<Poll<WriteAnswer>>, AllocError>
    requires { IsSound writer.old }
    ensures { IsSound writer.new }
{
    if !writer.busy() {
        return Ok(None);
    }
    let poll = writer.poll(alloc, &mut DirectPort::new(store, 7))?;
    Ok(Some(poll))
}

// Polls the open command three times, or until it ends, and gives the last poll.
fn poll_on(
    alloc: Global,
    writer: &mut Writer,
    store: &mut UntoldStore,
) -> Result<Option<Poll<WriteAnswer>>, AllocError>
    requires { IsSound writer.old }
    ensures { IsSound writer.new }
{
    let first = poll_once(alloc, writer, store)?;
    let second = poll_once(alloc, writer, store)?;
    let third = poll_once(alloc, writer, store)?;
    if third.is_some() {
        return Ok(third);
    }
    if second.is_some() {
        return Ok(second);
    }
    Ok(first)
}

fn opened_writer(alloc: Global, store: &mut UntoldStore) -> Result<Writer, Fail>
    ensures { IfOk result IsSound }
{
    let mut writer = Writer::open(alloc, SHARD);
    poll_on(alloc, &mut writer, store)?;
    Ok(writer)
}

// What a poll came to, with its number.
fn word(poll: Option<Poll<WriteAnswer>>) -> (&'static str, u64) {
    match poll {
        Some(Poll::Done(answer)) => answer_word(answer),
        Some(Poll::More) => ("more", 0),
        Some(Poll::Spent) => ("spent", 0),
        Some(_) => ("another poll", 0),
        None => ("idle", 0),
    }
}

fn answer_word(answer: WriteAnswer) -> (&'static str, u64) {
    match answer {
        WriteAnswer::Opened { member, .. } => ("opened", member),
        WriteAnswer::MembersFull { version } => ("full", version),
        WriteAnswer::Ok => ("ok", 0),
        WriteAnswer::Mismatch { .. } => ("mismatch", 0),
        WriteAnswer::Heavy { weight } => ("heavy", weight),
        WriteAnswer::Closed { version } => ("closed", version),
    }
}

// Why a command wasn't begun, with its number.
fn fault_word(begun: Result<(), BeginFault>) -> (&'static str, u64) {
    match begun {
        Ok(_) => ("begun", 0),
        Err(BeginFault::Gone) => ("gone", 0),
        Err(BeginFault::Open) => ("open", 0),
        Err(BeginFault::EmptyRange) => ("empty range", 0),
        Err(BeginFault::TooMany { rows }) => ("too many", rows),
        Err(BeginFault::OutOfRange { index }) => ("out of range", index),
        Err(_) => ("another fault", 0),
    }
}

// What beginning an append comes to.
fn append_word(
    alloc: Global,
    writer: &mut Writer,
    rows: UpdateList,
    expected: u64,
    new: u64,
) -> (&'static str, u64)
    requires { IsSound writer.old }
    ensures { IsSound writer.new }
{
    let begun = writer.begin_append(alloc, rows, expected, Frontier::at(new));
    fault_word(begun)
}

// What beginning a close comes to.
fn close_word(alloc: Global, writer: &mut Writer) -> (&'static str, u64)
    requires { IsSound writer.old }
    ensures { IsSound writer.new }
{
    let begun = writer.begin_close(alloc);
    fault_word(begun)
}

// What up to three polls come to.
fn poll_word(
    alloc: Global,
    writer: &mut Writer,
    store: &mut UntoldStore,
) -> Result<(&'static str, u64), Fail>
    requires { IsSound writer.old }
    ensures { IsSound writer.new }
{
    let poll = poll_on(alloc, writer, store)?;
    Ok(word(poll))
}

// An append is begun where nothing stands against it, and then no other one.
#[test]
fn one_append_begins(rt: HostRuntime) -> Result<(), Fail> {
    let alloc = rt.alloc();
    let mut store = empty_store(alloc);
    let mut writer = opened_writer(alloc, &mut store)?;
    let many = rows_at(alloc, 65_537, 1)?;
    assert_eq!(rt;
        append_word(alloc, &mut writer, many, 0, 5),
        ("too many", 65_537)
    );
    let none = UpdateList::new(alloc);
    assert_eq!(rt; append_word(alloc, &mut writer, none, 0, 5), ("begun", 0));
    let again = UpdateList::new(alloc);
    assert_eq!(rt; append_word(alloc, &mut writer, again, 0, 5), ("open", 0));
    assert_eq!(rt; poll_word(alloc, &mut writer, &mut store)?, ("ok", 0));
    Ok(())
}

// Neither an empty range is begun, nor one with a row outside.
#[test]
fn ranges_are_looked_at(rt: HostRuntime) -> Result<(), Fail> {
    let alloc = rt.alloc();
    let mut store = empty_store(alloc);
    let mut writer = opened_writer(alloc, &mut store)?;
    let none = UpdateList::new(alloc);
    assert_eq!(rt;
        append_word(alloc, &mut writer, none, 5, 5),
        ("empty range", 0)
    );
    let rows = two_rows(alloc, 5, 10)?;
    assert_eq!(rt;
        append_word(alloc, &mut writer, rows, 5, 10),
        ("out of range", 2)
    );
    Ok(())
}

// Nothing is begun once a close is done.
#[test]
fn a_closed_writer_is_gone(rt: HostRuntime) -> Result<(), Fail> {
    let alloc = rt.alloc();
    let mut store = empty_store(alloc);
    let mut writer = opened_writer(alloc, &mut store)?;
    assert_eq!(rt; close_word(alloc, &mut writer), ("begun", 0));
    assert_eq!(rt; close_word(alloc, &mut writer), ("open", 0));
    assert_eq!(rt; poll_word(alloc, &mut writer, &mut store)?, ("closed", 2));
    assert_eq!(rt; close_word(alloc, &mut writer), ("gone", 0));
    let none = UpdateList::new(alloc);
    assert_eq!(rt; append_word(alloc, &mut writer, none, 0, 5), ("gone", 0));
    Ok(())
}

// The bytes of a version with as many members as a shard can have.
fn full_version(alloc: Global) -> Result<Bytes, Fail> {
    let mut ready = first_version(alloc, SHARD)?;
    let join = Transition::Join {
        kind: Kind::Writer,
        now: 0,
        lease: 0,
    };
    for _ in 0..256 {
        let _ = ready.after.members();
        if let Attempt::Ready(next) = Attempt::of(alloc, &ready.after, &join)? {
            ready = next;
        }
    }
    Ok(ready.bytes)
}

// A shard whose one version has this number.
fn one_version(alloc: Global, number: u64, bytes: Bytes) -> Result<ShardList, AllocError>
    ensures shards { IfOk result (λ shards. NoneTwice same_shard (shards_of shards)) }
    ensures versions { IfOk result (λ shards. AllByRecursion CanStart shards) }
{
    let mut versions = BytesList::new(alloc);
    versions.push(bytes)?;
    let mut shards = ShardList::new(alloc);
    shards.push((SHARD, number, versions))?;
    Ok(shards)
}

// What a writer's open is answered where as many members stand as can, at this number.
fn open_at(alloc: Global, number: u64) -> Result<(&'static str, u64), Fail> {
    let shards = one_version(alloc, number, full_version(alloc)?)?;
    let store = MemStore::starting(alloc, BlobList::new(alloc), shards, FaultList::new(alloc))?;
    let mut writer = Writer::open(alloc, SHARD);
    let last = poll_on(alloc, &mut writer, &mut UntoldStore { store })?;
    Ok(word(last))
}

// No more than 256 members stand at once; that no number is left is told before.
#[test]
fn a_full_shard_takes_no_writer(rt: HostRuntime) -> Result<(), Fail> {
    let alloc = rt.alloc();
    assert_eq!(rt; open_at(alloc, 256)?, ("full", 256));
    assert_eq!(rt; open_at(alloc, u64::MAX)?, ("spent", 0));
    Ok(())
}
