// What readers and writers of their own make of the shards of operators.
ghost use Rattle.std.specs.Prelude.{IfOk};
ghost use Rattle.read_client.specs.Reading.{IsSound as IsSoundReader};

use crate::answers::Word;
use crate::scenes::{DATA, REMAP, joined, mint, store_failing, sync};
use client_tests::{read_on, write_on};
use read_client::{Poll, ReadAnswer, Reader};
use std::alloc::Global;
use std::test::Fail;
use store_core::ShardId;
use test_stores::UntoldStore;
use update_core::{Datum, Frontier, Update, UpdateList};
use write_client::Writer;

// A reader of a shard.
fn reader_of(alloc: Global, store: &mut UntoldStore, shard: ShardId) -> Result<Reader, Fail>
    ensures { IfOk result IsSoundReader }
{
    let mut reader = Reader::open(alloc, shard, 0, 1_000);
    read_on(alloc, &mut reader, store, 8, 9)?;
    Ok(reader)
}

fn step_rows(alloc: Global, poll: Option<Poll<ReadAnswer>>) -> UpdateList {
    match poll {
        Some(Poll::Done(answer)) => match answer {
            ReadAnswer::Step { rows, .. } => rows,
            _ => UpdateList::new(alloc),
        },
        _ => UpdateList::new(alloc),
    }
}

/// The data shard's rows after 0.
pub fn data_rows(alloc: Global, store: &mut UntoldStore) -> Result<UpdateList, Fail> {
    let mut reader = reader_of(alloc, store, DATA)?;
    reader.begin_listen(0)?;
    let poll = read_on(alloc, &mut reader, store, 8, 20)?;
    Ok(step_rows(alloc, poll))
}

// The remap shard's since moves to 50.
fn move_since(alloc: Global, store: &mut UntoldStore) -> Result<(), Fail> {
    let mut reader = reader_of(alloc, store, REMAP)?;
    reader.begin_advance(50)?;
    read_on(alloc, &mut reader, store, 8, 9)?;
    Ok(())
}

// What a sync and a mint of an operator come to whose remap shard has this since and no rows, and then both again.
fn words_past_since(
    alloc: Global,
    store: &mut UntoldStore,
) -> Result<(Word, Word, Word, Word), Fail> {
    move_since(alloc, store)?;
    let (mut one, _) = joined(alloc, store, 0)?;
    let empty = sync(alloc, &mut one, store, 0)?;
    let first = mint(alloc, &mut one, store, 0, 10, &[(0, 3)])?;
    let early = sync(alloc, &mut one, store, 0)?;
    let second = mint(alloc, &mut one, store, 0, 20, &[(0, 5)])?;
    Ok((empty, first, early, second))
}

// What is below the since isn't known any more, so that it is too early to read. Where the upper is 0 there is nothing below.
#[test]
fn a_since_past_the_upper_is_early(rt: HostRuntime) -> Result<(), Fail> {
    let alloc = rt.alloc();
    let mut store = store_failing(alloc, None)?;
    let (empty, first, early, second) = words_past_since(alloc, &mut store)?;
    assert_eq!(rt; empty, ("synced", 0));
    assert_eq!(rt; first, ("minted", 10));
    assert_eq!(rt; early, ("early", 50));
    assert_eq!(rt; second, ("early", 50));
    Ok(())
}

// A writer appends a row that raises no partition to the remap shard.
fn spoil(alloc: Global, store: &mut UntoldStore) -> Result<(), Fail> {
    let mut writer = Writer::open(alloc, REMAP);
    write_on(alloc, &mut writer, store, 9, 9)?;
    let mut rows = UpdateList::new(alloc);
    rows.push(Update {
        datum: Datum::of(alloc, &[7, 7])?,
        time: 12,
        diff: 1,
    })?;
    writer.begin_append(alloc, rows, 11, Frontier::at(13))?;
    write_on(alloc, &mut writer, store, 9, 9)?;
    Ok(())
}

// What a sync and a mint come to after such a row.
fn words_past_foreign(alloc: Global, store: &mut UntoldStore) -> Result<(Word, Word, Word), Fail> {
    let (mut one, _) = joined(alloc, store, 0)?;
    let first = mint(alloc, &mut one, store, 0, 10, &[(0, 3)])?;
    spoil(alloc, store)?;
    let read = sync(alloc, &mut one, store, 0)?;
    let second = mint(alloc, &mut one, store, 0, 20, &[(0, 5)])?;
    Ok((first, read, second))
}

#[test]
fn a_foreign_row_is_told(rt: HostRuntime) -> Result<(), Fail> {
    let alloc = rt.alloc();
    let mut store = store_failing(alloc, None)?;
    let (first, read, second) = words_past_foreign(alloc, &mut store)?;
    assert_eq!(rt; first, ("minted", 10));
    assert_eq!(rt; read, ("foreign", 12));
    assert_eq!(rt; second, ("foreign", 12));
    Ok(())
}
