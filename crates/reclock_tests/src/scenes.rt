// Operators at one store, each of whose commands is polled to its end.
ghost use Rattle.std.specs.Prelude.{IfOk};
ghost use Rattle.reclock_client.specs.Operators.{IsSound};
ghost use Rattle.reclock_client.specs.Asking.{InTurn};

use crate::answers::{Word, poll_word};
use reclock_client::Operator;
use remap_core::{SourceFrontier, SourceList, SourceRow};
use std::alloc::{AllocError, Global};
use std::test::Fail;
use store_core::{DirectPort, FaultAt, FaultList, MemStore, ShardId};
use test_stores::UntoldStore;
use update_core::Datum;

pub const REMAP: ShardId = ShardId(2);

pub const DATA: ShardId = ShardId(3);

/// An empty store that fails this call, with or without effect.
pub fn store_failing(alloc: Global, fault: Option<(u64, bool)>) -> Result<UntoldStore, Fail> {
    let mut faults = FaultList::new(alloc);
    if let Some((number, took)) = fault {
        faults.push(FaultAt { number, took })?;
    }
    let store = MemStore::new(alloc, faults);
    Ok(UntoldStore { store })
}

/// The offsets that a source has reached.
pub fn seen(offsets: &[(u8, u64)]) -> Result<SourceFrontier, Fail> {
    let mut frontier = SourceFrontier::new();
    for pair in offsets {
        let (partition, next) = *pair;
        frontier.set(partition, next)?;
    }
    Ok(frontier)
}

/// Four rows of two partitions.
pub fn source(alloc: Global) -> Result<SourceList, Fail> {
    let mut rows = SourceList::new(alloc);
    for (partition, offset, byte) in [(0, 2, b'a'), (0, 3, b'b'), (1, 0, b'c'), (1, 2, b'd')] {
        rows.push(SourceRow {
            partition,
            offset,
            datum: Datum::of(alloc, &[byte])?,
            diff: 1,
        })?;
    }
    Ok(rows)
}

// Polls the open command once. What it ended with, if it did.
fn poll_once(
    alloc: Global,
    operator: &mut Operator,
    store: &mut UntoldStore,
    client: u64,
) -> Result<Option<Word>, AllocError>
    requires sound { IsSound operator.old }
    requires turn { InTurn operator.old }
    ensures sound { IsSound operator.new }
    ensures turn { InTurn operator.new }
{
    if !operator.busy() {
        return Ok(None);
    }
    let poll = operator.poll(alloc, &mut DirectPort::new(store, client))?;
    Ok(poll_word(&poll))
}

// Polls the open command until it ends.
fn done(
    alloc: Global,
    operator: &mut Operator,
    store: &mut UntoldStore,
    client: u64,
) -> Result<Word, AllocError>
    requires sound { IsSound operator.old }
    requires turn { InTurn operator.old }
    ensures sound { IsSound operator.new }
    ensures turn { InTurn operator.new }
{
    for _ in 0..200 {
        if let Some(word) = poll_once(alloc, operator, store, client)? {
            return Ok(word);
        }
    }
    Ok(("idle", 0))
}

/// An operator at the store, and what its open came to.
pub fn joined(
    alloc: Global,
    store: &mut UntoldStore,
    client: u64,
) -> Result<(Operator, Word), AllocError>
    ensures sound { IfOk result (λ o. IsSound o.0) }
    ensures turn { IfOk result (λ o. InTurn o.0) }
{
    let mut operator = Operator::open(alloc, REMAP, DATA, 0, 1_000);
    let word = done(alloc, &mut operator, store, client)?;
    Ok((operator, word))
}

/// What a mint comes to.
pub fn mint(
    alloc: Global,
    operator: &mut Operator,
    store: &mut UntoldStore,
    client: u64,
    time: u64,
    offsets: &[(u8, u64)],
) -> Result<Word, Fail>
    requires sound { IsSound operator.old }
    requires turn { InTurn operator.old }
    ensures sound { IsSound operator.new }
    ensures turn { InTurn operator.new }
{
    operator.begin_mint(time, &seen(offsets)?)?;
    let word = done(alloc, operator, store, client)?;
    Ok(word)
}

/// What a sync comes to.
pub fn sync(
    alloc: Global,
    operator: &mut Operator,
    store: &mut UntoldStore,
    client: u64,
) -> Result<Word, Fail>
    requires sound { IsSound operator.old }
    requires turn { InTurn operator.old }
    ensures sound { IsSound operator.new }
    ensures turn { InTurn operator.new }
{
    operator.begin_sync()?;
    let word = done(alloc, operator, store, client)?;
    Ok(word)
}

/// What a publish of the source's rows comes to.
pub fn publish(
    alloc: Global,
    operator: &mut Operator,
    store: &mut UntoldStore,
    client: u64,
) -> Result<Word, Fail>
    requires sound { IsSound operator.old }
    requires turn { InTurn operator.old }
    ensures sound { IsSound operator.new }
    ensures turn { InTurn operator.new }
{
    operator.begin_publish(alloc, &source(alloc)?)?;
    let word = done(alloc, operator, store, client)?;
    Ok(word)
}

/// What a close comes to.
pub fn close(
    alloc: Global,
    operator: &mut Operator,
    store: &mut UntoldStore,
    client: u64,
) -> Result<Word, Fail>
    requires sound { IsSound operator.old }
    requires turn { InTurn operator.old }
    ensures sound { IsSound operator.new }
    ensures turn { InTurn operator.new }
{
    operator.begin_close()?;
    let word = done(alloc, operator, store, client)?;
    Ok(word)
}
