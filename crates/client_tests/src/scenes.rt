// A scene: a store, and what clients at it do, told as text.
ghost use Rattle.read_client.specs.Reading.{IsSound as IsSoundReader};
ghost use Rattle.std.specs.Prelude.{IfOk};
ghost use Rattle.write_client.specs.Writing.{IsSound as IsSoundWriter};

use super::*;
use read_client::{Poll, ReadAnswer, Reader};
use std::alloc::Global;
use std::test::Fail;
use store_core::{Call, Entry, FaultAt, FaultList, MemStore, Outcome, ShardId};
use test_stores::UntoldStore;
use update_core::{Datum, Frontier, Update, UpdateList};
use write_client::{WriteAnswer, Writer};

pub const SHARD: ShardId = ShardId(1);

/// An empty store that fails these calls, each with or without effect.
pub fn store_failing(alloc: Global, faults: &[(u64, bool)]) -> Result<UntoldStore, Fail> {
    let mut list = FaultList::new(alloc);
    for (number, took) in faults {
        list.push(FaultAt {
            number: *number,
            took: *took,
        })?;
    }
    Ok(UntoldStore {
        store: MemStore::new(alloc, list),
    })
}

/// One row.
pub fn row(alloc: Global, datum: &[u8], time: u64, diff: i64) -> Result<UpdateList, Fail> {
    let mut rows = UpdateList::new(alloc);
    rows.push(Update {
        datum: Datum::of(alloc, datum)?,
        time,
        diff,
    })?;
    Ok(rows)
}

fn frontier_word(alloc: Global, frontier: Frontier) -> Result<String, Fail> {
    let word = match frontier.time() {
        Some(t) => format!(in alloc; "{t}")?,
        None => format!(in alloc; "closed")?,
    };
    Ok(word)
}

fn number_word(alloc: Global, number: Option<u64>) -> Result<String, Fail> {
    let word = match number {
        Some(n) => format!(in alloc; "{n}")?,
        None => format!(in alloc; "none")?,
    };
    Ok(word)
}

/// What a writer's poll came to.
pub fn write_word(alloc: Global, poll: Option<Poll<WriteAnswer>>) -> Result<String, Fail> {
    let word = match poll {
        None => format!(in alloc; "idle")?,
        Some(Poll::Busy) => format!(in alloc; "busy")?,
        Some(Poll::More) => format!(in alloc; "more")?,
        Some(Poll::Fault) => format!(in alloc; "fault")?,
        Some(Poll::Damaged(_)) => format!(in alloc; "damaged")?,
        Some(Poll::Spent) => format!(in alloc; "spent")?,
        Some(Poll::Done(answer)) => write_answer_word(alloc, answer)?,
    };
    Ok(word)
}

fn write_answer_word(alloc: Global, answer: WriteAnswer) -> Result<String, Fail> {
    let word = match answer {
        WriteAnswer::Opened { member, version } => format!(in alloc; "opened {member} {version}")?,
        WriteAnswer::MembersFull { version } => format!(in alloc; "full {version}")?,
        WriteAnswer::Ok => format!(in alloc; "ok")?,
        WriteAnswer::Mismatch { current } => {
            let upper = frontier_word(alloc, current)?;
            format!(in alloc; "mismatch {upper}")?
        }
        WriteAnswer::Heavy { weight } => format!(in alloc; "heavy {weight}")?,
        WriteAnswer::Closed { version } => format!(in alloc; "closed {version}")?,
    };
    Ok(word)
}

/// What a reader's poll came to.
pub fn read_word(alloc: Global, poll: Option<Poll<ReadAnswer>>) -> Result<String, Fail> {
    let word = match poll {
        None => format!(in alloc; "idle")?,
        Some(Poll::Busy) => format!(in alloc; "busy")?,
        Some(Poll::More) => format!(in alloc; "more")?,
        Some(Poll::Fault) => format!(in alloc; "fault")?,
        Some(Poll::Damaged(_)) => format!(in alloc; "damaged")?,
        Some(Poll::Spent) => format!(in alloc; "spent")?,
        Some(Poll::Done(answer)) => read_answer_word(alloc, answer)?,
    };
    Ok(word)
}

fn read_answer_word(alloc: Global, answer: ReadAnswer) -> Result<String, Fail> {
    let word = match answer {
        ReadAnswer::Opened {
            member,
            version,
            since,
        } => format!(in alloc; "opened {member} {version} {since}")?,
        ReadAnswer::MembersFull { version } => format!(in alloc; "full {version}")?,
        ReadAnswer::Rows(rows) => {
            let count = rows.as_slice().len();
            format!(in alloc; "rows {count}")?
        }
        ReadAnswer::Early { since } => format!(in alloc; "early {since}")?,
        ReadAnswer::Late { upper } => {
            let upper = frontier_word(alloc, upper)?;
            format!(in alloc; "late {upper}")?
        }
        ReadAnswer::Step { from, to, rows } => {
            let from = frontier_word(alloc, from)?;
            let to = frontier_word(alloc, to)?;
            let count = rows.as_slice().len();
            format!(in alloc; "step {from} {to} rows {count}")?
        }
        ReadAnswer::Quiet { upper } => {
            let upper = frontier_word(alloc, upper)?;
            format!(in alloc; "quiet {upper}")?
        }
        ReadAnswer::Ended => format!(in alloc; "ended")?,
        ReadAnswer::Advanced { version } => format!(in alloc; "advanced {version}")?,
        ReadAnswer::Back { since } => format!(in alloc; "back {since}")?,
        ReadAnswer::Renewed { version } => format!(in alloc; "renewed {version}")?,
        ReadAnswer::Closed { version } => format!(in alloc; "closed {version}")?,
        ReadAnswer::Expired { version } => format!(in alloc; "expired {version}")?,
    };
    Ok(word)
}

fn call_word(alloc: Global, call: &Call) -> Result<String, Fail> {
    let word = match call {
        Call::Head { .. } => format!(in alloc; "head")?,
        Call::Scan { from, .. } => format!(in alloc; "scan {from}")?,
        Call::Cas { expected, .. } => {
            let number = number_word(alloc, *expected)?;
            format!(in alloc; "cas {number}")?
        }
        Call::Truncate { below, .. } => format!(in alloc; "truncate {below}")?,
        Call::Get { key } => {
            let (member, token, index) = (key.member, key.token, key.index);
            format!(in alloc; "get {member} {token} {index}")?
        }
        Call::Set { key, .. } => {
            let (member, token, index) = (key.member, key.token, key.index);
            format!(in alloc; "set {member} {token} {index}")?
        }
        Call::Delete { .. } => format!(in alloc; "delete")?,
    };
    Ok(word)
}

/// The calls of a trail from a place on: each client's number with its call, and whether it failed.
pub fn calls_from(alloc: Global, trail: &[Entry], place: usize) -> Result<String, Fail> {
    let mut text = String::new(alloc);
    for entry in trail.iter().skip(place) {
        let client = entry.client;
        let call = call_word(alloc, &entry.call)?;
        let end = match entry.outcome {
            Outcome::Took => "; ",
            Outcome::FailedTook => " took; ",
            Outcome::FailedLost => " lost; ",
        };
        let line = format!(in alloc; "{client} {call}{end}")?;
        text.push_str(&line)?;
    }
    Ok(text)
}

/// A writer that has been polled until its open ended.
pub fn opened_writer(alloc: Global, store: &mut UntoldStore, client: u64) -> Result<Writer, Fail>
    ensures { IfOk result IsSoundWriter }
{
    let mut writer = Writer::open(alloc, SHARD);
    write_on(alloc, &mut writer, store, client, 9)?;
    Ok(writer)
}

/// A reader that has been polled until its open ended.
pub fn opened_reader(alloc: Global, store: &mut UntoldStore, client: u64) -> Result<Reader, Fail>
    ensures { IfOk result IsSoundReader }
{
    let mut reader = Reader::open(alloc, SHARD, 0, 100);
    read_on(alloc, &mut reader, store, client, 9)?;
    Ok(reader)
}

/// Polls the writer's open command to its end, and adds what each row of polls came to.
pub fn write_out(
    alloc: Global,
    writer: &mut Writer,
    store: &mut UntoldStore,
    text: &mut String,
) -> Result<(), Fail>
    requires { IsSoundWriter writer.old }
    ensures { IsSoundWriter writer.new }
{
    for _ in 0..9 {
        let poll = write_on(alloc, writer, store, 0, 9)?;
        let word = write_word(alloc, poll)?;
        text.push_str(&word)?;
        text.push_str("; ")?;
        if !writer.busy() {
            break;
        }
    }
    Ok(())
}

/// The same of a reader.
pub fn read_out(
    alloc: Global,
    reader: &mut Reader,
    store: &mut UntoldStore,
    text: &mut String,
) -> Result<(), Fail>
    requires { IsSoundReader reader.old }
    ensures { IsSoundReader reader.new }
{
    for _ in 0..9 {
        let poll = read_on(alloc, reader, store, 1, 9)?;
        let word = read_word(alloc, poll)?;
        text.push_str(&word)?;
        text.push_str("; ")?;
        if !reader.busy() {
            break;
        }
    }
    Ok(())
}
