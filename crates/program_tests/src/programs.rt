ghost use Rattle.std.specs.Prelude.{IfOk};
ghost use Rattle.std.specs.List.{AllByRecursion};
ghost use Rattle.store_core.specs.Starting.{CanStart, NoneTwice, same_shard, shards_of};

use crate::deaf_stores::DeafStore;
use causes::NumberList;
use feed_text::{Feed, FeedLine, MemSink, MemSource, RunReply, parse_feed, print_reply};
use persist_app::*;
use plain_run::PlainCollection;
use state_core::Transition;
use std::alloc::{AllocError, Global};
use std::test::Fail;
use store_core::{
    BlobList, Bytes, BytesList, Call, Entry, FaultAt, FaultList, MemStore, Reply, ShardId,
    ShardList, Store, Version,
};
use update_core::Frontier;
use version_codec::decode_version;

/// A list of numbers.
pub fn numbers(alloc: Global, items: &[u64]) -> Result<NumberList, AllocError> {
    let mut numbers = NumberList::new(alloc);
    for item in items {
        numbers.push(*item)?;
    }
    Ok(numbers)
}

/// The words of a line.
pub fn words_of(alloc: Global, text: &str) -> Result<Vec<String>, AllocError> {
    let mut words = Vec::new(alloc);
    for word in text.split_whitespace() {
        words.push(String::from_str(alloc, word)?)?;
    }
    Ok(words)
}

// What a call reads and writes, and where its reads and puts fail.
#[derive(Drop)]
pub struct Case<'a> {
    pub words: &'a str,
    pub feed: &'a [u8],
    pub reads: &'a [u64],
    pub puts: &'a [u64],
}

// What a call over a store gives back, and what was written.
pub fn ended<S: Store>(
    alloc: Global,
    case: &Case<'_>,
    store: S,
) -> Result<(Ended<S>, Vec<u8>), Fail>
where
    S: Drop,
{
    let words = words_of(alloc, case.words)?;
    let feed = case.feed.to_vec(alloc)?;
    let mut source = MemSource::new(feed, numbers(alloc, case.reads)?);
    let mut sink = MemSink::new(alloc, numbers(alloc, case.puts)?);
    let mut clock = FixedClock(7);
    let ended = persist_plain(alloc, &words, &mut source, &mut sink, store, &mut clock);
    Ok((ended, sink.taken().to_vec(alloc)?))
}

// The status over a store in memory, and what was written.
fn answer(alloc: Global, case: &Case<'_>) -> Result<(u8, Vec<u8>), Fail> {
    let store = MemStore::new(alloc, FaultList::new(alloc));
    let (ended, taken) = ended(alloc, case, store)?;
    Ok((ended.status, taken))
}

// What a plain collection, kept in one list, replies to a feed.
fn plain_replies(alloc: Global, feed: Feed) -> Result<Vec<u8>, Fail> {
    let mut collection = PlainCollection::new(alloc);
    let mut text = Vec::new(alloc);
    for line in feed.lines.into_items() {
        let reply = plain_reply(alloc, &mut collection, line)?;
        print_reply(&mut text, &reply)?;
    }
    Ok(text)
}

fn plain_reply(
    alloc: Global,
    collection: &mut PlainCollection,
    line: FeedLine,
) -> Result<RunReply, AllocError> {
    match line {
        FeedLine::Append(append) => collection.append(alloc, append),
        FeedLine::Snapshot { t } => collection.snapshot(alloc, t),
        FeedLine::Listen { t } => collection.listen(alloc, Frontier::after(t)),
        FeedLine::Since { to } => Ok(collection.advance(to)),
        FeedLine::Compact => Ok(RunReply::Accepted),
    }
}

// What it replies to the feed that a text spells, and nothing where it spells none.
fn plain_answer(alloc: Global, text: &[u8]) -> Result<Vec<u8>, Fail> {
    match parse_feed(alloc, text) {
        Ok(feed) => plain_replies(alloc, feed),
        Err(_) => Ok(Vec::new(alloc)),
    }
}

fn run<'a>(feed: &'a [u8]) -> Case<'a> {
    Case {
        words: "run",
        feed,
        reads: &[],
        puts: &[],
    }
}

#[test]
fn feeds_are_answered(rt: HostRuntime) -> Result<(), Fail> {
    let alloc = rt.alloc();
    for (name, feed, status, written) in [
        (
            "content at two times",
            b"append 0 10\n3 1 apple\n4 1 pear\n7 -1 apple\n.\nsnapshot 5\nsnapshot 7\n".as_slice(),
            0,
            b"ok\n1 apple\n1 pear\n.\n1 pear\n.\n".as_slice(),
        ),
        ("nothing", b"".as_slice(), 0, b"".as_slice()),
        (
            "an append without rows",
            b"append 0 5\n.\nsnapshot 4\n".as_slice(),
            0,
            b"ok\n.\n".as_slice(),
        ),
        (
            "past the upper",
            b"snapshot 0\n".as_slice(),
            0,
            b"late 0\n".as_slice(),
        ),
        (
            "mismatch, then empty",
            b"append 3 5\n.\nappend 5 5\n.\n".as_slice(),
            0,
            b"mismatch 0\nempty\n".as_slice(),
        ),
        (
            "out of range, then in range",
            b"append 0 10\n10 1 a\n.\nappend 0 10\n9 1 a\n.\nsnapshot 9\n".as_slice(),
            0,
            b"range 1\nok\n1 a\n.\n".as_slice(),
        ),
        (
            "too heavy",
            b"append 0 5\n1 4611686018427387904 a\n.\nappend 5 10\n6 1 b\n.\n".as_slice(),
            0,
            b"ok\nheavy 4611686018427387904\n".as_slice(),
        ),
        (
            "closed for good",
            b"append 0 closed\n18446744073709551615 1 z\n.\nsnapshot 18446744073709551615\nlisten 0\nlisten 18446744073709551615\nappend 0 closed\n.\n".as_slice(),
            0,
            b"ok\n1 z\n.\n18446744073709551615 1 z\nupto closed\nended\nmismatch closed\n".as_slice(),
        ),
        (
            "a difference of 0 is a row, and adds nothing",
            b"append 0 5\n1 0 a\n7 0 b\n.\nappend 0 5\n1 0 a\n.\nsnapshot 4".as_slice(),
            0,
            b"range 2\nok\n.\n".as_slice(),
        ),
        (
            "negative sums are kept, in byte order",
            b"append 0 5\n1 -2 b\n1 1 a b\n2 -1 B\n.\nsnapshot 4\n".as_slice(),
            0,
            b"ok\n-1 B\n1 a b\n-2 b\n.\n".as_slice(),
        ),
        (
            "a listen of a moved frontier",
            b"append 0 10\n3 1 apple\n4 1 pear\n7 -1 apple\n.\nlisten 3\nappend 10 15\n12 2 apple\n10 1 fig\n.\nlisten 9\nlisten 6\n".as_slice(),
            0,
            b"ok\n4 1 pear\n7 -1 apple\nupto 10\nok\n10 1 fig\n12 2 apple\nupto 15\n7 -1 apple\n10 1 fig\n12 2 apple\nupto 15\n".as_slice(),
        ),
        (
            "a listen with nothing past its frontier is quiet",
            b"listen 0\nappend 0 10\n3 1 a\n.\nlisten 9\nlisten 50\nlisten 8\n".as_slice(),
            0,
            b"quiet 0\nok\nquiet 10\nquiet 10\nupto 10\n".as_slice(),
        ),
        (
            "a listen after the last time is quiet, then ended, and never early",
            b"listen 18446744073709551615\nappend 0 5\n.\nsince 18446744073709551615\nlisten 18446744073709551615\nappend 5 closed\n6 1 a\n.\nlisten 18446744073709551615\nlisten 18446744073709551614\n".as_slice(),
            0,
            b"quiet 0\nok\nok\nquiet 5\nok\nended\nearly 18446744073709551615\n".as_slice(),
        ),
        (
            "early, and a step from the since on, up to closed",
            b"append 0 closed\n3 1 b\n3 1 a\n4 2 a\n5 -1 c\n.\nsince 4\nlisten 3\nlisten 2\nlisten 4\nsnapshot 3\nsnapshot 4\n".as_slice(),
            0,
            b"ok\nok\nearly 4\nearly 4\n5 -1 c\nupto closed\nearly 4\n3 a\n1 b\n.\n".as_slice(),
        ),
        (
            "a since that isn't below, and one that is",
            b"since 0\nsince 6\nsince 6\nsince 5\nsnapshot 5\nsnapshot 6\nsince 7\nsince 0\n".as_slice(),
            0,
            b"ok\nok\nok\nback 6\nearly 6\nlate 0\nok\nback 7\n".as_slice(),
        ),
        (
            "a compaction changes no reply",
            b"append 0 5\n3 1 apple\n4 1 pear\n.\nappend 5 10\n7 -1 apple\n.\nsince 5\nsnapshot 4\nsnapshot 5\ncompact\nsnapshot 5\nsnapshot 7\nsince 4\n".as_slice(),
            0,
            b"ok\nok\nok\nearly 5\n1 apple\n1 pear\n.\nok\n1 apple\n1 pear\n.\n1 pear\n.\nback 5\n".as_slice(),
        ),
        (
            "compactions of an empty shard, and one after the other",
            b"compact\ncompact\nappend 0 5\n3 1 apple\n.\ncompact\nlisten 2\n".as_slice(),
            0,
            b"ok\nok\nok\nok\n3 1 apple\nupto 5\n".as_slice(),
        ),
        (
            "updates of a step that cancel, over two appends",
            b"append 0 5\n1 1 a\n3 1 b\n.\nappend 5 9\n5 1 a\n5 -1 a\n6 1 c\n.\nlisten 0\n".as_slice(),
            0,
            b"ok\nok\n1 1 a\n3 1 b\n6 1 c\nupto 9\n".as_slice(),
        ),
        (
            "no command line",
            b"append 0 5\nx".as_slice(),
            3,
            b"line 2\n".as_slice(),
        ),
        (
            "a question mark",
            b"?".as_slice(),
            3,
            b"line 1\n".as_slice(),
        ),
        (
            "nothing is executed before a line at fault",
            b"append 0 5\n.\nsnapshot 4\nsnapshot 04\n".as_slice(),
            3,
            b"line 4\n".as_slice(),
        ),
    ] {
        let (ended, taken) = answer(alloc, &run(feed))?;
        assert_eq!(rt; ended, status, "{name}");
        assert_eq!(rt; taken.as_slice(), written, "{name}");
        if status == 0 {
            let plain = plain_answer(alloc, feed)?;
            assert_eq!(rt; plain.as_slice(), written, "{name}");
        }
    }
    Ok(())
}

#[test]
fn other_words_are_no_command(rt: HostRuntime) -> Result<(), Fail> {
    let alloc = rt.alloc();
    for words in [
        "",
        "run --fast",
        "run run",
        "run --",
        "run --shard",
        "run --shard=X",
        "run --shard=00000000000000000000000000000002 --shard=00000000000000000000000000000002",
        "help",
        "Run",
        "ru",
        "ingest",
        "gen 0 1",
        "steps help",
        "steps --",
        "steps --shard=X",
        "steps --shard=00000000000000000000000000000002 --shard=00000000000000000000000000000002",
        "reclock --operators 1",
        "--",
    ] {
        let case = Case {
            words,
            ..run(b"snapshot 0\n")
        };
        let (ended, taken) = answer(alloc, &case)?;
        assert_eq!(rt; ended, 2, "{words}");
        assert_eq!(rt; taken.as_slice(), b"words\n".as_slice(), "{words}");
    }
    Ok(())
}

// Each shard is a collection of its own, however its name is spelled.
#[test]
fn a_shard_is_named_by_the_words(rt: HostRuntime) -> Result<(), Fail> {
    let alloc = rt.alloc();
    let mut store = MemStore::new(alloc, FaultList::new(alloc));
    for (words, written) in [
        ("run", b"ok\n1 a\n.\n".as_slice()),
        (
            "run --shard 0000000000000000000000000000000a",
            b"ok\n1 a\n.\n".as_slice(),
        ),
        (
            "run --shard=00000000-0000-0000-0000-00000000000A",
            b"mismatch 10\n1 a\n.\n".as_slice(),
        ),
        (
            "run --shard={00000000-0000-0000-0000-000000000001}",
            b"mismatch 10\n1 a\n.\n".as_slice(),
        ),
        (
            "run --shard urn:uuid:00000000-0000-0000-0000-000000000001",
            b"mismatch 10\n1 a\n.\n".as_slice(),
        ),
    ] {
        let case = Case {
            words,
            ..run(b"append 0 10\n3 1 a\n.\nsnapshot 9\n")
        };
        let (ended, taken) = ended(alloc, &case, store)?;
        assert_eq!(rt; ended.status, 0, "{words}");
        assert_eq!(rt; taken.as_slice(), written, "{words}");
        store = ended.store;
    }
    Ok(())
}

#[test]
fn faults_of_the_outside_are_told(rt: HostRuntime) -> Result<(), Fail> {
    let alloc = rt.alloc();
    let feed = b"append 0 5\n.\nsnapshot 4\n".as_slice();
    for (reads, puts, status, written) in [
        (
            [0].as_slice(),
            [].as_slice(),
            4,
            b"input failed\n".as_slice(),
        ),
        (
            [1].as_slice(),
            [].as_slice(),
            4,
            b"input failed\n".as_slice(),
        ),
        ([2].as_slice(), [].as_slice(), 0, b"ok\n.\n".as_slice()),
        ([].as_slice(), [0].as_slice(), 5, b"".as_slice()),
        ([].as_slice(), [1].as_slice(), 5, b"ok\n".as_slice()),
        ([].as_slice(), [2].as_slice(), 0, b"ok\n.\n".as_slice()),
        ([0].as_slice(), [0].as_slice(), 5, b"".as_slice()),
    ] {
        let case = Case {
            words: "run",
            feed,
            reads,
            puts,
        };
        let (ended, taken) = answer(alloc, &case)?;
        assert_eq!(rt; ended, status, "{reads:?} {puts:?}");
        assert_eq!(rt; taken.as_slice(), written, "{reads:?} {puts:?}");
    }
    Ok(())
}

// A version's transition, and how many members stand after it.
fn version_line(alloc: Global, version: &Version) -> Result<String, Fail> {
    let line = match decode_version(alloc, ShardId(1), version.number, version.bytes.as_slice()) {
        Ok((state, step)) => {
            let standing = state.members().len();
            let word = step_word(alloc, &step)?;
            format!(in alloc; "{word}, {standing} stand; ")?
        }
        Err(_) => format!(in alloc; "no version; ")?,
    };
    Ok(line)
}

fn step_word(alloc: Global, step: &Transition) -> Result<String, Fail> {
    let word = match step {
        Transition::Init => format!(in alloc; "init")?,
        Transition::Join { now, lease, .. } => format!(in alloc; "join at {now} for {lease}")?,
        Transition::Leave { member } => format!(in alloc; "leave {member}")?,
        _ => format!(in alloc; "another")?,
    };
    Ok(word)
}

// A run's reader joins at the clock's moment with its lease, and at the end the writer leaves, and then the reader.
#[test]
fn both_clients_leave(rt: HostRuntime) -> Result<(), Fail> {
    let alloc = rt.alloc();
    let store = MemStore::new(alloc, FaultList::new(alloc));
    let (ended, _) = ended(alloc, &run(b""), store)?;
    let mut store = ended.store;
    let scan = Call::Scan {
        shard: ShardId(1),
        from: 0,
    };
    let mut text = String::new(alloc);
    if let Reply::Versions(versions) = store.call(9, &scan)? {
        for version in versions.as_slice() {
            let line = version_line(alloc, version)?;
            text.push_str(&line)?;
        }
    }
    assert_eq!(rt;
        text.as_str(),
        "init, 0 stand; join at 0 for 0, 1 stand; join at 7 for 1000000, 2 stand; leave 0, 1 stand; leave 1, 0 stand; "
    );
    Ok(())
}

#[test]
fn a_run_goes_on_from_the_store(rt: HostRuntime) -> Result<(), Fail> {
    let alloc = rt.alloc();
    let store = MemStore::new(alloc, FaultList::new(alloc));
    let (first, _) = ended(
        alloc,
        &run(b"append 0 10\n3 1 apple\n4 1 pear\n.\nsince 4\n"),
        store,
    )?;
    assert_eq!(rt; first.status, 0);
    let (second, taken) = ended(
        alloc,
        &run(
            b"append 0 10\n3 1 a\n.\nappend 10 20\n11 1 fig\n.\nsnapshot 3\nsnapshot 15\nsince 3\n",
        ),
        first.store,
    )?;
    assert_eq!(rt; second.status, 0);
    assert_eq!(rt;
        taken.as_slice(),
        b"mismatch 10\nok\nearly 4\n1 apple\n1 fig\n1 pear\n.\nback 4\n".as_slice()
    );
    Ok(())
}

// The store after a run of a feed whose first put failed, so that its writer and its reader still stand.
fn with_members(alloc: Global, feed: &[u8], store: MemStore) -> Result<MemStore, Fail> {
    let case = Case {
        puts: &[0],
        ..run(feed)
    };
    let (ended, _) = ended(alloc, &case, store)?;
    Ok(ended.store)
}

#[test]
fn the_least_since_of_the_readers_counts(rt: HostRuntime) -> Result<(), Fail> {
    let alloc = rt.alloc();
    let feed =
        b"append 0 10\n1 1 a\n3 1 b\n.\nsince 5\nsnapshot 1\nsnapshot 3\nsince 4\n".as_slice();
    let store = MemStore::new(alloc, FaultList::new(alloc));
    let store = with_members(alloc, b"since 2\n", store)?;
    let (ended, taken) = ended(alloc, &run(feed), store)?;
    assert_eq!(rt; ended.status, 0);
    assert_eq!(rt;
        taken.as_slice(),
        b"ok\nok\nearly 2\n1 a\n1 b\n.\nback 5\n".as_slice()
    );
    Ok(())
}

#[test]
fn a_full_shard_lets_nobody_in(rt: HostRuntime) -> Result<(), Fail> {
    let alloc = rt.alloc();
    let mut store = MemStore::new(alloc, FaultList::new(alloc));
    for _ in 0..128 {
        store = with_members(alloc, b"snapshot 0\n", store)?;
    }
    let (ended, taken) = ended(alloc, &run(b"snapshot 0\n"), store)?;
    assert_eq!(rt; ended.status, 10);
    assert_eq!(rt; taken.as_slice(), b"members full\n".as_slice());
    Ok(())
}

// The bytes of the last version that a trail makes, or none.
fn last_version(alloc: Global, trail: &[Entry]) -> Result<Bytes, AllocError> {
    let mut found = Bytes::of(alloc, Vec::new(alloc))?;
    for entry in trail {
        if let Call::Cas { bytes, .. } = &entry.call {
            found = bytes.copy()?;
        }
    }
    Ok(found)
}

// Shard 1 with this one version.
fn one_version(alloc: Global, number: u64, bytes: Bytes) -> Result<ShardList, AllocError>
    ensures shards { IfOk result (λ shards. NoneTwice same_shard (shards_of shards)) }
    ensures versions { IfOk result (λ shards. AllByRecursion CanStart shards) }
{
    let mut versions = BytesList::new(alloc);
    versions.push(bytes)?;
    let mut shards = ShardList::new(alloc);
    shards.push((ShardId(1), number, versions))?;
    Ok(shards)
}

#[test]
fn after_the_last_version_nothing_is_done(rt: HostRuntime) -> Result<(), Fail> {
    let alloc = rt.alloc();
    let store = MemStore::new(alloc, FaultList::new(alloc));
    let (first, _) = ended(alloc, &run(b""), store)?;
    let shards = one_version(alloc, u64::MAX, last_version(alloc, first.store.trail())?)?;
    let store = MemStore::starting(alloc, BlobList::new(alloc), shards, FaultList::new(alloc))?;
    let (ended, taken) = ended(alloc, &run(b"snapshot 0\n"), store)?;
    assert_eq!(rt; ended.status, 11);
    assert_eq!(rt; taken.as_slice(), b"spent\n".as_slice());
    Ok(())
}

#[test]
fn a_version_that_cannot_be_read_is_damage(rt: HostRuntime) -> Result<(), Fail> {
    let alloc = rt.alloc();
    let bytes = Bytes::of(alloc, b"\0".to_vec(alloc)?)?;
    let shards = one_version(alloc, 0, bytes)?;
    let store = MemStore::starting(alloc, BlobList::new(alloc), shards, FaultList::new(alloc))?;
    let (ended, taken) = ended(alloc, &run(b"snapshot 0\n"), store)?;
    assert_eq!(rt; ended.status, 9);
    assert_eq!(rt; taken.as_slice(), b"damaged\n".as_slice());
    Ok(())
}

// How many calls a run of this feed makes.
fn calls_of(alloc: Global, feed: &[u8]) -> Result<usize, Fail> {
    let store = MemStore::new(alloc, FaultList::new(alloc));
    let (ended, _) = ended(alloc, &run(feed), store)?;
    Ok(ended.store.trail().len())
}

#[test]
fn calls_are_counted(rt: HostRuntime) -> Result<(), Fail> {
    let alloc = rt.alloc();
    let mut long = b"append 0 5\n.\nappend 5 9\n".to_vec(alloc)?;
    for number in 0..4097 {
        let row = format!(in alloc; "6 1 d{number}\n")?;
        long.extend_from_slice(row.as_bytes())?;
    }
    long.extend_from_slice(b".\n")?;
    let nothing = calls_of(alloc, b"")?;
    let first = calls_of(alloc, b"append 0 5\n.\n")?;
    let two_parts = calls_of(alloc, &long)?;
    let read = calls_of(
        alloc,
        b"append 0 5\n.\nappend 5 9\n6 1 a\n.\nsnapshot 8\nsnapshot 4\nlisten 4\n",
    )?;
    let one_part = calls_of(alloc, b"append 0 5\n.\nappend 5 9\n6 1 a\n.\n")?;
    // One Cas for each part and one for the append.
    assert_eq!(rt; two_parts.saturating_sub(first), 3);
    assert_eq!(rt; one_part.saturating_sub(first), 2);
    // A Scan and a Get, a Scan alone, a Scan and a Get; the reader has then seen what it would have looked for when it leaves.
    assert!(rt; nothing < first);
    let reading = read.saturating_sub(one_part);
    assert!(rt; reading == 5 || reading == 6);
    Ok(())
}

#[test]
fn a_failed_store_call_ends_a_run(rt: HostRuntime) -> Result<(), Fail> {
    let alloc = rt.alloc();
    let feed = b"append 0 5\n2 1 a\n.\nsnapshot 4\n".as_slice();
    let calls = calls_of(alloc, feed)? as u64;
    for number in 0..calls.saturating_add(1) {
        for took in [true, false] {
            let mut faults = FaultList::new(alloc);
            faults.push(FaultAt { number, took })?;
            let store = MemStore::new(alloc, faults);
            let (ended, taken) = ended(alloc, &run(feed), store)?;
            let status = if number < calls { 6 } else { 0 };
            assert_eq!(rt; ended.status, status, "{number} {took}");
            assert!(rt;
                ended.store.trail().len() as u64 == calls.min(number.saturating_add(1)),
                "{number} {took}"
            );
            if number == 0 {
                assert_eq!(rt; taken.as_slice(), b"store failed\n".as_slice(), "{took}");
            }
        }
    }
    Ok(())
}

#[test]
fn what_a_store_brings_is_told_or_damaged(rt: HostRuntime) -> Result<(), Fail> {
    let alloc = rt.alloc();
    let feed = b"append 0 5\n2 1 a\n.\nsnapshot 4\n".as_slice();
    // The part of a row (b, 3, 1), as it is written down in docs/DEFINITIONS.md for (a, 3, 1).
    let other = b"PART\x01\0\0\0\x01\x01b\0\0\0\0\0\0\0\x03\0\0\0\0\0\0\0\x01".as_slice();
    let heavy = b"PART\x01\0\0\0\x01\x01b\0\0\0\0\0\0\0\x03\x40\0\0\0\0\0\0\x01".as_slice();
    for (name, bytes, status, written) in [
        ("nothing", None, 9, b"ok\ndamaged\n".as_slice()),
        (
            "no part",
            Some(b"PART".as_slice()),
            9,
            b"ok\ndamaged\n".as_slice(),
        ),
        ("another part", Some(other), 0, b"ok\n1 b\n.\n".as_slice()),
        (
            "too heavy a part",
            Some(heavy),
            9,
            b"ok\ndamaged\n".as_slice(),
        ),
    ] {
        let bytes = match bytes {
            Some(bytes) => Some(Bytes::of(alloc, bytes.to_vec(alloc)?)?),
            None => None,
        };
        let store = MemStore::new(alloc, FaultList::new(alloc));
        let (ended, taken) = ended(alloc, &run(feed), DeafStore { store, bytes })?;
        assert_eq!(rt; ended.status, status, "{name}");
        assert_eq!(rt; taken.as_slice(), written, "{name}");
    }
    Ok(())
}

// The next number of a linear congruential generator.
fn drawn(state: u32) -> u32 {
    state.wrapping_mul(1_664_525).wrapping_add(1_013_904_223)
}

// A feed of so many commands, drawn from a fixed start.
fn drawn_feed(alloc: Global, count: u32) -> Result<Vec<u8>, Fail> {
    let mut text = Vec::new(alloc);
    let mut state = 7;
    let mut upper = 0_u32;
    for _ in 0..count {
        state = drawn(state);
        let time = (state >> 16) % 64;
        let line = match (state >> 24) % 8 {
            0 => format!(in alloc; "snapshot {time}\n")?,
            1 => format!(in alloc; "listen {time}\n")?,
            2 => format!(in alloc; "since {}\n", time / 4)?,
            3 => format!(in alloc; "append {time} {}\n{time} 1 a\n.\n", time % 50)?,
            _ => {
                let lower = upper % 1_000_000;
                upper = lower + 1 + time % 3;
                let letter = time % 7;
                format!(in alloc;
                    "append {lower} {upper}\n{lower} {} d{letter}\n{lower} -1 e{letter}\n.\n",
                    time % 5
                )?
            }
        };
        text.extend_from_slice(line.as_bytes())?;
    }
    Ok(text)
}

#[test]
fn a_long_run_replies_as_the_plain_collection(rt: HostRuntime) -> Result<(), Fail> {
    let alloc = rt.alloc();
    let feed = drawn_feed(alloc, 300)?;
    let (ended, taken) = answer(alloc, &run(&feed))?;
    let plain = plain_answer(alloc, &feed)?;
    assert_eq!(rt; ended, 0);
    assert_eq!(rt; taken.as_slice(), plain.as_slice());
    assert!(rt; taken.len() > 3000);
    Ok(())
}

#[test]
fn a_system_clock_goes_on(rt: HostRuntime) {
    let mut clock = SystemClock::new(&rt);
    let first = clock.now();
    assert!(rt; first > 1_500_000_000_000);
    assert!(rt; clock.now() >= first);
}

// The batches of the last version in a store's shard 1.
fn last_batches(alloc: Global, store: &mut MemStore) -> Result<usize, Fail> {
    let head = Call::Head { shard: ShardId(1) };
    if let Reply::Version(Some(version)) = store.call(9, &head)? {
        let bytes = version.bytes.as_slice();
        if let Ok((state, _)) = decode_version(alloc, ShardId(1), version.number, bytes) {
            return Ok(state.spine().batches().len());
        }
    }
    Ok(0)
}

// 200 appends of one row each, the content at their end, a compaction, and the content again.
fn many_appends(alloc: Global) -> Result<Vec<u8>, Fail> {
    let mut text = Vec::new(alloc);
    for number in 0..200 {
        let next = number + 1;
        let lines = format!(in alloc; "append {number} {next}\n{number} 1 d{number}\n.\n")?;
        text.extend_from_slice(lines.as_bytes())?;
    }
    text.extend_from_slice(b"snapshot 199\ncompact\nsnapshot 199\n")?;
    Ok(text)
}

#[test]
fn a_compaction_leaves_few_batches(rt: HostRuntime) -> Result<(), Fail> {
    let alloc = rt.alloc();
    let feed = many_appends(alloc)?;
    let store = MemStore::new(alloc, FaultList::new(alloc));
    let (mut ended, taken) = ended(alloc, &run(&feed), store)?;
    assert_eq!(rt; ended.status, 0);
    let plain = plain_answer(alloc, &feed)?;
    assert_eq!(rt; taken.as_slice(), plain.as_slice());
    let batches = last_batches(alloc, &mut ended.store)?;
    assert!(rt; batches >= 1 && batches <= 64);
    Ok(())
}
