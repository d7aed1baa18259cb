// Tests of a command over a disk in memory.
use crate::programs::words_of;
use causes::NumberList;
use crew::OpenGate;
use feed_text::{MemSink, MemSource};
use journal_core::{Disk, MemDisk};
use persist_app::*;
use std::alloc::{AllocError, Global};
use std::sync::Wait;
use std::test::Fail;
use std::thread::Threads;
use store_core::Bytes;

const FEED: &[u8] = b"append 0 10\n3 1 apple\n4 1 pear\n7 -1 apple\n.\nsnapshot 5\nsnapshot 7\n";

const REPLIES: &[u8] = b"ok\n1 apple\n1 pear\n.\n1 pear\n.\n";

const LATER_FEED: &[u8] = b"snapshot 7\nappend 0 10\n.\n";

const LATER_REPLIES: &[u8] = b"1 pear\n.\nmismatch 10\n";

// A journal whose one record, at place 8, has a tag that no change has.
const DAMAGED: [u8; 59] = [
    0x50, 0x45, 0x52, 0x53, 0x4a, 0x4e, 0x4c, 0x31, 1, 0, 0, 0, 0, 0, 0, 0, 41, 9, 0, 0, 0, 0, 0,
    0, 0, 0, 0, 0, 0, 0, 0, 0, 0, 1, 0, 0, 0, 0, 0, 0, 0, 2, 0, 0, 0, 0, 0, 0, 0, 3, 0, 0, 0, 0, 0,
    0, 0, 0, 0,
];

// A disk with these bytes that fails at the listed call, if any.
fn disk(alloc: Global, bytes: &[u8], fails: Option<u64>) -> Result<MemDisk, AllocError> {
    let mut list = NumberList::new(alloc);
    if let Some(at) = fails {
        list.push(at)?;
    }
    let bytes = Bytes::of(alloc, Vec::from_slice(alloc, bytes)?)?;
    Ok(MemDisk::holding(alloc, bytes, list))
}

// What a run of a feed over a disk came to.
#[derive(Drop)]
struct Came {
    status: u8,
    written: Vec<u8>,
    stored: bool,
    disk: MemDisk,
}

fn words_over<R: Threads + Wait + Sync>(
    rt: &R,
    alloc: Global,
    line: &str,
    feed: &[u8],
    disk: MemDisk,
) -> Result<Came, Fail> {
    let words = words_of(alloc, line)?;
    let mut source = MemSource::new(feed.to_vec(alloc)?, NumberList::new(alloc));
    let mut sink = MemSink::new(alloc, NumberList::new(alloc));
    let mut clock = FixedClock(7);
    let ended = persist_on_disk(
        rt,
        alloc,
        &words,
        &mut source,
        &mut sink,
        disk,
        &mut clock,
        &OpenGate,
    );
    let written = sink.taken().to_vec(alloc)?;
    let status = ended.status;
    Ok(match ended.left {
        DiskLeft::Disk(disk) => Came {
            status,
            written,
            stored: false,
            disk,
        },
        DiskLeft::Store(store) => Came {
            status,
            written,
            stored: true,
            disk: store.into_disk(),
        },
    })
}

#[test]
fn a_file_is_opened_again(rt: HostRuntime) -> Result<(), Fail> {
    let alloc = rt.alloc();
    let first = words_over(&rt, alloc, "run", FEED, disk(alloc, &[], None)?)?;
    assert_eq!(rt; (first.status, first.stored), (0, true));
    assert_eq!(rt; first.written.as_slice(), REPLIES);
    let later = words_over(&rt, alloc, "run", LATER_FEED, first.disk)?;
    assert_eq!(rt; (later.status, later.stored), (0, true));
    assert_eq!(rt; later.written.as_slice(), LATER_REPLIES);
    Ok(())
}

#[test]
fn a_crew_works_over_a_file(rt: HostRuntime) -> Result<(), Fail> {
    let alloc = rt.alloc();
    let line = "ingest --writers 2 --compactors 1 --collectors 1";
    let text = b"append 0 10\n3 1 apple\n.\nsnapshot 9\n";
    let got = words_over(&rt, alloc, line, text, disk(alloc, &[], None)?)?;
    assert_eq!(rt; (got.status, got.stored), (0, true));
    assert_eq!(rt; got.written.as_slice(), b"1 apple\n.\n".as_slice());
    let later = words_over(&rt, alloc, "run", b"snapshot 9\n", got.disk)?;
    assert_eq!(rt; (later.status, later.stored), (0, true));
    assert_eq!(rt; later.written.as_slice(), b"1 apple\n.\n".as_slice());
    Ok(())
}

#[test]
fn a_disk_that_is_not_opened_says_why(rt: HostRuntime) -> Result<(), Fail> {
    let alloc = rt.alloc();
    for (name, bytes, fails, status, written) in [
        (
            "a failing disk",
            [].as_slice(),
            Some(0),
            14,
            b"disk failed\n".as_slice(),
        ),
        (
            "a byte",
            [0].as_slice(),
            None,
            13,
            b"not a store\n".as_slice(),
        ),
        (
            "a tag of no change",
            DAMAGED.as_slice(),
            None,
            15,
            b"damaged at 8\n".as_slice(),
        ),
    ] {
        let got = words_over(&rt, alloc, "run", FEED, disk(alloc, bytes, fails)?)?;
        assert_eq!(rt; (got.status, got.stored), (status, false), "{name}");
        assert_eq!(rt; got.written.as_slice(), written, "{name}");
    }
    Ok(())
}
