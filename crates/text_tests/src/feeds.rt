ghost use Rattle.std.specs.Prelude.{◌<◌};

use feed_text::*;
use std::alloc::Global;
use std::test::Fail;
use update_core::{Datum, Frontier, Row, RowList, Update, UpdateList};

// What became of a text: the number of its commands, or its line at fault.
#[derive(Clone, Copy, Debug, PartialEq, Eq)]
enum Outcome {
    Commands(usize),
    Line(u64),
    Memory,
}

fn outcome_of(alloc: Global, text: &[u8]) -> Outcome {
    match parse_feed(alloc, text) {
        Ok(feed) => Outcome::Commands(feed.lines.as_slice().len()),
        Err(LineFault::Line { number }) => Outcome::Line(number),
        Err(LineFault::Memory) => Outcome::Memory,
    }
}

#[test]
fn feeds_are_read(rt: HostRuntime) {
    let cases = [
        ("", 0),
        ("snapshot 0", 1),
        ("snapshot 0\n", 1),
        ("snapshot 18446744073709551615\n", 1),
        ("listen 0\n", 1),
        ("listen 18446744073709551615", 1),
        ("since 0\n", 1),
        ("since 18446744073709551615\n", 1),
        ("listen 3\nsince 4\nsnapshot 5\nappend 0 5\n.\n", 4),
        ("compact", 1),
        ("compact\ncompact\nsnapshot 5\ncompact\n", 4),
        ("append 0 closed\n.\n", 1),
        ("append 0 closed\n.", 1),
        ("append 5 5\n.\n", 1),
        ("append 7 3\n.\n", 1),
        ("append 0 5\n0 1 a\r\n.\n", 1),
        ("append 0 5\n0 1 .\n.\n", 1),
        ("append 0 5\n0 1  a b \n.\n", 1),
        ("append 0 5\n0 0 a\n.\n", 1),
        (
            "append 0 5\n0 9223372036854775807 a\n0 -9223372036854775808 a\n.\n",
            1,
        ),
        ("append 0 5\n18446744073709551615 1 a\n.\n", 1),
        ("append 0 5\n3 -1 a\n.\nsnapshot 2\nappend 5 9\n.\n", 3),
    ];
    for (text, want) in cases {
        assert_eq!(rt;
            outcome_of(rt.alloc(), text.as_bytes()),
            Outcome::Commands(want),
            "at {text}"
        );
    }
}

#[test]
fn other_texts_are_refused_at_a_line(rt: HostRuntime) {
    let cases = [
        ("\n", 1),
        ("?", 1),
        (".\n", 1),
        ("append 0 5\nx", 2),
        ("append 0 5", 1),
        ("append 0 5\n0 1 a\n", 2),
        ("append 0 5\n0 1 a\n.\nappend 5 6\n", 4),
        ("append  0 5\n.\n", 1),
        ("append 0  5\n.\n", 1),
        ("append 0 5 \n.\n", 1),
        ("append closed 5\n.\n", 1),
        ("append 0 Closed\n.\n", 1),
        ("append 0 closed \n.\n", 1),
        ("append 0 18446744073709551616\n.\n", 1),
        ("append 0 5\r\n.\n", 1),
        ("append 0 5\n. \n", 2),
        ("append 0 5\nsnapshot 1\n.\n", 2),
        ("snapshot 3\n\nsnapshot 4\n", 2),
        ("snapshot 3 \n", 1),
        ("snapshot  3\n", 1),
        (" snapshot 3\n", 1),
        ("Snapshot 3\n", 1),
        ("snapshot\n", 1),
        ("snapshot \n", 1),
        ("snapshot 0\r\n", 1),
        ("snapshot 00\n", 1),
        ("snapshot 01\n", 1),
        ("snapshot +1\n", 1),
        ("snapshot -1\n", 1),
        ("snapshot 18446744073709551616\n", 1),
        ("snapshot 99999999999999999999999999\n", 1),
        ("listen\n", 1),
        ("listen 01\n", 1),
        ("listen closed\n", 1),
        ("listens 1\n", 1),
        ("listen 18446744073709551616\n", 1),
        ("since\n", 1),
        ("compact \n", 1),
        ("compact 1\n", 1),
        ("compacts\n", 1),
        ("Compact\n", 1),
        ("append 0 5\ncompact\n.\n", 2),
        ("since 1 \n", 1),
        ("since -1\n", 1),
        ("sinc 1\n", 1),
        ("since 18446744073709551616\n", 1),
        ("append 0 5\nlisten 1\n.\n", 2),
        ("append 0 5\n00 1 a\n.\n", 2),
        ("append 0 5\n0 01 a\n.\n", 2),
        ("append 0 5\n0 +1 a\n.\n", 2),
        ("append 0 5\n0 -0 a\n.\n", 2),
        ("append 0 5\n0 - a\n.\n", 2),
        ("append 0 5\n0 9223372036854775808 a\n.\n", 2),
        ("append 0 5\n0 -9223372036854775809 a\n.\n", 2),
        ("append 0 5\n0 1 \n.\n", 2),
        ("append 0 5\n0 1\n.\n", 2),
        ("append 0 5\n0\n.\n", 2),
        ("append 0 5\n\n.\n", 2),
    ];
    for (text, want) in cases {
        assert_eq!(rt;
            outcome_of(rt.alloc(), text.as_bytes()),
            Outcome::Line(want),
            "at {text}"
        );
    }
}

#[test]
fn an_append_has_what_its_lines_say(rt: HostRuntime) -> Result<(), Fail> {
    let feed = parse_feed(rt.alloc(), b"append 3 closed\n4 -7 a b\n.\nsnapshot 9\n")?;
    let copy = feed.lines.copy(rt.alloc())?;
    let lines = copy.as_slice();
    assert_eq!(rt; lines.len(), 2);
    assert!(rt; matches!(&lines[1], FeedLine::Snapshot { t: 9 }));
    if let FeedLine::Append(append) = &lines[0] {
        assert_eq!(rt; append.lower, 3);
        assert!(rt; append.upper == Frontier::closed());
        let rows = append.rows.as_slice();
        assert_eq!(rt; rows.len(), 1);
        assert!(rt; rows[0].time == 4 && rows[0].diff == -7);
        assert_eq!(rt; rows[0].datum.bytes(), b"a b".as_slice());
    } else {
        assert!(rt; false);
    }
    Ok(())
}

// A row of a datum of so many bytes.
fn put_row_of(text: &mut Vec<u8>, len: usize) -> Result<(), Fail>
    requires { len < 512 }
{
    text.extend_from_slice(b"0 1 ")?;
    let datum = [b'a'; 512];
    text.extend_from_slice(&datum[..len])?;
    text.push(b'\n')?;
    Ok(())
}

// An append with so many rows of 255 bytes, and one more of so many.
fn append_of(alloc: Global, count: usize, each: usize, last: usize) -> Result<Vec<u8>, Fail>
    requires few { each < 512 }
    requires few_in_last { last < 512 }
{
    let mut text = Vec::from_slice(alloc, b"append 0 5\n")?;
    for _ in 0..count {
        put_row_of(&mut text, each)?;
    }
    put_row_of(&mut text, last)?;
    text.extend_from_slice(b".\n")?;
    Ok(text)
}

// So many snapshots.
fn snapshots(alloc: Global, count: usize) -> Result<Vec<u8>, Fail> {
    let mut text = Vec::new(alloc);
    for _ in 0..count {
        text.extend_from_slice(b"snapshot 7\n")?;
    }
    Ok(text)
}

#[test]
fn limits_are_kept(rt: HostRuntime) -> Result<(), Fail> {
    let alloc = rt.alloc();
    let datum = append_of(alloc, 0, 1, 255)?;
    assert_eq!(rt; outcome_of(alloc, &datum), Outcome::Commands(1));
    let datum = append_of(alloc, 2, 1, 256)?;
    assert_eq!(rt; outcome_of(alloc, &datum), Outcome::Line(4));
    let rows = append_of(alloc, 65_535, 1, 1)?;
    assert_eq!(rt; outcome_of(alloc, &rows), Outcome::Commands(1));
    let rows = append_of(alloc, 65_536, 1, 1)?;
    assert_eq!(rt; outcome_of(alloc, &rows), Outcome::Line(65_538));
    let commands = snapshots(alloc, 2_048)?;
    assert_eq!(rt; outcome_of(alloc, &commands), Outcome::Commands(2_048));
    let commands = snapshots(alloc, 2_049)?;
    assert_eq!(rt; outcome_of(alloc, &commands), Outcome::Line(2_049));
    let bytes = append_of(alloc, 64_527, 255, 178)?;
    assert_eq!(rt; bytes.len(), 16_777_216);
    assert_eq!(rt; outcome_of(alloc, &bytes), Outcome::Commands(1));
    let bytes = append_of(alloc, 64_527, 255, 179)?;
    assert_eq!(rt; bytes.len(), 16_777_217);
    assert_eq!(rt; outcome_of(alloc, &bytes), Outcome::Line(64_530));
    Ok(())
}

// The text of a reply.
fn text_of(alloc: Global, reply: &RunReply) -> Result<Vec<u8>, Fail> {
    let mut text = Vec::new(alloc);
    print_reply(&mut text, reply)?;
    Ok(text)
}

#[test]
fn replies_have_texts(rt: HostRuntime) -> Result<(), Fail> {
    let alloc = rt.alloc();
    let mut rows = RowList::new(alloc);
    rows.push(Row {
        datum: Datum::of(alloc, b"a b")?,
        diff: -7,
    })?;
    rows.push(Row {
        datum: Datum::of(alloc, b".")?,
        diff: 12,
    })?;
    let mut updates = UpdateList::new(alloc);
    updates.push(Update {
        datum: Datum::of(alloc, b"pear")?,
        time: 4,
        diff: 1,
    })?;
    updates.push(Update {
        datum: Datum::of(alloc, b"a b")?,
        time: 7,
        diff: -1,
    })?;
    let closed = Frontier::closed();
    let cases = [
        (RunReply::Accepted, "ok\n"),
        (RunReply::Empty, "empty\n"),
        (RunReply::Range { row: 3 }, "range 3\n"),
        (
            RunReply::Mismatch {
                upper: Frontier::at(40),
            },
            "mismatch 40\n",
        ),
        (RunReply::Mismatch { upper: closed }, "mismatch closed\n"),
        (
            RunReply::Heavy {
                weight: 4_611_686_018_427_387_904,
            },
            "heavy 4611686018427387904\n",
        ),
        (RunReply::Rows(rows), "-7 a b\n12 .\n.\n"),
        (RunReply::Rows(RowList::new(alloc)), ".\n"),
        (RunReply::Early { since: 8 }, "early 8\n"),
        (
            RunReply::Late {
                upper: Frontier::at(0),
            },
            "late 0\n",
        ),
        (
            RunReply::Step {
                updates,
                upper: Frontier::at(10),
            },
            "4 1 pear\n7 -1 a b\nupto 10\n",
        ),
        (
            RunReply::Step {
                updates: UpdateList::new(alloc),
                upper: closed,
            },
            "upto closed\n",
        ),
        (RunReply::Ended, "ended\n"),
        (
            RunReply::Quiet {
                upper: Frontier::at(3),
            },
            "quiet 3\n",
        ),
        (RunReply::Quiet { upper: closed }, "quiet closed\n"),
        (RunReply::Back { since: 8 }, "back 8\n"),
    ];
    for (reply, want) in &cases {
        assert_eq!(rt;
            text_of(alloc, reply)?.as_slice(),
            want.as_bytes(),
            "for {want}"
        );
    }
    let mut line = Vec::from_slice(alloc, b"ok\n")?;
    print_line_fault(&mut line, 12)?;
    assert_eq!(rt; line.as_slice(), b"ok\nline 12\n".as_slice());
    Ok(())
}
