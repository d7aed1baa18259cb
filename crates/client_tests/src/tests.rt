use crate::scenes::{
    SHARD, calls_from, opened_reader, opened_writer, read_out, read_word, row, store_failing,
    write_out, write_word,
};
use crate::{read_on, write_on};
use read_client::Reader;
use std::alloc::Global;
use std::test::Fail;
use update_core::Frontier;
use write_client::Writer;

// Two writers at one expected upper: the first to commit is accepted, the other told where the upper is then. A snapshot has the
// accepted row.
#[test]
fn two_writers_race(rt: HostRuntime) -> Result<(), Fail> {
    let alloc = rt.alloc();
    let mut store = store_failing(alloc, &[])?;
    let mut a = opened_writer(alloc, &mut store, 0)?;
    let mut b = opened_writer(alloc, &mut store, 1)?;
    let opening = calls_from(alloc, store.trail(), 0)?;
    assert_eq!(rt;
        opening.as_str(),
        "0 scan 0; 0 cas none; 0 cas 0; 1 scan 0; 1 cas 1; "
    );
    a.begin_append(alloc, row(alloc, b"a", 1, 1)?, 0, Frontier::at(10))?;
    b.begin_append(alloc, row(alloc, b"b", 1, 1)?, 0, Frontier::at(10))?;
    let first = write_on(alloc, &mut a, &mut store, 0, 1)?;
    assert_eq!(rt; write_word(alloc, first)?.as_str(), "more");
    let second = write_on(alloc, &mut b, &mut store, 1, 2)?;
    assert_eq!(rt; write_word(alloc, second)?.as_str(), "ok");
    let third = write_on(alloc, &mut a, &mut store, 0, 2)?;
    assert_eq!(rt; write_word(alloc, third)?.as_str(), "mismatch 10");
    let race = calls_from(alloc, store.trail(), 5)?;
    assert_eq!(rt;
        race.as_str(),
        "0 set 0 1 0; 1 set 1 1 0; 1 cas 2; 0 cas 1; 0 scan 2; "
    );
    let mut reader = opened_reader(alloc, &mut store, 2)?;
    reader.begin_snapshot(9)?;
    let content = read_on(alloc, &mut reader, &mut store, 2, 9)?;
    assert_eq!(rt; read_word(alloc, content)?.as_str(), "rows 1");
    let reading = calls_from(alloc, store.trail(), 10)?;
    assert_eq!(rt;
        reading.as_str(),
        "2 scan 0; 2 cas 3; 2 scan 5; 2 get 1 1 0; "
    );
    Ok(())
}

// A commit that fails and yet takes effect is answered Ok, once a scan has shown the token.
#[test]
fn a_failed_commit_that_took_effect_is_ok(rt: HostRuntime) -> Result<(), Fail> {
    let alloc = rt.alloc();
    let mut store = store_failing(alloc, &[(9, true)])?;
    let mut a = opened_writer(alloc, &mut store, 0)?;
    let mut b = opened_writer(alloc, &mut store, 1)?;
    b.begin_append(alloc, row(alloc, b"x", 1, 1)?, 0, Frontier::at(5))?;
    let first = write_on(alloc, &mut b, &mut store, 1, 9)?;
    assert_eq!(rt; write_word(alloc, first)?.as_str(), "ok");
    a.begin_append(alloc, row(alloc, b"y", 6, 1)?, 5, Frontier::at(10))?;
    let second = write_on(alloc, &mut a, &mut store, 0, 3)?;
    assert_eq!(rt; write_word(alloc, second)?.as_str(), "fault");
    let third = write_on(alloc, &mut a, &mut store, 0, 2)?;
    assert_eq!(rt; write_word(alloc, third)?.as_str(), "ok");
    let calls = calls_from(alloc, store.trail(), 5)?;
    assert_eq!(rt;
        calls.as_str(),
        "1 set 1 1 0; 1 cas 2; 0 scan 2; 0 set 0 1 0; 0 cas 3 took; 0 scan 4; "
    );
    let mut reader = opened_reader(alloc, &mut store, 2)?;
    reader.begin_snapshot(9)?;
    let content = read_on(alloc, &mut reader, &mut store, 2, 9)?;
    assert_eq!(rt; read_word(alloc, content)?.as_str(), "rows 2");
    Ok(())
}

// A listen goes on by what came since its last step, and by nothing else; the writer's and the reader's closes end it.
#[test]
fn a_listen_goes_on(rt: HostRuntime) -> Result<(), Fail> {
    let alloc = rt.alloc();
    let mut store = store_failing(alloc, &[])?;
    let mut a = opened_writer(alloc, &mut store, 0)?;
    let mut reader = opened_reader(alloc, &mut store, 1)?;
    a.begin_append(alloc, row(alloc, b"x", 1, 1)?, 0, Frontier::at(5))?;
    write_on(alloc, &mut a, &mut store, 0, 9)?;
    a.begin_append(alloc, row(alloc, b"y", 6, 1)?, 5, Frontier::at(10))?;
    write_on(alloc, &mut a, &mut store, 0, 9)?;
    reader.begin_listen(4)?;
    let first = read_on(alloc, &mut reader, &mut store, 1, 9)?;
    assert_eq!(rt; read_word(alloc, first)?.as_str(), "step 5 10 rows 1");
    reader.begin_next()?;
    let second = read_on(alloc, &mut reader, &mut store, 1, 9)?;
    assert_eq!(rt; read_word(alloc, second)?.as_str(), "quiet 10");
    assert!(rt; reader.frontier() == Some(Frontier::at(10)));
    reader.begin_advance(8)?;
    let third = read_on(alloc, &mut reader, &mut store, 1, 9)?;
    assert_eq!(rt; read_word(alloc, third)?.as_str(), "advanced 5");
    reader.begin_snapshot(7)?;
    let fourth = read_on(alloc, &mut reader, &mut store, 1, 9)?;
    assert_eq!(rt; read_word(alloc, fourth)?.as_str(), "early 8");
    reader.begin_renew(50)?;
    let fifth = read_on(alloc, &mut reader, &mut store, 1, 9)?;
    assert_eq!(rt; read_word(alloc, fifth)?.as_str(), "renewed 6");
    a.begin_close(alloc)?;
    let sixth = write_on(alloc, &mut a, &mut store, 0, 9)?;
    assert_eq!(rt; write_word(alloc, sixth)?.as_str(), "closed 7");
    reader.begin_close()?;
    let seventh = read_on(alloc, &mut reader, &mut store, 1, 9)?;
    assert_eq!(rt; read_word(alloc, seventh)?.as_str(), "closed 8");
    Ok(())
}

// The words of a writer's whole life over a store that fails one call: an open, an append of one row, a close.
fn writer_life(alloc: Global, faults: &[(u64, bool)]) -> Result<(String, usize), Fail> {
    let mut store = store_failing(alloc, faults)?;
    let mut text = String::new(alloc);
    let mut writer = Writer::open(alloc, SHARD);
    write_out(alloc, &mut writer, &mut store, &mut text)?;
    writer.begin_append(alloc, row(alloc, b"x", 1, 1)?, 0, Frontier::at(5))?;
    write_out(alloc, &mut writer, &mut store, &mut text)?;
    writer.begin_close(alloc)?;
    write_out(alloc, &mut writer, &mut store, &mut text)?;
    Ok((text, store.trail().len()))
}

// Each call of an open, an append and a close that fails in turn. The answers stay, but for the numbers; a join that failed with
// effect left a member of its own.
#[test]
fn each_call_of_a_writer_fails_in_turn(rt: HostRuntime) -> Result<(), Fail> {
    let alloc = rt.alloc();
    for (number, took, words, calls) in [
        (99, false, "opened 0 1; ok; closed 3; ", 6),
        (0, false, "fault; opened 0 1; ok; closed 3; ", 7),
        (1, false, "fault; opened 0 1; ok; closed 3; ", 8),
        (1, true, "fault; opened 0 1; ok; closed 3; ", 7),
        (2, false, "fault; opened 0 1; ok; closed 3; ", 8),
        (2, true, "fault; opened 1 2; ok; closed 4; ", 8),
        (3, false, "opened 0 1; fault; ok; closed 3; ", 7),
        (3, true, "opened 0 1; fault; ok; closed 3; ", 7),
        (4, false, "opened 0 1; fault; ok; closed 3; ", 8),
        (4, true, "opened 0 1; fault; ok; closed 3; ", 7),
        (5, false, "opened 0 1; ok; fault; closed 3; ", 8),
        (5, true, "opened 0 1; ok; fault; closed 3; ", 7),
    ] {
        let (text, count) = writer_life(alloc, &[(number, took)])?;
        assert_eq!(rt; text.as_str(), words);
        assert_eq!(rt; count, calls);
    }
    Ok(())
}

// The words of a reader's whole life over a store that fails one call, after a writer's append of one row: an open, a snapshot, a
// listen, a close.
fn reader_life(alloc: Global, faults: &[(u64, bool)]) -> Result<(String, usize), Fail> {
    let mut store = store_failing(alloc, faults)?;
    let mut writer = opened_writer(alloc, &mut store, 0)?;
    writer.begin_append(alloc, row(alloc, b"x", 1, 1)?, 0, Frontier::at(5))?;
    write_on(alloc, &mut writer, &mut store, 0, 9)?;
    let mut text = String::new(alloc);
    let mut reader = Reader::open(alloc, SHARD, 0, 100);
    read_out(alloc, &mut reader, &mut store, &mut text)?;
    reader.begin_snapshot(4)?;
    read_out(alloc, &mut reader, &mut store, &mut text)?;
    reader.begin_listen(0)?;
    read_out(alloc, &mut reader, &mut store, &mut text)?;
    reader.begin_close()?;
    read_out(alloc, &mut reader, &mut store, &mut text)?;
    Ok((text, store.trail().len()))
}

#[test]
fn each_call_of_a_reader_fails_in_turn(rt: HostRuntime) -> Result<(), Fail> {
    let alloc = rt.alloc();
    for (number, took, words, calls) in [
        (
            99,
            false,
            "opened 1 3 0; rows 1; step 1 5 rows 1; closed 4; ",
            12,
        ),
        (
            5,
            false,
            "fault; opened 1 3 0; rows 1; step 1 5 rows 1; closed 4; ",
            13,
        ),
        (
            6,
            false,
            "fault; opened 1 3 0; rows 1; step 1 5 rows 1; closed 4; ",
            14,
        ),
        (
            6,
            true,
            "fault; opened 2 4 0; rows 1; step 1 5 rows 1; closed 5; ",
            14,
        ),
        (
            7,
            false,
            "opened 1 3 0; fault; rows 1; step 1 5 rows 1; closed 4; ",
            13,
        ),
        (
            8,
            false,
            "opened 1 3 0; fault; rows 1; step 1 5 rows 1; closed 4; ",
            13,
        ),
        (
            8,
            true,
            "opened 1 3 0; fault; rows 1; step 1 5 rows 1; closed 4; ",
            13,
        ),
        (
            9,
            false,
            "opened 1 3 0; rows 1; fault; step 1 5 rows 1; closed 4; ",
            13,
        ),
        (
            10,
            false,
            "opened 1 3 0; rows 1; fault; step 1 5 rows 1; closed 4; ",
            13,
        ),
        (
            11,
            false,
            "opened 1 3 0; rows 1; step 1 5 rows 1; fault; closed 4; ",
            14,
        ),
        (
            11,
            true,
            "opened 1 3 0; rows 1; step 1 5 rows 1; fault; closed 4; ",
            13,
        ),
    ] {
        let (text, count) = reader_life(alloc, &[(number, took)])?;
        assert_eq!(rt; text.as_str(), words);
        assert_eq!(rt; count, calls);
    }
    Ok(())
}
