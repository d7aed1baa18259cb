// Feeds of `reclock`, by examples.
use feed_text::LineFault;
use reclock_text::{parse_reclock, print_bindings, print_data, print_operator, print_unbound};
use remap_core::{Bindings, SourceFrontier};
use std::alloc::Global;
use std::test::Fail;
use update_core::{Datum, Update, UpdateList};

// What became of a text: how much was seen, how many rows it has, or its line at fault.
#[derive(Clone, Copy, Debug, PartialEq, Eq)]
enum Outcome {
    Feed { saws: usize, rows: usize },
    Line(u64),
    Memory,
}

fn outcome_of(alloc: Global, text: &[u8], operators: u32) -> Outcome {
    match parse_reclock(alloc, text, operators) {
        Ok(feed) => Outcome::Feed {
            saws: feed.saws.as_slice().len(),
            rows: feed.rows.as_slice().len(),
        },
        Err(LineFault::Line { number }) => Outcome::Line(number),
        Err(LineFault::Memory) => Outcome::Memory,
    }
}

fn feed(saws: usize, rows: usize) -> Outcome {
    Outcome::Feed { saws, rows }
}

#[test]
fn feeds_are_read_or_refused_by_their_line(rt: HostRuntime) {
    for (text, operators, wanted) in [
        ("", 1, feed(0, 0)),
        ("?", 1, Outcome::Line(1)),
        (
            "saw 0 10 0:3\nsaw 0 20 0:5 1:2\nrow 0 2 1 a\nrow 0 3 1 b\nrow 1 0 1 c\nrow 1 2 1 d",
            1,
            feed(2, 4),
        ),
        (
            "row 255 281474976710656 -1 a b\nsaw 1 18446744073709551615 0:0 255:281474976710656\n",
            2,
            feed(1, 1),
        ),
        ("saw 1 10 0:3\n", 1, Outcome::Line(1)),
        ("saw 0 10 0:3\nsaw 0 20\n", 1, Outcome::Line(2)),
        ("saw 0 20 \n", 1, Outcome::Line(1)),
        ("saw 0 20 0:3 \n", 1, Outcome::Line(1)),
        ("saw 0 20  0:3\n", 1, Outcome::Line(1)),
        ("saw 0 20 0:3 0:4\n", 1, Outcome::Line(1)),
        ("saw 0 20 1:3 0:4\n", 1, Outcome::Line(1)),
        ("saw 0 20 256:3\n", 1, Outcome::Line(1)),
        ("saw 0 20 0:281474976710657\n", 1, Outcome::Line(1)),
        ("saw 0 20 0-3\n", 1, Outcome::Line(1)),
        ("saw 0 20 0:03\n", 1, Outcome::Line(1)),
        ("saw 0 20 0:\n", 1, Outcome::Line(1)),
        ("saw 00 20 0:3\n", 1, Outcome::Line(1)),
        ("saw 0 18446744073709551616 0:3\n", 1, Outcome::Line(1)),
        ("Saw 0 20 0:3\n", 1, Outcome::Line(1)),
        ("row 256 0 1 a\n", 1, Outcome::Line(1)),
        ("row 0 281474976710657 1 a\n", 1, Outcome::Line(1)),
        ("row 0 0 1 \n", 1, Outcome::Line(1)),
        ("row 0 0 -0 a\n", 1, Outcome::Line(1)),
        ("row 0 0 0 a\n", 1, feed(0, 1)),
        ("saw 0 1 0:1\n\n", 1, Outcome::Line(2)),
        (
            "row 0 0 4611686018427387904 a\nrow 0 1 0 a\n",
            1,
            feed(0, 2),
        ),
        (
            "row 0 0 4611686018427387904 a\nrow 0 1 -1 a\n",
            1,
            Outcome::Line(2),
        ),
        ("row 0 0 -9223372036854775808 a\n", 1, Outcome::Line(1)),
        (
            "row 0 0 -4611686018427387904 a\nsaw 0 1 0:1\nrow 0 0 1 a\n",
            1,
            Outcome::Line(3),
        ),
    ] {
        assert_eq!(rt;
            outcome_of(rt.alloc(), text.as_bytes(), operators),
            wanted,
            "at {text}"
        );
    }
}

#[test]
fn a_line_tells_what_was_seen(rt: HostRuntime) -> Result<(), LineFault> {
    let read = parse_reclock(rt.alloc(), b"saw 2 20 0:5 7:2", 3)?;
    let seen = &read.saws.as_slice()[0];
    assert_eq!(rt; (seen.operator, seen.time), (2, 20));
    assert_eq!(rt;
        (
            seen.frontier.get(0),
            seen.frontier.get(1),
            seen.frontier.get(7)
        ),
        (5, 0, 2)
    );
    Ok(())
}

#[test]
fn lines_are_few(rt: HostRuntime) -> Result<(), Fail> {
    let alloc = rt.alloc();
    let mut saws = Vec::new(alloc);
    for _ in 0..1025 {
        saws.extend_from_slice(b"saw 0 1 0:1\n")?;
    }
    assert_eq!(rt; outcome_of(alloc, &saws, 1), Outcome::Line(1025));
    Ok(())
}

#[test]
fn collections_are_printed(rt: HostRuntime) -> Result<(), Fail> {
    let alloc = rt.alloc();
    let mut updates = UpdateList::new(alloc);
    updates.push(Update {
        datum: Datum::of(alloc, b"a")?,
        time: 10,
        diff: -2,
    })?;
    let mut frontier = SourceFrontier::new();
    frontier.set(0, 3)?;
    frontier.set(255, 20)?;
    let mut bindings = Bindings::new(alloc);
    bindings.add(10, frontier)?;
    let mut out = Vec::new(alloc);
    print_bindings(&mut out, &bindings)?;
    print_operator(&mut out, 0, &updates)?;
    print_data(&mut out, &updates)?;
    print_unbound(&mut out, 1)?;
    assert_eq!(rt;
        out.as_slice(),
        b"bind 10 0:3 255:20\noperator 0\n10 -2 a\n.\ndata\n10 -2 a\n.\nunbound 1\n".as_slice()
    );
    Ok(())
}
