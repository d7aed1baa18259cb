// Feeds of `ingest`, by examples.
use feed_text::LineFault;
use ingest_text::parse_ingest;
use std::alloc::Global;
use std::test::Fail;

// What became of a text: how many appends and questions it has, or its line at fault.
#[derive(Clone, Copy, Debug, PartialEq, Eq)]
enum Outcome {
    Feed { appends: usize, queries: usize },
    Line(u64),
    Memory,
}

fn outcome_of(alloc: Global, text: &[u8]) -> Outcome {
    match parse_ingest(alloc, text) {
        Ok(feed) => Outcome::Feed {
            appends: feed.appends.as_slice().len(),
            queries: feed.queries.as_slice().len(),
        },
        Err(LineFault::Line { number }) => Outcome::Line(number),
        Err(LineFault::Memory) => Outcome::Memory,
    }
}

fn feed(appends: usize, queries: usize) -> Outcome {
    Outcome::Feed { appends, queries }
}

#[test]
fn feeds_are_read_or_refused_by_their_line(rt: HostRuntime) {
    for (text, wanted) in [
        ("", feed(0, 0)),
        ("?", Outcome::Line(1)),
        (
            "append 0 10\n1 1 a\n.\nappend 10 20\n11 1 b\n.\nsnapshot 19\nlisten 9",
            feed(2, 2),
        ),
        (
            "since 5\nappend 0 closed\n.\nlisten 18446744073709551615\n",
            feed(1, 1),
        ),
        ("since 5\nsince 5\n", Outcome::Line(2)),
        ("append 0 5\n.\nsince 5\n", Outcome::Line(3)),
        ("snapshot 5\nsince 5\n", Outcome::Line(2)),
        ("append 1 5\n.\n", Outcome::Line(1)),
        ("append 0 5\n.\nappend 6 9\n.\n", Outcome::Line(3)),
        ("append 0 closed\n.\nappend 5 9\n.\n", Outcome::Line(3)),
        ("append 0 0\n.\n", Outcome::Line(1)),
        (
            "append 0 5\n.\nsnapshot 4\nappend 5 9\n.\n",
            Outcome::Line(4),
        ),
        ("append 0 5\n.\nappend 5 9\n4 1 a\n.\n", Outcome::Line(4)),
        ("append 0 5\n5 1 a\n.\n", Outcome::Line(2)),
        ("append 0 5\n4 1 a\n", Outcome::Line(2)),
        ("append 0 5\nsnapshot 4\n.\n", Outcome::Line(2)),
        ("compact\n", Outcome::Line(1)),
        ("snapshot 1\n\n", Outcome::Line(2)),
        (
            "append 0 5\n1 4611686018427387904 a\n.\nappend 5 9\n5 0 a\n.\n",
            feed(2, 0),
        ),
        (
            "append 0 5\n1 4611686018427387904 a\n.\nappend 5 9\n5 -1 a\n.\n",
            Outcome::Line(5),
        ),
        (
            "append 0 5\n1 -9223372036854775808 a\n.\n",
            Outcome::Line(2),
        ),
        (
            "listen 1\nlisten 2\nlisten 3\nlisten 4\nlisten 5\nlisten 6\nlisten 7\nlisten 8\nsnapshot 1\n",
            feed(0, 9),
        ),
        (
            "listen 1\nlisten 2\nlisten 3\nlisten 4\nlisten 5\nlisten 6\nlisten 7\nlisten 8\nsnapshot 1\nlisten 9\n",
            Outcome::Line(10),
        ),
    ] {
        assert_eq!(rt;
            outcome_of(rt.alloc(), text.as_bytes()),
            wanted,
            "at {text}"
        );
    }
}

#[test]
fn a_since_is_one_of_the_commands(rt: HostRuntime) -> Result<(), Fail> {
    let alloc = rt.alloc();
    let mut text = Vec::new(alloc);
    text.extend_from_slice(b"since 1\n")?;
    for _ in 0..2048 {
        text.extend_from_slice(b"snapshot 1\n")?;
    }
    assert_eq!(rt; outcome_of(alloc, &text), Outcome::Line(2049));
    Ok(())
}
