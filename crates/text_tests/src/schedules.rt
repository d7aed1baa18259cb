// The words of a schedule, by examples.
use feed_text::LineFault;
use std::alloc::Global;
use std::test::Fail;
use step_text::{Command, is_name, parse_steps, polls, short_command};

#[test]
fn names_have_one_to_eight_letters(rt: HostRuntime) {
    for (word, wanted) in [
        (b"A".as_slice(), true),
        (b"zZabcdef".as_slice(), true),
        (b"".as_slice(), false),
        (b"abcdefghi".as_slice(), false),
        (b"a1".as_slice(), false),
        (b"a b".as_slice(), false),
        (b"@".as_slice(), false),
        (b"[".as_slice(), false),
        (b"`".as_slice(), false),
        (b"{".as_slice(), false),
    ] {
        assert_eq!(rt; is_name(word), wanted);
    }
}

#[test]
fn polls_are_one_to_a_million(rt: HostRuntime) {
    for (word, wanted) in [
        (b"1".as_slice(), Some(1)),
        (b"1000000".as_slice(), Some(1_000_000)),
        (b"0".as_slice(), None),
        (b"1000001".as_slice(), None),
        (b"01".as_slice(), None),
        (b"".as_slice(), None),
        (b"18446744073709551616".as_slice(), None),
    ] {
        assert_eq!(rt; polls(word), wanted);
    }
}

#[test]
fn a_text_says_a_command(rt: HostRuntime) {
    assert!(rt;
        matches!(
            short_command(b"snapshot 9"),
            Some(Command::Snapshot { t: 9 })
        )
    );
    assert!(rt; matches!(short_command(b"listen 4"), Some(Command::Listen { t: 4 })));
    assert!(rt;
        matches!(
            short_command(b"advance 0"),
            Some(Command::Advance { to: 0 })
        )
    );
    assert!(rt; matches!(short_command(b"next"), Some(Command::Next)));
    assert!(rt; matches!(short_command(b"renew"), Some(Command::Renew)));
    assert!(rt; matches!(short_command(b"close"), Some(Command::Close)));
    assert!(rt; matches!(short_command(b"merge"), Some(Command::Merge)));
    assert!(rt; matches!(short_command(b"collect"), Some(Command::Collect)));
    assert!(rt; matches!(short_command(b"expire"), Some(Command::Expire)));
    for text in [
        b"".as_slice(),
        b"next ".as_slice(),
        b"snapshot".as_slice(),
        b"snapshot 01".as_slice(),
        b"append 0 5".as_slice(),
        b"since 5".as_slice(),
        b"Merge".as_slice(),
    ] {
        assert!(rt; short_command(text).is_none());
    }
}

fn line_at_fault(alloc: Global, text: &[u8]) -> Option<u64> {
    match parse_steps(alloc, text) {
        Err(LineFault::Line { number }) => Some(number),
        Err(LineFault::Memory) => Some(0),
        Ok(_) => None,
    }
}

#[test]
fn schedules_are_read_or_refused_by_their_line(rt: HostRuntime) {
    for (text, wanted) in [
        (b"".as_slice(), None),
        (
            b"writer A\nwriter B\nbegin A append 0 10\n1 1 a\n.\nbegin B append 0 10\n1 1 b\n.\nstep A 1\nstep B 2\nstep A 2\n".as_slice(),
            None,
        ),
        (
            b"writer A\ncompactor C 1000\nreader R 1000\nbegin C merge\nstep C 9\nbegin R renew\nstep R 9\n\
            collector G\nbegin G collect\nstep G 2\nstop G\ncollector H\nbegin H collect\nhead\nbegin R snapshot 9"
                .as_slice(),
            None,
        ),
        (
            b"writer A\nreader R 100\nexpirer E\nmoment 99\nbegin E expire\nstep E 9\nmoment 100\nmoment 100\n".as_slice(),
            None,
        ),
        (
            b"reader R 1\nbegin R listen 4\nbegin R next\nbegin R advance 4\nbegin R close".as_slice(),
            None,
        ),
        (b"?".as_slice(), Some(1)),
        (b"writer A\nreader A 5\n".as_slice(), Some(2)),
        (b"writer A\nstep B 1\n".as_slice(), Some(2)),
        (b"writer A\nstop A\nstep A 1\n".as_slice(), Some(3)),
        (b"writer A\nstop A\nwriter A\n".as_slice(), Some(3)),
        (b"writer A\nbegin A snapshot 5\n".as_slice(), Some(2)),
        (b"reader R 5\nbegin R append 0 5\n".as_slice(), Some(2)),
        (b"moment 5\nmoment 4\n".as_slice(), Some(2)),
        (b"writer A\nstep A 0\n".as_slice(), Some(2)),
        (b"writer A\nstep A 1000001\n".as_slice(), Some(2)),
        (b"writer A\nbegin A append 0 5\n1 1 x\n".as_slice(), Some(3)),
        (
            b"writer A\nbegin A append 0 5\nhead\n.\n".as_slice(),
            Some(3),
        ),
        (b"writer abcdefghi\n".as_slice(), Some(1)),
        (b"reader R\n".as_slice(), Some(1)),
        (b"head\n\n".as_slice(), Some(2)),
    ] {
        assert_eq!(rt; line_at_fault(rt.alloc(), text), wanted);
    }
}

// A text of so many equal lines, and of one client for each letter before them.
#[test]
fn clients_and_lines_are_few(rt: HostRuntime) -> Result<(), Fail> {
    let alloc = rt.alloc();
    let mut heads = Vec::new(alloc);
    for _ in 0..2049 {
        heads.extend_from_slice(b"head\n")?;
    }
    assert_eq!(rt; line_at_fault(alloc, &heads), Some(2049));
    let mut clients = Vec::new(alloc);
    for letter in b'A'..b'Z' {
        for other in [b'a', b'b', b'c'] {
            clients.extend_from_slice(b"writer ")?;
            clients.push(letter)?;
            clients.push(other)?;
            clients.push(b'\n')?;
        }
    }
    assert_eq!(rt; line_at_fault(alloc, &clients), Some(65));
    Ok(())
}
