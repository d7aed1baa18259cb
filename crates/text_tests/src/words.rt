// The rules of the words, by examples.
use command_words::{CommandWords, WordsFault, parse_words};
use std::alloc::{AllocError, Global};

fn words_of(alloc: Global, line: &str) -> Result<Vec<String>, AllocError> {
    let mut words = Vec::new(alloc);
    for word in line.split_whitespace() {
        words.push(String::from_str(alloc, word)?)?;
    }
    Ok(words)
}

fn command_of(alloc: Global, line: &str) -> Result<CommandWords, WordsFault> {
    let words = words_of(alloc, line)?;
    parse_words(alloc, words.as_slice())
}

fn is_no_command(alloc: Global, line: &str) -> Result<bool, WordsFault> {
    match command_of(alloc, line) {
        Err(WordsFault::NoCommand) => Ok(true),
        Err(WordsFault::Memory) => Err(WordsFault::Memory),
        Ok(_) => Ok(false),
    }
}

#[test]
fn other_words_are_no_command(rt: HostRuntime) -> Result<(), WordsFault> {
    for line in [
        "",
        "ru",
        "run run",
        "run --fast",
        "run --",
        "-- run",
        "run --shard -- x",
        "run --shard",
        "run --shard=X",
        "run --shard=",
        "run --shard 1",
        "run --shard=00000000000000000000000000000001 --shard=00000000000000000000000000000001",
        "run --sh=00000000000000000000000000000001",
        "steps help",
        "help",
        "-h",
        "--help",
        "run --help",
        "run -h",
        "reclock",
        "reclock --operators",
        "reclock --operators=01",
        "reclock --operators=+1",
        "reclock --operators=0",
        "reclock --operators=17",
        "reclock --operators=1 --data=00000000000000000000000000000002",
        "reclock --operators=1 --shard=00000000000000000000000000000009",
        "ingest",
        "ingest --writers 1 --compactors 0",
        "ingest --writers 0 --compactors 0 --collectors 0",
        "ingest --writers 17 --compactors 0 --collectors 0",
        "ingest --writers 1 --compactors 9 --collectors 0",
        "ingest --writers 1 --compactors 0 --collectors 9",
        "ingest --writers 1 --compactors 0 --collectors +1",
        "ingest --writers 1 --writers 1 --compactors 0 --collectors 0",
        "ingest --writers 1 --compactors 0 --collectors 0 --stop",
        "ingest --writers 1 --compactors 0 --collectors 0 --stop=",
        "ingest --writers 1 --compactors 0 --collectors 0 --stop 1:0",
        "ingest --writers 1 --compactors 0 --collectors 0 --stop 0",
        "ingest --writers 1 --compactors 0 --collectors 0 --stop 0:",
        "ingest --writers 1 --compactors 0 --collectors 0 --stop 0:01",
        "ingest --writers 1 --compactors 0 --collectors 0 --stop -0:1",
        "ingest --writers 1 --compactors 0 --collectors 0 --stop 0:1,",
        "ingest --writers 1 --compactors 0 --collectors 0 --stop 0:1,0:1",
        "ingest --writers 1 --compactors 0 --collectors 0 --stop 0:18446744073709551616",
        "gen 0 1",
    ] {
        assert!(rt; is_no_command(rt.alloc(), line)?, "{line}");
    }
    Ok(())
}

#[test]
fn a_shard_is_spelled_in_four_ways(rt: HostRuntime) -> Result<(), WordsFault> {
    for line in [
        "run --shard=0000000000000000000000000000000a",
        "run --shard 0000000000000000000000000000000A",
        "run --shard=00000000-0000-0000-0000-00000000000a",
        "run --shard={00000000-0000-0000-0000-00000000000a}",
        "run --shard=urn:uuid:00000000-0000-0000-0000-00000000000a",
    ] {
        let command = command_of(rt.alloc(), line)?;
        assert!(rt;
            matches!(&command, CommandWords::Run { shard: 10 }),
            "{line}"
        );
    }
    Ok(())
}

#[test]
fn what_is_left_out_has_a_default(rt: HostRuntime) -> Result<(), WordsFault> {
    let command = command_of(rt.alloc(), "run")?;
    assert!(rt; matches!(&command, CommandWords::Run { shard: 1 }));
    let command = command_of(rt.alloc(), "steps")?;
    assert!(rt; matches!(&command, CommandWords::Steps { shard: 1 }));
    let command = command_of(rt.alloc(), "reclock --operators 1")?;
    assert!(rt;
        matches!(
            &command,
            CommandWords::Reclock {
                remap: 2,
                data: 3,
                operators: 1
            }
        )
    );
    Ok(())
}

#[test]
fn options_come_in_any_order(rt: HostRuntime) -> Result<(), WordsFault> {
    for line in [
        "reclock --operators 16 --data=00000000000000000000000000000009",
        "reclock --data 00000000000000000000000000000009 --operators=16",
    ] {
        let command = command_of(rt.alloc(), line)?;
        assert!(rt;
            matches!(
                &command,
                CommandWords::Reclock {
                    remap: 2,
                    data: 9,
                    operators: 16
                }
            ),
            "{line}"
        );
    }
    Ok(())
}

#[test]
fn a_crew_has_a_size_and_stops(rt: HostRuntime) -> Result<(), WordsFault> {
    for (line, size, stops) in [
        (
            "ingest --writers 1 --compactors 0 --collectors 0",
            (1u32, 0u32, 0u32),
            [None, None, None],
        ),
        (
            "ingest --stop 0:0 --collectors=8 --compactors 8 --writers=16",
            (16, 8, 8),
            [Some(0u64), None, None],
        ),
        (
            "ingest --writers 1 --compactors 1 --collectors 1 --stop 2:7,0:18446744073709551615",
            (1, 1, 1),
            [Some(18_446_744_073_709_551_615), None, Some(7)],
        ),
    ] {
        match command_of(rt.alloc(), line)? {
            CommandWords::Ingest {
                shard,
                writers,
                compactors,
                collectors,
                stops: found,
            } => {
                assert_eq!(rt; shard, 1, "{line}");
                assert_eq!(rt; (writers, compactors, collectors), size, "{line}");
                let found = [found.stop_of(0), found.stop_of(1), found.stop_of(2)];
                assert_eq!(rt; found, stops, "{line}");
            }
            _ => assert!(rt; false, "{line}"),
        }
    }
    Ok(())
}
