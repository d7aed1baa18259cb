// The words of the command line.
ghost use Rattle.std.specs.Prelude.{◌≡◌, Ok, None, IfOk, IfSome, map, string_bytes};
ghost use Rattle.persist_app.specs.Endings.{NoCommand, Says};
ghost use Rattle.persist_app.specs.TopEnds.{NamesCrew, NoCrew};

use crate::crew_words::CrewWords;
use crate::served::Served;
use command_words::{CommandWords, WordsFault, parse_words};
use ingest_run::CrewSize;
use std::alloc::{AllocError, Global};
use store_core::ShardId;

/// The plain command that the words are; None where they are none.
pub fn command_of(alloc: Global, words: &[String]) -> Result<Option<Served>, AllocError>
    ensures some { IfOk result (λ found. IfSome found (Says (map string_bytes words.now))) }
    ensures none { result ≡ Ok None → NoCommand (map string_bytes words.now) }
{
    match parse_words(alloc, words) {
        Ok(CommandWords::Run { shard }) => Ok(Some(Served::Run(ShardId(shard)))),
        Ok(CommandWords::Steps { shard }) => Ok(Some(Served::Steps(ShardId(shard)))),
        Ok(CommandWords::Ingest { .. }) => Ok(None),
        Ok(CommandWords::Reclock { .. }) => Ok(None),
        Err(WordsFault::NoCommand) => Ok(None),
        Err(WordsFault::Memory) => Err(AllocError),
    }
}

/// The crew that the words of `ingest` name; None where they are no such words.
pub fn crew_of(alloc: Global, words: &[String]) -> Result<Option<CrewWords>, AllocError>
    ensures some { IfOk result (λ found. IfSome found (NamesCrew (map string_bytes words.now))) }
    ensures none { result ≡ Ok None → NoCrew (map string_bytes words.now) }
{
    match parse_words(alloc, words) {
        Ok(
            CommandWords::Ingest {
                shard,
                writers,
                compactors,
                collectors,
                stops,
            },
        ) => Ok(Some(CrewWords {
            shard: ShardId(shard),
            size: CrewSize {
                writers,
                compactors,
                collectors,
                stops,
            },
        })),
        Ok(CommandWords::Run { .. }) => Ok(None),
        Ok(CommandWords::Steps { .. }) => Ok(None),
        Ok(CommandWords::Reclock { .. }) => Ok(None),
        Err(WordsFault::NoCommand) => Ok(None),
        Err(WordsFault::Memory) => Err(AllocError),
    }
}
