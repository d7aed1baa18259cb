// The words of `ingest`.
ghost use Rattle.std.specs.Prelude.{◌≡◌, ◌≤◌, List, Some, IfNone, IfOk, IfSome, codes};
ghost use Rattle.stops_core.specs.declared.stops.Stop.{Stop};
ghost use Rattle.command_words.specs.Commands.{AreStops, Means, shard_in};
ghost use Rattle.command_words.specs.Found.{HasSize, value_in};
ghost use Rattle.command_words.specs.declared.commands.CommandWords.{CommandWords};
ghost use Rattle.command_words.specs.declared.crews.Size.{Size};

use crate::commands::CommandWords;
use crate::values::{count_of, shard_of};
use clap::ArgMatches;
use std::alloc::{AllocError, Global};
use stops_core::StopList;
use stops_text::parse_stops;

// How many workers of each kind there are.
#[derive(Clone, Copy)]
struct Size {
    writers: u32,
    compactors: u32,
    collectors: u32,
}

fn size_of(given: &ArgMatches<'_>) -> Option<Size>
    ensures some { IfSome result (HasSize (value_in given.now)) }
    ensures none { IfNone result ((size : Size) → HasSize (value_in given.now) size → ⊥) }
{
    match count_of(given, "writers", 1, 16) {
        None => None,
        Some(writers) => match count_of(given, "compactors", 0, 8) {
            None => None,
            Some(compactors) => match count_of(given, "collectors", 0, 8) {
                None => None,
                Some(collectors) => Some(Size {
                    writers: writers as u32,
                    compactors: compactors as u32,
                    collectors: collectors as u32,
                }),
            },
        },
    }
}

// The stop numbers that the option gives, of so many workers.
fn stops_of(
    alloc: Global,
    given: &ArgMatches<'_>,
    workers: u32,
) -> Result<Option<StopList>, AllocError>
    ensures some { IfOk result (λ found. IfSome found (AreStops workers (value_in given.now (codes "stop")))) }
    ensures none { IfOk result (λ found. IfNone found ((stops : List Stop) → AreStops workers (value_in given.now (codes "stop")) stops → ⊥)) }
{
    match given.get_str("stop") {
        None => Ok(Some(StopList::new(alloc))),
        Some(text) => parse_stops(alloc, text.as_bytes(), workers),
    }
}

// The command, by its shard and its size.
fn crew_of(
    alloc: Global,
    given: &ArgMatches<'_>,
    shard: u128,
    size: Size,
) -> Result<Option<CommandWords>, AllocError>
    requires shard { Some shard ≡ shard_in 1 (value_in given.now (codes "shard")) }
    requires size { HasSize (value_in given.now) size }
    ensures some { IfOk result (λ found. IfSome found (Means (codes "ingest") (value_in given.now))) }
    ensures none { IfOk result (λ found. IfNone found ((c : CommandWords) → Means (codes "ingest") (value_in given.now) c → ⊥)) }
{
    let Size {
        writers,
        compactors,
        collectors,
    } = size;
    match stops_of(alloc, given, writers + compactors + collectors)? {
        None => Ok(None),
        Some(stops) => Ok(Some(CommandWords::Ingest {
            shard,
            writers,
            compactors,
            collectors,
            stops,
        })),
    }
}

/// The command `ingest` with these options.
#[tactic(auto, using(crate::proofs::Readers::without_size))]
pub(crate) fn ingest_of(
    alloc: Global,
    given: &ArgMatches<'_>,
) -> Result<Option<CommandWords>, AllocError>
    ensures some { IfOk result (λ found. IfSome found (Means (codes "ingest") (value_in given.now))) }
    ensures none { IfOk result (λ found. IfNone found ((c : CommandWords) → Means (codes "ingest") (value_in given.now) c → ⊥)) }
{
    match shard_of(given, "shard", 1) {
        None => Ok(None),
        Some(shard) => match size_of(given) {
            None => Ok(None),
            Some(size) => crew_of(alloc, given, shard, size),
        },
    }
}
