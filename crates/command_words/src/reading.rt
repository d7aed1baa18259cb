// The command that words are.
ghost use Rattle.std.specs.Prelude.{◌≡◌, ℕ, Err, IfNone, IfOk, IfSome, codes, map};
ghost use Rattle.std.specs.String.{string_bytes};
ghost use Rattle.command_words.specs.Commands.{IsCommand, Means};
ghost use Rattle.command_words.specs.Found.{HasShards, Reads, answer_of, value_in};
ghost use Rattle.command_words.specs.declared.commands.CommandWords.{CommandWords};
ghost use Rattle.command_words.specs.declared.faults.WordsFault.TheVariants.{NoCommand};

use crate::commands::CommandWords;
use crate::crews::ingest_of;
use crate::faults::WordsFault;
use crate::found::command_found;
use crate::values::{count_of, shard_of};
use clap::ArgMatches;
use std::alloc::{AllocError, Global};

#[tactic(auto, using(crate::proofs::Readers::run_none))]
fn run_of(given: &ArgMatches<'_>) -> Option<CommandWords>
    ensures some { IfSome result (Means (codes "run") (value_in given.now)) }
    ensures none { IfNone result ((c : CommandWords) → Means (codes "run") (value_in given.now) c → ⊥) }
{
    match shard_of(given, "shard", 1) {
        None => None,
        Some(shard) => Some(CommandWords::Run { shard }),
    }
}

#[tactic(auto, using(crate::proofs::Readers::steps_none))]
fn steps_of(given: &ArgMatches<'_>) -> Option<CommandWords>
    ensures some { IfSome result (Means (codes "steps") (value_in given.now)) }
    ensures none { IfNone result ((c : CommandWords) → Means (codes "steps") (value_in given.now) c → ⊥) }
{
    match shard_of(given, "shard", 1) {
        None => None,
        Some(shard) => Some(CommandWords::Steps { shard }),
    }
}

// Two shards that differ.
fn shards_of(given: &ArgMatches<'_>) -> Option<(u128, u128)>
    ensures some { IfSome result (HasShards (value_in given.now)) }
    ensures none { IfNone result ((p : ℕ × ℕ) → HasShards (value_in given.now) p → ⊥) }
{
    match shard_of(given, "remap", 2) {
        None => None,
        Some(remap) => match shard_of(given, "data", 3) {
            None => None,
            Some(data) => {
                if remap == data {
                    return None;
                }
                Some((remap, data))
            }
        },
    }
}

#[tactic(auto, using(crate::proofs::Readers::reclock_none, crate::proofs::Readers::uncounted))]
fn reclock_of(given: &ArgMatches<'_>) -> Option<CommandWords>
    ensures some { IfSome result (Means (codes "reclock") (value_in given.now)) }
    ensures none { IfNone result ((c : CommandWords) → Means (codes "reclock") (value_in given.now) c → ⊥) }
{
    match shards_of(given) {
        None => None,
        Some((remap, data)) => match count_of(given, "operators", 1, 16) {
            None => None,
            Some(operators) => Some(CommandWords::Reclock {
                remap,
                data,
                operators,
            }),
        },
    }
}

// The command with this word and these options.
#[tactic(auto, using(crate::proofs::Readers::unnamed, crate::proofs::Readers::as_named, crate::proofs::Readers::none_named, crate::proofs::Readers::as_named_ok, crate::proofs::Readers::none_named_ok))]
fn command_of(
    alloc: Global,
    name: &str,
    given: &ArgMatches<'_>,
) -> Result<Option<CommandWords>, AllocError>
    ensures some { IfOk result (λ found. IfSome found (Means name.now (value_in given.now))) }
    ensures none { IfOk result (λ found. IfNone found ((c : CommandWords) → Means name.now (value_in given.now) c → ⊥)) }
{
    if name == "run" {
        return Ok(run_of(given));
    }
    if name == "steps" {
        return Ok(steps_of(given));
    }
    if name == "ingest" {
        return ingest_of(alloc, given);
    }
    if name == "reclock" {
        return Ok(reclock_of(given));
    }
    Ok(None)
}

// The command that the matches hold.
fn command_in(alloc: Global, matches: &ArgMatches<'_>) -> Result<Option<CommandWords>, AllocError>
    ensures some { IfOk result (λ found. IfSome found (Reads matches.now)) }
    ensures none { IfOk result (λ found. IfNone found ((c : CommandWords) → Reads matches.now c → ⊥)) }
{
    match matches.subcommand() {
        None => Ok(None),
        Some((name, given)) => command_of(alloc, name, given),
    }
}

// A command, or the fault that there is none.
fn answer(found: Result<Option<CommandWords>, AllocError>) -> Result<CommandWords, WordsFault>
    ensures { result ≡ answer_of found }
{
    match found {
        Ok(Some(command)) => Ok(command),
        Ok(None) => Err(WordsFault::NoCommand),
        Err(_) => Err(WordsFault::Memory),
    }
}

/// The command that the words are, the program's name left out: Ok for the words of a command, with that command, and
/// NoCommand for all others; Memory where memory was refused. Which words are which command: `docs/DEFINITIONS.md`, "Words".
pub fn parse_words(alloc: Global, words: &[String]) -> Result<CommandWords, WordsFault>
    ensures command { IfOk result (IsCommand (map string_bytes words.now)) }
    ensures none { result ≡ Err NoCommand → (c : CommandWords) → IsCommand (map string_bytes words.now) c → ⊥ }
{
    match command_found(alloc, words) {
        Err(fault) => Err(fault),
        Ok(matches) => answer(command_in(alloc, &matches)),
    }
}
