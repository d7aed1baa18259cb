// The commands and their options, as clap is told them.
ghost use Rattle.std.specs.Prelude.{◌≡◌, ◌∷◌, [], IfOk, true, false, codes};
ghost use Rattle.clap.specs.Walk.{rule_of};
ghost use Rattle.clap.specs.declared.builder.command.Command.TheViews.{out-Command};
ghost use Rattle.clap.specs.Simple.{app_of, shape_of, with_rule, with_subcommand};
ghost use Rattle.command_words.specs.Uses.{commands, ingest_options, reclock_options, shard_options};
ghost use Rattle.command_words.specs.Program.{leaf, option_rule, program};

use clap::{Arg, Command};
use std::alloc::{AllocError, Global};

// An option that takes one value, by its long name alone.
fn option<'a>(alloc: Global, name: &'a str, is_needed: bool) -> Arg<'a>
    ensures rule { rule_of result ≡ option_rule (name.entry.now, is_needed) }
    ensures local { result.global ≡ false }
{
    Arg::new(alloc, name).long(name).required(is_needed)
}

// The command with one more option.
fn with_option<'a>(
    alloc: Global,
    command: Command<'a>,
    name: &'a str,
    is_needed: bool,
) -> Result<Command<'a>, AllocError>
    requires { (out-Command command).has_globals ≡ false }
    ensures app { IfOk result (λ r. app_of r ≡ with_rule (app_of command.entry) (option_rule (name.entry.now, is_needed))) }
    ensures local { IfOk result (λ r. (out-Command r).has_globals ≡ false) }
{
    command.arg(option(alloc, name, is_needed))
}

// A command on one shard.
fn shard_command<'a>(alloc: Global, name: &'a str) -> Result<Command<'a>, AllocError>
    ensures shape { IfOk result (λ r. shape_of r ≡ leaf (name.entry.now, shard_options)) }
    ensures local { IfOk result (λ r. (out-Command r).has_globals ≡ false) }
{
    with_option(alloc, Command::new(alloc, name), "shard", false)
}

// The command of a crew.
fn ingest_command<'a>(alloc: Global) -> Result<Command<'a>, AllocError>
    ensures shape { IfOk result (λ r. shape_of r ≡ leaf (codes "ingest", ingest_options)) }
    ensures local { IfOk result (λ r. (out-Command r).has_globals ≡ false) }
{
    let command = with_option(alloc, Command::new(alloc, "ingest"), "shard", false)?;
    let command = with_option(alloc, command, "writers", true)?;
    let command = with_option(alloc, command, "compactors", true)?;
    let command = with_option(alloc, command, "collectors", true)?;
    with_option(alloc, command, "stop", false)
}

// The command on two shards.
fn reclock_command<'a>(alloc: Global) -> Result<Command<'a>, AllocError>
    ensures shape { IfOk result (λ r. shape_of r ≡ leaf (codes "reclock", reclock_options)) }
    ensures local { IfOk result (λ r. (out-Command r).has_globals ≡ false) }
{
    let command = with_option(alloc, Command::new(alloc, "reclock"), "remap", false)?;
    let command = with_option(alloc, command, "data", false)?;
    with_option(alloc, command, "operators", true)
}

// The program without its commands.
fn bare_program<'a>(alloc: Global) -> Command<'a>
    ensures app { app_of result ≡ program [] }
    ensures local { (out-Command result).has_globals ≡ false }
{
    Command::new(alloc, "persist")
        .no_binary_name(true)
        .disable_help_flag(true)
        .disable_help_subcommand(true)
        .subcommand_required(true)
}

// The program with one more command.
fn with_command<'a>(program: Command<'a>, command: Command<'a>) -> Result<Command<'a>, AllocError>
    requires { ((out-Command program).has_globals ≡ false) × ((out-Command command).has_globals ≡ false) }
    ensures app { IfOk result (λ r. app_of r ≡ with_subcommand (app_of program.entry) (shape_of command.entry)) }
    ensures local { IfOk result (λ r. (out-Command r).has_globals ≡ false) }
{
    program.subcommand(command)
}

// The program with its commands.
pub(crate) fn whole_program<'a>(alloc: Global) -> Result<Command<'a>, AllocError>
    ensures { IfOk result (λ r. app_of r ≡ program commands) }
{
    let program = with_command(bare_program(alloc), shard_command(alloc, "run")?)?;
    let program = with_command(program, shard_command(alloc, "steps")?)?;
    let program = with_command(program, ingest_command(alloc)?)?;
    with_command(program, reclock_command(alloc)?)
}
