//! The command that the words are.

ghost use Rattle.std.specs.Prelude.{◌≡◌, IfErr, IfOk, List};
ghost use Rattle.clap.specs.Words.{Text, found_of, kind_of, rows_of};
ghost use Rattle.pm_options.specs.Asked.{HasFound, IfUsage, IsAsked, IsFault, IsHelpOf};
ghost use Rattle.pm_options.specs.Words.{IsFaulty, IsGiven, IsNoCommand, texts};

use crate::command::Command;
use crate::fault::OptionsFault;
use crate::program::program;
use crate::values::{check_in, create_in, exec_in, recover_in, text};
use clap::error::ErrorKind;
use clap::{ArgMatches, Error};
use std::alloc::Global;

/// What is said of words without a command, which `clap` refuses by itself.
const NO_COMMAND: &str = "error: a command is missing\n\nFor more information, try '--help'.\n";

/// The command that the words are, behind the program's name.
///
/// # Errors
///
/// `Usage` where something is wrong with the words, with a text that says what; `Memory` where there was none.
pub fn command_of<'a>(alloc: Global, words: &'a [String]) -> Result<Command<'a>, OptionsFault>
    ensures asked { IfOk result (IsAsked (texts words.now)) }
    ensures faulty { IfErr result (λ e. IfUsage e (IsFaulty (texts words.now))) }
{
    let program = program(alloc)?;
    match program.try_get_matches_from(words) {
        Ok(matches) => command_in(alloc, &matches),
        Err(error) => told_by(alloc, &error),
    }
}

/// The command that `clap` found.
fn command_in<'a>(alloc: Global, matches: &ArgMatches<'a>) -> Result<Command<'a>, OptionsFault>
    ensures asked { IfOk result (λ command. (words : List Text) →
        HasFound words matches.now → IsAsked words command) }
    ensures faulty { IfErr result (λ e. IfUsage e ((words : List Text) →
        HasFound words matches.now → IsNoCommand words)) }
{
    match matches.subcommand() {
        Some((name, given)) => named_command(alloc, name, given),
        None => Err(OptionsFault::Usage(String::from_str(alloc, NO_COMMAND)?)),
    }
}

/// The command with this name and these values.
fn named_command<'a>(
    alloc: Global,
    name: &str,
    given: &ArgMatches<'a>,
) -> Result<Command<'a>, OptionsFault>
    ensures asked { IfOk result (λ command. (words : List Text) →
        IsGiven words name.now (rows_of (found_of given.now)) → IsAsked words command) }
    ensures faulty { IfErr result (λ e. IfUsage e ((words : List Text) →
        IsGiven words name.now (rows_of (found_of given.now)) → IsNoCommand words)) }
{
    if name == "create" {
        return Ok(Command::Create(create_in(alloc, given)?));
    }
    if name == "exec" {
        return Ok(Command::Exec(exec_in(alloc, given)?));
    }
    if name == "recover" {
        return Ok(Command::Recover(recover_in(alloc, given)?));
    }
    if name == "check" {
        return Ok(Command::Check(check_in(alloc, given)?));
    }
    if name == "info" {
        return Ok(Command::Info(text(alloc, given, "POOL")?));
    }
    if name == "dump" {
        return Ok(Command::Dump(text(alloc, given, "POOL")?));
    }
    Err(OptionsFault::Usage(String::from_str(alloc, NO_COMMAND)?))
}

/// Help or the version, or what `clap` finds wrong.
fn told_by<'a>(alloc: Global, error: &Error) -> Result<Command<'a>, OptionsFault>
    ensures asked { IfOk result (λ command. IsHelpOf (kind_of error.now) command) }
    ensures faulty { IfErr result (λ e. IfUsage e (IsFault (kind_of error.now))) }
{
    if error.kind() == ErrorKind::OutOfMemory {
        return Err(OptionsFault::Memory);
    }
    let text = format!(in alloc; "{error}")?;
    if error.use_stderr() {
        Err(OptionsFault::Usage(text))
    } else {
        Ok(Command::Help(text))
    }
}
