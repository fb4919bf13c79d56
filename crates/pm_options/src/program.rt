//! The program's commands and options, as `clap` is told them.

ghost use Rattle.std.specs.Prelude.{◌≡◌, IfOk, [], codes, false};
ghost use Rattle.clap.specs.Words.{new_app, rule_of};
ghost use Rattle.pm_options.specs.Program.{IsApp, check_rules, command_app, create_rules, exec_rules, option, pool_rules, positional, program, recover_rules};

use crate::help;
use clap::{Arg, ArgAction, Command};
use std::alloc::{AllocError, Global};

/// The program with its commands.
pub fn program<'a>(alloc: Global) -> Result<Command<'a>, AllocError>
    ensures { IfOk result (λ built. IsApp built program) }
{
    let top = named(alloc, "pmempool", help::PROGRAM, help::PROGRAM_END)
        .version(help::VERSION)
        .propagate_version(true)
        .subcommand_required(true)
        .disable_help_subcommand(true);
    let with_create = top.subcommand(create(alloc)?)?;
    let with_exec = with_create.subcommand(exec(alloc)?)?;
    let with_recover = with_exec.subcommand(recover(alloc)?)?;
    let with_check = with_recover.subcommand(check(alloc)?)?;
    let with_info = with_check.subcommand(info(alloc)?)?;
    let with_dump = with_info.subcommand(dump(alloc)?)?;
    Ok(with_dump)
}

/// `create POOL --lanes L --zones Z --id N --layout NAME --root SIZE`.
fn create<'a>(alloc: Global) -> Result<Command<'a>, AllocError>
    ensures { IfOk result (λ built. IsApp built (command_app (codes "create") create_rules)) }
{
    let empty = named(alloc, "create", help::CREATE, help::CREATE_END);
    let pool = empty.arg(positional(alloc, "POOL", "The new pool"))?;
    let lanes = pool.arg(option(alloc, "lanes", "L", "Lanes, 1 to 32", true))?;
    let zones = lanes.arg(option(alloc, "zones", "Z", "Zones, 1 to 32", true))?;
    let id = zones.arg(option(alloc, "id", "N", "The pool's id, 1 or more", true))?;
    let layout = id.arg(option(alloc, "layout", "NAME", "The layout name", true))?;
    let root = layout.arg(option(alloc, "root", "SIZE", "Bytes of the root, 0 for none", true))?;
    Ok(root)
}

/// `exec POOL --script FILE --out POOL2 --layout NAME [--stops LIST] [--keep K]`.
fn exec<'a>(alloc: Global) -> Result<Command<'a>, AllocError>
    ensures { IfOk result (λ built. IsApp built (command_app (codes "exec") exec_rules)) }
{
    let empty = named(alloc, "exec", help::EXEC, help::EXEC_END);
    let pool = empty.arg(positional(alloc, "POOL", "The pool to run on"))?;
    let script = pool.arg(option(alloc, "script", "FILE", "The script", true))?;
    let out = script.arg(option(alloc, "out", "POOL2", "The pool that is left", true))?;
    let layout = out.arg(option(alloc, "layout", "NAME", "The pool's layout name", true))?;
    let stops = layout.arg(option(
        alloc,
        "stops",
        "LIST",
        "Lanes that stop, each after so many counted calls: LANE:CALLS,LANE:CALLS [default: none]",
        false,
    ))?;
    let keep = stops.arg(option(
        alloc,
        "keep",
        "K",
        "Which undrained changes survive: 0 none, 1 all, else chosen by K [default: 0]",
        false,
    ))?;
    Ok(keep)
}

/// `recover POOL --out POOL2 [--stop N] [--keep K]`.
fn recover<'a>(alloc: Global) -> Result<Command<'a>, AllocError>
    ensures { IfOk result (λ built. IsApp built (command_app (codes "recover") recover_rules)) }
{
    let empty = named(alloc, "recover", help::RECOVER, help::RECOVER_END);
    let pool = empty.arg(positional(alloc, "POOL", "The pool to recover"))?;
    let out = pool.arg(option(alloc, "out", "POOL2", "The pool that is left", true))?;
    let stop = out.arg(option(
        alloc,
        "stop",
        "N",
        "After how many counted calls it stops [default: never]",
        false,
    ))?;
    let keep = stop.arg(option(
        alloc,
        "keep",
        "K",
        "Which undrained changes survive: 0 none, 1 all, else chosen by K [default: 0]",
        false,
    ))?;
    Ok(keep)
}

/// `check POOL [--repair POOL2]`.
fn check<'a>(alloc: Global) -> Result<Command<'a>, AllocError>
    ensures { IfOk result (λ built. IsApp built (command_app (codes "check") check_rules)) }
{
    let empty = named(alloc, "check", help::CHECK, help::CHECK_END);
    let pool = empty.arg(positional(alloc, "POOL", "The pool to check"))?;
    let repair = pool.arg(option(
        alloc,
        "repair",
        "POOL2",
        "The mended pool, where the header can be mended",
        false,
    ))?;
    Ok(repair)
}

/// `info POOL`.
fn info<'a>(alloc: Global) -> Result<Command<'a>, AllocError>
    ensures { IfOk result (λ built. IsApp built (command_app (codes "info") pool_rules)) }
{
    let empty = named(alloc, "info", help::INFO, help::INFO_END);
    let pool = empty.arg(positional(alloc, "POOL", "The pool to show"))?;
    Ok(pool)
}

/// `dump POOL`.
fn dump<'a>(alloc: Global) -> Result<Command<'a>, AllocError>
    ensures { IfOk result (λ built. IsApp built (command_app (codes "dump") pool_rules)) }
{
    let empty = named(alloc, "dump", help::DUMP, help::DUMP_END);
    let pool = empty.arg(positional(alloc, "POOL", "The pool to show"))?;
    Ok(pool)
}

/// A command without words, with what it does and what it writes and answers.
fn named<'a>(alloc: Global, name: &'a str, about: &'a str, after: &'a str) -> Command<'a>
    ensures { IsApp result (new_app name.entry.now) }
{
    Command::new(alloc, name).about(about).after_help(after)
}

/// A word that is known by its place, and has to be there.
fn positional<'a>(alloc: Global, name: &'a str, help: &'a str) -> Arg<'a>
    ensures rule { rule_of result ≡ positional name.entry.now }
    ensures local { result.global ≡ false }
{
    Arg::new(alloc, name)
        .help(help)
        .action(ArgAction::Set)
        .required(true)
}

/// An option with one value, which help calls `value`.
fn option<'a>(
    alloc: Global,
    name: &'a str,
    value: &'a str,
    help: &'a str,
    is_needed: bool,
) -> Arg<'a>
    ensures rule { rule_of result ≡ option name.entry.now is_needed }
    ensures local { result.global ≡ false }
{
    Arg::new(alloc, name)
        .long(name)
        .value_name(value)
        .help(help)
        .action(ArgAction::Set)
        .required(is_needed)
}
