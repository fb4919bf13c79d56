//! The values of a command's words and options.

ghost use Rattle.std.specs.Prelude.{◌≡◌, ℕ, List, Option, None, IfErr, IfOk, IfSome, option_map};
ghost use Rattle.clap.specs.Words.{Text, first_of, found_of, rows_of};
ghost use Rattle.pm_options.specs.Asked.{IfUsage, check_asked, create_asked, exec_asked, recover_asked};
ghost use Rattle.pm_options.specs.Words.{Check, Create, Exec, HasCheck, HasCreate, HasExec, HasNumber, HasNumberIfThere, HasNumberOrZero, HasRecover, HasStops, HasValue, Recover};

use crate::command::{CheckWords, CreateWords, ExecWords, RecoverWords};
use crate::fault::OptionsFault;
use clap::ArgMatches;
use pm_script::{number, stops};
use std::alloc::{AllocError, Global};

/// The values of `create`.
pub fn create_in<'a>(alloc: Global, given: &ArgMatches<'a>) -> Result<CreateWords<'a>, OptionsFault>
    ensures some { IfOk result (λ c. HasCreate (rows_of (found_of given.now)) (create_asked c)) }
    ensures none { IfErr result (λ e. IfUsage e
        ((c : Create) → ¬ HasCreate (rows_of (found_of given.now)) c)) }
{
    let pool = text(alloc, given, "POOL")?;
    let lanes = number_in(alloc, given, "lanes")?;
    let zones = number_in(alloc, given, "zones")?;
    let id = number_in(alloc, given, "id")?;
    let layout = text(alloc, given, "layout")?;
    let root = number_in(alloc, given, "root")?;
    Ok(CreateWords {
        pool,
        lanes,
        zones,
        id,
        layout,
        root,
    })
}

/// The values of `exec`.
pub fn exec_in<'a>(alloc: Global, given: &ArgMatches<'a>) -> Result<ExecWords<'a>, OptionsFault>
    ensures some { IfOk result (λ e. HasExec (rows_of (found_of given.now)) (exec_asked e)) }
    ensures none { IfErr result (λ fault. IfUsage fault
        ((e : Exec) → ¬ HasExec (rows_of (found_of given.now)) e)) }
{
    let pool = text(alloc, given, "POOL")?;
    let script = text(alloc, given, "script")?;
    let out = text(alloc, given, "out")?;
    let layout = text(alloc, given, "layout")?;
    let stops = stops_in(alloc, given)?;
    let keep = number_or_zero(alloc, given, "keep")?;
    Ok(ExecWords {
        pool,
        script,
        out,
        layout,
        stops,
        keep,
    })
}

/// The values of `recover`.
pub fn recover_in<'a>(
    alloc: Global,
    given: &ArgMatches<'a>,
) -> Result<RecoverWords<'a>, OptionsFault>
    ensures some { IfOk result (λ r. HasRecover (rows_of (found_of given.now)) (recover_asked r)) }
    ensures none { IfErr result (λ e. IfUsage e
        ((r : Recover) → ¬ HasRecover (rows_of (found_of given.now)) r)) }
{
    let pool = text(alloc, given, "POOL")?;
    let out = text(alloc, given, "out")?;
    let stop = number_if_there(alloc, given, "stop")?;
    let keep = number_or_zero(alloc, given, "keep")?;
    Ok(RecoverWords {
        pool,
        out,
        stop,
        keep,
    })
}

/// The values of `check`.
pub fn check_in<'a>(alloc: Global, given: &ArgMatches<'a>) -> Result<CheckWords<'a>, OptionsFault>
    ensures some { IfOk result (λ c. HasCheck (rows_of (found_of given.now)) (check_asked c)) }
    ensures none { IfErr result (λ e. IfUsage e
        ((c : Check) → ¬ HasCheck (rows_of (found_of given.now)) c)) }
{
    let pool = text(alloc, given, "POOL")?;
    let repair = value(given, "repair");
    Ok(CheckWords { pool, repair })
}

/// The value of an option, or of a word, if it is there.
fn value<'a>(given: &ArgMatches<'a>, name: &str) -> Option<&'a str>
    ensures { option_map (λ text. text.now) result ≡ first_of name.now (rows_of (found_of given.now)) }
{
    given.get_str(name)
}

/// The value of an option, or of a word, that has to be there.
pub fn text<'a>(alloc: Global, given: &ArgMatches<'a>, name: &str) -> Result<&'a str, OptionsFault>
    ensures some { IfOk result (λ text. HasValue (rows_of (found_of given.now)) name.now text.now) }
    ensures none { IfErr result (λ e. IfUsage e
        ((text : Text) → ¬ HasValue (rows_of (found_of given.now)) name.now text)) }
{
    match value(given, name) {
        Some(text) => Ok(text),
        None => Err(OptionsFault::Usage(missing(alloc, name)?)),
    }
}

/// The number that is an option's value.
fn number_in(alloc: Global, given: &ArgMatches<'_>, name: &str) -> Result<u64, OptionsFault>
    ensures some { IfOk result (HasNumber (rows_of (found_of given.now)) name.now) }
    ensures none { IfErr result (λ e. IfUsage e
        ((n : ℕ) → ¬ HasNumber (rows_of (found_of given.now)) name.now n)) }
{
    let text = text(alloc, given, name)?;
    match number(text) {
        Some(number) => Ok(number),
        None => Err(OptionsFault::Usage(bad_value(alloc, name, text)?)),
    }
}

/// The number that is an option's value, or 0 where the option is left out.
fn number_or_zero(alloc: Global, given: &ArgMatches<'_>, name: &str) -> Result<u64, OptionsFault>
    ensures some { IfOk result (HasNumberOrZero (rows_of (found_of given.now)) name.now) }
    ensures none { IfErr result (λ e. IfUsage e
        ((n : ℕ) → ¬ HasNumberOrZero (rows_of (found_of given.now)) name.now n)) }
{
    let Some(text) = value(given, name) else {
        return Ok(0);
    };
    match number(text) {
        Some(number) => Ok(number),
        None => Err(OptionsFault::Usage(bad_value(alloc, name, text)?)),
    }
}

/// The number that is an option's value, if the option is there.
fn number_if_there(
    alloc: Global,
    given: &ArgMatches<'_>,
    name: &str,
) -> Result<Option<u64>, OptionsFault>
    ensures some { IfOk result (HasNumberIfThere (rows_of (found_of given.now)) name.now) }
    ensures none { IfErr result (λ e. IfUsage e
        ((n : Option ℕ) → ¬ HasNumberIfThere (rows_of (found_of given.now)) name.now n)) }
{
    let Some(text) = value(given, name) else {
        return Ok(None);
    };
    match number(text) {
        Some(number) => Ok(Some(number)),
        None => Err(OptionsFault::Usage(bad_value(alloc, name, text)?)),
    }
}

/// The stops that `--stops` lists; none where it is left out.
fn stops_in(alloc: Global, given: &ArgMatches<'_>) -> Result<Vec<(u64, u64)>, OptionsFault>
    ensures some { IfOk result (λ found. HasStops (rows_of (found_of given.now)) found.items) }
    ensures none { IfErr result (λ e. IfUsage e
        ((found : List (ℕ × ℕ)) → ¬ HasStops (rows_of (found_of given.now)) found)) }
{
    let Some(text) = value(given, "stops") else {
        return Ok(Vec::new(alloc));
    };
    match stops(alloc, text)? {
        Some(found) => Ok(found),
        None => Err(OptionsFault::Usage(bad_value(alloc, "stops", text)?)),
    }
}

/// What is said of a word that is missing, which `clap` tells by itself.
fn missing(alloc: Global, name: &str) -> Result<String, AllocError> {
    format!(in alloc; "error: '{name}' is missing\n\n{MORE}")
}

/// What is said of a value that has not its option's form.
fn bad_value(alloc: Global, name: &str, value: &str) -> Result<String, AllocError> {
    format!(in alloc; "error: invalid value '{value}' for '--{name}'\n\n{MORE}")
}

/// The last line of what is said of a faulty line, as `clap` has it.
const MORE: &str = "For more information, try '--help'.\n";
