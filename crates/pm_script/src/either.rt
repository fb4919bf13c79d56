ghost use Rattle.std.specs.Prelude.{◌≡◌};
ghost use Rattle.pm_script.specs.Contexts as contexts;
ghost use Rattle.pm_script.specs.Grammar.{either_words, word_in};
ghost use Rattle.pm_script.specs.Reading.{IsReadAs};
ghost use Rattle.pm_script.specs.Words.{texts};
ghost use Rattle.pm_script.specs.declared.either.EitherWord.TheVariants as either;
ghost use Rattle.pm_script.specs.declared.statement.Keyword.TheVariants as keyword;

use crate::context::Context;
use crate::fault::{LineFault, Why};
use crate::numbers::number;
use crate::operands::{bytes_of, id_of, letter_of, want_of};
use crate::script::ScriptOp;
use crate::statement::Statement;
use pm_objects::Sequence;
use std::alloc::Global;

/// A first word that stands in a transaction and outside.
#[derive(Clone, Copy, Debug, PartialEq, Eq)]
pub enum EitherWord {
    Begin,
    Publish,
    Reserve,
    Put,
    Defer,
    Set,
    Cancel,
}

/// The word, if it is one of these.
pub fn word_of(word: &str) -> Option<EitherWord>
    ensures { result ≡ word_in either_words word.now }
{
    match word {
        "begin" => Some(EitherWord::Begin),
        "publish" => Some(EitherWord::Publish),
        "reserve" => Some(EitherWord::Reserve),
        "put" => Some(EitherWord::Put),
        "defer" => Some(EitherWord::Defer),
        "set" => Some(EitherWord::Set),
        "cancel" => Some(EitherWord::Cancel),
        _ => None,
    }
}

/// Reads the operands of a word that stands in a transaction and outside.
pub fn read(
    alloc: Global,
    context: &Context,
    word: EitherWord,
    operands: &[&str],
) -> Result<Statement, LineFault>
    ensures { IsReadAs context.now (keyword.Either word) (texts operands.now) result }
{
    match word {
        EitherWord::Begin => begin_of(alloc, context, operands),
        EitherWord::Publish => publish_of(operands),
        EitherWord::Reserve => reserve_of(operands),
        EitherWord::Put => put_of(alloc, context, operands),
        EitherWord::Defer => defer_of(context, operands),
        EitherWord::Set => set_of(context, operands),
        EitherWord::Cancel => cancel_of(operands),
    }
}

/// Reads `begin [ID or r:ID]..`.
fn begin_of(alloc: Global, context: &Context, operands: &[&str]) -> Result<Statement, LineFault>
    ensures { IsReadAs context.now (keyword.Either either.Begin) (texts operands.now) result }
{
    let mut wants = Vec::new(alloc);
    for operand in operands {
        let want = want_of(context, operand).ok_or(Why::Letter)?;
        wants.push(want)?;
    }
    let wants = Sequence::from_vec(wants);
    Ok(Statement::Operation(ScriptOp::Begin { wants }))
}

/// Reads `publish`.
fn publish_of(operands: &[&str]) -> Result<Statement, LineFault>
    ensures { (context : contexts.Context) → IsReadAs context (keyword.Either either.Publish) (texts operands.now) result }
{
    if operands.is_empty() {
        Ok(Statement::Operation(ScriptOp::Publish))
    } else {
        Err(LineFault::Bad(Why::Count))
    }
}

/// Reads `reserve x SIZE TYPE`.
fn reserve_of(operands: &[&str]) -> Result<Statement, LineFault>
    ensures { (context : contexts.Context) → IsReadAs context (keyword.Either either.Reserve) (texts operands.now) result }
{
    let [letter, size, kind] = operands else {
        return Err(LineFault::Bad(Why::Count));
    };
    let size = number(size).ok_or(Why::Number)?;
    let kind = number(kind).ok_or(Why::Number)?;
    let letter = letter_of(letter).ok_or(Why::Letter)?;
    Ok(Statement::Operation(ScriptOp::Reserve { letter, size, kind }))
}

/// Reads `put ID OFF HEX`.
fn put_of(alloc: Global, context: &Context, operands: &[&str]) -> Result<Statement, LineFault>
    ensures { IsReadAs context.now (keyword.Either either.Put) (texts operands.now) result }
{
    let [id, off, hex] = operands else {
        return Err(LineFault::Bad(Why::Count));
    };
    let off = number(off).ok_or(Why::Number)?;
    let bytes = bytes_of(alloc, hex)?.ok_or(Why::Hex)?;
    let id = id_of(context, id).ok_or(Why::Letter)?;
    Ok(Statement::Operation(ScriptOp::WriteReserved { id, off, bytes }))
}

/// Reads `defer ID`.
fn defer_of(context: &Context, operands: &[&str]) -> Result<Statement, LineFault>
    ensures { IsReadAs context.now (keyword.Either either.Defer) (texts operands.now) result }
{
    let [id] = operands else {
        return Err(LineFault::Bad(Why::Count));
    };
    let id = id_of(context, id).ok_or(Why::Letter)?;
    Ok(Statement::Operation(ScriptOp::DeferFree { id }))
}

/// Reads `set ID OFF VALUE`.
fn set_of(context: &Context, operands: &[&str]) -> Result<Statement, LineFault>
    ensures { IsReadAs context.now (keyword.Either either.Set) (texts operands.now) result }
{
    let [id, off, value] = operands else {
        return Err(LineFault::Bad(Why::Count));
    };
    let off = number(off).ok_or(Why::Number)?;
    let value = number(value).ok_or(Why::Number)?;
    let id = id_of(context, id).ok_or(Why::Letter)?;
    Ok(Statement::Operation(ScriptOp::Set { id, off, value }))
}

/// Reads `cancel`.
fn cancel_of(operands: &[&str]) -> Result<Statement, LineFault>
    ensures { (context : contexts.Context) → IsReadAs context (keyword.Either either.Cancel) (texts operands.now) result }
{
    if operands.is_empty() {
        Ok(Statement::Operation(ScriptOp::Cancel))
    } else {
        Err(LineFault::Bad(Why::Count))
    }
}
