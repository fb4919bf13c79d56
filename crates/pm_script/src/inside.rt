ghost use Rattle.std.specs.Prelude.{◌≡◌};
ghost use Rattle.pm_script.specs.Contexts as contexts;
ghost use Rattle.pm_script.specs.Grammar.{inside_words, word_in};
ghost use Rattle.pm_script.specs.Reading.{IsReadAs};
ghost use Rattle.pm_script.specs.Words.{texts};
ghost use Rattle.pm_script.specs.declared.inside.InsideWord.TheVariants as inside;
ghost use Rattle.pm_script.specs.declared.statement.Keyword.TheVariants as keyword;

use crate::context::Context;
use crate::fault::{LineFault, Why};
use crate::numbers::number;
use crate::operands::{bytes_of, errnum_of, id_of, letter_of, size_of};
use crate::script::{ScriptOp, ScriptWant};
use crate::statement::Statement;
use std::alloc::Global;

/// A first word that stands in a transaction.
#[derive(Clone, Copy, Debug, PartialEq, Eq)]
pub enum InsideWord {
    Lock,
    LockRead,
    Add,
    Write,
    Read,
    Inc,
    Alloc,
    Free,
    Commit,
    Abort,
}

/// The word, if it is one of these.
pub fn word_of(word: &str) -> Option<InsideWord>
    ensures { result ≡ word_in inside_words word.now }
{
    match word {
        "lock" => Some(InsideWord::Lock),
        "lockr" => Some(InsideWord::LockRead),
        "add" => Some(InsideWord::Add),
        "write" => Some(InsideWord::Write),
        "read" => Some(InsideWord::Read),
        "inc" => Some(InsideWord::Inc),
        "alloc" => Some(InsideWord::Alloc),
        "free" => Some(InsideWord::Free),
        "commit" => Some(InsideWord::Commit),
        "abort" => Some(InsideWord::Abort),
        _ => None,
    }
}

/// Reads the operands of a word that stands in a transaction.
pub fn read(
    alloc: Global,
    context: &Context,
    word: InsideWord,
    operands: &[&str],
) -> Result<Statement, LineFault>
    ensures { IsReadAs context.now (keyword.Inside word) (texts operands.now) result }
{
    match word {
        InsideWord::Lock => lock_of(context, operands),
        InsideWord::LockRead => lockr_of(context, operands),
        InsideWord::Add => add_of(context, operands),
        InsideWord::Write => write_of(alloc, context, operands),
        InsideWord::Read => read_of(context, operands),
        InsideWord::Inc => inc_of(context, operands),
        InsideWord::Alloc => alloc_of(operands),
        InsideWord::Free => free_of(context, operands),
        InsideWord::Commit => commit_of(operands),
        InsideWord::Abort => abort_of(operands),
    }
}

/// Reads `lock ID`.
fn lock_of(context: &Context, operands: &[&str]) -> Result<Statement, LineFault>
    ensures { IsReadAs context.now (keyword.Inside inside.Lock) (texts operands.now) result }
{
    let [id] = operands else {
        return Err(LineFault::Bad(Why::Count));
    };
    let id = id_of(context, id).ok_or(Why::Letter)?;
    let want = ScriptWant { id, write: true };
    Ok(Statement::Operation(ScriptOp::Lock { want }))
}

/// Reads `lockr ID`.
fn lockr_of(context: &Context, operands: &[&str]) -> Result<Statement, LineFault>
    ensures { IsReadAs context.now (keyword.Inside inside.LockRead) (texts operands.now) result }
{
    let [id] = operands else {
        return Err(LineFault::Bad(Why::Count));
    };
    let id = id_of(context, id).ok_or(Why::Letter)?;
    let want = ScriptWant { id, write: false };
    Ok(Statement::Operation(ScriptOp::Lock { want }))
}

/// Reads `add ID OFF LEN`.
fn add_of(context: &Context, operands: &[&str]) -> Result<Statement, LineFault>
    ensures { IsReadAs context.now (keyword.Inside inside.Add) (texts operands.now) result }
{
    let [id, off, len] = operands else {
        return Err(LineFault::Bad(Why::Count));
    };
    let off = number(off).ok_or(Why::Number)?;
    let len = number(len).ok_or(Why::Number)?;
    let id = id_of(context, id).ok_or(Why::Letter)?;
    Ok(Statement::Operation(ScriptOp::Add { id, off, len }))
}

/// Reads `write ID OFF HEX`.
fn write_of(alloc: Global, context: &Context, operands: &[&str]) -> Result<Statement, LineFault>
    ensures { IsReadAs context.now (keyword.Inside inside.Write) (texts operands.now) result }
{
    let [id, off, hex] = operands else {
        return Err(LineFault::Bad(Why::Count));
    };
    let off = number(off).ok_or(Why::Number)?;
    let bytes = bytes_of(alloc, hex)?.ok_or(Why::Hex)?;
    let id = id_of(context, id).ok_or(Why::Letter)?;
    Ok(Statement::Operation(ScriptOp::Write { id, off, bytes }))
}

/// Reads `read ID OFF LEN`.
fn read_of(context: &Context, operands: &[&str]) -> Result<Statement, LineFault>
    ensures { IsReadAs context.now (keyword.Inside inside.Read) (texts operands.now) result }
{
    let [id, off, len] = operands else {
        return Err(LineFault::Bad(Why::Count));
    };
    let off = number(off).ok_or(Why::Number)?;
    let len = size_of(len).ok_or(Why::Number)?;
    let id = id_of(context, id).ok_or(Why::Letter)?;
    Ok(Statement::Operation(ScriptOp::Read { id, off, len }))
}

/// Reads `inc ID OFF N`.
fn inc_of(context: &Context, operands: &[&str]) -> Result<Statement, LineFault>
    ensures { IsReadAs context.now (keyword.Inside inside.Inc) (texts operands.now) result }
{
    let [id, off, by] = operands else {
        return Err(LineFault::Bad(Why::Count));
    };
    let off = number(off).ok_or(Why::Number)?;
    let by = number(by).ok_or(Why::Number)?;
    let id = id_of(context, id).ok_or(Why::Letter)?;
    Ok(Statement::Operation(ScriptOp::Increment { id, off, by }))
}

/// Reads `alloc x SIZE TYPE`.
fn alloc_of(operands: &[&str]) -> Result<Statement, LineFault>
    ensures { (context : contexts.Context) → IsReadAs context (keyword.Inside inside.Alloc) (texts operands.now) result }
{
    let [letter, size, kind] = operands else {
        return Err(LineFault::Bad(Why::Count));
    };
    let size = number(size).ok_or(Why::Number)?;
    let kind = number(kind).ok_or(Why::Number)?;
    let letter = letter_of(letter).ok_or(Why::Letter)?;
    Ok(Statement::Operation(ScriptOp::Alloc { letter, size, kind }))
}

/// Reads `free ID`.
fn free_of(context: &Context, operands: &[&str]) -> Result<Statement, LineFault>
    ensures { IsReadAs context.now (keyword.Inside inside.Free) (texts operands.now) result }
{
    let [id] = operands else {
        return Err(LineFault::Bad(Why::Count));
    };
    let id = id_of(context, id).ok_or(Why::Letter)?;
    Ok(Statement::Operation(ScriptOp::Free { id }))
}

/// Reads `commit`.
fn commit_of(operands: &[&str]) -> Result<Statement, LineFault>
    ensures { (context : contexts.Context) → IsReadAs context (keyword.Inside inside.Commit) (texts operands.now) result }
{
    if operands.is_empty() {
        Ok(Statement::Operation(ScriptOp::Commit))
    } else {
        Err(LineFault::Bad(Why::Count))
    }
}

/// Reads `abort E`.
fn abort_of(operands: &[&str]) -> Result<Statement, LineFault>
    ensures { (context : contexts.Context) → IsReadAs context (keyword.Inside inside.Abort) (texts operands.now) result }
{
    let [errnum] = operands else {
        return Err(LineFault::Bad(Why::Count));
    };
    let errnum = errnum_of(errnum).ok_or(Why::Number)?;
    Ok(Statement::Operation(ScriptOp::Abort { errnum }))
}
