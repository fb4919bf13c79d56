ghost use Rattle.std.specs.Prelude.{◌≡◌};
ghost use Rattle.pm_script.specs.Contexts as contexts;
ghost use Rattle.pm_script.specs.Grammar.{outside_words, word_in};
ghost use Rattle.pm_script.specs.Reading.{IsReadAs};
ghost use Rattle.pm_script.specs.Words.{texts};
ghost use Rattle.pm_script.specs.declared.outside.OutsideWord.TheVariants as outside;
ghost use Rattle.pm_script.specs.declared.statement.Keyword.TheVariants as keyword;

use crate::context::Context;
use crate::fault::{LineFault, Why};
use crate::numbers::number;
use crate::operands::{dest_of, id_of, letter_of, side_of};
use crate::script::{ScriptAt, ScriptDest, ScriptOp};
use crate::statement::Statement;

/// A first word that stands outside of transactions.
#[derive(Clone, Copy, Debug, PartialEq, Eq)]
pub enum OutsideWord {
    AllocTo,
    ReallocAt,
    FreeAt,
    Usable,
    Type,
    Insert,
    InsertNew,
    Remove,
    RemoveFree,
    Move,
    Members,
    Root,
    RootSize,
}

/// The word, if it is one of these.
pub fn word_of(word: &str) -> Option<OutsideWord>
    ensures { result ≡ word_in outside_words word.now }
{
    match word {
        "alloc_to" => Some(OutsideWord::AllocTo),
        "realloc_at" => Some(OutsideWord::ReallocAt),
        "free_at" => Some(OutsideWord::FreeAt),
        "usable" => Some(OutsideWord::Usable),
        "type" => Some(OutsideWord::Type),
        "insert" => Some(OutsideWord::Insert),
        "insert_new" => Some(OutsideWord::InsertNew),
        "remove" => Some(OutsideWord::Remove),
        "remove_free" => Some(OutsideWord::RemoveFree),
        "move" => Some(OutsideWord::Move),
        "members" => Some(OutsideWord::Members),
        "root" => Some(OutsideWord::Root),
        "root_size" => Some(OutsideWord::RootSize),
        _ => None,
    }
}

/// Reads the operands of a word that stands outside of transactions.
pub fn read(context: &Context, word: OutsideWord, operands: &[&str]) -> Result<Statement, LineFault>
    ensures { IsReadAs context.now (keyword.Outside word) (texts operands.now) result }
{
    match word {
        OutsideWord::AllocTo => alloc_to_of(context, operands),
        OutsideWord::ReallocAt => realloc_at_of(context, operands),
        OutsideWord::FreeAt => free_at_of(context, operands),
        OutsideWord::Usable => usable_of(context, operands),
        OutsideWord::Type => type_of(context, operands),
        OutsideWord::Insert => insert_of(context, operands),
        OutsideWord::InsertNew => insert_new_of(context, operands),
        OutsideWord::Remove => remove_of(context, operands),
        OutsideWord::RemoveFree => remove_free_of(context, operands),
        OutsideWord::Move => move_of(context, operands),
        OutsideWord::Members => members_of(context, operands),
        OutsideWord::Root => root_of(operands),
        OutsideWord::RootSize => root_size_of(operands),
    }
}

/// Reads `alloc_to x ID OFF SIZE TYPE`.
fn alloc_to_of(context: &Context, operands: &[&str]) -> Result<Statement, LineFault>
    ensures { IsReadAs context.now (keyword.Outside outside.AllocTo) (texts operands.now) result }
{
    let [letter, id, off, size, kind] = operands else {
        return Err(LineFault::Bad(Why::Count));
    };
    let off = number(off).ok_or(Why::Number)?;
    let size = number(size).ok_or(Why::Number)?;
    let kind = number(kind).ok_or(Why::Number)?;
    let letter = letter_of(letter).ok_or(Why::Letter)?;
    let id = id_of(context, id).ok_or(Why::Letter)?;
    let dest = ScriptDest { id, off };
    Ok(Statement::Operation(ScriptOp::AllocTo {
        letter,
        dest,
        size,
        kind,
    }))
}

/// Reads `realloc_at x ID OFF SIZE TYPE`.
fn realloc_at_of(context: &Context, operands: &[&str]) -> Result<Statement, LineFault>
    ensures { IsReadAs context.now (keyword.Outside outside.ReallocAt) (texts operands.now) result }
{
    let [letter, id, off, size, kind] = operands else {
        return Err(LineFault::Bad(Why::Count));
    };
    let off = number(off).ok_or(Why::Number)?;
    let size = number(size).ok_or(Why::Number)?;
    let kind = number(kind).ok_or(Why::Number)?;
    let letter = letter_of(letter).ok_or(Why::Letter)?;
    let id = id_of(context, id).ok_or(Why::Letter)?;
    let dest = ScriptDest { id, off };
    Ok(Statement::Operation(ScriptOp::ReallocAt {
        letter,
        dest,
        size,
        kind,
    }))
}

/// Reads `free_at ID OFF`.
fn free_at_of(context: &Context, operands: &[&str]) -> Result<Statement, LineFault>
    ensures { IsReadAs context.now (keyword.Outside outside.FreeAt) (texts operands.now) result }
{
    let [id, off] = operands else {
        return Err(LineFault::Bad(Why::Count));
    };
    let off = number(off).ok_or(Why::Number)?;
    let id = id_of(context, id).ok_or(Why::Letter)?;
    let dest = ScriptDest { id, off };
    Ok(Statement::Operation(ScriptOp::FreeAt { dest }))
}

/// Reads `usable ID`.
fn usable_of(context: &Context, operands: &[&str]) -> Result<Statement, LineFault>
    ensures { IsReadAs context.now (keyword.Outside outside.Usable) (texts operands.now) result }
{
    let [id] = operands else {
        return Err(LineFault::Bad(Why::Count));
    };
    let id = id_of(context, id).ok_or(Why::Letter)?;
    Ok(Statement::Operation(ScriptOp::UsableSize { id }))
}

/// Reads `type ID`.
fn type_of(context: &Context, operands: &[&str]) -> Result<Statement, LineFault>
    ensures { IsReadAs context.now (keyword.Outside outside.Type) (texts operands.now) result }
{
    let [id] = operands else {
        return Err(LineFault::Bad(Why::Count));
    };
    let id = id_of(context, id).ok_or(Why::Letter)?;
    Ok(Statement::Operation(ScriptOp::TypeNumber { id }))
}

/// Reads `insert HEAD WHERE DEST ID`.
fn insert_of(context: &Context, operands: &[&str]) -> Result<Statement, LineFault>
    ensures { IsReadAs context.now (keyword.Outside outside.Insert) (texts operands.now) result }
{
    let [head, side, dest, id] = operands else {
        return Err(LineFault::Bad(Why::Count));
    };
    let head = id_of(context, head).ok_or(Why::Letter)?;
    let before = side_of(side).ok_or(Why::Letter)?;
    let dest = dest_of(context, dest).ok_or(Why::Letter)?;
    let id = id_of(context, id).ok_or(Why::Letter)?;
    let at = ScriptAt { dest, before };
    Ok(Statement::Operation(ScriptOp::Insert { head, at, id }))
}

/// Reads `insert_new x HEAD WHERE DEST SIZE TYPE`.
fn insert_new_of(context: &Context, operands: &[&str]) -> Result<Statement, LineFault>
    ensures { IsReadAs context.now (keyword.Outside outside.InsertNew) (texts operands.now) result }
{
    let [letter, head, side, dest, size, kind] = operands else {
        return Err(LineFault::Bad(Why::Count));
    };
    let Some(size) = number(size) else {
        return Err(LineFault::Bad(Why::Number));
    };
    let Some(kind) = number(kind) else {
        return Err(LineFault::Bad(Why::Number));
    };
    let Some(letter) = letter_of(letter) else {
        return Err(LineFault::Bad(Why::Letter));
    };
    let Some(head) = id_of(context, head) else {
        return Err(LineFault::Bad(Why::Letter));
    };
    let Some(before) = side_of(side) else {
        return Err(LineFault::Bad(Why::Letter));
    };
    let Some(dest) = dest_of(context, dest) else {
        return Err(LineFault::Bad(Why::Letter));
    };
    let at = ScriptAt { dest, before };
    Ok(Statement::Operation(ScriptOp::InsertNew {
        letter,
        head,
        at,
        size,
        kind,
    }))
}

/// Reads `remove HEAD ID`.
fn remove_of(context: &Context, operands: &[&str]) -> Result<Statement, LineFault>
    ensures { IsReadAs context.now (keyword.Outside outside.Remove) (texts operands.now) result }
{
    let [head, id] = operands else {
        return Err(LineFault::Bad(Why::Count));
    };
    let head = id_of(context, head).ok_or(Why::Letter)?;
    let id = id_of(context, id).ok_or(Why::Letter)?;
    Ok(Statement::Operation(ScriptOp::Remove {
        head,
        id,
        free: false,
    }))
}

/// Reads `remove_free HEAD ID`.
fn remove_free_of(context: &Context, operands: &[&str]) -> Result<Statement, LineFault>
    ensures { IsReadAs context.now (keyword.Outside outside.RemoveFree) (texts operands.now) result }
{
    let [head, id] = operands else {
        return Err(LineFault::Bad(Why::Count));
    };
    let head = id_of(context, head).ok_or(Why::Letter)?;
    let id = id_of(context, id).ok_or(Why::Letter)?;
    Ok(Statement::Operation(ScriptOp::Remove {
        head,
        id,
        free: true,
    }))
}

/// Reads `move HEAD NEWHEAD WHERE DEST ID`.
fn move_of(context: &Context, operands: &[&str]) -> Result<Statement, LineFault>
    ensures { IsReadAs context.now (keyword.Outside outside.Move) (texts operands.now) result }
{
    let [head, new_head, side, dest, id] = operands else {
        return Err(LineFault::Bad(Why::Count));
    };
    let head = id_of(context, head).ok_or(Why::Letter)?;
    let new_head = id_of(context, new_head).ok_or(Why::Letter)?;
    let before = side_of(side).ok_or(Why::Letter)?;
    let dest = dest_of(context, dest).ok_or(Why::Letter)?;
    let id = id_of(context, id).ok_or(Why::Letter)?;
    let at = ScriptAt { dest, before };
    Ok(Statement::Operation(ScriptOp::MoveTo {
        head,
        new_head,
        at,
        id,
    }))
}

/// Reads `members HEAD`.
fn members_of(context: &Context, operands: &[&str]) -> Result<Statement, LineFault>
    ensures { IsReadAs context.now (keyword.Outside outside.Members) (texts operands.now) result }
{
    let [head] = operands else {
        return Err(LineFault::Bad(Why::Count));
    };
    let head = id_of(context, head).ok_or(Why::Letter)?;
    Ok(Statement::Operation(ScriptOp::Members { head }))
}

/// Reads `root SIZE`.
fn root_of(operands: &[&str]) -> Result<Statement, LineFault>
    ensures { (context : contexts.Context) → IsReadAs context (keyword.Outside outside.Root) (texts operands.now) result }
{
    let [size] = operands else {
        return Err(LineFault::Bad(Why::Count));
    };
    let size = number(size).ok_or(Why::Number)?;
    Ok(Statement::Operation(ScriptOp::Root { size }))
}

/// Reads `root_size`.
fn root_size_of(operands: &[&str]) -> Result<Statement, LineFault>
    ensures { (context : contexts.Context) → IsReadAs context (keyword.Outside outside.RootSize) (texts operands.now) result }
{
    if operands.is_empty() {
        Ok(Statement::Operation(ScriptOp::RootSize))
    } else {
        Err(LineFault::Bad(Why::Count))
    }
}
