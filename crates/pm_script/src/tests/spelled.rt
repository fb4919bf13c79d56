//! Scripts as the tests spell them, from what a reader made of them.

use crate::*;
use std::alloc::Global;
use std::process::Abort;
use std::test::Fail;

/// An object as scripts write it.
fn object(alloc: Global, id: &ScriptId) -> Result<String, Fail> {
    match id {
        ScriptId::Root => Ok(format!(in alloc; "root")?),
        ScriptId::At(offset) => Ok(format!(in alloc; "{offset}")?),
        ScriptId::Bound(line) => Ok(format!(in alloc; "${line}")?),
    }
}

/// A begin with its locks, as scripts write it.
fn begin(alloc: Global, wants: &[ScriptWant]) -> Result<String, Fail> {
    let mut told = format!(in alloc; "begin")?;
    for want in wants {
        let object = object(alloc, &want.id)?;
        told.push_str(if want.write { " " } else { " r:" })?;
        told.push_str(&object)?;
    }
    Ok(told)
}

/// A word, an object, a place in it and a number behind that.
fn placed(alloc: Global, word: &str, id: &ScriptId, off: u64, number: u64) -> Result<String, Fail> {
    let object = object(alloc, id)?;
    Ok(format!(in alloc; "{word} {object} {off} {number}")?)
}

/// A word, an object, a place in it and the bytes from there on.
fn written(
    alloc: Global,
    word: &str,
    id: &ScriptId,
    off: u64,
    bytes: &[u8],
) -> Result<String, Fail> {
    let object = object(alloc, id)?;
    let digits = hex::encode(alloc, bytes)?;
    Ok(format!(in alloc; "{word} {object} {off} {digits}")?)
}

/// A word, the letter of a new object, its size and its type number.
fn made(alloc: Global, word: &str, letter: u8, size: u64, kind: u64) -> Result<String, Fail> {
    let letter = char::from(b'a'.wrapping_add(letter));
    Ok(format!(in alloc; "{word} {letter} {size} {kind}")?)
}

/// A word and an object.
fn freed(alloc: Global, word: &str, id: &ScriptId) -> Result<String, Fail> {
    let object = object(alloc, id)?;
    Ok(format!(in alloc; "{word} {object}")?)
}

/// A word and two objects.
fn pair(alloc: Global, word: &str, id: &ScriptId, other: &ScriptId) -> Result<String, Fail> {
    let object = object(alloc, id)?;
    let other = self::object(alloc, other)?;
    Ok(format!(in alloc; "{word} {object} {other}")?)
}

/// A lock, as scripts write it.
fn lock(alloc: Global, want: &ScriptWant) -> Result<String, Fail> {
    freed(alloc, if want.write { "lock" } else { "lockr" }, &want.id)
}

/// A word and a destination.
fn at(alloc: Global, word: &str, dest: &ScriptDest) -> Result<String, Fail> {
    let object = object(alloc, &dest.id)?;
    let off = dest.off;
    Ok(format!(in alloc; "{word} {object} {off}")?)
}

/// A word, the letter of a new object, a destination, a size and a type number.
fn put_at(
    alloc: Global,
    word: &str,
    letter: u8,
    dest: &ScriptDest,
    size: u64,
    kind: u64,
) -> Result<String, Fail> {
    let letter = char::from(b'a'.wrapping_add(letter));
    let object = object(alloc, &dest.id)?;
    let off = dest.off;
    Ok(format!(in alloc; "{word} {letter} {object} {off} {size} {kind}")?)
}

/// A place in a list.
fn side(alloc: Global, at: &ScriptAt) -> Result<String, Fail> {
    let side = if at.before { "before" } else { "after" };
    match &at.dest {
        Some(id) => freed(alloc, side, id),
        None => Ok(format!(in alloc; "{side} null")?),
    }
}

/// An insert as scripts write it.
fn insert(alloc: Global, head: &ScriptId, at: &ScriptAt, id: &ScriptId) -> Result<String, Fail> {
    let head = object(alloc, head)?;
    let at = side(alloc, at)?;
    let id = object(alloc, id)?;
    Ok(format!(in alloc; "insert {head} {at} {id}")?)
}

/// An insert of a new object as scripts write it.
fn insert_new(
    alloc: Global,
    letter: u8,
    head: &ScriptId,
    at: &ScriptAt,
    size: u64,
    kind: u64,
) -> Result<String, Fail> {
    let letter = char::from(b'a'.wrapping_add(letter));
    let head = object(alloc, head)?;
    let at = side(alloc, at)?;
    Ok(format!(in alloc; "insert_new {letter} {head} {at} {size} {kind}")?)
}

/// A move as scripts write it.
fn moved(
    alloc: Global,
    head: &ScriptId,
    new_head: &ScriptId,
    at: &ScriptAt,
    id: &ScriptId,
) -> Result<String, Fail> {
    let heads = pair(alloc, "move", head, new_head)?;
    let at = side(alloc, at)?;
    let id = object(alloc, id)?;
    Ok(format!(in alloc; "{heads} {at} {id}")?)
}

/// An operation as scripts write it.
fn operation(alloc: Global, operation: &ScriptOp) -> Result<String, Fail> {
    match operation {
        ScriptOp::Begin { wants } => begin(alloc, wants.as_slice()),
        ScriptOp::Add { id, off, len } => placed(alloc, "add", id, *off, *len),
        ScriptOp::Write { id, off, bytes } => written(alloc, "write", id, *off, bytes.as_slice()),
        ScriptOp::Read { id, off, len } => placed(alloc, "read", id, *off, *len),
        ScriptOp::Alloc { letter, size, kind } => made(alloc, "alloc", *letter, *size, *kind),
        ScriptOp::Free { id } => freed(alloc, "free", id),
        ScriptOp::Reserve { letter, size, kind } => made(alloc, "reserve", *letter, *size, *kind),
        ScriptOp::WriteReserved { id, off, bytes } => {
            written(alloc, "put", id, *off, bytes.as_slice())
        }
        ScriptOp::DeferFree { id } => freed(alloc, "defer", id),
        ScriptOp::Set { id, off, value } => placed(alloc, "set", id, *off, *value),
        ScriptOp::Publish => Ok(format!(in alloc; "publish")?),
        ScriptOp::Cancel => Ok(format!(in alloc; "cancel")?),
        ScriptOp::Commit => Ok(format!(in alloc; "commit")?),
        ScriptOp::Abort { errnum } => Ok(format!(in alloc; "abort {errnum}")?),
        ScriptOp::Lock { want } => lock(alloc, want),
        ScriptOp::Increment { id, off, by } => placed(alloc, "inc", id, *off, *by),
        outside => call(alloc, outside),
    }
}

/// An operation outside of transactions as scripts write it.
fn call(alloc: Global, operation: &ScriptOp) -> Result<String, Fail> {
    match operation {
        ScriptOp::AllocTo {
            letter,
            dest,
            size,
            kind,
        } => { put_at(alloc, "alloc_to", *letter, dest, *size, *kind) }
        ScriptOp::ReallocAt {
            letter,
            dest,
            size,
            kind,
        } => { put_at(alloc, "realloc_at", *letter, dest, *size, *kind) }
        ScriptOp::FreeAt { dest } => at(alloc, "free_at", dest),
        ScriptOp::UsableSize { id } => freed(alloc, "usable", id),
        ScriptOp::TypeNumber { id } => freed(alloc, "type", id),
        ScriptOp::Insert { head, at, id } => insert(alloc, head, at, id),
        ScriptOp::InsertNew {
            letter,
            head,
            at,
            size,
            kind,
        } => { insert_new(alloc, *letter, head, at, *size, *kind) }
        ScriptOp::Remove {
            head,
            id,
            free: false,
        } => pair(alloc, "remove", head, id),
        ScriptOp::Remove {
            head,
            id,
            free: true,
        } => pair(alloc, "remove_free", head, id),
        ScriptOp::MoveTo {
            head,
            new_head,
            at,
            id,
        } => moved(alloc, head, new_head, at, id),
        ScriptOp::Members { head } => freed(alloc, "members", head),
        ScriptOp::Root { size } => Ok(format!(in alloc; "root {size}")?),
        ScriptOp::RootSize => Ok(format!(in alloc; "root_size")?),
        _ => Ok(format!(in alloc; "?")?),
    }
}

/// The script that the text is, as its lanes and its operations, each with its line and its lane; or what is wrong with the text.
pub fn told(alloc: Global, text: &[u8]) -> Result<String, Fail> {
    let script = match parse(alloc, text) {
        Ok(script) => script,
        Err(fault) => return Ok(fault.to_string(alloc)?),
    };
    let lanes = script.lanes;
    let mut told = format!(in alloc; "{lanes} lanes;")?;
    for said in script.lines.as_slice() {
        let line = said.line;
        let lane = said.lane;
        let operation = operation(alloc, &said.operation)?;
        let one = format!(in alloc; " {line} {lane} {operation};")?;
        told.push_str(&one)?;
    }
    Ok(told)
}

/// Compares what a text says.
pub fn tells(rt: &impl Abort, alloc: Global, text: &str, wanted: &str) -> Result<(), Fail> {
    let told = told(alloc, text.as_bytes())?;
    assert_eq!(rt; told.as_str(), wanted, "{text:?}");
    Ok(())
}
