//! What the letters of a script stand for: each is read as the line that binds it, and stands for the offset that this line gave.

ghost use Rattle.std.specs.Prelude.{◌≡◌, ◌++◌, map, find, IfOk, OnOk};
ghost use Rattle.solo_exec.specs.Letters.{is_of_line, offset_given, offsets_in, resolved_id, resolved_line, resolved_op, resolved_want};

use pm_objects::{Sequence, Value};
use solo_script::{ScriptId, ScriptLine, ScriptOp, ScriptWant};
use std::alloc::{AllocError, Global};

/// The line's pair among these offsets, each with its line's number.
fn pair_given(given: &[(u64, u64)], line: u64) -> Option<(u64, u64)>
    ensures { result ≡ find (is_of_line line) given.now }
{
    given.iter().copied().find(|pair| pair.0 == line)
}

/// The offset that a line gave, if it is among these, each with its line's number.
fn offset_given(given: &[(u64, u64)], line: u64) -> Option<u64>
    ensures { result ≡ offset_given given.now line }
{
    match pair_given(given, line) {
        Some((_, off)) => Some(off),
        None => None,
    }
}

/// The offset that a line gave, if it is among these values.
fn offset_among(values: &[(u64, Value)], line: u64) -> Option<u64>
    ensures { result ≡ offset_given (offsets_in values.now) line }
{
    for pair in values {
        if let Value::Offset(off) = pair.1 {
            if pair.0 == line {
                return Some(off);
            }
        }
    }
    None
}

/// The offset that a line gave, whether its call is over, or gave these values so far.
fn offset_of(given: &[(u64, u64)], values: &[(u64, Value)], line: u64) -> Option<u64>
    ensures { result ≡ offset_given (given.now ++ offsets_in values.now) line }
{
    match offset_given(given, line) {
        Some(off) => Some(off),
        None => offset_among(values, line),
    }
}

/// The id with the offset in its letter's place; a letter that stands for nothing stays.
fn resolved_id(given: &[(u64, u64)], values: &[(u64, Value)], id: ScriptId) -> ScriptId
    ensures { result ≡ resolved_id (given.now ++ offsets_in values.now) id }
{
    let ScriptId::Bound(line) = id else {
        return id;
    };
    match offset_of(given, values, line) {
        Some(off) => ScriptId::At(off),
        None => id,
    }
}

/// The wants with the offsets in their letters' places.
fn resolved_wants(
    alloc: Global,
    given: &[(u64, u64)],
    values: &[(u64, Value)],
    wants: &[ScriptWant],
) -> Result<Sequence<ScriptWant>, AllocError>
    ensures { IfOk result (λ all. all ≡ map (resolved_want (given.now ++ offsets_in values.now)) wants.now) }
{
    let mut all = Vec::new(alloc);
    for want in wants {
        all.push(ScriptWant {
            id: resolved_id(given, values, want.id),
            write: want.write,
        })?;
    }
    Ok(Sequence::from_vec(all))
}

/// The operation with the offsets in its letters' places.
fn resolved_op(
    alloc: Global,
    given: &[(u64, u64)],
    values: &[(u64, Value)],
    operation: &ScriptOp,
) -> Result<ScriptOp, AllocError>
    ensures { IfOk result (λ op. op ≡ resolved_op (given.now ++ offsets_in values.now) operation.now) }
{
    Ok(match operation {
        ScriptOp::Begin { wants } => ScriptOp::Begin {
            wants: resolved_wants(alloc, given, values, wants.as_slice())?,
        },
        ScriptOp::Add { id, off, len } => ScriptOp::Add {
            id: resolved_id(given, values, *id),
            off: *off,
            len: *len,
        },
        ScriptOp::Write { id, off, bytes } => ScriptOp::Write {
            id: resolved_id(given, values, *id),
            off: *off,
            bytes: Sequence::from_vec(Vec::from_slice(alloc, bytes.as_slice())?),
        },
        ScriptOp::Read { id, off, len } => ScriptOp::Read {
            id: resolved_id(given, values, *id),
            off: *off,
            len: *len,
        },
        ScriptOp::Alloc { letter, size, kind } => ScriptOp::Alloc {
            letter: *letter,
            size: *size,
            kind: *kind,
        },
        ScriptOp::Free { id } => ScriptOp::Free {
            id: resolved_id(given, values, *id),
        },
        ScriptOp::Reserve { letter, size, kind } => ScriptOp::Reserve {
            letter: *letter,
            size: *size,
            kind: *kind,
        },
        ScriptOp::WriteReserved { id, off, bytes } => ScriptOp::WriteReserved {
            id: resolved_id(given, values, *id),
            off: *off,
            bytes: Sequence::from_vec(Vec::from_slice(alloc, bytes.as_slice())?),
        },
        ScriptOp::DeferFree { id } => ScriptOp::DeferFree {
            id: resolved_id(given, values, *id),
        },
        ScriptOp::Set { id, off, value } => ScriptOp::Set {
            id: resolved_id(given, values, *id),
            off: *off,
            value: *value,
        },
        ScriptOp::Publish => ScriptOp::Publish,
        ScriptOp::Cancel => ScriptOp::Cancel,
        ScriptOp::Commit => ScriptOp::Commit,
    })
}

/// The line with the offsets in its letters' places, by those that lines gave in calls which are over, each with its line's number, and by the
/// values that its own call gave so far.
pub(crate) fn resolved_line(
    alloc: Global,
    given: &[(u64, u64)],
    values: &[(u64, Value)],
    said: &ScriptLine,
) -> Result<ScriptLine, AllocError>
    ensures { IfOk result (λ line. line ≡ resolved_line (given.now ++ offsets_in values.now) said.now) }
{
    Ok(ScriptLine {
        line: said.line,
        lane: said.lane,
        operation: resolved_op(alloc, given, values, &said.operation)?,
    })
}

/// Adds the offsets among these values.
pub(crate) fn give(given: &mut Vec<(u64, u64)>, values: &[(u64, Value)]) -> Result<(), AllocError>
    ensures { OnOk result (given.new.items ≡ given.old.items ++ offsets_in values.now) }
{
    for pair in values {
        if let Value::Offset(off) = pair.1 {
            given.push((pair.0, off))?;
        }
    }
    Ok(())
}
