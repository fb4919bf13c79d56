//! The calls that entries of a history have.

ghost use Rattle.std.specs.Prelude.{◌≡◌, ◌<◌, ◌≤◌, IfOk, length, map, slice_index};
ghost use Rattle.pm_calls.specs.Calls as calls;
ghost use Rattle.pm_calls.specs.Calls.{line_of, list_place_of};

use crate::names::{Names, id_of, names_root, want_of};
use pm_objects::{At, Call, Dest, Oid, Operation, Sequence, Want};
use pm_script::{ScriptAt, ScriptDest, ScriptLine, ScriptOp, ScriptWant};
use std::alloc::{AllocError, Global};

fn dest_of(names: Names, dest: ScriptDest) -> Dest
    ensures { result ≡ calls.dest_of names dest }
{
    Dest {
        id: id_of(names, dest.id),
        off: dest.off,
    }
}

fn place_of(names: Names, at: ScriptAt) -> At
    ensures { result ≡ list_place_of names at }
{
    At {
        dest: match at.dest {
            Some(id) => id_of(names, id),
            None => Oid::NULL,
        },
        before: at.before,
    }
}

fn wants_of(alloc: Global, names: Names, wants: &[ScriptWant]) -> Result<Vec<Want>, AllocError>
    ensures { IfOk result (λ all. all.items ≡ map (calls.want_of names) wants.now) }
{
    let mut all = Vec::with_capacity(alloc, wants.len())?;
    for want in wants {
        all.push(want_of(names, *want))?;
    }
    Ok(all)
}

fn bytes_of(alloc: Global, bytes: &[u8]) -> Result<Sequence<u8>, AllocError>
    ensures { IfOk result (λ copy. copy ≡ bytes.now) }
{
    Ok(Sequence::from_vec(Vec::from_slice(alloc, bytes)?))
}

/// The operation that a line says.
fn operation_of(alloc: Global, names: Names, operation: &ScriptOp) -> Result<Operation, AllocError>
    ensures { IfOk result (λ made. made ≡ calls.operation_of names operation.now) }
{
    Ok(match operation {
        ScriptOp::Begin { wants } => {
            Operation::Begin(Sequence::from_vec(wants_of(alloc, names, wants.as_slice())?))
        }
        ScriptOp::Lock { want } => Operation::Lock(want_of(names, *want)),
        ScriptOp::Add { id, off, len } => Operation::AddRange {
            id: id_of(names, *id),
            off: *off,
            len: *len,
        },
        ScriptOp::Write { id, off, bytes } => Operation::Write {
            id: id_of(names, *id),
            off: *off,
            bytes: bytes_of(alloc, bytes.as_slice())?,
        },
        ScriptOp::Read { id, off, len } => Operation::Read {
            id: id_of(names, *id),
            off: *off,
            len: *len,
        },
        ScriptOp::Increment { id, off, by } => Operation::Increment {
            id: id_of(names, *id),
            off: *off,
            by: *by,
        },
        ScriptOp::Alloc { size, kind, .. } => Operation::Alloc {
            size: *size,
            kind: *kind,
        },
        ScriptOp::Free { id } => Operation::Free {
            id: id_of(names, *id),
        },
        ScriptOp::Reserve { size, kind, .. } => Operation::Reserve {
            size: *size,
            kind: *kind,
        },
        ScriptOp::WriteReserved { id, off, bytes } => Operation::WriteReserved {
            id: id_of(names, *id),
            off: *off,
            bytes: bytes_of(alloc, bytes.as_slice())?,
        },
        ScriptOp::DeferFree { id } => Operation::DeferFree {
            id: id_of(names, *id),
        },
        ScriptOp::Set { id, off, value } => Operation::SetValue {
            id: id_of(names, *id),
            off: *off,
            value: *value,
        },
        ScriptOp::Publish => Operation::Publish,
        ScriptOp::Cancel => Operation::Cancel,
        ScriptOp::Commit => Operation::Commit,
        ScriptOp::Abort { errnum } => Operation::Abort { errnum: *errnum },
        ScriptOp::AllocTo {
            dest,
            size,
            kind,
            ..
        } => Operation::AllocTo {
            dest: dest_of(names, *dest),
            size: *size,
            kind: *kind,
        },
        ScriptOp::ReallocAt {
            dest,
            size,
            kind,
            ..
        } => Operation::ReallocAt {
            dest: dest_of(names, *dest),
            size: *size,
            kind: *kind,
        },
        ScriptOp::FreeAt { dest } => Operation::FreeAt {
            dest: dest_of(names, *dest),
        },
        ScriptOp::UsableSize { id } => Operation::UsableSize {
            id: id_of(names, *id),
        },
        ScriptOp::TypeNumber { id } => Operation::TypeNumber {
            id: id_of(names, *id),
        },
        ScriptOp::Insert { head, at, id } => Operation::Insert {
            head: id_of(names, *head),
            at: place_of(names, *at),
            id: id_of(names, *id),
        },
        ScriptOp::InsertNew {
            head,
            at,
            size,
            kind,
            ..
        } => Operation::InsertNew {
            head: id_of(names, *head),
            at: place_of(names, *at),
            size: *size,
            kind: *kind,
        },
        ScriptOp::Remove { head, id, free } => Operation::Remove {
            head: id_of(names, *head),
            id: id_of(names, *id),
            free: *free,
        },
        ScriptOp::MoveTo {
            head,
            new_head,
            at,
            id,
        } => Operation::MoveTo {
            head: id_of(names, *head),
            new_head: id_of(names, *new_head),
            at: place_of(names, *at),
            id: id_of(names, *id),
        },
        ScriptOp::Members { head } => Operation::Members {
            head: id_of(names, *head),
        },
        ScriptOp::Root { size } => Operation::Root { size: *size },
        ScriptOp::RootSize => Operation::RootSize,
    })
}

/// What the word `root` stood for in the lines, where one has it.
fn root_in(names: Names, lines: &[&ScriptLine]) -> Option<u64>
    ensures { result ≡ calls.root_in names (map line_of lines.now) }
{
    if names_root(lines) {
        Some(names.root.off)
    } else {
        None
    }
}

/// The operations that these lines say.
fn operations_of(
    alloc: Global,
    names: Names,
    lines: &[&ScriptLine],
) -> Result<Vec<Operation>, AllocError>
    ensures { IfOk result (λ all. all.items
        ≡ map (calls.line_operation names) (map line_of lines.now)) }
{
    let mut operations = Vec::with_capacity(alloc, lines.len())?;
    for line in lines {
        operations.push(operation_of(alloc, names, &line.operation)?)?;
    }
    Ok(operations)
}

/// The number of one of these lines.
fn number_of(lines: &[&ScriptLine], k: usize) -> u64
    requires { k < length lines.now }
    ensures { result ≡ slice_index (calls.numbers_of (map line_of lines.now)) k }
{
    lines[k].line
}

/// The call of a lane that these lines are.
pub fn call_of(
    alloc: Global,
    names: Names,
    lane: u64,
    lines: &[&ScriptLine],
) -> Result<Call, AllocError>
    requires { 1 ≤ length lines.now }
    ensures { IfOk result (λ call. call ≡ calls.call_of names lane (map line_of lines.now)) }
{
    Ok(Call {
        lane,
        first: number_of(lines, 0),
        last: number_of(lines, lines.len() - 1),
        root: root_in(names, lines),
        operations: Sequence::from_vec(operations_of(alloc, names, lines)?),
    })
}
