//! The calls that a script is of.

ghost use Rattle.std.specs.Prelude.{◌≡◌, ◌≤◌, ◌<◌, ◌++◌, ◌∷◌, [], length, map, take, drop, IfOk};
ghost use Rattle.pm_objects.specs.declared.calls.Operation.TheVariants as operation;
ghost use Rattle.solo_exec.specs.Letters.{resolved};
ghost use Rattle.solo_exec.specs.Calls.{call_of, has_root, id_of, is_commit, is_root, names_of, operation_of, root_in, call_lines, stands_alone, want_of};

use crate::letters::resolved_line;
use pm_objects::{Call, Oid, Operation, PoolView, Sequence, Want};
use solo_pending::SetAction;
use solo_script::{ScriptId, ScriptLine, ScriptOp, ScriptWant};
use std::alloc::{AllocError, Global};

/// What the ids of a script stand for.
#[derive(Clone, Copy, Debug, PartialEq, Eq)]
pub(crate) struct Names {
    /// The pool's number.
    pub(crate) pool: u64,
    /// The pool's root: null where there is none.
    pub(crate) root: Oid,
}

/// What ids stand for in a script that runs on this pool.
pub(crate) fn names_of(pool: &PoolView) -> Names
    ensures { result ≡ names_of pool.now }
{
    let root = match pool.root {
        Some(off) => Oid { pool: pool.id, off },
        None => Oid::NULL,
    };
    Names {
        pool: pool.id,
        root,
    }
}

/// The object that a script names so; null for a letter that stands for nothing.
pub(crate) fn id_of(names: Names, id: ScriptId) -> Oid
    ensures { result ≡ id_of names id }
{
    match id {
        ScriptId::Root => names.root,
        ScriptId::At(off) => Oid {
            pool: names.pool,
            off,
        },
        ScriptId::Bound(_) => Oid::NULL,
    }
}

/// The action that a set of these words asks for.
pub(crate) fn action_of(names: Names, id: ScriptId, off: u64, value: u64) -> SetAction
    ensures { result ≡ record { id = id_of names id; off = off; value = value } }
{
    SetAction {
        id: id_of(names, id),
        off,
        value,
    }
}

/// The locks that a begin wants.
pub(crate) fn wants_of(
    alloc: Global,
    names: Names,
    wants: &[ScriptWant],
) -> Result<Vec<Want>, AllocError>
    ensures { IfOk result (λ all. all.items ≡ map (want_of names) wants.now) }
{
    let mut all = Vec::new(alloc);
    for want in wants {
        let id = id_of(names, want.id);
        all.push(Want {
            id,
            write: want.write,
        })?;
    }
    Ok(all)
}

/// The operation that a line says.
fn operation_of(alloc: Global, names: Names, operation: &ScriptOp) -> Result<Operation, AllocError>
    ensures { IfOk result (λ op. op ≡ operation_of names operation.now) }
{
    match operation {
        ScriptOp::Begin { wants } => begin_of(alloc, names, wants.as_slice()),
        ScriptOp::Add { id, off, len } => Ok(Operation::AddRange {
            id: id_of(names, *id),
            off: *off,
            len: *len,
        }),
        ScriptOp::Write { id, off, bytes } => {
            write_of(alloc, id_of(names, *id), *off, bytes.as_slice())
        }
        ScriptOp::Read { id, off, len } => Ok(Operation::Read {
            id: id_of(names, *id),
            off: *off,
            len: *len,
        }),
        ScriptOp::Alloc { size, kind, .. } => Ok(Operation::Alloc {
            size: *size,
            kind: *kind,
        }),
        ScriptOp::Free { id } => Ok(Operation::Free {
            id: id_of(names, *id),
        }),
        ScriptOp::Reserve { size, kind, .. } => Ok(Operation::Reserve {
            size: *size,
            kind: *kind,
        }),
        ScriptOp::WriteReserved { id, off, bytes } => {
            put_of(alloc, id_of(names, *id), *off, bytes.as_slice())
        }
        ScriptOp::DeferFree { id } => Ok(Operation::DeferFree {
            id: id_of(names, *id),
        }),
        ScriptOp::Set { id, off, value } => Ok(Operation::SetValue {
            id: id_of(names, *id),
            off: *off,
            value: *value,
        }),
        ScriptOp::Publish => Ok(Operation::Publish),
        ScriptOp::Cancel => Ok(Operation::Cancel),
        ScriptOp::Commit => Ok(Operation::Commit),
    }
}

/// A begin with these locks.
fn begin_of(alloc: Global, names: Names, wants: &[ScriptWant]) -> Result<Operation, AllocError>
    ensures { IfOk result (λ op. op ≡ operation.Begin (map (want_of names) wants.now)) }
{
    let wants = wants_of(alloc, names, wants)?;
    Ok(Operation::Begin(Sequence::from_vec(wants)))
}

/// A write of these bytes.
fn write_of(alloc: Global, id: Oid, off: u64, bytes: &[u8]) -> Result<Operation, AllocError>
    ensures { IfOk result (λ op. op ≡ operation.Write id off bytes.now) }
{
    let bytes = Sequence::from_vec(Vec::from_slice(alloc, bytes)?);
    Ok(Operation::Write { id, off, bytes })
}

/// A write of these bytes into what is reserved.
fn put_of(alloc: Global, id: Oid, off: u64, bytes: &[u8]) -> Result<Operation, AllocError>
    ensures { IfOk result (λ op. op ≡ operation.WriteReserved id off bytes.now) }
{
    let bytes = Sequence::from_vec(Vec::from_slice(alloc, bytes)?);
    Ok(Operation::WriteReserved { id, off, bytes })
}

/// The operations that the lines say, with these offsets in their letters' places.
fn operations_of(
    alloc: Global,
    names: Names,
    given: &[(u64, u64)],
    lines: &[ScriptLine],
) -> Result<Vec<Operation>, AllocError>
    ensures { IfOk result (λ all. all.items ≡ map (λ line. operation_of names line.operation) (resolved given.now lines.now)) }
{
    let mut operations = Vec::new(alloc);
    for line in lines {
        let line = resolved_line(alloc, given, &[], line)?;
        let operation = operation_of(alloc, names, &line.operation)?;
        operations.push(operation)?;
    }
    Ok(operations)
}

fn is_root(id: ScriptId) -> bool
    ensures { result ≡ is_root id }
{
    match id {
        ScriptId::Root => true,
        ScriptId::At(_) | ScriptId::Bound(_) => false,
    }
}

/// Whether the line has the word `root`.
fn has_root(operation: &ScriptOp) -> bool
    ensures { result ≡ has_root operation.now }
{
    match operation {
        ScriptOp::Begin { wants } => wants.as_slice().iter().any(|want| is_root(want.id)),
        ScriptOp::Add { id, .. } => is_root(*id),
        ScriptOp::Write { id, .. } => is_root(*id),
        ScriptOp::Read { id, .. } => is_root(*id),
        ScriptOp::Free { id } => is_root(*id),
        ScriptOp::WriteReserved { id, .. } => is_root(*id),
        ScriptOp::DeferFree { id } => is_root(*id),
        ScriptOp::Set { id, .. } => is_root(*id),
        ScriptOp::Alloc { .. }
        | ScriptOp::Reserve { .. }
        | ScriptOp::Publish
        | ScriptOp::Cancel
        | ScriptOp::Commit => false,
    }
}

/// What the word `root` stands for in the lines, where one has it.
fn root_in(names: Names, lines: &[ScriptLine]) -> Option<u64>
    ensures { result ≡ root_in names lines.now }
{
    if lines.iter().any(|line| has_root(&line.operation)) {
        Some(names.root.off)
    } else {
        None
    }
}

/// The call of lane 0 that the lines are, with these offsets in their letters' places.
pub(crate) fn call_of(
    alloc: Global,
    names: Names,
    given: &[(u64, u64)],
    lines: &[ScriptLine],
) -> Result<Call, AllocError>
    requires { 1 ≤ length lines.now }
    ensures { IfOk result (λ call. call ≡ call_of names (resolved given.now lines.now)) }
{
    let operations = operations_of(alloc, names, given, lines)?;
    Ok(Call {
        lane: 0,
        first: lines[0].line,
        last: lines[lines.len() - 1].line,
        root: root_in(names, lines),
        operations: Sequence::from_vec(operations),
    })
}

fn is_commit(operation: &ScriptOp) -> bool
    ensures { result ≡ is_commit operation.now }
{
    match operation {
        ScriptOp::Commit => true,
        _ => false,
    }
}

/// Whether the line is a call of its own where no transaction is open.
pub(crate) fn stands_alone(operation: &ScriptOp) -> bool
    ensures { result ≡ stands_alone operation.now }
{
    matches!(
        operation,
        ScriptOp::Reserve { .. }
            | ScriptOp::WriteReserved { .. }
            | ScriptOp::DeferFree { .. }
            | ScriptOp::Set { .. }
            | ScriptOp::Publish
            | ScriptOp::Cancel
    )
}

/// How many of the lines are the first call: one where that stands alone, else those up to the commit of a transaction, or all where there is none.
pub(crate) fn first_call(lines: &[ScriptLine]) -> usize
    requires { 1 ≤ length lines.now }
    ensures some { 1 ≤ result }
    ensures inside { result ≤ length lines.now }
    ensures first { call_lines lines.now ≡ take result lines.now ∷ call_lines (drop result lines.now) }
{
    if stands_alone(&lines[0].operation) {
        return 1;
    }
    match lines.iter().position(|line| is_commit(&line.operation)) {
        Some(index) => index + 1,
        None => lines.len(),
    }
}
