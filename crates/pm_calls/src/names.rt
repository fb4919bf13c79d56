//! The calls that a lane's lines are.

ghost use Rattle.std.specs.Prelude.{◌≡◌, map, option_to_list};
ghost use Rattle.std.specs.List.{list_any};
ghost use Rattle.pm_calls.specs.Calls as calls;
ghost use Rattle.pm_calls.specs.Calls.{has_root, id_of, line_of, want_of};

use pm_objects::{Oid, Want};
use pm_script::{ScriptAt, ScriptId, ScriptLine, ScriptOp, ScriptWant};

/// What the ids of a call's lines stand for.
#[derive(Clone, Copy, Debug, PartialEq, Eq)]
pub struct Names {
    /// The pool's id.
    pub pool: u64,
    /// The pool's root; null where there is none.
    pub root: Oid,
}

/// The object that a line names so.
pub fn id_of(names: Names, id: ScriptId) -> Oid
    ensures { result ≡ id_of names id }
{
    match id {
        ScriptId::Root => names.root,
        ScriptId::At(off) => Oid {
            pool: names.pool,
            off,
        },
        ScriptId::Bound(_) => Oid::NULL,
    }
}

/// The lock that a line asks for.
pub fn want_of(names: Names, want: ScriptWant) -> Want
    ensures { result ≡ want_of names want }
{
    Want {
        id: id_of(names, want.id),
        write: want.write,
    }
}

fn is_root(id: ScriptId) -> bool
    ensures { result ≡ calls.is_root id }
{
    match id {
        ScriptId::Root => true,
        ScriptId::At(_) | ScriptId::Bound(_) => false,
    }
}

/// Whether a destination or a place in a list names the root.
fn is_root_at(at: ScriptAt) -> bool
    ensures { result ≡ list_any calls.is_root (option_to_list at.dest) }
{
    match at.dest {
        Some(id) => is_root(id),
        None => false,
    }
}

/// Whether the line has the word `root`.
pub(crate) fn has_root(line: &ScriptLine) -> bool
    ensures { result ≡ has_root line.now }
{
    match &line.operation {
        ScriptOp::Begin { wants } => wants.as_slice().iter().any(|want| is_root(want.id)),
        ScriptOp::Lock { want } => is_root(want.id),
        ScriptOp::Add { id, .. }
        | ScriptOp::Write { id, .. }
        | ScriptOp::Read { id, .. }
        | ScriptOp::Increment { id, .. }
        | ScriptOp::Free { id }
        | ScriptOp::WriteReserved { id, .. }
        | ScriptOp::DeferFree { id }
        | ScriptOp::Set { id, .. }
        | ScriptOp::UsableSize { id }
        | ScriptOp::TypeNumber { id } => is_root(*id),
        ScriptOp::AllocTo { dest, .. }
        | ScriptOp::ReallocAt { dest, .. }
        | ScriptOp::FreeAt { dest } => is_root(dest.id),
        ScriptOp::Insert { head, at, id } => is_root(*head) || is_root(*id) || is_root_at(*at),
        ScriptOp::InsertNew { head, at, .. } => is_root(*head) || is_root_at(*at),
        ScriptOp::Remove { head, id, .. } => is_root(*head) || is_root(*id),
        ScriptOp::MoveTo {
            head,
            new_head,
            at,
            id,
        } => is_root(*head) || is_root(*new_head) || is_root(*id) || is_root_at(*at),
        ScriptOp::Members { head } => is_root(*head),
        ScriptOp::Alloc { .. }
        | ScriptOp::Reserve { .. }
        | ScriptOp::Publish
        | ScriptOp::Cancel
        | ScriptOp::Commit
        | ScriptOp::Abort { .. }
        | ScriptOp::Root { .. }
        | ScriptOp::RootSize => false,
    }
}

/// Whether one of the lines has the word `root`.
pub fn names_root(lines: &[&ScriptLine]) -> bool
    ensures { result ≡ list_any has_root (map line_of lines.now) }
{
    lines.iter().any(|line| has_root(line))
}
