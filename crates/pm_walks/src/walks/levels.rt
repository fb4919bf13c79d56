//! Levels inside levels.

ghost use Rattle.pm_call.specs.Standing.{Stands};

use super::{bytes_of, place, writes};
use crate::standing::{abort, add_range, begin, commit, end, write};
use pm_model::Stage;
use pm_objects::{Oid, TxErr};
use pm_world::{Lane, LawfulMem};
use std::process::Abort;
use std::sync::Wait;
use std::test::Fail;

/// A level inside the one that is at work writes the root's second word, and commits.
fn inner_committed<M: LawfulMem, R: Abort + Wait>(
    rt: &R,
    lane: &mut Lane<M>,
    root: Oid,
) -> Result<(), Fail>
    requires { Stands M.at lane.old }
    ensures { Stands M.at lane.new }
{
    begin(rt, lane, &[])?;
    assert_eq!(rt; place(lane), (Stage::Work, 2, TxErr::None));
    add_range(lane, root, 8, 8)?;
    write(lane, root, 8, &[2; 8])?;
    commit(lane)?;
    assert_eq!(rt; place(lane), (Stage::OnCommit, 2, TxErr::None));
    assert_eq!(rt; end(lane)?, TxErr::None);
    assert_eq!(rt; place(lane), (Stage::Work, 1, TxErr::None));
    Ok(())
}

/// An abort of the outer level rolls back what an inner one committed.
pub fn outer_aborted<M: LawfulMem, R: Abort + Wait>(
    rt: &R,
    lane: &mut Lane<M>,
    root: Oid,
) -> Result<(), Fail>
    requires { Stands M.at lane.old }
    ensures { Stands M.at lane.new }
{
    let before = bytes_of(rt, lane, root, 8)?;
    begin(rt, lane, &[writes(root)])?;
    inner_committed(rt, lane, root)?;
    abort(lane, 3)?;
    assert_eq!(rt; place(lane), (Stage::OnAbort, 1, TxErr::User(3)));
    assert_eq!(rt; end(lane)?, TxErr::User(3));
    assert_eq!(rt; bytes_of(rt, lane, root, 8)?, before);
    Ok(())
}

/// An abort of an inner level leaves the outer one aborted, with the same error.
pub fn inner_aborted<M: LawfulMem, R: Abort + Wait>(
    rt: &R,
    lane: &mut Lane<M>,
    root: Oid,
) -> Result<(), Fail>
    requires { Stands M.at lane.old }
    ensures { Stands M.at lane.new }
{
    begin(rt, lane, &[writes(root)])?;
    begin(rt, lane, &[])?;
    abort(lane, 0)?;
    assert_eq!(rt; place(lane), (Stage::OnAbort, 2, TxErr::Canceled));
    assert_eq!(rt; end(lane)?, TxErr::Canceled);
    assert_eq!(rt; place(lane), (Stage::OnAbort, 1, TxErr::Canceled));
    assert_eq!(rt; end(lane)?, TxErr::Canceled);
    assert_eq!(rt; place(lane), (Stage::None, 0, TxErr::None));
    Ok(())
}
