//! Words to be set, published and cancelled.

ghost use Rattle.pm_call.specs.Standing.{Stands};

use super::{bytes_of, place, writes};
use crate::standing::{begin, cancel, commit, end, publish, set_value};
use pm_model::Stage;
use pm_objects::{Oid, Refusal, TxErr};
use pm_world::{Lane, LawfulMem};
use std::process::Abort;
use std::sync::Wait;
use std::test::Fail;

/// A word asked for outside a transaction is published inside one, and set by its commit.
pub fn published<M: LawfulMem, R: Abort + Wait>(
    rt: &R,
    lane: &mut Lane<M>,
    root: Oid,
) -> Result<(), Fail>
    requires { Stands M.at lane.old }
    ensures { Stands M.at lane.new }
{
    set_value(lane, root, 16, 9)?;
    begin(rt, lane, &[writes(root)])?;
    publish(lane)?;
    commit(lane)?;
    end(lane)?;
    assert_eq!(rt; bytes_of(rt, lane, root, 16)?, [9, 0, 0, 0, 0, 0, 0, 0]);
    Ok(())
}

/// A word past the end of a root of 64 bytes is asked for, but its publish aborts the transaction.
pub fn unpublished<M: LawfulMem, R: Abort + Wait>(
    rt: &R,
    lane: &mut Lane<M>,
    root: Oid,
) -> Result<(), Fail>
    requires { Stands M.at lane.old }
    ensures { Stands M.at lane.new }
{
    set_value(lane, root, 64, 9)?;
    begin(rt, lane, &[writes(root)])?;
    assert_eq!(rt; publish(lane), Err(Refusal::OutOfRange));
    assert_eq!(rt;
        place(lane),
        (Stage::OnAbort, 1, TxErr::Refused(Refusal::OutOfRange))
    );
    end(lane)?;
    Ok(())
}

/// Inside a transaction, words are asked for and cancelled, and nothing is left to publish. A word
/// that begins at no multiple of eight is refused.
fn cancelled_inside<M: LawfulMem, R: Abort + Wait>(
    rt: &R,
    lane: &mut Lane<M>,
    root: Oid,
) -> Result<(), Fail>
    requires { Stands M.at lane.old }
    ensures { Stands M.at lane.new }
{
    begin(rt, lane, &[writes(root)])?;
    assert_eq!(rt; set_value(lane, root, 28, 2), Err(Refusal::Unaligned));
    set_value(lane, root, 24, 2)?;
    cancel(lane)?;
    publish(lane)?;
    Ok(())
}

/// What is cancelled, outside a transaction and inside one, is not set.
pub fn cancelled<M: LawfulMem, R: Abort + Wait>(
    rt: &R,
    lane: &mut Lane<M>,
    root: Oid,
) -> Result<(), Fail>
    requires { Stands M.at lane.old }
    ensures { Stands M.at lane.new }
{
    let before = bytes_of(rt, lane, root, 24)?;
    set_value(lane, root, 24, 1)?;
    cancel(lane)?;
    cancelled_inside(rt, lane, root)?;
    commit(lane)?;
    end(lane)?;
    assert_eq!(rt; bytes_of(rt, lane, root, 24)?, before);
    Ok(())
}
