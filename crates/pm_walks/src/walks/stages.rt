//! A transaction goes on stage by stage.

ghost use Rattle.pm_call.specs.Standing.{Stands};

use super::{place, writes};
use crate::standing::{abort, begin, end, process};
use pm_model::Stage;
use pm_objects::{Oid, Refusal, TxErr};
use pm_world::{Lane, LawfulMem};
use std::process::Abort;
use std::sync::Wait;
use std::test::Fail;

/// After a commit come `Finally` and `None`, which stays.
fn processed<M: LawfulMem, R: Abort>(rt: &R, lane: &mut Lane<M>) -> Result<(), Fail>
    requires { Stands M.at lane.old }
    ensures { Stands M.at lane.new }
{
    process(lane)?;
    assert_eq!(rt; place(lane), (Stage::Finally, 1, TxErr::None));
    process(lane)?;
    process(lane)?;
    assert_eq!(rt; place(lane), (Stage::None, 1, TxErr::None));
    Ok(())
}

/// From work a step commits; then come `Finally` and `None`, which stays, and the end. In work the
/// level does not end.
pub fn past_a_commit<M: LawfulMem, R: Abort + Wait>(
    rt: &R,
    lane: &mut Lane<M>,
    root: Oid,
) -> Result<(), Fail>
    requires { Stands M.at lane.old }
    ensures { Stands M.at lane.new }
{
    begin(rt, lane, &[writes(root)])?;
    assert_eq!(rt; place(lane), (Stage::Work, 1, TxErr::None));
    assert_eq!(rt; end(lane), Err(Refusal::InTx));
    process(lane)?;
    assert_eq!(rt; place(lane), (Stage::OnCommit, 1, TxErr::None));
    processed(rt, lane)?;
    assert_eq!(rt; end(lane)?, TxErr::None);
    assert_eq!(rt; place(lane), (Stage::None, 0, TxErr::None));
    Ok(())
}

/// After an abort comes `Finally`, and the end tells the error; then no transaction is open.
pub fn past_an_abort<M: LawfulMem, R: Abort + Wait>(
    rt: &R,
    lane: &mut Lane<M>,
    root: Oid,
) -> Result<(), Fail>
    requires { Stands M.at lane.old }
    ensures { Stands M.at lane.new }
{
    begin(rt, lane, &[writes(root)])?;
    abort(lane, 0)?;
    assert_eq!(rt; place(lane), (Stage::OnAbort, 1, TxErr::Canceled));
    process(lane)?;
    assert_eq!(rt; place(lane), (Stage::Finally, 1, TxErr::Canceled));
    assert_eq!(rt; end(lane)?, TxErr::Canceled);
    assert_eq!(rt; process(lane), Err(Refusal::NoTx));
    Ok(())
}
