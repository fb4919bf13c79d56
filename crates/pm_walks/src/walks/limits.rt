//! As many levels, locks and records as a transaction may have, and one more.

ghost use Rattle.pm_call.specs.Standing.{Stands};

use super::{place, reads, writes};
use crate::standing::{add_range, begin, end};
use pm_model::Stage;
use pm_objects::{Oid, Refusal, TxErr, Want};
use pm_world::{Lane, LawfulMem};
use std::process::Abort;
use std::sync::Wait;
use std::test::Fail;

/// So many levels begin, each inside the one before.
fn begin_levels<M: LawfulMem, R: Wait>(rt: &R, lane: &mut Lane<M>, count: u64) -> Result<(), Fail>
    requires { Stands M.at lane.old }
    ensures { Stands M.at lane.new }
{
    for _level in 0..count {
        begin(rt, lane, &[])?;
    }
    Ok(())
}

/// So many levels end, each with this error.
fn end_levels<M: LawfulMem, R: Abort>(
    rt: &R,
    lane: &mut Lane<M>,
    count: u64,
    error: TxErr,
) -> Result<(), Fail>
    requires { Stands M.at lane.old }
    ensures { Stands M.at lane.new }
{
    for _level in 0..count {
        assert_eq!(rt; end(lane)?, error);
    }
    Ok(())
}

/// The begin of level 65 fails with `Deep`, and aborts all of the 64.
pub fn many_levels<M: LawfulMem, R: Abort + Wait>(rt: &R, lane: &mut Lane<M>) -> Result<(), Fail>
    requires { Stands M.at lane.old }
    ensures { Stands M.at lane.new }
{
    let error = TxErr::Refused(Refusal::Deep);
    begin_levels(rt, lane, 64)?;
    assert_eq!(rt; place(lane), (Stage::Work, 64, TxErr::None));
    assert_eq!(rt; begin(rt, lane, &[]), Err(Refusal::Deep));
    assert_eq!(rt; place(lane), (Stage::OnAbort, 64, error));
    end_levels(rt, lane, 64, error)?;
    assert_eq!(rt; place(lane), (Stage::None, 0, TxErr::None));
    Ok(())
}

/// The id of the root, of 64 bytes, and 64 ids of no object: one at the root's place in each other
/// chunk of the zone, and one at the second block of the root's chunk.
fn ids_from(id: Oid) -> Result<[Want; 65], Fail> {
    let mut wants = [reads(id); 65];
    for i in 1..65 {
        let step = if i < 64 { 4096 * i as u64 } else { 128 };
        let Some(off) = id.off.checked_add(step) else {
            return Err(Fail::from("an offset of 64 bits"));
        };
        wants[i] = reads(Oid { pool: id.pool, off });
    }
    Ok(wants)
}

/// A begin that names 65 objects fails with `LocksFull` before it looks for one; it is a call of
/// its own, at level 1, that is aborted.
pub fn many_locks<M: LawfulMem, R: Abort + Wait>(
    rt: &R,
    lane: &mut Lane<M>,
    root: Oid,
) -> Result<(), Fail>
    requires { Stands M.at lane.old }
    ensures { Stands M.at lane.new }
{
    let wants = ids_from(root)?;
    let error = TxErr::Refused(Refusal::LocksFull);
    assert_eq!(rt; begin(rt, lane, &wants), Err(Refusal::LocksFull));
    assert_eq!(rt; place(lane), (Stage::OnAbort, 1, error));
    assert_eq!(rt; end(lane)?, error);
    Ok(())
}

/// 2,048 bytes take all of the 64 records; eight more fail with `LogFull`, and the transaction is
/// aborted. The root has at least 2,056 bytes.
pub fn many_records<M: LawfulMem, R: Abort + Wait>(
    rt: &R,
    lane: &mut Lane<M>,
    root: Oid,
) -> Result<(), Fail>
    requires { Stands M.at lane.old }
    ensures { Stands M.at lane.new }
{
    let error = TxErr::Refused(Refusal::LogFull);
    begin(rt, lane, &[writes(root)])?;
    assert_eq!(rt; add_range(lane, root, 0, 2048)?, 256);
    assert_eq!(rt; add_range(lane, root, 0, 2048)?, 0);
    assert_eq!(rt; add_range(lane, root, 2048, 8), Err(Refusal::LogFull));
    assert_eq!(rt; place(lane), (Stage::OnAbort, 1, error));
    assert_eq!(rt; end(lane)?, error);
    Ok(())
}
