//! Transactions that are aborted.

ghost use Rattle.pm_call.specs.Standing.{Stands};

use super::{bytes_of, place, reads, writes};
use crate::standing::{add_range, begin, end, write};
use pm_model::Stage;
use pm_objects::{Oid, Refusal, TxErr};
use pm_world::{Lane, LawfulMem};
use std::process::Abort;
use std::sync::Wait;
use std::test::Fail;

/// A write that is not recorded, under a lock for reading, or past the end of a root of at most 4032
/// bytes aborts its transaction, and nothing of it stays.
pub fn refusals<M: LawfulMem, R: Abort + Wait>(
    rt: &R,
    lane: &mut Lane<M>,
    root: Oid,
) -> Result<(), Fail>
    requires { Stands M.at lane.old }
    ensures { Stands M.at lane.new }
{
    let before = bytes_of(rt, lane, root, 0)?;
    begin(rt, lane, &[writes(root)])?;
    add_range(lane, root, 0, 8)?;
    write(lane, root, 0, &[7; 8])?;
    assert_eq!(rt; write(lane, root, 8, &[7]), Err(Refusal::NotAdded));
    assert_eq!(rt;
        place(lane),
        (Stage::OnAbort, 1, TxErr::Refused(Refusal::NotAdded))
    );
    assert_eq!(rt; end(lane)?, TxErr::Refused(Refusal::NotAdded));
    begin(rt, lane, &[reads(root)])?;
    assert_eq!(rt; add_range(lane, root, 0, 8), Err(Refusal::NotLocked));
    assert_eq!(rt; end(lane)?, TxErr::Refused(Refusal::NotLocked));
    begin(rt, lane, &[writes(root)])?;
    assert_eq!(rt; add_range(lane, root, 4028, 8), Err(Refusal::OutOfRange));
    assert_eq!(rt; end(lane)?, TxErr::Refused(Refusal::OutOfRange));
    assert_eq!(rt; bytes_of(rt, lane, root, 0)?, before);
    Ok(())
}
