//! Numbers of eight bytes that are incremented.

ghost use Rattle.pm_call.specs.Standing.{Stands};

use super::{bytes_of, place, reads, writes};
use crate::standing::{add_range, begin, commit, end, increment, write};
use pm_model::Stage;
use pm_objects::{Oid, Refusal, TxErr};
use pm_world::{Lane, LawfulMem};
use std::process::Abort;
use std::sync::Wait;
use std::test::Fail;

/// A number that lies in two words is incremented, past 2^64 from 0 on again; a later transaction
/// reads the last sum.
pub fn incremented<M: LawfulMem, R: Abort + Wait>(
    rt: &R,
    lane: &mut Lane<M>,
    root: Oid,
) -> Result<(), Fail>
    requires { Stands M.at lane.old }
    ensures { Stands M.at lane.new }
{
    begin(rt, lane, &[writes(root)])?;
    add_range(lane, root, 0, 16)?;
    write(lane, root, 3, &[0, 0, 0, 0, 0, 0, 0, 0])?;
    assert_eq!(rt; increment(lane, root, 3, 258)?, 258);
    assert_eq!(rt; increment(lane, root, 3, u64::MAX)?, 257);
    assert_eq!(rt; increment(lane, root, 3, u64::MAX - 257)?, u64::MAX);
    assert_eq!(rt; increment(lane, root, 3, 516)?, 515);
    commit(lane)?;
    end(lane)?;
    assert_eq!(rt; bytes_of(rt, lane, root, 3)?, [3, 2, 0, 0, 0, 0, 0, 0]);
    Ok(())
}

/// A number without a record, one under a lock for reading, or one that passes the end of a root of
/// 64 bytes aborts its transaction, and nothing of it stays.
pub fn not_incremented<M: LawfulMem, R: Abort + Wait>(
    rt: &R,
    lane: &mut Lane<M>,
    root: Oid,
) -> Result<(), Fail>
    requires { Stands M.at lane.old }
    ensures { Stands M.at lane.new }
{
    let before = bytes_of(rt, lane, root, 0)?;
    begin(rt, lane, &[writes(root)])?;
    add_range(lane, root, 0, 8)?;
    increment(lane, root, 0, 7)?;
    assert_eq!(rt; increment(lane, root, 4, 7), Err(Refusal::NotAdded));
    assert_eq!(rt;
        place(lane),
        (Stage::OnAbort, 1, TxErr::Refused(Refusal::NotAdded))
    );
    assert_eq!(rt; end(lane)?, TxErr::Refused(Refusal::NotAdded));
    begin(rt, lane, &[reads(root)])?;
    assert_eq!(rt; increment(lane, root, 56, 7), Err(Refusal::NotLocked));
    assert_eq!(rt; end(lane)?, TxErr::Refused(Refusal::NotLocked));
    begin(rt, lane, &[reads(root)])?;
    assert_eq!(rt; increment(lane, root, 57, 7), Err(Refusal::OutOfRange));
    assert_eq!(rt; end(lane)?, TxErr::Refused(Refusal::OutOfRange));
    assert_eq!(rt; bytes_of(rt, lane, root, 0)?, before);
    Ok(())
}
