//! Each operation of a transaction once.

ghost use Rattle.pm_call.specs.Standing.{Stands};

use super::{bytes_of, reads, writes};
use crate::standing::{add_range, begin, commit, end, lock, publish, read, set_value, write};
use pm_objects::{Oid, TxErr};
use pm_world::{Lane, LawfulMem};
use std::process::Abort;
use std::sync::Wait;
use std::test::Fail;

/// The root's first word is written, and its second is to be set: until the commit it reads as it
/// was.
fn changed<M: LawfulMem, R: Abort>(rt: &R, lane: &mut Lane<M>, root: Oid) -> Result<(), Fail>
    requires { Stands M.at lane.old }
    ensures { Stands M.at lane.new }
{
    let mut bytes = [0; 16];
    assert_eq!(rt; add_range(lane, root, 0, 8)?, 1);
    write(lane, root, 0, &[1, 2, 3, 4, 5, 6, 7, 8])?;
    set_value(lane, root, 8, 0x0102030405060708)?;
    publish(lane)?;
    read(lane, root, 0, &mut bytes)?;
    assert_eq!(rt; bytes, [1, 2, 3, 4, 5, 6, 7, 8, 0, 0, 0, 0, 0, 0, 0, 0]);
    Ok(())
}

/// A later transaction reads what was written and what was set. The root's second word is 0 before.
pub fn each_once<M: LawfulMem, R: Abort + Wait>(
    rt: &R,
    lane: &mut Lane<M>,
    root: Oid,
) -> Result<(), Fail>
    requires { Stands M.at lane.old }
    ensures { Stands M.at lane.new }
{
    begin(rt, lane, &[reads(root)])?;
    lock(lane, writes(root))?;
    changed(rt, lane, root)?;
    commit(lane)?;
    assert_eq!(rt; end(lane)?, TxErr::None);
    assert_eq!(rt; bytes_of(rt, lane, root, 0)?, [1, 2, 3, 4, 5, 6, 7, 8]);
    assert_eq!(rt; bytes_of(rt, lane, root, 8)?, [8, 7, 6, 5, 4, 3, 2, 1]);
    Ok(())
}
