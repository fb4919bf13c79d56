//! Locks taken inside a transaction.

ghost use Rattle.pm_call.specs.Standing.{Stands};

use super::{bytes_of, place, reads, writes};
use crate::standing::{add_range, begin, commit, end, lock, write};
use pm_model::Stage;
use pm_objects::{Oid, TxErr};
use pm_world::{Lane, LawfulMem};
use std::process::Abort;
use std::sync::Wait;
use std::test::Fail;

/// A lock for reading is raised to one for writing, under which the root is written.
pub fn raised<M: LawfulMem, R: Abort + Wait>(
    rt: &R,
    lane: &mut Lane<M>,
    root: Oid,
) -> Result<(), Fail>
    requires { Stands M.at lane.old }
    ensures { Stands M.at lane.new }
{
    begin(rt, lane, &[reads(root)])?;
    lock(lane, writes(root))?;
    assert_eq!(rt; place(lane), (Stage::Work, 1, TxErr::None));
    add_range(lane, root, 0, 8)?;
    write(lane, root, 0, &[5; 8])?;
    commit(lane)?;
    assert_eq!(rt; end(lane)?, TxErr::None);
    assert_eq!(rt; bytes_of(rt, lane, root, 0)?, [5; 8]);
    Ok(())
}
