//! The root's id, between transactions.

ghost use Rattle.pm_call.specs.Standing.{Stands};

use super::writes;
use crate::standing::{begin, commit, end, root_id};
use pm_objects::{Oid, Refusal};
use pm_world::{Lane, LawfulMem};
use std::process::Abort;
use std::sync::Wait;
use std::test::Fail;

/// The root is found before a transaction, and after it; not in it.
pub fn found<M: LawfulMem, R: Abort + Wait>(
    rt: &R,
    lane: &mut Lane<M>,
    root: Oid,
) -> Result<(), Fail>
    requires { Stands M.at lane.old }
    ensures { Stands M.at lane.new }
{
    assert_eq!(rt; root_id(rt, lane), Ok(root));
    begin(rt, lane, &[writes(root)])?;
    assert_eq!(rt; root_id(rt, lane), Err(Refusal::InTx));
    commit(lane)?;
    end(lane)?;
    assert_eq!(rt; root_id(rt, lane), Ok(root));
    Ok(())
}
