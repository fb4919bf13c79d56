//! Two lanes of one pool.

ghost use Rattle.pm_call.specs.Standing.{Stands};

use super::{bytes_of, place, reads, writes};
use crate::standing::{add_range, begin, commit, end, lock, root_id, write};
use pm_model::Stage;
use pm_objects::{Oid, Refusal, TxErr, Want};
use pm_world::{Lane, LawfulMem};
use std::process::Abort;
use std::sync::Wait;
use std::test::Fail;

/// A lock that another lane holds is `Busy` inside a transaction, which is aborted.
fn refused<M: LawfulMem, R: Abort + Wait>(
    rt: &R,
    lane: &mut Lane<M>,
    want: Want,
) -> Result<(), Fail>
    requires { Stands M.at lane.old }
    ensures { Stands M.at lane.new }
{
    let error = TxErr::Refused(Refusal::Busy);
    begin(rt, lane, &[])?;
    assert_eq!(rt; lock(lane, want), Err(Refusal::Busy));
    assert_eq!(rt; place(lane), (Stage::OnAbort, 1, error));
    assert_eq!(rt; end(lane)?, error);
    Ok(())
}

/// While a lane holds the root for writing, another finds its id, but gets no lock of it; once it has ended its
/// transaction, the other reads what was committed.
pub fn busy<M: LawfulMem, O: LawfulMem, R: Abort + Wait>(
    rt: &R,
    lane: &mut Lane<M>,
    other: &mut Lane<O>,
    root: Oid,
) -> Result<(), Fail>
    requires lane { Stands M.at lane.old }
    requires other { Stands O.at other.old }
    ensures lane { Stands M.at lane.new }
    ensures other { Stands O.at other.new }
{
    begin(rt, lane, &[writes(root)])?;
    add_range(lane, root, 0, 8)?;
    write(lane, root, 0, &[7; 8])?;
    assert_eq!(rt; root_id(rt, other), Ok(root));
    refused(rt, other, writes(root))?;
    commit(lane)?;
    refused(rt, other, reads(root))?;
    end(lane)?;
    assert_eq!(rt; bytes_of(rt, other, root, 0)?, [7; 8]);
    Ok(())
}
