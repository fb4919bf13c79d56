//! The calls of a transaction that the program makes, of a lane that stands: it stands after each of
//! them, whatever it returns.

ghost use Rattle.pm_call.specs.Standing.{Stands};

use pm_objects::{Oid, Refusal, TxErr, Want};
use pm_world::{Lane, LawfulMem};
use std::sync::Wait;

/// Records a range of an object: pmemobj_tx_add_range(3).
pub fn add_range<M: LawfulMem>(
    lane: &mut Lane<M>,
    id: Oid,
    off: u64,
    len: u64,
) -> Result<u64, Refusal>
    requires { Stands M.at lane.old }
    ensures { Stands M.at lane.new }
{
    pm_tx::add_range(lane, id, off, len)
}

/// Writes bytes into a recorded range of an object.
pub fn write<M: LawfulMem>(
    lane: &mut Lane<M>,
    id: Oid,
    off: u64,
    bytes: &[u8],
) -> Result<(), Refusal>
    requires { Stands M.at lane.old }
    ensures { Stands M.at lane.new }
{
    pm_tx::write(lane, id, off, bytes)
}

/// Reads bytes of an object.
pub fn read<M: LawfulMem>(
    lane: &mut Lane<M>,
    id: Oid,
    off: u64,
    into: &mut [u8],
) -> Result<(), Refusal>
    requires { Stands M.at lane.old }
    ensures { Stands M.at lane.new }
{
    pm_tx::read(lane, id, off, into)
}

/// Commits the transaction: pmemobj_tx_commit(3).
#[tactic(auto, using(pm_tx::proofs::Standing::committed_stands, pm_call::proofs::Standing::stands_work))]
pub fn commit<M: LawfulMem>(lane: &mut Lane<M>) -> Result<(), Refusal>
    requires { Stands M.at lane.old }
    ensures { Stands M.at lane.new }
{
    pm_tx::commit(lane)
}

/// Ends the transaction, and gives its locks back: pmemobj_tx_end(3).
#[tactic(auto, using(pm_call::proofs::Standing::ended_stands, pm_call::proofs::Standing::stands_past))]
pub fn end<M: LawfulMem>(lane: &mut Lane<M>) -> Result<TxErr, Refusal>
    requires { Stands M.at lane.old }
    ensures { Stands M.at lane.new }
{
    pm_tx::end(lane)
}

/// Begins a transaction with the locks of these objects: pmemobj_tx_begin(3).
#[tactic(auto, using(pm_tx::proofs::LockStanding::begun_level_stands, pm_call::proofs::Standing::stands_work, pm_call::proofs::Standing::stands_between))]
pub fn begin<M: LawfulMem, R: Wait>(
    rt: &R,
    lane: &mut Lane<M>,
    wants: &[Want],
) -> Result<(), Refusal>
    requires { Stands M.at lane.old }
    ensures { Stands M.at lane.new }
{
    pm_tx::begin(rt, lane, wants)
}
