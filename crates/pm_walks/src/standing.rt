//! The calls of a transaction, and those on what is pending, as steps of a lane that stands: it does
//! so after each of them, whatever it returns.

ghost use Rattle.pm_call.specs.Standing.{Stands};

use pm_objects::{Oid, Refusal, TxErr, Want};
use pm_world::{Lane, LawfulMem};
use std::sync::Wait;

pub fn add_range<M: LawfulMem>(
    lane: &mut Lane<M>,
    id: Oid,
    off: u64,
    len: u64,
) -> Result<u64, Refusal>
    requires { Stands M.at lane.old }
    ensures { Stands M.at lane.new }
{
    pm_tx::add_range(lane, id, off, len)
}

pub fn write<M: LawfulMem>(
    lane: &mut Lane<M>,
    id: Oid,
    off: u64,
    bytes: &[u8],
) -> Result<(), Refusal>
    requires { Stands M.at lane.old }
    ensures { Stands M.at lane.new }
{
    pm_tx::write(lane, id, off, bytes)
}

pub fn read<M: LawfulMem>(
    lane: &mut Lane<M>,
    id: Oid,
    off: u64,
    into: &mut [u8],
) -> Result<(), Refusal>
    requires { Stands M.at lane.old }
    ensures { Stands M.at lane.new }
{
    pm_tx::read(lane, id, off, into)
}

pub fn increment<M: LawfulMem>(
    lane: &mut Lane<M>,
    id: Oid,
    off: u64,
    by: u64,
) -> Result<u64, Refusal>
    requires { Stands M.at lane.old }
    ensures { Stands M.at lane.new }
{
    pm_tx::increment(lane, id, off, by)
}

#[tactic(auto, using(pm_tx::proofs::Standing::committed_stands, pm_call::proofs::Standing::stands_work))]
pub fn commit<M: LawfulMem>(lane: &mut Lane<M>) -> Result<(), Refusal>
    requires { Stands M.at lane.old }
    ensures { Stands M.at lane.new }
{
    pm_tx::commit(lane)
}

#[tactic(auto, using(pm_call::proofs::Standing::ended_stands, pm_call::proofs::Standing::stands_past))]
pub fn end<M: LawfulMem>(lane: &mut Lane<M>) -> Result<TxErr, Refusal>
    requires { Stands M.at lane.old }
    ensures { Stands M.at lane.new }
{
    pm_tx::end(lane)
}

#[tactic(auto, using(pm_tx::proofs::LockStanding::begun_level_stands, pm_call::proofs::Standing::stands_work, pm_call::proofs::Standing::stands_between))]
pub fn begin<M: LawfulMem, R: Wait>(
    rt: &R,
    lane: &mut Lane<M>,
    wants: &[Want],
) -> Result<(), Refusal>
    requires { Stands M.at lane.old }
    ensures { Stands M.at lane.new }
{
    pm_tx::begin(rt, lane, wants)
}

#[tactic(auto, using(pm_tx::proofs::LockStanding::lock_stands, pm_call::proofs::Standing::stands_work))]
pub fn lock<M: LawfulMem>(lane: &mut Lane<M>, want: Want) -> Result<(), Refusal>
    requires { Stands M.at lane.old }
    ensures { Stands M.at lane.new }
{
    pm_tx::lock(lane, want)
}

#[tactic(auto, using(pm_tx::proofs::Standing::processed_stands, pm_call::proofs::Standing::stands_work, pm_call::proofs::Standing::stands_past))]
pub fn process<M: LawfulMem>(lane: &mut Lane<M>) -> Result<(), Refusal>
    requires { Stands M.at lane.old }
    ensures { Stands M.at lane.new }
{
    pm_tx::process(lane)
}

#[tactic(auto, using(pm_tx::proofs::Standing::aborted_stands, pm_call::proofs::Standing::stands_work))]
pub fn abort<M: LawfulMem>(lane: &mut Lane<M>, errnum: u32) -> Result<(), Refusal>
    requires { Stands M.at lane.old }
    ensures { Stands M.at lane.new }
{
    pm_tx::abort(lane, errnum)
}

#[tactic(auto, using(pm_tx::proofs::Standing::published_stands, pm_call::proofs::Standing::stands_work))]
pub fn publish<M: LawfulMem>(lane: &mut Lane<M>) -> Result<(), Refusal>
    requires { Stands M.at lane.old }
    ensures { Stands M.at lane.new }
{
    pm_tx::publish(lane)
}

#[tactic(auto, using(pm_action::proofs::Standing::asked_by_level_stands, pm_call::proofs::Standing::stands_work, pm_call::proofs::Standing::stands_between))]
pub fn set_value<M: LawfulMem>(
    lane: &mut Lane<M>,
    id: Oid,
    off: u64,
    value: u64,
) -> Result<(), Refusal>
    requires { Stands M.at lane.old }
    ensures { Stands M.at lane.new }
{
    pm_action::set_value(lane, id, off, value)
}

#[tactic(auto, using(pm_action::proofs::Standing::cancelled_by_level_stands, pm_call::proofs::Standing::stands_work, pm_call::proofs::Standing::stands_between))]
pub fn cancel<M: LawfulMem>(lane: &mut Lane<M>) -> Result<(), Refusal>
    requires { Stands M.at lane.old }
    ensures { Stands M.at lane.new }
{
    pm_action::cancel(lane)
}

#[tactic(auto, using(pm_root::proofs::RootLooks::root_id_stands, pm_call::proofs::Standing::stands_between))]
pub fn root_id<M: LawfulMem, R: Wait>(rt: &R, lane: &mut Lane<M>) -> Result<Oid, Refusal>
    requires { Stands M.at lane.old }
    ensures { Stands M.at lane.new }
{
    pm_root::root_id(rt, lane)
}
