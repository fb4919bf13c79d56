ghost use Rattle.std.specs.Prelude.{◌≡◌, [], OnOk, Ok};
ghost use Rattle.pm_plan.specs.Plans.{IsReadyFor, RunsFor};
ghost use Rattle.pm_redo.specs.Calls.{Applied, Performed, StandsTo};
ghost use Rattle.pm_redo.specs.Plans.{applies_all, applies_each};
ghost use Rattle.pm_redo.specs.Stages.{CanApply, CanSeal};
ghost use Rattle.pm_lane_bench.specs.Calls.{AreOrs, AwaitsCall, CanStart, HasListed, IsNumbered, LaneHas, ors_listed};

use crate::lane::{WORD, reserve};
use crate::{BLOCK, Failure, ROUND};
use pm_layout::{MAX_GENERATION, WORD_BYTES};
use pm_memory::Stopped;
use pm_plan::{or, persist_all, store};
use pm_record::{Op, Redo};
use pm_redo::{log, put, retire, seal};
use pm_world::{Lane, LawfulMem};
use std::time::{Duration, Instant};

/// The entry that sets bit 0 of the word.
const OR: Redo = Redo {
    place: WORD_BYTES * WORD,
    op: Op::Or,
    value: 1,
};

/// Makes a block of ORs.
fn make_ors<M: LawfulMem>(mem: &mut M) -> Result<(), Stopped>
    requires { IsReadyFor (M.at mem.old) (applies_each ors_listed) }
    ensures { RunsFor (M.at mem.old) (M.at mem.new) (applies_each ors_listed) result }
{
    for _ in 0..BLOCK {
        or(mem, WORD, 1)?;
    }
    Ok(())
}

/// Applies a block of ORs and one more entry, makes that persistent, and tells how long the ORs
/// took.
fn apply_entries<M: LawfulMem>(
    rt: &HostRuntime,
    mem: &mut M,
    entries: &[Redo],
) -> Result<Duration, Failure>
    requires are { AreOrs entries.now }
    requires ready { IsReadyFor (M.at mem.old) (applies_all entries.now) }
    ensures { OnOk result (RunsFor {T = Unit {0}} (M.at mem.old) (M.at mem.new)
        (applies_all entries.now) (Ok tt)) }
{
    let last = entries[BLOCK as usize];
    let start = Instant::now(rt)?;
    make_ors(mem)?;
    let took = start.elapsed(rt)?;
    store(mem, last.place / WORD_BYTES, last.value)?;
    persist_all(mem)?;
    Ok(took)
}

/// Applies the lane's log, and tells how long its ORs took.
fn apply<M: LawfulMem>(rt: &HostRuntime, lane: &mut Lane<M>) -> Result<Duration, Failure>
    requires may { StandsTo M.at lane.old CanApply }
    requires are { AreOrs lane.old.entries.items }
    ensures { OnOk result (Applied M.at lane.old lane.new (Ok tt)) }
{
    let took = apply_entries(rt, &mut lane.memory, lane.entries.as_slice())?;
    Ok(took)
}

/// Performs the lane's log, and tells how long its ORs took.
fn perform<M: LawfulMem>(rt: &HostRuntime, lane: &mut Lane<M>) -> Result<Duration, Failure>
    requires may { StandsTo M.at lane.old CanSeal }
    requires are { AreOrs lane.old.entries.items }
    ensures { OnOk result (Performed M.at lane.old lane.new (Ok tt)) }
{
    seal(lane)?;
    let took = apply(rt, lane)?;
    retire(lane)?;
    Ok(took)
}

/// Performs the log of a call that has its number, and tells how long its ORs took.
fn end_call<M: LawfulMem>(rt: &HostRuntime, lane: &mut Lane<M>) -> Result<Duration, Failure>
    requires { LaneHas M.at IsNumbered lane.old }
    ensures { OnOk result (LaneHas M.at AwaitsCall lane.new) }
{
    let took = perform(rt, lane)?;
    lane.log.generation += 1;
    Ok(took)
}

/// Writes a log of the ORs, and numbers the call.
fn number<M: LawfulMem>(lane: &mut Lane<M>) -> Result<(), Failure>
    requires { HasListed M.at lane.old }
    ensures { OnOk result (LaneHas M.at IsNumbered lane.new) }
{
    log(lane, lane.log.generation)?;
    lane.memory.draw();
    Ok(())
}

/// Lists a block of ORs.
fn list<M: LawfulMem>(lane: &mut Lane<M>) -> Result<(), Failure>
    requires { lane.old.entries.items ≡ [] }
    ensures { OnOk result ((lane.new.entries.items ≡ ors_listed)
        × (lane.new ≡ record lane.old { entries = lane.new.entries })) }
{
    for _ in 0..BLOCK {
        put(lane, OR)?;
    }
    Ok(())
}

/// Opens a call, and lists its ORs.
fn begin<M: LawfulMem>(lane: &mut Lane<M>) -> Result<(), Failure>
    requires { LaneHas M.at AwaitsCall lane.old }
    ensures { OnOk result (HasListed M.at lane.new) }
{
    let number = lane.memory.number_seen();
    if number >= MAX_GENERATION || lane.log.generation >= MAX_GENERATION {
        return Err(Failure);
    }
    list(lane)?;
    Ok(())
}

/// Makes a call of a block of ORs, and tells how long they took.
fn call<M: LawfulMem>(rt: &HostRuntime, lane: &mut Lane<M>) -> Result<Duration, Failure>
    requires { LaneHas M.at AwaitsCall lane.old }
    ensures { OnOk result (LaneHas M.at AwaitsCall lane.new) }
{
    begin(lane)?;
    number(lane)?;
    end_call(rt, lane)
}

/// Makes so many calls, and tells how long their ORs took.
fn calls<M: LawfulMem>(
    rt: &HostRuntime,
    lane: &mut Lane<M>,
    count: u64,
) -> Result<Duration, Failure>
    requires { LaneHas M.at AwaitsCall lane.old }
    ensures { OnOk result (LaneHas M.at AwaitsCall lane.new) }
{
    let mut took = Duration::ZERO;
    for _ in 0..count {
        took = took.checked_add(call(rt, lane)?).ok_or(Failure)?;
    }
    Ok(took)
}

/// Sets a bit of the word in each step, a block of steps in each call, and tells how long that took
/// with the readings of the clock.
pub fn ors<M: LawfulMem>(
    rt: &HostRuntime,
    lane: &mut Lane<M>,
    rounds: u64,
) -> Result<Duration, Failure>
    requires { LaneHas M.at CanStart lane.old }
{
    if !reserve(&mut lane.memory) {
        return Err(Failure);
    }
    let mut took = Duration::ZERO;
    for _ in 0..rounds {
        let more = calls(rt, lane, ROUND / BLOCK)?;
        took = took.checked_add(more).ok_or(Failure)?;
    }
    Ok(took)
}
