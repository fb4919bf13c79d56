ghost use Rattle.std.specs.Prelude.{◌≡◌, ◌≢◌, ◌≤◌, Any, Err, IfErr, OnOk, [], None, Some, false, true};
ghost use Rattle.solo_crash.specs.Operations.{IsBeginReason, TakesWanted};
ghost use Rattle.pm_objects.specs.declared.calls.Operation.TheVariants.{Begin};
ghost use Rattle.pm_objects.specs.declared.history.TxErr.TheVariants as error;
ghost use Rattle.pm_objects.specs.declared.refusal.Refusal.TheVariants as refusal;
ghost use Rattle.solo_undo.specs.Working.{FindsOpening};
ghost use Rattle.solo_view.specs.Founds.{IsAlone};
ghost use Rattle.solo_view.specs.Steps.Step.{Tell};
ghost use Rattle.solo_view.specs.View.{View};
ghost use Rattle.solo_view.specs.Views.{after};
ghost use Rattle.solo_world.specs.Lanes.{IsSeenAs};
ghost use Rattle.solo_world.specs.Opening.{Opening, IsSound};
ghost use Rattle.solo_world.specs.Sequences.{IsMade, one};
ghost use Rattle.solo_world.specs.declared.lane.Stage.TheVariants as stage;
ghost use Rattle.solo_lock.specs.Begun.{IsBegun, IsLaneBegun};
ghost use Rattle.solo_lock.specs.Finding.{FindsObjects};
ghost use Rattle.solo_lock.specs.Lacking.{LacksObject};
ghost use Rattle.solo_lock.specs.Plans.{IsPlan};
ghost use Rattle.solo_lock.specs.Resting.{IsAtRest, IsLaneAtRest};
ghost use Rattle.solo_tx.specs.AtWork.{IsAtWork};
ghost use Rattle.solo_tx.specs.Begins.{FailsToBegin, HasBegun, HasFoundNone, HasStoppedRefused, IsBeginCause, IsRefusedAtOnce, IsStartedCause, LeavesLane};

use crate::ending::end_begin;
use crate::refusing::stop;
use crate::starting::start;
use pm_objects::{Refusal, TxErr, Want};
use solo_lock::{find_objects, give_back, plan_locks, take_all};
use solo_memory::Stopped;
use solo_world::{HeldLock, Lane, LawfulMem, Stage, settle};

/// Opens the transaction at its first level, once the lane has the locks that the begin wants.
pub fn open_call<M: LawfulMem>(lane: &mut Lane<M>, wants: &[Want])
    requires begun { IsLaneBegun M.at lane.old }
    ensures made { IsMade (M.at lane.old.memory) (M.at lane.new.memory) (one (Tell (Begin wants.now) None)) }
    ensures lane { lane.new ≡ record lane.old { memory = lane.new.memory; level = 1; stage = stage.Work } }
    ensures seen { (v : View) → IsBegun M.at lane.old v → IsSeenAs M.at lane.new (after v (Tell (Begin wants.now) None)) }
    ensures at_work { (o : Opening) (v : View) → IsBegun M.at lane.old v → IsSound o → FindsOpening o v → o.zones ≤ 32 → FindsObjects v
        → TakesWanted v [] wants.now → IsAtWork o M.at lane.new (after v (Tell (Begin wants.now) None)) }
{
    lane.memory.tell_begin(wants, None);
    lane.level = 1;
    lane.stage = Stage::Work;
}

/// Refuses the begin of a call, and answers why: all that is undrained is made persistent, the refusal is told, and the call, which changed
/// nothing, draws its number. Level 1 is left aborted, with the locks that were taken, until it is ended. Or answers `Stopped`, where the lane
/// comes to its stop.
pub fn refuse_call<M: LawfulMem>(lane: &mut Lane<M>, wants: &[Want], why: Refusal) -> Refusal
    requires begun { IsLaneBegun M.at lane.old }
    ensures answer { result ≢ refusal.Stopped → result ≡ why }
    ensures refused { result ≢ refusal.Stopped → (v : View) → IsBegun M.at lane.old v → IsBeginReason v 0 [] wants.now why → IsRefusedAtOnce M.at lane.new v wants.now why }
    ensures lane { result ≢ refusal.Stopped → lane.new ≡ record lane.old
        { memory = lane.new.memory; level = 1; stage = stage.OnAbort; error = error.Refused why; drawn = Some lane.new.last; last = lane.new.last } }
    ensures stops { why ≢ refusal.Stopped → result ≡ refusal.Stopped → (v : View) → IsBegun M.at lane.old v → IsBeginReason v 0 [] wants.now why
        → HasStoppedRefused M.at lane.new v wants.now }
    ensures stopped_lane { why ≢ refusal.Stopped → result ≡ refusal.Stopped → lane.new ≡ record lane.old { memory = lane.new.memory; stopped = true } }
{
    match settle(&mut lane.memory) {
        Ok(()) => {
            end_begin(lane, wants, why);
            lane.level = 1;
            lane.stage = Stage::OnAbort;
            lane.error = TxErr::Refused(why);
            why
        }
        Err(Stopped) => stop(lane),
    }
}

/// Takes the locks of the plan, and looks for the objects under them: then the transaction is open, or the begin is refused. Where a lock is
/// refused, the others are given back.
fn begin_planned<M: LawfulMem>(
    lane: &mut Lane<M>,
    plan: &[HeldLock],
    wants: &[Want],
) -> Result<(), Refusal>
    requires begun { IsLaneBegun M.at lane.old }
    requires free { lane.old.locks.items ≡ [] }
    requires plan { IsPlan lane.old.pool lane.old.shape.lanes lane.old.shape.zones wants.now plan.now }
    ensures begun { OnOk result ((v : View) → IsBegun M.at lane.old v → HasBegun M.at lane.new v wants.now) }
    ensures opened { OnOk result (lane.new ≡ record lane.old { memory = lane.new.memory; locks = lane.new.locks; level = 1; stage = stage.Work }) }
    ensures fails { IfErr result (λ r. (v : View) → IsBegun M.at lane.old v → FailsToBegin M.at lane.new v wants.now r) }
    ensures lacks { result ≡ Err refusal.NoObject → (v : View) → IsBegun M.at lane.old v → HasFoundNone M.at lane.new v wants.now }
    ensures leaves { IfErr result (λ r. LeavesLane r lane.old lane.new) }
    ensures causes { IfErr result IsStartedCause }
{
    if !take_all(lane, plan) {
        give_back(lane);
        return Err(Refusal::Busy);
    }
    if !find_objects(lane, plan) {
        return Err(refuse_call(lane, wants, Refusal::NoObject));
    }
    open_call(lane, wants);
    Ok(())
}

/// Plans the locks of a call that has started, and goes on with them, or refuses the begin.
fn begin_started<M: LawfulMem>(lane: &mut Lane<M>, wants: &[Want]) -> Result<(), Refusal>
    requires begun { IsLaneBegun M.at lane.old }
    requires free { lane.old.locks.items ≡ [] }
    ensures begun { OnOk result ((v : View) → IsBegun M.at lane.old v → HasBegun M.at lane.new v wants.now) }
    ensures opened { OnOk result (lane.new ≡ record lane.old { memory = lane.new.memory; locks = lane.new.locks; level = 1; stage = stage.Work }) }
    ensures fails { IfErr result (λ r. (v : View) → IsBegun M.at lane.old v → FailsToBegin M.at lane.new v wants.now r) }
    ensures lacks { result ≡ Err refusal.NoObject → (v : View) → IsBegun M.at lane.old v → HasFoundNone M.at lane.new v wants.now }
    ensures leaves { IfErr result (λ r. LeavesLane r lane.old lane.new) }
    ensures causes { IfErr result IsStartedCause }
{
    match plan_locks(lane.pool, lane.shape, wants) {
        Ok(plan) => begin_planned(lane, plan.as_slice(), wants),
        Err(why) => Err(refuse_call(lane, wants, why)),
    }
}

/// Begins a transaction where none is open, with these locks, each tried once: pmemobj_tx_begin(3). The first reason that applies is the
/// answer. `Stopped` where the lane had stopped, `Spent` where its generation or the numbers are used up, and `Busy` where a lock is another
/// lane's: then the lane is at rest as before, with no lock. `LocksFull` where more than 64 objects are wanted, and `NoObject` where a want
/// is of no object: then what was undrained is persistent, the call is over, and its level 1 is left aborted, to be ended. `Stopped` also where
/// the lane comes to its stop before such a refusal is told.
pub fn begin<M: LawfulMem>(lane: &mut Lane<M>, wants: &[Want]) -> Result<(), Refusal>
    requires rests { lane.old.stopped ≡ false → IsLaneAtRest M.at lane.old }
    ensures stopped { lane.old.stopped ≡ true → (result ≡ Err refusal.Stopped) × (lane.new ≡ lane.old) }
    ensures begun { OnOk result ((v : View) → IsAtRest M.at lane.old v → HasBegun M.at lane.new v wants.now) }
    ensures opened { OnOk result (lane.new ≡ record lane.old { memory = lane.new.memory; locks = lane.new.locks; level = 1; stage = stage.Work }) }
    ensures fails { IfErr result (λ r. (v : View) → IsAtRest M.at lane.old v → FailsToBegin M.at lane.new v wants.now r) }
    ensures lacks { result ≡ Err refusal.NoObject → (v : View) → IsAtRest M.at lane.old v → HasFoundNone M.at lane.new v wants.now }
    ensures missing { result ≡ Err refusal.NoObject → (v : View) → IsAtRest M.at lane.old v → IsAlone v → Any (LacksObject v) wants.now }
    ensures leaves { IfErr result (λ r. LeavesLane r lane.old lane.new) }
    ensures causes { IfErr result (IsBeginCause lane.old.stopped) }
{
    if lane.stopped {
        return Err(Refusal::Stopped);
    }
    start(lane)?;
    begin_started(lane, wants)
}
