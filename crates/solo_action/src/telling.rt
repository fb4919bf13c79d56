ghost use Rattle.std.specs.Prelude.{◌≡◌, [], None, true, IfErr, OnErr, OnOk, option_map};
ghost use Rattle.std.specs.Option.{option_copied};
ghost use Rattle.solo_memory.specs.Runs.{Stops};
ghost use Rattle.pm_objects.specs.declared.history.TxErr.TheVariants as error;
ghost use Rattle.pm_objects.specs.declared.history.Value.TheVariants.{Refused};
ghost use Rattle.pm_objects.specs.declared.refusal.Refusal.TheVariants as refusal;
ghost use Rattle.solo_pending.specs.Pending.{refusal_in};
ghost use Rattle.solo_view.specs.View.{View};
ghost use Rattle.solo_view.specs.Views.{after_all};
ghost use Rattle.solo_world.specs.Sequences.{settles};
ghost use Rattle.solo_lock.specs.Begun.{IsBegun, IsLaneBegun};
ghost use Rattle.solo_lock.specs.Locking.{gives};
ghost use Rattle.solo_tx.specs.Ending.{IsAfterTold, IsClosedBy, IsLaneAfterTold, LiesUnlocked};
ghost use Rattle.solo_tx.specs.Sequences.{ends_call};
ghost use Rattle.solo_action.specs.Outside.{IsEndedOnceTold, IsToldAtOnce};

use pm_objects::{Operation, Refusal, Value};
use solo_lock::give_all;
use solo_memory::Stopped;
use solo_tx::end_call;
use solo_world::{Lane, LawfulMem, settle};

/// Makes all that is undrained persistent; or says that the lane stopped.
pub(crate) fn settle_lane<M: LawfulMem>(lane: &mut Lane<M>) -> Result<(), Refusal>
    requires { (v : View) × M.at lane.old.memory v }
    ensures settled { OnOk result ((v : View) → M.at lane.old.memory v → M.at lane.new.memory (after_all v (settles v))) }
    ensures lane { OnOk result (lane.new ≡ record lane.old { memory = lane.new.memory }) }
    ensures stops { OnErr result ((v : View) → M.at lane.old.memory v → Stops (M.at lane.new.memory) v (settles v)) }
    ensures stopped { IfErr result (λ r. r ≡ refusal.Stopped) }
    ensures stopped_lane { OnErr result (lane.new ≡ record lane.old { memory = lane.new.memory; stopped = true }) }
{
    match settle(&mut lane.memory) {
        Ok(()) => Ok(()),
        Err(Stopped) => {
            lane.stopped = true;
            Err(Refusal::Stopped)
        }
    }
}

/// Makes all that is undrained persistent, in a call that has begun; or says that the lane stopped.
pub fn settle_begun<M: LawfulMem>(lane: &mut Lane<M>) -> Result<(), Refusal>
    requires begun { IsLaneBegun M.at lane.old }
    ensures begun { OnOk result ((v : View) → IsBegun M.at lane.old v → IsBegun M.at lane.new (after_all v (settles v))) }
    ensures lane { OnOk result (lane.new ≡ record lane.old { memory = lane.new.memory }) }
    ensures stops { OnErr result ((v : View) → IsBegun M.at lane.old v → Stops (M.at lane.new.memory) v (settles v)) }
    ensures stopped { IfErr result (λ r. r ≡ refusal.Stopped) }
    ensures stopped_lane { OnErr result (lane.new ≡ record lane.old { memory = lane.new.memory; stopped = true }) }
{
    settle_lane(lane)
}

/// Gives back each lock that was taken for a call which is over, so that the lane is at rest: its number is answered.
pub fn come_to_rest<M: LawfulMem>(lane: &mut Lane<M>)
    requires after { IsLaneAfterTold M.at lane.old }
    ensures closed { (v : View) → IsAfterTold M.at lane.old v → lane.old.error ≡ error.None → IsClosedBy M.at lane.new v (gives lane.old.locks.items) }
    ensures free { lane.new.locks.items ≡ [] }
    ensures lane { lane.new ≡ record lane.old { memory = lane.new.memory; locks = lane.new.locks; drawn = None } }
{
    give_all(&mut lane.memory, lane.locks.as_slice());
    lane.locks.clear();
    lane.drawn = None;
}

/// Ends a call that has begun by the one operation that it is, with its reply: that is told, the call draws its number, and each lock that was
/// taken for it goes back, under none of which anything is undrained. The lane is at rest then.
pub fn end_outside<M: LawfulMem>(lane: &mut Lane<M>, operation: &Operation, reply: Option<&Value>)
    requires begun { (v : View) × (IsBegun M.at lane.old v × LiesUnlocked v) }
    ensures closed { (v : View) → IsBegun M.at lane.old v → LiesUnlocked v
        → IsClosedBy M.at lane.new (after_all v (ends_call operation.now (option_copied reply.entry) lane.new.last v)) (gives lane.old.locks.items) }
    ensures told { (v : View) → IsBegun M.at lane.old v → LiesUnlocked v → IsEndedOnceTold v operation.now (option_copied reply.entry)
        → IsToldAtOnce M.at lane.new v operation.now (option_copied reply.entry) }
    ensures free { lane.new.locks.items ≡ [] }
    ensures lane { lane.new ≡ record lane.old { memory = lane.new.memory; locks = lane.new.locks; drawn = None; last = lane.new.last } }
{
    end_call(lane, operation, reply);
    come_to_rest(lane);
}

/// Ends a call that has begun by the one operation that it is, done or refused by this answer, which is handed on.
pub(crate) fn answer_outside<M: LawfulMem>(
    lane: &mut Lane<M>,
    operation: &Operation,
    answer: Result<(), Refusal>,
) -> Result<(), Refusal>
    requires begun { (v : View) × (IsBegun M.at lane.old v × LiesUnlocked v) }
    ensures told { (v : View) → IsBegun M.at lane.old v → LiesUnlocked v → IsEndedOnceTold v operation.now (option_map Refused (refusal_in answer))
        → IsToldAtOnce M.at lane.new v operation.now (option_map Refused (refusal_in answer)) }
    ensures answer { result ≡ answer }
    ensures free { lane.new.locks.items ≡ [] }
    ensures lane { lane.new ≡ record lane.old { memory = lane.new.memory; locks = lane.new.locks; drawn = None; last = lane.new.last } }
{
    match answer {
        Ok(()) => end_outside(lane, operation, None),
        Err(refusal) => end_outside(lane, operation, Some(&Value::Refused(refusal))),
    }
    answer
}
