//! What is pending, given up where no transaction is open.

ghost use Rattle.std.specs.Prelude.{◌≡◌, true, false, Err, IfErr, OnErr, OnOk};
ghost use Rattle.solo_crash.specs.Pending.{pending_before};
ghost use Rattle.solo_model.specs.Actions.{none_pending};
ghost use Rattle.pm_objects.specs.declared.refusal.Refusal.TheVariants as refusal;
ghost use Rattle.solo_pending.specs.AllPending.{IsPendingAs};
ghost use Rattle.solo_view.specs.View.{View};
ghost use Rattle.solo_action.specs.Canceling.{CancelEnds, HasFinished, IsCancelCause, IsStoppedFinishing};
ghost use Rattle.solo_action.specs.Outside.{RestsAlone};

use crate::telling::{end_outside, settle_begun, settle_lane};
use pm_objects::{Operation, Refusal};
use solo_pending::PendingActions;
use solo_transaction::{ReservedMem, give_up_pending};
use solo_tx::start;
use solo_world::{Lane, LawfulMem};

/// Gives up all that is pending of the lane, which is alone, where no transaction is open: pmemobj_cancel(3). `Stopped` where the lane had stopped, and
/// `Spent` where its generation or the numbers are used up, change nothing. Else it is a call of the history: all that is undrained is made persistent, the
/// cancel is told, and then the block of each object that is reserved is given back. `Stopped` where the lane comes to its stop, which it does before the
/// cancel is told, leaves what is pending as it was.
pub fn cancel<M: ReservedMem>(
    lane: &mut Lane<M>,
    pending: &mut PendingActions,
) -> Result<(), Refusal>
    requires rests { lane.old.stopped ≡ false → (v : View) × (RestsAlone M.at lane.old v × IsPendingAs pending.old (pending_before v)) }
    ensures stopped { lane.old.stopped ≡ true → (result ≡ Err refusal.Stopped) × (lane.new ≡ lane.old) }
    ensures ends { (v : View) → RestsAlone M.at lane.old v → IsPendingAs pending.old (pending_before v) → CancelEnds M.at lane.new v result }
    ensures none { OnOk result (IsPendingAs pending.new none_pending) }
    ensures unchanged { OnErr result (pending.new ≡ pending.old) }
    ensures spent { result ≡ Err refusal.Spent → lane.new ≡ record lane.old { memory = lane.new.memory } }
    ensures lane { lane.new.stopped ≡ false → lane.new ≡ record lane.old { memory = lane.new.memory; last = lane.new.last } }
    ensures stopped_lane { lane.old.stopped ≡ false → result ≡ Err refusal.Stopped → lane.new ≡ record lane.old { memory = lane.new.memory; stopped = true } }
    ensures causes { IfErr result (IsCancelCause lane.old.stopped) }
{
    if lane.stopped {
        return Err(Refusal::Stopped);
    }
    start(lane)?;
    settle_begun(lane)?;
    end_outside(lane, &Operation::Cancel, None);
    give_up_pending(lane, pending);
    Ok(())
}

/// Gives up what is pending as the lane, which is alone, comes to the end of its work. It is no call: nothing is told, no number is drawn, and it is never
/// refused for want of one. All that is undrained is made persistent, and then the block of each object that is reserved is given back. `Stopped` where the
/// lane comes to its stop before that leaves what is pending as it was.
pub fn finish<M: LawfulMem>(lane: &mut Lane<M>, pending: &mut PendingActions) -> Result<(), Refusal>
    requires rests { (v : View) × (RestsAlone M.at lane.old v × IsPendingAs pending.old (pending_before v)) }
    ensures done { OnOk result ((v : View) → RestsAlone M.at lane.old v → IsPendingAs pending.old (pending_before v) → HasFinished M.at lane.new v) }
    ensures none { OnOk result (IsPendingAs pending.new none_pending) }
    ensures lane { OnOk result (lane.new ≡ record lane.old { memory = lane.new.memory }) }
    ensures stops { OnErr result ((v : View) → RestsAlone M.at lane.old v → IsPendingAs pending.old (pending_before v) → IsStoppedFinishing M.at lane.new v) }
    ensures stopped { IfErr result (λ r. r ≡ refusal.Stopped) }
    ensures stopped_lane { OnErr result (lane.new ≡ record lane.old { memory = lane.new.memory; stopped = true }) }
    ensures unchanged { OnErr result (pending.new ≡ pending.old) }
{
    settle_lane(lane)?;
    give_up_pending(lane, pending);
    Ok(())
}
