//! Actions that are made pending where no transaction is open.

ghost use Rattle.std.specs.Prelude.{◌≡◌, ◌≢◌, true, false, Err, IfErr, OnErr, OnOk};
ghost use Rattle.solo_crash.specs.OnActions.{defer_refusal, set_refusal};
ghost use Rattle.solo_crash.specs.Pending.{pending_before};
ghost use Rattle.solo_model.specs.Actions.{Pending, with_free, with_set};
ghost use Rattle.pm_objects.specs.declared.calls.Operation.TheVariants as operation;
ghost use Rattle.pm_objects.specs.declared.refusal.Refusal.TheVariants as refusal;
ghost use Rattle.solo_pending.specs.AllPending.{IsPendingAs};
ghost use Rattle.solo_pending.specs.Pending.{action_of, refusal_in};
ghost use Rattle.solo_view.specs.View.{View};
ghost use Rattle.solo_lock.specs.Resting.{IsAtRest, IsLaneAtRest};
ghost use Rattle.solo_action.specs.Outside.{IsAnsweredAtOnce, IsDeferCause, IsSetCause};

use crate::telling::answer_outside;
use pm_objects::{Oid, Operation, Refusal};
use solo_pending::{PendingActions, SetAction};
use solo_tx::start;
use solo_world::{Lane, LawfulMem};

/// Makes an action of the lane pending where no transaction is open: pmemobj_set_value(3). `Stopped` where the lane had stopped, and `Spent` where
/// its generation or the numbers are used up, change nothing. Else it is a call of the history: `Unaligned` where the action's bytes don't begin at
/// a multiple of eight, `ActionsFull` where 63 actions are pending already, and each of the two leaves what is pending as it was.
pub fn set_value<M: LawfulMem>(
    lane: &mut Lane<M>,
    pending: &mut PendingActions,
    action: SetAction,
) -> Result<(), Refusal>
    requires rests { lane.old.stopped ≡ false → IsLaneAtRest M.at lane.old }
    ensures stopped { lane.old.stopped ≡ true → (result ≡ Err refusal.Stopped) × (lane.new ≡ lane.old) }
    ensures made { (v : View) → IsAtRest M.at lane.old v → IsPendingAs pending.old (pending_before v)
        → IsAnsweredAtOnce M.at lane.new v (operation.SetValue action.id action.off action.value) result }
    ensures answers { (p : Pending) → IsPendingAs pending.old p → result ≢ Err refusal.Stopped → result ≢ Err refusal.Spent → refusal_in result ≡ set_refusal action.off p }
    ensures listed { OnOk result ((p : Pending) → IsPendingAs pending.old p → IsPendingAs pending.new (with_set (action_of action) p)) }
    ensures unchanged { OnErr result (pending.new ≡ pending.old) }
    ensures spent { result ≡ Err refusal.Spent → lane.new ≡ record lane.old { memory = lane.new.memory } }
    ensures lane { lane.new ≡ record lane.old { memory = lane.new.memory; last = lane.new.last } }
    ensures causes { IfErr result (λ r. (p : Pending) → IsPendingAs pending.old p → IsSetCause lane.old.stopped action.off p r) }
{
    if lane.stopped {
        return Err(Refusal::Stopped);
    }
    start(lane)?;
    let operation = Operation::SetValue {
        id: action.id,
        off: action.off,
        value: action.value,
    };
    let answer = pending.set(action);
    answer_outside(lane, &operation, answer)
}

/// Makes the free of an object pending where no transaction is open: pmemobj_defer_free(3). `Stopped` where the lane had stopped, and `Spent` where its
/// generation or the numbers are used up, change nothing. Else it is a call of the history: `ActionsFull` where 63 actions are pending already leaves what is
/// pending as it was. Whether there is such an object only the publish says.
pub fn defer_free<M: LawfulMem>(
    lane: &mut Lane<M>,
    pending: &mut PendingActions,
    id: Oid,
) -> Result<(), Refusal>
    requires rests { lane.old.stopped ≡ false → IsLaneAtRest M.at lane.old }
    ensures stopped { lane.old.stopped ≡ true → (result ≡ Err refusal.Stopped) × (lane.new ≡ lane.old) }
    ensures made { (v : View) → IsAtRest M.at lane.old v → IsPendingAs pending.old (pending_before v) → IsAnsweredAtOnce M.at lane.new v (operation.DeferFree id) result }
    ensures answers { (p : Pending) → IsPendingAs pending.old p → result ≢ Err refusal.Stopped → result ≢ Err refusal.Spent → refusal_in result ≡ defer_refusal p }
    ensures listed { OnOk result ((p : Pending) → IsPendingAs pending.old p → IsPendingAs pending.new (with_free id p)) }
    ensures unchanged { OnErr result (pending.new ≡ pending.old) }
    ensures spent { result ≡ Err refusal.Spent → lane.new ≡ record lane.old { memory = lane.new.memory } }
    ensures lane { lane.new ≡ record lane.old { memory = lane.new.memory; last = lane.new.last } }
    ensures causes { IfErr result (λ r. (p : Pending) → IsPendingAs pending.old p → IsDeferCause lane.old.stopped p r) }
{
    if lane.stopped {
        return Err(Refusal::Stopped);
    }
    start(lane)?;
    let answer = pending.defer_free(id);
    answer_outside(lane, &Operation::DeferFree { id }, answer)
}
