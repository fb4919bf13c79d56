//! Frees that a transaction defers, and words that it sets, once what is pending is published.

ghost use Rattle.std.specs.Prelude.{◌≡◌, None, Some, Err, option_map, OnErr, OnOk};
ghost use Rattle.solo_crash.specs.OnActions.{defer_refusal, set_refusal};
ghost use Rattle.solo_crash.specs.Pending.{pending_in};
ghost use Rattle.solo_memory.specs.Runs.{Made};
ghost use Rattle.solo_model.specs.Actions.{Pending, with_free, with_set};
ghost use Rattle.pm_objects.specs.declared.calls.Operation.TheVariants.{DeferFree, SetValue};
ghost use Rattle.pm_objects.specs.declared.history.Value.TheVariants.{Refused};
ghost use Rattle.pm_objects.specs.declared.refusal.Refusal.{Refusal};
ghost use Rattle.solo_pending.specs.AllPending.{IsPendingAs};
ghost use Rattle.solo_pending.specs.Pending.{action_of, refusal_in};
ghost use Rattle.solo_tx.specs.Stages.{work_refusal};
ghost use Rattle.solo_view.specs.Steps.Step.{Tell};
ghost use Rattle.solo_view.specs.View.{View};
ghost use Rattle.solo_world.specs.Opening.{Opening};
ghost use Rattle.solo_world.specs.Sequences.{IsMade, one};
ghost use Rattle.solo_transaction.specs.AtWork.{IsAtWorkWith, IsLaneAtWorkWith};
ghost use Rattle.solo_transaction.specs.Deferring.{HasToldPending};

use pm_objects::{Oid, Operation, Refusal, Value};
use solo_made::CallBlocks;
use solo_pending::{PendingActions, SetAction};
use solo_tx::check_work;
use solo_world::{Lane, LawfulMem};

/// Tells that a free was made pending, or why it was refused.
fn tell_defer<M: LawfulMem>(mem: &mut M, id: Oid, refused: Option<Refusal>)
    requires { M.can mem.old (Tell (DeferFree id) (option_map Refused refused)) }
    ensures { Made (M.at mem.old) (M.at mem.new) (Tell (DeferFree id) (option_map Refused refused)) }
{
    let operation = Operation::DeferFree { id };
    let reply = refused.map(Value::Refused);
    mem.tell(&operation, reply.as_ref());
}

/// Tells that a set-value was made pending, or why it was refused.
fn tell_set<M: LawfulMem>(mem: &mut M, action: SetAction, refused: Option<Refusal>)
    requires { M.can mem.old (Tell (SetValue action.id action.off action.value) (option_map Refused refused)) }
    ensures { Made (M.at mem.old) (M.at mem.new) (Tell (SetValue action.id action.off action.value) (option_map Refused refused)) }
{
    let operation = Operation::SetValue {
        id: action.id,
        off: action.off,
        value: action.value,
    };
    let reply = refused.map(Value::Refused);
    mem.tell(&operation, reply.as_ref());
}

/// Makes the free pending in a transaction at work, or refuses it, and tells so.
fn defer_at_work<M: LawfulMem>(
    lane: &mut Lane<M>,
    blocks: &CallBlocks,
    pending: &mut PendingActions,
    id: Oid,
) -> Result<(), Refusal>
    requires at_work { IsLaneAtWorkWith M.at lane.old blocks.now }
    ensures answers { (p : Pending) → IsPendingAs pending.old p → refusal_in result ≡ defer_refusal p }
    ensures made { IsMade (M.at lane.old.memory) (M.at lane.new.memory) (one (Tell (DeferFree id) (option_map Refused (refusal_in result)))) }
    ensures stays { (o : Opening) (v : View) → IsAtWorkWith o M.at lane.old blocks.now v → IsPendingAs pending.old (pending_in v)
        → HasToldPending o M.at lane.new blocks.now pending.new v (DeferFree id) (refusal_in result) }
    ensures done { OnOk result ((p : Pending) → IsPendingAs pending.old p → IsPendingAs pending.new (with_free id p)) }
    ensures unchanged { OnErr result (pending.new ≡ pending.old) }
    ensures else_same { lane.new ≡ record lane.old { memory = lane.new.memory } }
{
    let answer = pending.defer_free(id);
    tell_defer(&mut lane.memory, id, answer.err());
    answer
}

/// Makes the free of an object pending, behind what else is, in a transaction: pmemobj_defer_free(3). The object is freed where what is pending is
/// published, and there is until then. `ActionsFull` where 63 actions are pending leaves these as they were, and the transaction in work. Either
/// is told, and no memory call is made. `NotWork` and `NoTx` for the transaction's stage, and `Stopped` where the lane had stopped, are not told.
pub fn defer_free<M: LawfulMem>(
    lane: &mut Lane<M>,
    blocks: &CallBlocks,
    pending: &mut PendingActions,
    id: Oid,
) -> Result<(), Refusal>
    requires at_work { work_refusal lane.old ≡ None → IsLaneAtWorkWith M.at lane.old blocks.now }
    ensures refused { (r : Refusal) → work_refusal lane.old ≡ Some r → (result ≡ Err r) × ((lane.new ≡ lane.old) × (pending.new ≡ pending.old)) }
    ensures answers { work_refusal lane.old ≡ None → (p : Pending) → IsPendingAs pending.old p → refusal_in result ≡ defer_refusal p }
    ensures made { work_refusal lane.old ≡ None → IsMade (M.at lane.old.memory) (M.at lane.new.memory) (one (Tell (DeferFree id) (option_map Refused (refusal_in result)))) }
    ensures stays { work_refusal lane.old ≡ None → (o : Opening) (v : View) → IsAtWorkWith o M.at lane.old blocks.now v → IsPendingAs pending.old (pending_in v)
        → HasToldPending o M.at lane.new blocks.now pending.new v (DeferFree id) (refusal_in result) }
    ensures done { OnOk result ((p : Pending) → IsPendingAs pending.old p → IsPendingAs pending.new (with_free id p)) }
    ensures unchanged { OnErr result (pending.new ≡ pending.old) }
    ensures else_same { lane.new ≡ record lane.old { memory = lane.new.memory } }
{
    check_work(lane)?;
    defer_at_work(lane, blocks, pending, id)
}

/// Makes the set-value pending in a transaction at work, or refuses it, and tells so.
fn set_at_work<M: LawfulMem>(
    lane: &mut Lane<M>,
    blocks: &CallBlocks,
    pending: &mut PendingActions,
    action: SetAction,
) -> Result<(), Refusal>
    requires at_work { IsLaneAtWorkWith M.at lane.old blocks.now }
    ensures answers { (p : Pending) → IsPendingAs pending.old p → refusal_in result ≡ set_refusal action.off p }
    ensures made { IsMade (M.at lane.old.memory) (M.at lane.new.memory) (one (Tell (SetValue action.id action.off action.value) (option_map Refused (refusal_in result)))) }
    ensures stays { (o : Opening) (v : View) → IsAtWorkWith o M.at lane.old blocks.now v → IsPendingAs pending.old (pending_in v)
        → HasToldPending o M.at lane.new blocks.now pending.new v (SetValue action.id action.off action.value) (refusal_in result) }
    ensures done { OnOk result ((p : Pending) → IsPendingAs pending.old p → IsPendingAs pending.new (with_set (action_of action) p)) }
    ensures unchanged { OnErr result (pending.new ≡ pending.old) }
    ensures else_same { lane.new ≡ record lane.old { memory = lane.new.memory } }
{
    let answer = pending.set(action);
    tell_set(&mut lane.memory, action, answer.err());
    answer
}

/// Makes a set-value pending, behind what else is, in a transaction: pmemobj_set_value(3). `Unaligned` where its bytes don't begin at a multiple of
/// eight, else `ActionsFull` where 63 actions are pending: each leaves these as they were, and the transaction in work. Either is told, and no
/// memory call is made. `NotWork` and `NoTx` for the transaction's stage, and `Stopped` where the lane had stopped, are not told.
pub fn set_value<M: LawfulMem>(
    lane: &mut Lane<M>,
    blocks: &CallBlocks,
    pending: &mut PendingActions,
    action: SetAction,
) -> Result<(), Refusal>
    requires at_work { work_refusal lane.old ≡ None → IsLaneAtWorkWith M.at lane.old blocks.now }
    ensures refused { (r : Refusal) → work_refusal lane.old ≡ Some r → (result ≡ Err r) × ((lane.new ≡ lane.old) × (pending.new ≡ pending.old)) }
    ensures answers { work_refusal lane.old ≡ None → (p : Pending) → IsPendingAs pending.old p → refusal_in result ≡ set_refusal action.off p }
    ensures made { work_refusal lane.old ≡ None → IsMade (M.at lane.old.memory) (M.at lane.new.memory) (one (Tell (SetValue action.id action.off action.value) (option_map Refused (refusal_in result)))) }
    ensures stays { work_refusal lane.old ≡ None → (o : Opening) (v : View) → IsAtWorkWith o M.at lane.old blocks.now v → IsPendingAs pending.old (pending_in v)
        → HasToldPending o M.at lane.new blocks.now pending.new v (SetValue action.id action.off action.value) (refusal_in result) }
    ensures done { OnOk result ((p : Pending) → IsPendingAs pending.old p → IsPendingAs pending.new (with_set (action_of action) p)) }
    ensures unchanged { OnErr result (pending.new ≡ pending.old) }
    ensures else_same { lane.new ≡ record lane.old { memory = lane.new.memory } }
{
    check_work(lane)?;
    set_at_work(lane, blocks, pending, action)
}
