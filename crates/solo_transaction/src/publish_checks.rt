//! What a publish in a transaction asks of the words that are to be set.

ghost use Rattle.std.specs.Prelude.{◌≡◌, ◌%◌, ◌||◌, All, false, true, IfErr, IsTrue, OnErr, OnOk};
ghost use Rattle.std.specs.List.{Any, list_any};
ghost use Rattle.solo_crash.specs.CallBlocks.{CallBlocks as Call, is_at};
ghost use Rattle.solo_crash.specs.OnActions.{CanSetIn, HasObjectOf, IsOnLeft, LacksObjectOf, PassesIn};
ghost use Rattle.solo_crash.specs.Operations.{has_at};
ghost use Rattle.solo_made.specs.Made.{ListsBlocks};
ghost use Rattle.solo_model.specs.Bytes.{is_among};
ghost use Rattle.pm_objects.specs.declared.refusal.Refusal.TheVariants as refusal;
ghost use Rattle.solo_pending.specs.Pending.{action_of};
ghost use Rattle.solo_pending.specs.declared.actions.SetAction.{SetAction};
ghost use Rattle.solo_view.specs.View.{View};
ghost use Rattle.solo_world.specs.Opening.{Opening};
ghost use Rattle.solo_transaction.specs.AtWork.{HasLookedWith, IsAtWorkWith, IsLaneAtWorkWith};

use crate::freeing::owned_at;
use crate::origins::{Origin, origin_of};
use pm_layout::WORD_BYTES;
use pm_objects::{Oid, Refusal};
use solo_made::CallBlocks;
use solo_pending::SetAction;
use solo_tx::check_range;
use solo_world::{Lane, LawfulMem};

/// Whether the lane has the object for writing, gone or not: the call made it, or the lane holds its lock.
pub(crate) fn has_object<M: LawfulMem>(lane: &Lane<M>, blocks: &CallBlocks, id: Oid) -> bool
    ensures yes { IsTrue result → (o : Opening) (v : View) → IsAtWorkWith o M.at lane.now blocks.now v → (id.pool ≡ v.pool) × (has_at v id.off true ≡ true) }
    ensures no_ { result ≡ false → (o : Opening) (v : View) → IsAtWorkWith o M.at lane.now blocks.now v → id.pool ≡ v.pool → has_at v id.off true ≡ false }
{
    match owned_at(lane, blocks, id) {
        Ok(_) => true,
        Err(why) => why != Refusal::NotLocked,
    }
}

/// Whether the lane has the object of each action: `NotLocked` where it does not.
pub(crate) fn check_owned<M: LawfulMem>(
    lane: &Lane<M>,
    blocks: &CallBlocks,
    actions: &[SetAction],
) -> Result<(), Refusal>
    ensures ok { OnOk result ((o : Opening) (v : View) → IsAtWorkWith o M.at lane.now blocks.now v → All (λ (a : SetAction). HasObjectOf v (action_of a)) actions.now) }
    ensures not_locked { OnErr result ((o : Opening) (v : View) → IsAtWorkWith o M.at lane.now blocks.now v → Any (λ (a : SetAction). LacksObjectOf v (action_of a)) actions.now) }
    ensures cause { IfErr result (λ r. r ≡ refusal.NotLocked) }
{
    for action in actions {
        if !has_object(lane, blocks, action.id) {
            return Err(Refusal::NotLocked);
        }
    }
    Ok(())
}

/// Whether no action's object is gone: `NoObject` where the call freed one.
pub(crate) fn check_left(blocks: &CallBlocks, actions: &[SetAction]) -> Result<(), Refusal>
    ensures ok { OnOk result ((call : Call) → ListsBlocks blocks.now call → All (λ (a : SetAction). (is_among call.freed a.id.off || list_any (is_at a.id.off) call.dropped) ≡ false) actions.now) }
    ensures gone { OnErr result ((call : Call) → ListsBlocks blocks.now call → Any (λ (a : SetAction). (is_among call.freed a.id.off || list_any (is_at a.id.off) call.dropped) ≡ true) actions.now) }
    ensures cause { IfErr result (λ r. r ≡ refusal.NoObject) }
{
    for action in actions {
        if blocks.is_gone(action.id.off) {
            return Err(Refusal::NoObject);
        }
    }
    Ok(())
}

/// Whether what the action sets is a word of its object, which the call made, or found and holds for writing. It looks at the size of one found.
fn ends_in_object<M: LawfulMem>(lane: &mut Lane<M>, blocks: &CallBlocks, action: SetAction) -> bool
    requires work { IsLaneAtWorkWith M.at lane.old blocks.now }
    requires aligned { action.off % 8 ≡ 0 }
    ensures yes { IsTrue result → (o : Opening) (v : View) → IsAtWorkWith o M.at lane.old blocks.now v → HasLookedWith o M.at lane.new blocks.now v (λ w. CanSetIn w (action_of action)) }
    ensures no_ { result ≡ false → (o : Opening) (v : View) → IsAtWorkWith o M.at lane.old blocks.now v → IsOnLeft v (action_of action) → HasLookedWith o M.at lane.new blocks.now v (λ w. PassesIn w (action_of action)) }
    ensures still { IsLaneAtWorkWith M.at lane.new blocks.now }
    ensures else_same { lane.new ≡ record lane.old { memory = lane.new.memory } }
{
    match origin_of(blocks, lane.pool, action.id, action.off, WORD_BYTES) {
        Ok(Origin::Found) => check_range(lane, action.id, action.off, WORD_BYTES, true).is_ok(),
        Ok(Origin::Made) => true,
        Err(_) => false,
    }
}

/// The same of each action: `OutOfRange` for the first that passes its object's end.
pub(crate) fn check_ends<M: LawfulMem>(
    lane: &mut Lane<M>,
    blocks: &CallBlocks,
    actions: &[SetAction],
) -> Result<(), Refusal>
    requires work { IsLaneAtWorkWith M.at lane.old blocks.now }
    requires aligned { All (λ (a : SetAction). a.off % 8 ≡ 0) actions.now }
    ensures ok { OnOk result ((o : Opening) (v : View) → IsAtWorkWith o M.at lane.old blocks.now v → HasLookedWith o M.at lane.new blocks.now v (λ w. All (λ (a : SetAction). CanSetIn w (action_of a)) actions.now)) }
    ensures past { OnErr result ((o : Opening) (v : View) → IsAtWorkWith o M.at lane.old blocks.now v → All (λ (a : SetAction). IsOnLeft v (action_of a)) actions.now
        → HasLookedWith o M.at lane.new blocks.now v (λ w. Any (λ (a : SetAction). PassesIn w (action_of a)) actions.now)) }
    ensures cause { IfErr result (λ r. r ≡ refusal.OutOfRange) }
    ensures still { IsLaneAtWorkWith M.at lane.new blocks.now }
    ensures else_same { lane.new ≡ record lane.old { memory = lane.new.memory } }
{
    for action in actions {
        if !ends_in_object(lane, blocks, *action) {
            return Err(Refusal::OutOfRange);
        }
    }
    Ok(())
}
