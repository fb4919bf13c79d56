//! All that is pending published in a transaction.

ghost use Rattle.std.specs.Prelude.{◌≡◌, ◌≢◌, ◌⊎◌, ◌%◌, ◌<◌, ◌≤◌, ◌||◌, ◌++◌, [], All, count_by, false, length, map, true, Err, None, Some, IfErr, IsTrue, OnErr, OnOk, slice_index};
ghost use Rattle.std.specs.List.{Any, list_any};
ghost use Rattle.solo_crash.specs.CallBlocks.{CallBlocks as Call, is_at};
ghost use Rattle.solo_crash.specs.OnActions.{HasAllLeft, HasObject, IsPublishReasonIn, LacksObject, entries_published};
ghost use Rattle.solo_crash.specs.Pending.{pending_in};
ghost use Rattle.solo_made.specs.Made.{BlockLists, ListsBlocks};
ghost use Rattle.solo_model.specs.Actions.{max_entries, none_pending};
ghost use Rattle.solo_model.specs.Bytes.{is_among};
ghost use Rattle.pm_objects.specs.declared.history.TxErr.TheVariants as error;
ghost use Rattle.pm_objects.specs.declared.ids.Oid.{Oid};
ghost use Rattle.pm_objects.specs.declared.refusal.Refusal.{Refusal};
ghost use Rattle.pm_objects.specs.declared.refusal.Refusal.TheVariants as refusal;
ghost use Rattle.solo_pending.specs.AllPending.{IsPendingAs};
ghost use Rattle.solo_pending.specs.Pending.{redo_for};
ghost use Rattle.solo_pending.specs.declared.actions.SetAction.{SetAction};
ghost use Rattle.solo_tx.specs.Calls.{HasLooked};
ghost use Rattle.solo_tx.specs.Stages.{work_refusal};
ghost use Rattle.solo_view.specs.View.{View};
ghost use Rattle.solo_world.specs.Opening.{Opening};
ghost use Rattle.solo_world.specs.declared.lane.Stage.TheVariants as stage;
ghost use Rattle.solo_transaction.specs.AtWork.{HasLookedWith, IsAtWorkWith, IsLaneAtWorkWith};
ghost use Rattle.solo_transaction.specs.Publishing.{CanPublish, HasPublishedWith, IsPublishGivenUp, IsPublishRefused, IsPublishStopped};

use crate::freeing::load_root;
use crate::publish_checks::{check_ends, check_left, check_owned, has_object};
use crate::published_lists::{move_frees, move_reserved};
use pm_objects::{Oid, Operation, Refusal};
use solo_made::CallBlocks;
use solo_pending::{PendingActions, list_entries};
use solo_tx::{check_work, refuse};
use solo_world::{Lane, LawfulMem, MAX_ENTRIES};

/// Whether the lane has each object for writing, gone or not: `NotLocked` where it does not.
fn check_each_owned<M: LawfulMem>(
    lane: &Lane<M>,
    blocks: &CallBlocks,
    ids: &[Oid],
) -> Result<(), Refusal>
    ensures ok { OnOk result ((o : Opening) (v : View) → IsAtWorkWith o M.at lane.now blocks.now v → All (HasObject v) ids.now) }
    ensures not_locked { OnErr result ((o : Opening) (v : View) → IsAtWorkWith o M.at lane.now blocks.now v → Any (LacksObject v) ids.now) }
    ensures cause { IfErr result (λ r. r ≡ refusal.NotLocked) }
{
    for id in ids {
        if !has_object(lane, blocks, *id) {
            return Err(Refusal::NotLocked);
        }
    }
    Ok(())
}

/// Whether none of the objects is gone: `NoObject` where the call freed one.
pub(crate) fn check_each_left(blocks: &CallBlocks, ids: &[Oid]) -> Result<(), Refusal>
    ensures ok { OnOk result ((call : Call) → ListsBlocks blocks.now call → All (λ (id : Oid). (is_among call.freed id.off || list_any (is_at id.off) call.dropped) ≡ false) ids.now) }
    ensures gone { OnErr result ((call : Call) → ListsBlocks blocks.now call → Any (λ (id : Oid). (is_among call.freed id.off || list_any (is_at id.off) call.dropped) ≡ true) ids.now) }
    ensures cause { IfErr result (λ r. r ≡ refusal.NoObject) }
{
    for id in ids {
        if blocks.is_gone(id.off) {
            return Err(Refusal::NoObject);
        }
    }
    Ok(())
}

/// Whether each object that is to be freed or set is the lane's, as the plain model has it: `NotLocked` where it has not one for writing, else `NoObject`
/// where something was asked for too late, or the call freed one.
fn check_objects<M: LawfulMem>(
    lane: &Lane<M>,
    blocks: &CallBlocks,
    pending: &PendingActions,
) -> Result<(), Refusal>
    ensures ok { OnOk result ((o : Opening) (v : View) → IsAtWorkWith o M.at lane.now blocks.now v → IsPendingAs pending.now (pending_in v) → HasAllLeft v) }
    ensures refused { IfErr result (λ r. (o : Opening) (v : View) → IsAtWorkWith o M.at lane.now blocks.now v → IsPendingAs pending.now (pending_in v) → IsPublishReasonIn v r) }
    ensures causes { IfErr result (λ r. (r ≡ refusal.NotLocked) ⊎ (r ≡ refusal.NoObject)) }
{
    let frees = pending.frees.as_slice();
    let sets = pending.sets.as_slice();
    check_each_owned(lane, blocks, frees)?;
    check_owned(lane, blocks, sets)?;
    if pending.late {
        return Err(Refusal::NoObject);
    }
    check_each_left(blocks, frees)?;
    check_left(blocks, sets)?;
    Ok(())
}

/// Whether none of the objects is the pool's root, by its word: `RootKept` where one is.
fn check_no_root<M: LawfulMem>(
    lane: &mut Lane<M>,
    blocks: &CallBlocks,
    ids: &[Oid],
) -> Result<(), Refusal>
    requires work { IsLaneAtWorkWith M.at lane.old blocks.now }
    ensures ok { OnOk result ((o : Opening) (v : View) → IsAtWorkWith o M.at lane.old blocks.now v → HasLookedWith o M.at lane.new blocks.now v (λ w. All (λ (id : Oid). slice_index w.words 64 ≢ id.off) ids.now)) }
    ensures root { OnErr result ((o : Opening) (v : View) → IsAtWorkWith o M.at lane.old blocks.now v → HasLookedWith o M.at lane.new blocks.now v (λ w. Any (λ (id : Oid). slice_index w.words 64 ≡ id.off) ids.now)) }
    ensures cause { IfErr result (λ r. r ≡ refusal.RootKept) }
    ensures still { IsLaneAtWorkWith M.at lane.new blocks.now }
    ensures else_same { lane.new ≡ record lane.old { memory = lane.new.memory } }
{
    let root = load_root(lane);
    for id in ids {
        if id.off == root {
            return Err(Refusal::RootKept);
        }
    }
    Ok(())
}

/// How many of the objects the call made and has.
pub(crate) fn count_made(blocks: &CallBlocks, ids: &[Oid]) -> usize
    ensures made { (call : Call) → ListsBlocks blocks.now call → result ≡ count_by (λ (id : Oid). list_any (is_at id.off) call.made) ids.now }
    ensures few { result ≤ length ids.now }
{
    let mut made = 0;
    for id in ids {
        if blocks.made_at(id.off).is_some() {
            made += 1;
        }
    }
    made
}

/// Whether the log has room for the entries of all that is pending, with those that it lists and those of the blocks, and for the one that ends the
/// generation. An object that the call made and frees takes its entry back.
fn has_room_for<M: LawfulMem>(lane: &Lane<M>, blocks: &CallBlocks, pending: &PendingActions) -> bool
    ensures yes { IsTrue result → (o : Opening) (v : View) → IsAtWorkWith o M.at lane.now blocks.now v → IsPendingAs pending.now (pending_in v) → (pending_in v).late ≡ false → entries_published v ≤ max_entries }
    ensures no_ { result ≡ false → (o : Opening) (v : View) → IsAtWorkWith o M.at lane.now blocks.now v → IsPendingAs pending.now (pending_in v) → (pending_in v).late ≡ false → max_entries < entries_published v }
{
    let frees = pending.frees.as_slice();
    let made = count_made(blocks, frees);
    let room = MAX_ENTRIES + 2 * made;
    let added = lane.entries.len() + pending.sets.len() + frees.len() + pending.reserved.len() + 1;
    added <= room && blocks.count() <= room - added
}

/// Whether the lane can publish all that is pending, check by check, as the plain model has it: `NotLocked`, `NoObject`, `RootKept`, `OutOfRange` or
/// `ActionsFull` is the first reason why not. It looks at the root's word, and at the sizes of what it found.
fn check_publish<M: LawfulMem>(
    lane: &mut Lane<M>,
    blocks: &CallBlocks,
    pending: &PendingActions,
) -> Result<(), Refusal>
    requires work { IsLaneAtWorkWith M.at lane.old blocks.now }
    requires aligned { All (λ (a : SetAction). a.off % 8 ≡ 0) pending.now.sets.items }
    ensures ok { OnOk result ((o : Opening) (v : View) → IsAtWorkWith o M.at lane.old blocks.now v → IsPendingAs pending.now (pending_in v) → HasLookedWith o M.at lane.new blocks.now v CanPublish) }
    ensures refused { IfErr result (λ r. (o : Opening) (v : View) → IsAtWorkWith o M.at lane.old blocks.now v → IsPendingAs pending.now (pending_in v) → HasLookedWith o M.at lane.new blocks.now v (λ w. IsPublishRefused w r)) }
    ensures causes { IfErr result (λ r. (r ≡ refusal.NotLocked) ⊎ (r ≡ refusal.NoObject) ⊎ (r ≡ refusal.RootKept) ⊎ (r ≡ refusal.OutOfRange) ⊎ (r ≡ refusal.ActionsFull)) }
    ensures still { IsLaneAtWorkWith M.at lane.new blocks.now }
    ensures else_same { lane.new ≡ record lane.old { memory = lane.new.memory } }
{
    check_objects(lane, blocks, pending)?;
    let frees = pending.frees.as_slice();
    let sets = pending.sets.as_slice();
    check_no_root(lane, blocks, frees)?;
    check_ends(lane, blocks, sets)?;
    if !has_room_for(lane, blocks, pending) {
        return Err(Refusal::ActionsFull);
    }
    Ok(())
}

/// Tells the publish, and lists all that was pending, of which nothing is then: the entries of the words that are to be set, the objects that are to be freed,
/// and those that were reserved, as made. No memory call is made.
fn move_all<M: LawfulMem>(lane: &mut Lane<M>, blocks: &mut CallBlocks, pending: &mut PendingActions)
    requires may { (o : Opening) × ((v : View) × (IsAtWorkWith o M.at lane.old blocks.old v × IsPendingAs pending.old (pending_in v) × CanPublish v)) }
    ensures done { (o : Opening) (v : View) → IsAtWorkWith o M.at lane.old blocks.old v → IsPendingAs pending.old (pending_in v) → CanPublish v → HasPublishedWith o M.at lane.new blocks.new v }
    ensures listed { lane.new.entries.items ≡ lane.old.entries.items ++ map redo_for pending.old.sets.items }
    ensures none { IsPendingAs pending.new none_pending }
    ensures else_same { lane.new ≡ record lane.old { memory = lane.new.memory; entries = lane.new.entries } }
{
    lane.memory.tell(&Operation::Publish, None);
    let sets = pending.sets.as_slice();
    list_entries(lane, sets);
    let locks = lane.locks.as_slice();
    let frees = pending.frees.as_slice();
    move_frees(blocks, locks, frees);
    let reserved = pending.reserved.as_slice();
    move_reserved(blocks, reserved);
    pending.clear();
}

/// Publishes all that is pending in a transaction at work, or gives it up.
fn publish_at_work<M: LawfulMem>(
    lane: &mut Lane<M>,
    blocks: &mut CallBlocks,
    pending: &mut PendingActions,
) -> Result<(), Refusal>
    requires at_work { (o : Opening) × ((v : View) × (IsAtWorkWith o M.at lane.old blocks.old v × IsPendingAs pending.old (pending_in v))) }
    requires aligned { All (λ (a : SetAction). a.off % 8 ≡ 0) pending.old.sets.items }
    ensures done { OnOk result ((o : Opening) (v : View) → IsAtWorkWith o M.at lane.old blocks.old v → IsPendingAs pending.old (pending_in v) → HasLooked v (HasPublishedWith o M.at lane.new blocks.new)) }
    ensures listed { OnOk result (lane.new.entries.items ≡ lane.old.entries.items ++ map redo_for pending.old.sets.items) }
    ensures emptied { OnOk result (IsPendingAs pending.new none_pending) }
    ensures lane { OnOk result (lane.new ≡ record lane.old { memory = lane.new.memory; entries = lane.new.entries }) }
    ensures given_up { IfErr result (λ r. r ≢ refusal.Stopped → (o : Opening) (v : View) → IsAtWorkWith o M.at lane.old blocks.old v → IsPendingAs pending.old (pending_in v)
        → HasLooked v (IsPublishGivenUp M.at lane.new lane.old.records.items r)) }
    ensures none { IfErr result (λ r. r ≢ refusal.Stopped → lane.new.records.items ≡ []) }
    ensures given_up_lane { IfErr result (λ r. r ≢ refusal.Stopped
        → lane.new ≡ record lane.old { memory = lane.new.memory; records = lane.new.records; entries = lane.new.entries; stage = stage.OnAbort; error = error.Refused r; drawn = Some lane.new.last; last = lane.new.last }) }
    ensures stopped { IfErr result (λ r. r ≡ refusal.Stopped → (o : Opening) (v : View) → IsAtWorkWith o M.at lane.old blocks.old v → IsPendingAs pending.old (pending_in v)
        → HasLooked v (IsPublishStopped M.at lane.new lane.old.records.items)) }
    ensures stopped_lane { IfErr result (λ r. r ≡ refusal.Stopped
        → lane.new ≡ record lane.old { memory = lane.new.memory; records = lane.new.records; drawn = lane.new.drawn; last = lane.new.last; stopped = true }) }
    ensures kept { OnErr result (pending.new ≡ pending.old) }
    ensures unlisted { OnErr result (blocks.new ≡ blocks.old) }
    ensures causes { IfErr result (λ r. (r ≡ refusal.NotLocked) ⊎ (r ≡ refusal.NoObject) ⊎ (r ≡ refusal.RootKept) ⊎ (r ≡ refusal.OutOfRange) ⊎ (r ≡ refusal.ActionsFull) ⊎ (r ≡ refusal.Stopped)) }
{
    match check_publish(lane, blocks, pending) {
        Ok(()) => {
            move_all(lane, blocks, pending);
            Ok(())
        }
        Err(why) => Err(refuse(lane, &Operation::Publish, why)),
    }
}

/// Makes all that is pending the transaction's: pmemobj_tx_publish(3). Its words are set and its objects freed with the commit; what is reserved is the
/// transaction's own from now on. `NotLocked` where the transaction neither made an object that is to be freed or set nor holds it for writing, or that is of
/// another pool, else `NoObject` where something was asked of an object that was to be freed already, or the transaction freed one, else `RootKept` where
/// the root is to be freed, else `OutOfRange` where a word passes its object's end, else `ActionsFull` where the log has no room for all entries: those
/// listed, those of what is pending, those of the blocks that the transaction made and freed, and the one that ends the generation. Each gives the
/// transaction up, and leaves what is pending, and the lists, as they were. `NotWork` and `NoTx` for the transaction's stage, and `Stopped` where the
/// lane had stopped, change nothing; `Stopped` where it comes to its stop while it gives the transaction up leaves the first of the memory calls made.
pub fn publish<M: LawfulMem>(
    lane: &mut Lane<M>,
    blocks: &mut CallBlocks,
    pending: &mut PendingActions,
) -> Result<(), Refusal>
    requires at_work { work_refusal lane.old ≡ None → (o : Opening) × ((v : View) × (IsAtWorkWith o M.at lane.old blocks.old v × IsPendingAs pending.old (pending_in v))) }
    requires aligned { All (λ (a : SetAction). a.off % 8 ≡ 0) pending.old.sets.items }
    ensures refused { (r : Refusal) → work_refusal lane.old ≡ Some r → (result ≡ Err r) × (lane.new ≡ lane.old) }
    ensures done { OnOk result ((o : Opening) (v : View) → IsAtWorkWith o M.at lane.old blocks.old v → IsPendingAs pending.old (pending_in v) → HasLooked v (HasPublishedWith o M.at lane.new blocks.new)) }
    ensures listed { OnOk result (lane.new.entries.items ≡ lane.old.entries.items ++ map redo_for pending.old.sets.items) }
    ensures emptied { OnOk result (IsPendingAs pending.new none_pending) }
    ensures lane { OnOk result (lane.new ≡ record lane.old { memory = lane.new.memory; entries = lane.new.entries }) }
    ensures given_up { IfErr result (λ r. work_refusal lane.old ≡ None → r ≢ refusal.Stopped → (o : Opening) (v : View) → IsAtWorkWith o M.at lane.old blocks.old v → IsPendingAs pending.old (pending_in v)
        → HasLooked v (IsPublishGivenUp M.at lane.new lane.old.records.items r)) }
    ensures none { IfErr result (λ r. work_refusal lane.old ≡ None → r ≢ refusal.Stopped → lane.new.records.items ≡ []) }
    ensures given_up_lane { IfErr result (λ r. work_refusal lane.old ≡ None → r ≢ refusal.Stopped
        → lane.new ≡ record lane.old { memory = lane.new.memory; records = lane.new.records; entries = lane.new.entries; stage = stage.OnAbort; error = error.Refused r; drawn = Some lane.new.last; last = lane.new.last }) }
    ensures stopped { IfErr result (λ r. work_refusal lane.old ≡ None → r ≡ refusal.Stopped → (o : Opening) (v : View) → IsAtWorkWith o M.at lane.old blocks.old v → IsPendingAs pending.old (pending_in v)
        → HasLooked v (IsPublishStopped M.at lane.new lane.old.records.items)) }
    ensures stopped_lane { IfErr result (λ r. work_refusal lane.old ≡ None → r ≡ refusal.Stopped
        → lane.new ≡ record lane.old { memory = lane.new.memory; records = lane.new.records; drawn = lane.new.drawn; last = lane.new.last; stopped = true }) }
    ensures kept { OnErr result (pending.new ≡ pending.old) }
    ensures unlisted { OnErr result (blocks.new ≡ blocks.old) }
    ensures causes { IfErr result (λ r. work_refusal lane.old ≡ None → (r ≡ refusal.NotLocked) ⊎ (r ≡ refusal.NoObject) ⊎ (r ≡ refusal.RootKept) ⊎ (r ≡ refusal.OutOfRange) ⊎ (r ≡ refusal.ActionsFull) ⊎ (r ≡ refusal.Stopped)) }
{
    check_work(lane)?;
    publish_at_work(lane, blocks, pending)
}
