ghost use Rattle.std.specs.Prelude.{◌≡◌, ◌⊎◌, ◌≢◌, ◌+◌, ◌*◌, ◌≤◌, [], None, Some, Err, true, false, Any, IfErr, OnErr, OnOk, length, slice_index};
ghost use Rattle.solo_crash.specs.Pending.{pending_before, sets_before};
ghost use Rattle.solo_model.specs.Actions.{none_pending, wants_pending};
ghost use Rattle.pm_objects.specs.declared.calls.Operation.TheVariants as operation;
ghost use Rattle.pm_objects.specs.declared.ids.Oid.{Oid};
ghost use Rattle.pm_objects.specs.declared.refusal.Refusal.TheVariants as refusal;
ghost use Rattle.solo_pending.specs.AllPending.{IsPendingAs, count_in};
ghost use Rattle.solo_pending.specs.Pending.{pending_of, sets_of};
ghost use Rattle.solo_view.specs.View.{View};
ghost use Rattle.solo_lock.specs.Lacking.{LacksObject};
ghost use Rattle.solo_tx.specs.Ending.{IsEndedBy, IsLaneAfterCall, IsStoppedIn};
ghost use Rattle.solo_tx.specs.Sequences.{publishes_outside};
ghost use Rattle.solo_action.specs.Holding.{BeginsToPublish, Overruns, StaysSound};
ghost use Rattle.solo_action.specs.Outside.{RestsAlone};
ghost use Rattle.solo_action.specs.Publishing.{AreSetsAlone, HoldsToPublish, IsBegunPublishCause, IsPublishCause, IsPublished, IsPublishedBy, IsStoppedInPublish, IsStoppedPublishing, MayPublishHeld, PublishEnds, entries_of};
ghost use Rattle.solo_action.specs.PublishingAll.{HasPublishedHeld, IsStoppedHeld};

use crate::holding::hold_actions;
use crate::publishing_all::publish_all_held;
use crate::telling::{come_to_rest, end_outside, settle_begun};
use pm_objects::{Operation, Refusal};
use solo_made::CallBlocks;
use solo_memory::Stopped;
use solo_pending::{PendingActions, SetAction, list_entries};
use solo_reclaim::reclaim;
use solo_transaction::ReservedMem;
use solo_tx::{publish_log, start};
use solo_world::{Lane, LawfulMem};

/// Makes all that is undrained persistent, logs the actions, whose objects the lane holds, tells the publish and draws the call's number, and performs
/// them; or says that the lane stopped.
fn publish_held<M: LawfulMem>(lane: &mut Lane<M>, actions: &[SetAction]) -> Result<(), Refusal>
    requires may { (v : View) × MayPublishHeld M.at lane.old (sets_of actions.now) v }
    requires some { 1 ≤ length actions.now }
    requires few { length actions.now ≤ 63 }
    ensures ended { OnOk result ((v : View) → MayPublishHeld M.at lane.old (sets_of actions.now) v → pending_of actions.now ≡ pending_before v
        → IsEndedBy M.at lane.new v (publishes_outside (entries_of (sets_of actions.now)) operation.Publish lane.new.last) operation.Publish None) }
    ensures behind { OnOk result (IsLaneAfterCall M.at lane.new) }
    ensures none { OnOk result (lane.new.records.items ≡ []) }
    ensures unlisted { OnOk result (lane.new.entries.items ≡ []) }
    ensures lane { OnOk result (lane.new ≡ record lane.old { memory = lane.new.memory; records = lane.new.records; entries = lane.new.entries; drawn = Some lane.new.last; last = lane.new.last }) }
    ensures stops { OnErr result ((v : View) → MayPublishHeld M.at lane.old (sets_of actions.now) v → pending_of actions.now ≡ pending_before v
        → IsStoppedIn M.at lane.new v (publishes_outside (entries_of (sets_of actions.now)) operation.Publish lane.new.last) operation.Publish None) }
    ensures stopped { IfErr result (λ r. r ≡ refusal.Stopped) }
    ensures stopped_lane { OnErr result (lane.new ≡ record lane.old { memory = lane.new.memory; records = lane.new.records; entries = lane.new.entries; drawn = lane.new.drawn; last = lane.new.last; stopped = true }) }
{
    settle_begun(lane)?;
    list_entries(lane, actions);
    match publish_log(lane, &Operation::Publish) {
        Ok(()) => Ok(()),
        Err(Stopped) => {
            lane.stopped = true;
            Err(Refusal::Stopped)
        }
    }
}

/// Publishes what is pending where that is words alone, some at least, whose objects the lane holds, and gives the locks back; the lane is at rest then.
fn publish_sets<M: ReservedMem>(lane: &mut Lane<M>, pending: &PendingActions) -> Result<(), Refusal>
    requires may { (v : View) × HoldsToPublish M.at lane.old pending.now v }
    requires no_frees { pending.now.frees.items ≡ [] }
    requires none_reserved { pending.now.reserved.items ≡ [] }
    requires some { 1 ≤ length pending.now.sets.items }
    ensures done { OnOk result ((v : View) → HoldsToPublish M.at lane.old pending.now v → AreSetsAlone v × IsPublishedBy M.at lane.new (sets_before v) v) }
    ensures stops { OnErr result ((v : View) → HoldsToPublish M.at lane.old pending.now v → AreSetsAlone v × IsStoppedPublishing M.at lane.new (sets_before v) v) }
    ensures emptied { OnOk result (lane.new.locks.items ≡ []) }
    ensures none { OnOk result (lane.new.records.items ≡ []) }
    ensures unlisted { OnOk result (lane.new.entries.items ≡ []) }
    ensures lane { OnOk result (lane.new ≡ record lane.old { memory = lane.new.memory; locks = lane.new.locks; records = lane.new.records; entries = lane.new.entries; drawn = None; last = lane.new.last }) }
    ensures stopped { IfErr result (λ r. r ≡ refusal.Stopped) }
    ensures stopped_lane { OnErr result (lane.new ≡ record lane.old { memory = lane.new.memory; records = lane.new.records; entries = lane.new.entries; drawn = lane.new.drawn; last = lane.new.last; stopped = true }) }
{
    publish_held(lane, pending.sets.as_slice())?;
    come_to_rest(lane);
    Ok(())
}

/// Publishes all that is pending, a free or a reservation at least, whose objects the lane holds; gives the locks back, and then the blocks that were freed. Nothing is
/// reserved any more then, and the lane is at rest.
fn publish_blocks<M: ReservedMem>(
    lane: &mut Lane<M>,
    blocks: &mut CallBlocks,
    pending: &PendingActions,
) -> Result<(), Refusal>
    requires may { (v : View) × HoldsToPublish M.at lane.old pending.now v }
    requires pages { length blocks.old.dropped ≡ 1 + 2 * lane.old.shape.lanes + 65 * lane.old.shape.zones }
    requires some { 1 ≤ length pending.now.frees.items + length pending.now.reserved.items }
    ensures done { OnOk result ((v : View) → HoldsToPublish M.at lane.old pending.now v → HasPublishedHeld M.at lane.new pending.now blocks.new v) }
    ensures stops { OnErr result ((v : View) → HoldsToPublish M.at lane.old pending.now v → IsStoppedHeld M.at lane.new pending.now blocks.new v) }
    ensures pages { length blocks.new.dropped ≡ length blocks.old.dropped }
    ensures emptied { OnOk result (lane.new.locks.items ≡ []) }
    ensures none { OnOk result (lane.new.records.items ≡ []) }
    ensures unlisted { OnOk result (lane.new.entries.items ≡ []) }
    ensures lane { OnOk result (lane.new ≡ record lane.old { memory = lane.new.memory; locks = lane.new.locks; records = lane.new.records; entries = lane.new.entries; drawn = None; last = lane.new.last }) }
    ensures stopped { IfErr result (λ r. r ≡ refusal.Stopped) }
    ensures stopped_lane { OnErr result (lane.new ≡ record lane.old { memory = lane.new.memory; records = lane.new.records; entries = lane.new.entries; drawn = lane.new.drawn; last = lane.new.last; stopped = true }) }
{
    publish_all_held(lane, blocks, pending)?;
    come_to_rest(lane);
    reclaim(&mut lane.memory, lane.shape, &[]);
    Ok(())
}

/// Whether words alone are pending: nothing is to be freed, and nothing is reserved.
fn has_sets_alone(pending: &PendingActions) -> bool
    ensures frees { result ≡ true → pending.now.frees.items ≡ [] }
    ensures reserved { result ≡ true → pending.now.reserved.items ≡ [] }
    ensures others { result ≡ false → 1 ≤ length pending.now.frees.items + length pending.now.reserved.items }
{
    pending.frees.len() + pending.reserved.len() == 0
}

/// Publishes all that is pending, something at least, whose objects the lane holds: words alone, or with frees or reservations among them.
fn publish_kinds<M: ReservedMem>(
    lane: &mut Lane<M>,
    blocks: &mut CallBlocks,
    pending: &PendingActions,
) -> Result<(), Refusal>
    requires may { (v : View) × HoldsToPublish M.at lane.old pending.now v }
    requires some { 1 ≤ count_in pending.now }
    requires pages { length blocks.old.dropped ≡ 1 + 2 * lane.old.shape.lanes + 65 * lane.old.shape.zones }
    ensures done { OnOk result ((v : View) → HoldsToPublish M.at lane.old pending.now v → IsPublished M.at lane.new pending.now blocks.new v) }
    ensures stops { OnErr result ((v : View) → HoldsToPublish M.at lane.old pending.now v → IsStoppedInPublish M.at lane.new pending.now blocks.new v) }
    ensures pages { length blocks.new.dropped ≡ length blocks.old.dropped }
    ensures emptied { OnOk result (lane.new.locks.items ≡ []) }
    ensures none { OnOk result (lane.new.records.items ≡ []) }
    ensures unlisted { OnOk result (lane.new.entries.items ≡ []) }
    ensures lane { OnOk result (lane.new ≡ record lane.old { memory = lane.new.memory; locks = lane.new.locks; records = lane.new.records; entries = lane.new.entries; drawn = None; last = lane.new.last }) }
    ensures stopped { IfErr result (λ r. r ≡ refusal.Stopped) }
    ensures stopped_lane { OnErr result (lane.new ≡ record lane.old { memory = lane.new.memory; records = lane.new.records; entries = lane.new.entries; drawn = lane.new.drawn; last = lane.new.last; stopped = true }) }
{
    if has_sets_alone(pending) {
        publish_sets(lane, pending)
    } else {
        publish_blocks(lane, blocks, pending)
    }
}

/// Publishes all that is pending, something at least, in a call that has begun.
fn publish_begun<M: ReservedMem>(
    lane: &mut Lane<M>,
    blocks: &mut CallBlocks,
    pending: &mut PendingActions,
) -> Result<(), Refusal>
    requires begun { (w : View) × BeginsToPublish M.at lane.old pending.old w }
    requires free { lane.old.locks.items ≡ [] }
    requires some { 1 ≤ count_in pending.old }
    requires pages { length blocks.old.dropped ≡ 1 + 2 * lane.old.shape.lanes + 65 * lane.old.shape.zones }
    ensures ends { (w : View) → BeginsToPublish M.at lane.old pending.old w → PublishEnds M.at lane.new pending.old blocks.new w result }
    ensures emptied { OnOk result (IsPendingAs pending.new none_pending) }
    ensures kept { OnErr result (pending.new ≡ pending.old) }
    ensures pages { length blocks.new.dropped ≡ length blocks.old.dropped }
    ensures lane { result ≢ Err refusal.Stopped → lane.new ≡ record lane.old { memory = lane.new.memory; drawn = None; last = lane.new.last } }
    ensures stopped_lane { result ≡ Err refusal.Stopped → lane.new ≡ record lane.old
        { memory = lane.new.memory; locks = lane.new.locks; records = lane.new.records; entries = lane.new.entries; drawn = lane.new.drawn; last = lane.new.last; stopped = true } }
    ensures causes { IfErr result IsBegunPublishCause }
{
    hold_actions(lane, pending)?;
    publish_kinds(lane, blocks, pending)?;
    pending.clear();
    Ok(())
}

/// Performs all that is pending of the lane, which is alone, at once, where no transaction is open: pmemobj_publish(3). It is a call of the history, and a power failure leaves
/// all of it done or nothing: each word that is to be set, each object that is to be freed, and each that is reserved. `Stopped` where the lane had stopped, and `Spent` where
/// its generation or the numbers are used up, change nothing; nor does `Busy`, where the lock of an object is another lane's. pmemobj_publish waits for locks: until lanes run
/// side by side each is tried once here, as a begin does. `NoObject` where an action names no object, or one was asked for late, of an object that was to be freed already; else
/// `RootKept` where an object that is to be freed is the root, and else `OutOfRange` where a set-value passes the end of its object: each is told, and leaves what is pending as
/// it was. Before the log all that is undrained is made persistent; behind it the blocks that were freed are given back, and nothing is pending or reserved any more. `Stopped`
/// where the lane comes to its stop leaves the first of the memory calls made. The scratch lists are of the pool's pages, and have then what was made and freed, where a
/// free or a reservation was pending.
pub fn publish<M: ReservedMem>(
    lane: &mut Lane<M>,
    blocks: &mut CallBlocks,
    pending: &mut PendingActions,
) -> Result<(), Refusal>
    requires rests { lane.old.stopped ≡ false → (v : View) × (RestsAlone M.at lane.old v × StaysSound M.at v × IsPendingAs pending.old (pending_before v)) }
    requires pages { length blocks.old.dropped ≡ 1 + 2 * lane.old.shape.lanes + 65 * lane.old.shape.zones }
    ensures stopped { lane.old.stopped ≡ true → (result ≡ Err refusal.Stopped) × (lane.new ≡ lane.old) }
    ensures ends { (v : View) → RestsAlone M.at lane.old v → StaysSound M.at v → IsPendingAs pending.old (pending_before v) → PublishEnds M.at lane.new pending.old blocks.new v result }
    ensures missing { result ≡ Err refusal.NoObject → (v : View) → RestsAlone M.at lane.old v → StaysSound M.at v → IsPendingAs pending.old (pending_before v)
        → Any (LacksObject v) (wants_pending (pending_before v)) ⊎ ((pending_before v).late ≡ true) }
    ensures root_kept { result ≡ Err refusal.RootKept → (v : View) → RestsAlone M.at lane.old v → StaysSound M.at v → IsPendingAs pending.old (pending_before v)
        → Any (λ (id : Oid). slice_index v.words 64 ≡ id.off) (pending_before v).frees }
    ensures past_end { result ≡ Err refusal.OutOfRange → (v : View) → RestsAlone M.at lane.old v → StaysSound M.at v → IsPendingAs pending.old (pending_before v)
        → Any (Overruns v) (pending_before v).sets }
    ensures emptied { OnOk result (IsPendingAs pending.new none_pending) }
    ensures kept { OnErr result (pending.new ≡ pending.old) }
    ensures pages { length blocks.new.dropped ≡ length blocks.old.dropped }
    ensures lane { lane.new.stopped ≡ false → lane.new ≡ record lane.old { memory = lane.new.memory; last = lane.new.last } }
    ensures stopped_lane { lane.old.stopped ≡ false → result ≡ Err refusal.Stopped → lane.new ≡ record lane.old
        { memory = lane.new.memory; locks = lane.new.locks; records = lane.new.records; entries = lane.new.entries; drawn = lane.new.drawn; last = lane.new.last; stopped = true } }
    ensures causes { IfErr result (IsPublishCause lane.old.stopped) }
{
    if lane.stopped {
        return Err(Refusal::Stopped);
    }
    start(lane)?;
    if pending.count() == 0 {
        end_outside(lane, &Operation::Publish, None);
        return Ok(());
    }
    publish_begun(lane, blocks, pending)
}
