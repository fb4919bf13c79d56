//! All that is pending published outside of a transaction, of whatever kind.

ghost use Rattle.std.specs.Prelude.{◌≡◌, ◌⊎◌, ◌+◌, ◌*◌, ◌≤◌, ◌++◌, [], length, map, None, Some, true, IfErr, OnErr, OnOk};
ghost use Rattle.solo_made.specs.Entries.{entries_of};
ghost use Rattle.pm_objects.specs.declared.calls.Operation.TheVariants as operation;
ghost use Rattle.pm_objects.specs.declared.refusal.Refusal.TheVariants as refusal;
ghost use Rattle.solo_redo.specs.Sequences.{logs};
ghost use Rattle.solo_transaction.specs.Published.{logs_call};
ghost use Rattle.solo_tx.specs.Ending.{IsStoppedAmong};
ghost use Rattle.solo_view.specs.View.{View};
ghost use Rattle.solo_world.specs.Opening.{Opening};
ghost use Rattle.solo_world.specs.Sequences.{IsStopped, Runs, in_turn, settles};
ghost use Rattle.solo_action.specs.PublishingAll.{HasPublishedAll, HoldsAll, ListsPending, MayLogCall, MayPublishPending, StopsDecided, entries_pending};

use pm_objects::{Operation, Refusal};
use solo_made::CallBlocks;
use solo_memory::Stopped;
use solo_pending::{PendingActions, list_entries};
use solo_transaction::{move_frees, move_reserved};
use solo_tx::publish_log;
use solo_world::{Lane, LawfulMem, settle};

/// Lists the entries of all that is pending: those of the words that are to be set, then those of the blocks of what is to be freed, and then of what is reserved. The
/// scratch lists have these objects then.
fn list_all<M: LawfulMem>(lane: &mut Lane<M>, blocks: &mut CallBlocks, pending: &PendingActions)
    requires may { (o : Opening) × ((v : View) × (HoldsAll o M.at lane.old pending.now v × MayPublishPending lane.old.locks.items v)) }
    requires pages { length blocks.old.dropped ≡ 1 + 2 * lane.old.shape.lanes + 65 * lane.old.shape.zones }
    ensures lists { (o : Opening) (v : View) → HoldsAll o M.at lane.old pending.now v → ListsPending lane.old.locks.items v blocks.new }
    ensures listed { lane.new.entries.items ≡ lane.old.entries.items ++ entries_pending pending.now lane.old.shape.lanes blocks.new }
    ensures pages { length blocks.new.dropped ≡ length blocks.old.dropped }
    ensures else_same { lane.new ≡ record lane.old { entries = lane.new.entries } }
{
    blocks.clear();
    let sets = pending.sets.as_slice();
    list_entries(lane, sets);
    let locks = lane.locks.as_slice();
    let frees = pending.frees.as_slice();
    move_frees(blocks, locks, frees);
    let reserved = pending.reserved.as_slice();
    move_reserved(blocks, reserved);
    blocks.list_entries(lane);
}

/// Makes all persistent, logs the entries that the lane lists, tells the publish and draws the call's number, and performs the log. Makes exactly the memory calls of
/// `logs_call`, or the first of them up to the lane's stop.
#[tactic(auto, using(solo_world::proofs::Sequencing::runs_then, solo_world::proofs::Sequencing::runs_err), unfolding(solo_transaction::specs::Published::logs_call))]
fn publish_listed<M: LawfulMem>(lane: &mut Lane<M>) -> Result<(), Stopped>
    requires may { (v : View) × (M.at lane.old.memory v × MayLogCall v lane.old.entries.items) }
    ensures ran { Runs (M.at lane.old.memory) (M.at lane.new.memory) (logs_call operation.Publish lane.old.entries.items lane.new.last) result }
    ensures none { OnOk result (lane.new.records.items ≡ []) }
    ensures unlisted { OnOk result (lane.new.entries.items ≡ []) }
    ensures drawn { OnOk result (lane.new.drawn ≡ Some lane.new.last) }
    ensures stops { OnErr result (((lane.new.drawn ≡ lane.old.drawn) × IsStopped (M.at lane.old.memory) (M.at lane.new.memory) (in_turn settles (logs lane.old.entries.items)))
        ⊎ ((lane.new.drawn ≡ Some lane.new.last) × StopsDecided (M.at lane.old.memory) (M.at lane.new.memory) lane.old.entries.items operation.Publish lane.new.last)) }
    ensures else_same { lane.new ≡ record lane.old { memory = lane.new.memory; records = lane.new.records; entries = lane.new.entries; drawn = lane.new.drawn; last = lane.new.last } }
{
    settle(&mut lane.memory)?;
    publish_log(lane, &Operation::Publish)
}

/// Publishes all that is pending, a free or a reservation at least, whose objects the lane holds, in a call that has begun: all is made persistent, a log of the entries of
/// all that is pending is written, the publish is told and the call draws its number, and the log is performed, by which all of it takes effect at once. The scratch lists, of
/// the pool's pages, have what was made and freed then. `Stopped` where the lane comes to its stop leaves the first of the memory calls made. What is pending is left to the
/// caller.
pub(crate) fn publish_all_held<M: LawfulMem>(
    lane: &mut Lane<M>,
    blocks: &mut CallBlocks,
    pending: &PendingActions,
) -> Result<(), Refusal>
    requires may { (o : Opening) × ((v : View) × (HoldsAll o M.at lane.old pending.now v × MayPublishPending lane.old.locks.items v)) }
    requires pages { length blocks.old.dropped ≡ 1 + 2 * lane.old.shape.lanes + 65 * lane.old.shape.zones }
    requires some { 1 ≤ length pending.now.frees.items + length pending.now.reserved.items }
    ensures done { OnOk result ((o : Opening) (v : View) → HoldsAll o M.at lane.old pending.now v → MayPublishPending lane.old.locks.items v
        → HasPublishedAll M.at lane.new v (logs_call operation.Publish (entries_pending pending.now v.lanes blocks.new) lane.new.last)) }
    ensures lists { (o : Opening) (v : View) → HoldsAll o M.at lane.old pending.now v → ListsPending lane.old.locks.items v blocks.new }
    ensures pages { length blocks.new.dropped ≡ length blocks.old.dropped }
    ensures none { OnOk result (lane.new.records.items ≡ []) }
    ensures unlisted { OnOk result (lane.new.entries.items ≡ []) }
    ensures lane { OnOk result (lane.new ≡ record lane.old { memory = lane.new.memory; records = lane.new.records; entries = lane.new.entries; drawn = Some lane.new.last; last = lane.new.last }) }
    ensures stops { OnErr result ((o : Opening) (v : View) → HoldsAll o M.at lane.old pending.now v → MayPublishPending lane.old.locks.items v
        → IsStoppedAmong M.at lane.new v (logs_call operation.Publish (entries_pending pending.now v.lanes blocks.new) lane.new.last) operation.Publish None) }
    ensures stopped { IfErr result (λ r. r ≡ refusal.Stopped) }
    ensures stopped_lane { OnErr result (lane.new ≡ record lane.old { memory = lane.new.memory; records = lane.new.records; entries = lane.new.entries; drawn = lane.new.drawn; last = lane.new.last; stopped = true }) }
{
    list_all(lane, blocks, pending);
    match publish_listed(lane) {
        Ok(()) => Ok(()),
        Err(Stopped) => {
            lane.stopped = true;
            Err(Refusal::Stopped)
        }
    }
}
