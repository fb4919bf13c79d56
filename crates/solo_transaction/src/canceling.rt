//! What is pending given up in a transaction.

ghost use Rattle.std.specs.Prelude.{◌≡◌, ◌≢◌, List, None, Some, Err, true, IfErr, OnErr, OnOk};
ghost use Rattle.pm_header.specs.declared.header.Header.{Header};
ghost use Rattle.solo_model.specs.Actions.{none_pending};
ghost use Rattle.pm_objects.specs.declared.calls.Operation.TheVariants.{Cancel};
ghost use Rattle.pm_objects.specs.declared.pool.PoolView.{PoolView};
ghost use Rattle.pm_objects.specs.declared.refusal.Refusal.{Refusal};
ghost use Rattle.pm_objects.specs.declared.refusal.Refusal.TheVariants as refusal;
ghost use Rattle.solo_pending.specs.AllPending.{IsPendingAs};
ghost use Rattle.solo_tx.specs.Actions.{cancels};
ghost use Rattle.solo_tx.specs.Ending.{IsStoppedIn};
ghost use Rattle.solo_tx.specs.Stages.{work_refusal};
ghost use Rattle.solo_view.specs.Steps.{Step};
ghost use Rattle.solo_view.specs.View.{View};
ghost use Rattle.solo_world.specs.Opening.{Opening};
ghost use Rattle.solo_transaction.specs.AtWork.{IsAtWorkWith};
ghost use Rattle.solo_transaction.specs.Canceling.{CancelsAlone, HasCanceledWith, MayCancel};

use crate::filling::ReservedMem;
use crate::giving_back::give_up_pending;
use pm_objects::Refusal;
use solo_made::CallBlocks;
use solo_pending::PendingActions;
use solo_tx::{cancel_call, check_work};
use solo_world::Lane;

/// Gives up what is pending in a transaction at work.
fn cancel_at_work<M: ReservedMem>(
    lane: &mut Lane<M>,
    blocks: &CallBlocks,
    pending: &mut PendingActions,
) -> Result<(), Refusal>
    requires at_work { MayCancel M.at lane.old blocks.now pending.old }
    ensures done { OnOk result ((o : Opening) (header : Header) (pool : PoolView) (start v : View) (steps : List Step)
        → CancelsAlone o header pool start steps M.at lane.old blocks.now pending.old v → HasCanceledWith o M.at lane.new blocks.now v) }
    ensures none { OnOk result (IsPendingAs pending.new none_pending) }
    ensures lane { OnOk result (lane.new ≡ record lane.old { memory = lane.new.memory }) }
    ensures stops { OnErr result ((o : Opening) (v : View) → IsAtWorkWith o M.at lane.old blocks.now v → IsStoppedIn M.at lane.new v cancels Cancel None) }
    ensures stopped { IfErr result (λ r. r ≡ refusal.Stopped) }
    ensures stopped_lane { OnErr result (lane.new ≡ record lane.old { memory = lane.new.memory; stopped = true }) }
    ensures kept { OnErr result (pending.new ≡ pending.old) }
{
    cancel_call(lane)?;
    give_up_pending(lane, pending);
    Ok(())
}

/// Gives up all that is pending, if anything, in a transaction of a lane that is alone: pmemobj_cancel(3). All that is undrained is made persistent, the cancel
/// is told, and then the block of each object that is reserved is given back, which may be reserved again at once. `NotWork` and `NoTx` for the transaction's
/// stage, and `Stopped` where the lane had stopped, change nothing; `Stopped` where it comes to its stop, which it does before the cancel is told, leaves the
/// first of these memory calls made, and what is pending as it was.
pub fn cancel<M: ReservedMem>(
    lane: &mut Lane<M>,
    blocks: &CallBlocks,
    pending: &mut PendingActions,
) -> Result<(), Refusal>
    requires at_work { work_refusal lane.old ≡ None → MayCancel M.at lane.old blocks.now pending.old }
    ensures refused { (r : Refusal) → work_refusal lane.old ≡ Some r → (result ≡ Err r) × (lane.new ≡ lane.old) }
    ensures done { OnOk result ((o : Opening) (header : Header) (pool : PoolView) (start v : View) (steps : List Step)
        → CancelsAlone o header pool start steps M.at lane.old blocks.now pending.old v → HasCanceledWith o M.at lane.new blocks.now v) }
    ensures none { OnOk result (IsPendingAs pending.new none_pending) }
    ensures lane { OnOk result (lane.new ≡ record lane.old { memory = lane.new.memory }) }
    ensures stops { OnErr result (work_refusal lane.old ≡ None → (o : Opening) (v : View) → IsAtWorkWith o M.at lane.old blocks.now v → IsStoppedIn M.at lane.new v cancels Cancel None) }
    ensures stopped { IfErr result (λ r. work_refusal lane.old ≡ None → r ≡ refusal.Stopped) }
    ensures stopped_lane { OnErr result (work_refusal lane.old ≡ None → lane.new ≡ record lane.old { memory = lane.new.memory; stopped = true }) }
    ensures kept { OnErr result (pending.new ≡ pending.old) }
{
    check_work(lane)?;
    cancel_at_work(lane, blocks, pending)
}
