//! What is pending given up, as far as that reaches the memory.

ghost use Rattle.std.specs.Prelude.{◌≡◌, None, true, IfErr, OnErr, OnOk};
ghost use Rattle.pm_objects.specs.declared.calls.Operation.TheVariants.{Cancel};
ghost use Rattle.pm_objects.specs.declared.refusal.Refusal.TheVariants as refusal;
ghost use Rattle.solo_view.specs.View.{View};
ghost use Rattle.solo_world.specs.Opening.{Opening};
ghost use Rattle.solo_world.specs.Sequences.{IsMade, IsReady, Runs};
ghost use Rattle.solo_tx.specs.Actions.{HasCanceled, cancels};
ghost use Rattle.solo_tx.specs.AtWork.{IsAtWork};
ghost use Rattle.solo_tx.specs.Ending.{IsLaneAtWork, IsStoppedIn};

use pm_objects::{Operation, Refusal};
use solo_memory::Stopped;
use solo_world::{Lane, LawfulMem, settle};

/// Makes all that is undrained persistent, and tells the cancel.
fn settle_canceled<M: LawfulMem>(mem: &mut M) -> Result<(), Stopped>
    requires ready { IsReady (M.at mem.old) cancels }
    ensures ran { Runs (M.at mem.old) (M.at mem.new) cancels result }
{
    settle(mem)?;
    mem.tell(&Operation::Cancel, None);
    Ok(())
}

/// Makes all that is undrained persistent in a transaction at work, and tells that what was pending is given up: the part of pmemobj_cancel(3) that reaches the memory.
/// `Stopped` where it comes to its stop leaves the first of these memory calls made.
pub fn cancel_call<M: LawfulMem>(lane: &mut Lane<M>) -> Result<(), Refusal>
    requires at_work { IsLaneAtWork M.at lane.old }
    ensures made { OnOk result (IsMade (M.at lane.old.memory) (M.at lane.new.memory) cancels) }
    ensures done { OnOk result ((o : Opening) (v : View) → IsAtWork o M.at lane.old v → HasCanceled o M.at lane.new v) }
    ensures lane { OnOk result (lane.new ≡ record lane.old { memory = lane.new.memory }) }
    ensures stops { OnErr result ((o : Opening) (v : View) → IsAtWork o M.at lane.old v → IsStoppedIn M.at lane.new v cancels Cancel None) }
    ensures stopped { IfErr result (λ r. r ≡ refusal.Stopped) }
    ensures stopped_lane { OnErr result (lane.new ≡ record lane.old { memory = lane.new.memory; stopped = true }) }
{
    match settle_canceled(&mut lane.memory) {
        Ok(()) => Ok(()),
        Err(Stopped) => {
            lane.stopped = true;
            Err(Refusal::Stopped)
        }
    }
}
