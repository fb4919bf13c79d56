ghost use Rattle.std.specs.Prelude.{◌≡◌, None};
ghost use Rattle.pm_call.specs.Did as did;
ghost use Rattle.pm_call.specs.Did.{IsAt};
ghost use Rattle.pm_action.specs.Inside.{Cancelled};

use pm_call::{stop, work_refusal};
use pm_memory::Stopped;
use pm_objects::{Operation, Refusal};
use pm_plan::persist_all;
use pm_world::{Lane, LawfulMem, LentOperation};

/// Cancels all that is pending, in the transaction that is at work: pmemobj_cancel(3). First all that
/// is undrained is made persistent. The transaction stays at work, with the words that it published
/// before. Makes exactly the memory calls of `cancels`.
///
/// # Errors
///
/// - `Stopped`: the lane had stopped, and nothing is done; or it comes to its stop: the first of the
///   calls are made, what is pending stays, and the lane says that it stopped.
/// - `NoTx`: no transaction is open; nothing is done.
/// - `NotWork`: the transaction is past its work; nothing is done.
pub(crate) fn cancel_inside<M: LawfulMem>(lane: &mut Lane<M>) -> Result<(), Refusal>
    requires { did.work_refusal lane.old ≡ None → IsAt M.at lane.old }
    ensures { Cancelled M.at lane.old lane.new result }
{
    if let Some(why) = work_refusal(lane) {
        return Err(why);
    }
    if let Err(Stopped) = persist_all(&mut lane.memory) {
        return Err(stop(lane));
    }
    lane.pending.clear();
    let operation = Operation::Cancel;
    lane.memory.tell(LentOperation::Whole(&operation), None);
    Ok(())
}
