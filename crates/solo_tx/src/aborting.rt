ghost use Rattle.std.specs.Prelude.{◌≡◌, [], None, Some, Err, true, IfErr, OnErr, OnOk};
ghost use Rattle.solo_model.specs.Answers.{error_for};
ghost use Rattle.pm_objects.specs.declared.calls.Operation.TheVariants.{Abort};
ghost use Rattle.pm_objects.specs.declared.history.TxErr.{TxErr};
ghost use Rattle.pm_objects.specs.declared.refusal.Refusal.{Refusal};
ghost use Rattle.pm_objects.specs.declared.refusal.Refusal.TheVariants as refusal;
ghost use Rattle.solo_view.specs.View.{View};
ghost use Rattle.solo_world.specs.Opening.{Opening};
ghost use Rattle.solo_world.specs.declared.lane.Stage.TheVariants as stage;
ghost use Rattle.solo_tx.specs.AtWork.{IsAtWork};
ghost use Rattle.solo_tx.specs.Ending.{IsEndedBy, IsLaneAtWork, IsStoppedIn, MayGiveUp};
ghost use Rattle.solo_tx.specs.Sequences.{gives_up};
ghost use Rattle.solo_tx.specs.Stages.{work_refusal};

use crate::giving_up::give_up;
use crate::stages::check_work;
use pm_objects::{Operation, Refusal, TxErr};
use solo_world::{Lane, LawfulMem};

/// The error of a transaction that was aborted with this number.
fn aborted_with(errnum: u32) -> TxErr
    ensures { result ≡ error_for errnum }
{
    if errnum == 0 {
        TxErr::Canceled
    } else {
        TxErr::User(errnum)
    }
}

/// Gives the whole transaction up, with this number as its error: pmemobj_tx_abort(3). What it did is taken back, and it draws its number,
/// which changes nothing then. The lane keeps its locks until the outermost level ends. `NotWork` and `NoTx` for the transaction's stage,
/// and `Stopped` where the lane had stopped, change nothing; `Stopped` where it comes to its stop leaves the first of these memory calls
/// made.
pub fn abort<M: LawfulMem>(lane: &mut Lane<M>, errnum: u32) -> Result<(), Refusal>
    requires at_work { work_refusal lane.old ≡ None → IsLaneAtWork M.at lane.old }
    ensures refused { (r : Refusal) → work_refusal lane.old ≡ Some r → (result ≡ Err r) × (lane.new ≡ lane.old) }
    ensures ended { OnOk result ((o : Opening) (v : View) → IsAtWork o M.at lane.old v → MayGiveUp v → IsEndedBy M.at lane.new v (gives_up lane.old.records.items (Abort errnum) None lane.new.last) (Abort errnum) None) }
    ensures none { OnOk result (lane.new.records.items ≡ []) }
    ensures lane { OnOk result (lane.new
        ≡ record lane.old { memory = lane.new.memory; records = lane.new.records; entries = lane.new.entries; stage = stage.OnAbort; error = error_for errnum; drawn = Some lane.new.last; last = lane.new.last }) }
    ensures stops { OnErr result (work_refusal lane.old ≡ None → (o : Opening) (v : View) → IsAtWork o M.at lane.old v → MayGiveUp v
        → IsStoppedIn M.at lane.new v (gives_up lane.old.records.items (Abort errnum) None lane.new.last) (Abort errnum) None) }
    ensures stopped { IfErr result (λ r. work_refusal lane.old ≡ None → r ≡ refusal.Stopped) }
    ensures stopped_lane { OnErr result (work_refusal lane.old ≡ None
        → lane.new ≡ record lane.old { memory = lane.new.memory; records = lane.new.records; drawn = lane.new.drawn; last = lane.new.last; stopped = true }) }
{
    check_work(lane)?;
    let error = aborted_with(errnum);
    give_up(lane, &Operation::Abort { errnum }, None, error)?;
    Ok(())
}
