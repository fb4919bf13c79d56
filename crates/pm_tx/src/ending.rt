ghost use Rattle.std.specs.Prelude.{◌≡◌, ◌-◌, None};
ghost use Rattle.pm_model.specs.Transaction.{is_none};
ghost use Rattle.pm_model.specs.declared.stage.Stage.TheVariants as stage;
ghost use Rattle.pm_objects.specs.declared.history.TxErr.TheVariants as error;
ghost use Rattle.pm_lock.specs.Holding.{MayGiveAll};
ghost use Rattle.pm_lock.specs.Locking.{Stands};
ghost use Rattle.pm_call.specs.Stages as stages;
ghost use Rattle.pm_call.specs.Stages.{Ended, IsLanePast};
ghost use Rattle.pm_tx.specs.Ending.{Closed, stage_outside};

use pm_call::end_refusal;
use pm_lock::give_back;
use pm_model::Stage;
use pm_objects::{Refusal, TxErr};
use pm_world::{Lane, LawfulMem};

/// Gives the lane's locks back, in the order in which it took them, and leaves no transaction open.
fn close<M: LawfulMem>(lane: &mut Lane<M>)
    requires { Stands M.at lane.old (λ v. MayGiveAll v lane.old.locks.items) }
    ensures { Closed M.at lane.old lane.new }
{
    give_back(lane);
    lane.level = 0;
    lane.stage = Stage::None;
    lane.error = TxErr::None;
}

/// The stage of the outer level once an inner one has ended, in a transaction with this error.
fn outer_stage(error: TxErr) -> Stage
    ensures { result ≡ stage_outside error }
{
    if error == TxErr::None {
        Stage::Work
    } else {
        Stage::OnAbort
    }
}

/// Ends a level of the transaction, and returns why it was aborted, if it was: pmemobj_tx_end(3). At
/// the outermost level the lane gives its locks back, in the order in which it took them, and is idle.
/// The end of an inner level leaves the outer one in work, or aborted. No counted memory call is made.
///
/// # Errors
///
/// - `Stopped`: the lane had stopped; nothing is done.
/// - `NoTx`: no transaction is open; nothing is done.
/// - `InTx`: the level is in work; nothing is done.
pub fn end<M: LawfulMem>(lane: &mut Lane<M>) -> Result<TxErr, Refusal>
    requires { stages.end_refusal lane.old ≡ None → IsLanePast M.at lane.old }
    ensures { Ended M.at lane.old lane.new result }
{
    if let Some(why) = end_refusal(lane) {
        return Err(why);
    }
    let error = lane.error;
    if lane.level == 1 {
        close(lane);
    } else {
        lane.level -= 1;
        lane.stage = outer_stage(error);
    }
    Ok(error)
}
