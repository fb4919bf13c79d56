ghost use Rattle.std.specs.Prelude.{◌≡◌, None};
ghost use Rattle.pm_call.specs.Did as did;
ghost use Rattle.pm_call.specs.Did.{IsAt};
ghost use Rattle.pm_call.specs.Stages as stages;
ghost use Rattle.pm_call.specs.Stages.{IsLanePast};
ghost use Rattle.pm_tx.specs.Commits.{LevelCommitted, Processed};

use pm_call::{commit_call, commit_inner, end_refusal, stage_after, stop, work_refusal};
use pm_memory::Stopped;
use pm_model::Stage;
use pm_objects::Refusal;
use pm_world::{Lane, LawfulMem};

/// Commits a level of the transaction: pmemobj_tx_commit(3). An inner level is only told: what it did
/// is in the hands of the outer ones. At the outermost level the lane looks at the words that it
/// published, all that the call did is made persistent, the words are set, and the call takes its
/// number. The lane holds its locks until the level ends. Makes exactly the memory calls of `commits`
/// after the looks, and none in an inner level.
///
/// # Errors
///
/// - `Stopped`: the lane had stopped, and nothing is done; or it comes to its stop, the first of the
///   calls are made, and the lane says that it stopped.
/// - `NoTx`: no transaction is open; nothing is done.
/// - `NotWork`: the transaction is past its work; nothing is done.
pub fn commit<M: LawfulMem>(lane: &mut Lane<M>) -> Result<(), Refusal>
    requires { did.work_refusal lane.old ≡ None → IsAt M.at lane.old }
    ensures { LevelCommitted M.at lane.old lane.new result }
{
    if let Some(why) = work_refusal(lane) {
        return Err(why);
    }
    if lane.level > 1 {
        commit_inner(lane);
        return Ok(());
    }
    match commit_call(lane) {
        Ok(()) => Ok(()),
        Err(Stopped) => Err(stop(lane)),
    }
}

/// Goes on to the next stage of the transaction: pmemobj_tx_process(3). At work the level is
/// committed; after a commit or an abort comes `Finally`, and then `None`, which stays.
///
/// # Errors
///
/// - `Stopped`: the lane had stopped, and nothing is done; or it comes to its stop in the commit.
/// - `NoTx`: no transaction is open; nothing is done.
pub fn process<M: LawfulMem>(lane: &mut Lane<M>) -> Result<(), Refusal>
    requires work { did.work_refusal lane.old ≡ None → IsAt M.at lane.old }
    requires past { stages.end_refusal lane.old ≡ None → IsLanePast M.at lane.old }
    ensures { Processed M.at lane.old lane.new result }
{
    if lane.stage == Stage::Work {
        return commit(lane);
    }
    if let Some(why) = end_refusal(lane) {
        return Err(why);
    }
    lane.stage = stage_after(lane.stage);
    Ok(())
}
