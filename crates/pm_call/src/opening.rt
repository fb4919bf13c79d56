ghost use Rattle.std.specs.Prelude.{◌≡◌, ◌+◌, ℕ, [], Some};
ghost use Rattle.pm_model.specs.declared.stage.Stage.TheVariants as stage;
ghost use Rattle.pm_objects.specs.declared.calls.Operation.TheVariants.{Begin};
ghost use Rattle.pm_objects.specs.declared.history.TxErr.TheVariants as error;
ghost use Rattle.pm_objects.specs.declared.history.Value.TheVariants.{Refused};
ghost use Rattle.pm_plan.specs.Plans.{IsMade};
ghost use Rattle.pm_world.specs.LaneFields.{fields_of};
ghost use Rattle.pm_call.specs.Beginning.{BeginRefusals, RefusedBeginsArePast, RefusedBeginsEnd};
ghost use Rattle.pm_call.specs.GivenUp.{MayEnd};
ghost use Rattle.pm_call.specs.Between.{IsLaneBetween};
ghost use Rattle.pm_call.specs.Opening.{CallOpened, OutermostBegun};
ghost use Rattle.pm_call.specs.Plans.{ends_call};

use crate::rollback::{end_call, stop};
use pm_layout::MAX_GENERATION;
use pm_lock::lock_objects;
use pm_model::Stage;
use pm_objects::{Refusal, TxErr, Value, Want};
use pm_world::{Lane, LawfulMem, LentOperation, LentValue};
use std::sync::Wait;

/// Opens a call of a lane between two calls: it looks at how many commit numbers were drawn.
///
/// # Errors
///
/// `Spent`: the lane's generation is 2^62, and nothing is done; or 2^62 numbers were drawn, and the
/// lane only looked at that.
pub fn open_call<M: LawfulMem>(lane: &mut Lane<M>) -> Result<(), Refusal>
    requires { IsLaneBetween M.at lane.old }
    ensures { CallOpened M.at lane.old lane.new result }
{
    if lane.log.generation >= MAX_GENERATION {
        return Err(Refusal::Spent);
    }
    if lane.memory.number_seen() >= MAX_GENERATION {
        Err(Refusal::Spent)
    } else {
        Ok(())
    }
}

/// Tells a begin that is refused so, at level 1, and draws its number: how many were drawn before.
fn refuse_begin<M: LawfulMem>(lane: &mut Lane<M>, wants: &[Want], why: Refusal) -> u64
    requires { MayEnd (M.at lane.old.memory) (Begin wants.now) (Some (Refused why)) }
    ensures made { IsMade (M.at lane.old.memory) (M.at lane.new.memory)
        (ends_call (Begin wants.now) (Some (Refused why)) result) }
    ensures fields { fields_of lane.new ≡ record (fields_of lane.old) {
      level = 1;
      entries = [];
      stage = stage.OnAbort;
      error = error.Refused why;
      last = result + 1;
    } }
{
    lane.level = 1;
    let value = Value::Refused(why);
    end_call(
        lane,
        LentOperation::Begin(wants),
        Some(LentValue::Whole(&value)),
        TxErr::Refused(why),
    )
}

/// Begins the outermost level of a transaction: a call opens, and the lane waits for the locks of
/// the objects that are wanted, in rising place, and looks under each for its object:
/// pmemobj_tx_begin(3). No counted memory call is made.
///
/// # Errors
///
/// - `Spent`: the lane's generation is 2^62, or 2^62 numbers were drawn; nothing is done.
/// - `LocksFull`: the lane would hold more than 64 locks; none is tried.
/// - `NoObject`: an id has not the form of an object's, and no lock is tried; or under a lock no
///   object stands, and the lane holds all of the locks.
/// - `Stopped`: a lock is not free, and some lane is at its stop number; the lane holds the locks
///   before it, and says that it stopped.
///
/// After `LocksFull` or `NoObject` the begin is told as refused and has its number, and the lane is
/// at level 1, in the stage after an abort, with the refusal as its error.
pub fn begin_outermost<M: LawfulMem, R: Wait>(
    rt: &R,
    lane: &mut Lane<M>,
    wants: &[Want],
) -> Result<(), Refusal>
    requires { IsLaneBetween M.at lane.old }
    ensures { OutermostBegun M.at lane.old lane.new wants.now result }
{
    open_call(lane)?;
    match lock_objects(rt, lane, &[], wants) {
        Ok(()) => {
            lane.memory.tell(LentOperation::Begin(wants), None);
            lane.level = 1;
            lane.stage = Stage::Work;
            Ok(())
        }
        Err(Refusal::Stopped) => Err(stop(lane)),
        Err(why) => {
            refuse_begin(lane, wants, why);
            Err(why)
        }
    }
}

/// A law: the plain model's first refusal of an outermost begin that is not spent is that of the
/// first of these tests that applies: too many locks, an id without a place, no object under a lock
/// that was taken. No code runs.
pub fn refusals_of_begins_are_the_models()
    ensures { BeginRefusals }
{}

/// A law: an outermost begin that is refused so, whatever locks its lane got, ends its call: it is
/// told, and takes its number; and its level may end. No code runs.
pub fn refused_begins_end<M: LawfulMem>()
    ensures ended { RefusedBeginsEnd }
    ensures past { RefusedBeginsArePast M.at }
{}
