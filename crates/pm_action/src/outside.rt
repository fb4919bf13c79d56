ghost use Rattle.std.specs.Prelude.{◌≡◌, ◌<◌, false, length, None, Some};
ghost use Rattle.pm_objects.specs.declared.calls.Operation.TheVariants.{Cancel, SetValue};
ghost use Rattle.pm_objects.specs.declared.history.Value.TheVariants.{Refused};
ghost use Rattle.pm_call.specs.Between.{IsLaneBetween};
ghost use Rattle.pm_action.specs.Outside.{ActionEnded, AskedOutside, Finished, IsLaneOpened};

use crate::actions::judge_set;
use pm_call::{end_outside, open_call};
use pm_objects::{Oid, Operation, Refusal, Value};
use pm_world::{Lane, LawfulMem, LentOperation, LentValue, PendingAction};

/// Puts the word on the list of pending actions, and ends the call that asks for it.
fn do_set<M: LawfulMem>(lane: &mut Lane<M>, id: Oid, off: u64, value: u64)
    requires opened { IsLaneOpened M.at lane.old (SetValue id off value) None }
    requires room { length lane.old.pending.items < 63 }
    ensures { ActionEnded M.at lane.old lane.new (SetValue id off value) None }
{
    lane.pending.push(PendingAction::Set { id, off, value });
    let operation = Operation::SetValue { id, off, value };
    end_outside(lane, LentOperation::Whole(&operation), None);
}

/// Ends the call that asks for a word that may not be asked for.
fn refuse_set<M: LawfulMem>(lane: &mut Lane<M>, id: Oid, off: u64, value: u64, why: Refusal)
    requires { IsLaneOpened M.at lane.old (SetValue id off value) (Some (Refused why)) }
    ensures { ActionEnded M.at lane.old lane.new (SetValue id off value) (Some (Refused why)) }
{
    let operation = Operation::SetValue { id, off, value };
    let reply = Value::Refused(why);
    end_outside(
        lane,
        LentOperation::Whole(&operation),
        Some(LentValue::Whole(&reply)),
    );
}

/// Asks for a word of an object to be set, in a call of its own.
///
/// # Errors
///
/// - `Spent`: no commit number is left; nothing is done but a look at how many were drawn.
/// - `Unaligned`, `ActionsFull`: it is told so, and what is pending stays.
pub(crate) fn set_outside<M: LawfulMem>(
    lane: &mut Lane<M>,
    id: Oid,
    off: u64,
    value: u64,
) -> Result<(), Refusal>
    requires { IsLaneBetween M.at lane.old }
    ensures { AskedOutside M.at lane.old lane.new (SetValue id off value) result }
{
    open_call(lane)?;
    match judge_set(off, lane.pending.len()) {
        Ok(()) => {
            do_set(lane, id, off, value);
            Ok(())
        }
        Err(why) => {
            refuse_set(lane, id, off, value, why);
            Err(why)
        }
    }
}

/// Cancels all that is pending, and ends the call that does so.
fn do_cancel<M: LawfulMem>(lane: &mut Lane<M>)
    requires { IsLaneOpened M.at lane.old Cancel None }
    ensures { ActionEnded M.at lane.old lane.new Cancel None }
{
    // Nothing is undrained between two calls.
    lane.pending.clear();
    let operation = Operation::Cancel;
    end_outside(lane, LentOperation::Whole(&operation), None);
}

/// Cancels all that is pending, in a call of its own. No counted memory call is made.
///
/// # Errors
///
/// `Spent`: no commit number is left; nothing is done but a look at how many were drawn.
pub(crate) fn cancel_outside<M: LawfulMem>(lane: &mut Lane<M>) -> Result<(), Refusal>
    requires { IsLaneBetween M.at lane.old }
    ensures { AskedOutside M.at lane.old lane.new Cancel result }
{
    open_call(lane)?;
    do_cancel(lane);
    Ok(())
}

/// Cancels what is pending as a lane between two calls comes to the end of its work. It is no call:
/// nothing is told, no number is drawn, and no memory call is made. The lane makes no call after it.
///
/// # Errors
///
/// `Stopped`: the lane had stopped; nothing is done.
pub fn finish<M: LawfulMem>(lane: &mut Lane<M>) -> Result<(), Refusal>
    requires { lane.old.stopped ≡ false → IsLaneBetween M.at lane.old }
    ensures { Finished M.at lane.old lane.new result }
{
    if lane.stopped {
        return Err(Refusal::Stopped);
    }
    // Nothing is undrained between two calls.
    lane.pending.clear();
    Ok(())
}
