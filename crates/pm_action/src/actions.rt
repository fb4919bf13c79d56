ghost use Rattle.std.specs.Prelude.{◌≡◌, ◌<◌, None, Some, length};
ghost use Rattle.pm_objects.specs.declared.calls.Operation.TheVariants.{SetValue};
ghost use Rattle.pm_objects.specs.declared.history.Value.TheVariants.{Refused};
ghost use Rattle.pm_call.specs.Did as did;
ghost use Rattle.pm_call.specs.Did.{IsAt};
ghost use Rattle.pm_action.specs.Actions.{Asked, HasTold, JudgedSet};

use pm_call::work_refusal;
use pm_layout::WORD_BYTES;
use pm_objects::{Oid, Operation, Refusal, Value};
use pm_world::{Lane, LawfulMem, LentOperation, LentValue, PendingAction};

/// How many actions may be pending.
const MAX_ACTIONS: usize = 63;

/// Why a word at this byte of an object may not be asked for with so many actions pending, if so.
pub(crate) fn judge_set(off: u64, many: usize) -> Result<(), Refusal>
    ensures { JudgedSet off many result }
{
    if off % WORD_BYTES != 0 {
        Err(Refusal::Unaligned)
    } else if many < MAX_ACTIONS {
        Ok(())
    } else {
        Err(Refusal::ActionsFull)
    }
}

/// Puts the word on the list of pending actions, and tells so.
fn do_set<M: LawfulMem>(lane: &mut Lane<M>, id: Oid, off: u64, value: u64)
    requires stands { IsAt M.at lane.old }
    requires room { length lane.old.pending.items < 63 }
    ensures { HasTold M.at lane.old lane.new (SetValue id off value) None }
{
    lane.pending.push(PendingAction::Set { id, off, value });
    let operation = Operation::SetValue { id, off, value };
    lane.memory.tell(LentOperation::Whole(&operation), None);
}

/// Tells that the word may not be asked for.
fn refuse_set<M: LawfulMem>(lane: &mut Lane<M>, id: Oid, off: u64, value: u64, why: Refusal)
    requires { IsAt M.at lane.old }
    ensures { HasTold M.at lane.old lane.new (SetValue id off value) (Some (Refused why)) }
{
    let operation = Operation::SetValue { id, off, value };
    let reply = Value::Refused(why);
    lane.memory.tell(
        LentOperation::Whole(&operation),
        Some(LentValue::Whole(&reply)),
    );
}

/// Asks for a word of an object to be set, in the transaction that is at work. A refusal leaves it at
/// work, with the actions that were pending; it is told.
///
/// # Errors
///
/// - `Stopped`: the lane had stopped; nothing is done.
/// - `NoTx`: no transaction is open; nothing is done.
/// - `NotWork`: the transaction is past its work; nothing is done.
/// - `Unaligned`: the bytes don't begin at a multiple of eight.
/// - `ActionsFull`: 63 actions are pending.
pub(crate) fn set_inside<M: LawfulMem>(
    lane: &mut Lane<M>,
    id: Oid,
    off: u64,
    value: u64,
) -> Result<(), Refusal>
    requires { did.work_refusal lane.old ≡ None → IsAt M.at lane.old }
    ensures { Asked M.at lane.old lane.new (SetValue id off value) result }
{
    if let Some(why) = work_refusal(lane) {
        return Err(why);
    }
    match judge_set(off, lane.pending.len()) {
        Ok(()) => {
            do_set(lane, id, off, value);
            Ok(())
        }
        Err(why) => {
            refuse_set(lane, id, off, value, why);
            Err(why)
        }
    }
}
