ghost use Rattle.std.specs.Prelude.{◌≡◌, [], Some, true, IfErr, OnErr, OnOk};
ghost use Rattle.std.specs.Option.{option_copied};
ghost use Rattle.pm_objects.specs.declared.calls.Operation.TheVariants.{Write};
ghost use Rattle.pm_objects.specs.declared.history.TxErr.TheVariants as error;
ghost use Rattle.pm_objects.specs.declared.history.Value.TheVariants.{Refused};
ghost use Rattle.pm_objects.specs.declared.refusal.Refusal.TheVariants as refusal;
ghost use Rattle.solo_view.specs.View.{View};
ghost use Rattle.solo_world.specs.Opening.{Opening};
ghost use Rattle.solo_world.specs.Sequences.{IsMade, IsStopped};
ghost use Rattle.solo_world.specs.declared.lane.Stage.TheVariants as stage;
ghost use Rattle.solo_tx.specs.AtWork.{IsAtWork};
ghost use Rattle.solo_tx.specs.Ending.{GivesUpBy, IsEndedBy, IsLaneAtWork, IsStoppedIn};
ghost use Rattle.solo_tx.specs.Sequences.{gives_up, takes_back};

use crate::ending::{end_call, end_write};
use crate::taking_back::take_back;
use pm_objects::{Oid, Operation, Refusal, TxErr, Value};
use solo_memory::Stopped;
use solo_world::{Lane, LawfulMem, Stage};

/// Takes back what the open call did, or says that the lane stopped.
fn undo_call<M: LawfulMem>(lane: &mut Lane<M>) -> Result<(), Refusal>
    requires at_work { IsLaneAtWork M.at lane.old }
    ensures made { OnOk result (IsMade (M.at lane.old.memory) (M.at lane.new.memory) (takes_back lane.old.records.items)) }
    ensures none { OnOk result (lane.new.records.items ≡ []) }
    ensures lane { OnOk result (lane.new ≡ record lane.old { memory = lane.new.memory; records = lane.new.records }) }
    ensures stops { OnErr result (IsStopped (M.at lane.old.memory) (M.at lane.new.memory) (takes_back lane.old.records.items)) }
    ensures stopped { IfErr result (λ r. r ≡ refusal.Stopped) }
    ensures stopped_lane { OnErr result (lane.new ≡ record lane.old { memory = lane.new.memory; records = lane.new.records; stopped = true }) }
{
    match take_back(lane) {
        Ok(()) => Ok(()),
        Err(Stopped) => {
            lane.stopped = true;
            Err(Refusal::Stopped)
        }
    }
}

/// Goes on to the stage after an abort, with this error. What was published is given up.
fn leave_work<M>(lane: &mut Lane<M>, error: TxErr)
    ensures unlisted { lane.new.entries.items ≡ [] }
    ensures else_same { lane.new ≡ record lane.old { entries = lane.new.entries; stage = stage.OnAbort; error = error } }
{
    lane.entries.clear();
    lane.stage = Stage::OnAbort;
    lane.error = error;
}

/// Gives up the open call for this error: what it did is taken back, the operation is told with its reply, and the call draws its number,
/// which changes nothing then. The lane goes on to the stage after an abort, and keeps its locks until the transaction ends. `Stopped` where
/// it came to its stop, the first of these memory calls being made.
pub fn give_up<M: LawfulMem>(
    lane: &mut Lane<M>,
    operation: &Operation,
    reply: Option<&Value>,
    error: TxErr,
) -> Result<(), Refusal>
    requires at_work { IsLaneAtWork M.at lane.old }
    ensures ended { OnOk result ((o : Opening) (v : View) → IsAtWork o M.at lane.old v → GivesUpBy v operation.now (option_copied reply.entry) error
        → IsEndedBy M.at lane.new v (gives_up lane.old.records.items operation.now (option_copied reply.entry) lane.new.last) operation.now (option_copied reply.entry)) }
    ensures none { OnOk result (lane.new.records.items ≡ []) }
    ensures unlisted { OnOk result (lane.new.entries.items ≡ []) }
    ensures lane { OnOk result (lane.new ≡ record lane.old { memory = lane.new.memory; records = lane.new.records; entries = lane.new.entries; stage = stage.OnAbort; error = error; drawn = Some lane.new.last; last = lane.new.last }) }
    ensures stops { OnErr result ((o : Opening) (v : View) → IsAtWork o M.at lane.old v → GivesUpBy v operation.now (option_copied reply.entry) error
        → IsStoppedIn M.at lane.new v (gives_up lane.old.records.items operation.now (option_copied reply.entry) lane.new.last) operation.now (option_copied reply.entry)) }
    ensures stopped { IfErr result (λ r. r ≡ refusal.Stopped) }
    ensures stopped_lane { OnErr result (lane.new ≡ record lane.old { memory = lane.new.memory; records = lane.new.records; drawn = lane.new.drawn; last = lane.new.last; stopped = true }) }
{
    undo_call(lane)?;
    end_call(lane, operation, reply);
    leave_work(lane, error);
    Ok(())
}

/// Gives up the open call for a write that is refused, as `give_up` does: an operation has bytes of its own, and a lane takes no memory.
pub fn give_up_write<M: LawfulMem>(
    lane: &mut Lane<M>,
    id: Oid,
    off: u64,
    bytes: &[u8],
    why: Refusal,
) -> Result<(), Refusal>
    requires at_work { IsLaneAtWork M.at lane.old }
    ensures ended { OnOk result ((o : Opening) (v : View) → IsAtWork o M.at lane.old v → GivesUpBy v (Write id off bytes.now) (Some (Refused why)) (error.Refused why)
        → IsEndedBy M.at lane.new v (gives_up lane.old.records.items (Write id off bytes.now) (Some (Refused why)) lane.new.last) (Write id off bytes.now) (Some (Refused why))) }
    ensures none { OnOk result (lane.new.records.items ≡ []) }
    ensures unlisted { OnOk result (lane.new.entries.items ≡ []) }
    ensures lane { OnOk result (lane.new ≡ record lane.old { memory = lane.new.memory; records = lane.new.records; entries = lane.new.entries; stage = stage.OnAbort; error = error.Refused why; drawn = Some lane.new.last; last = lane.new.last }) }
    ensures stops { OnErr result ((o : Opening) (v : View) → IsAtWork o M.at lane.old v → GivesUpBy v (Write id off bytes.now) (Some (Refused why)) (error.Refused why)
        → IsStoppedIn M.at lane.new v (gives_up lane.old.records.items (Write id off bytes.now) (Some (Refused why)) lane.new.last) (Write id off bytes.now) (Some (Refused why))) }
    ensures stopped { IfErr result (λ r. r ≡ refusal.Stopped) }
    ensures stopped_lane { OnErr result (lane.new ≡ record lane.old { memory = lane.new.memory; records = lane.new.records; drawn = lane.new.drawn; last = lane.new.last; stopped = true }) }
{
    undo_call(lane)?;
    end_write(lane, id, off, bytes, why);
    leave_work(lane, TxErr::Refused(why));
    Ok(())
}
