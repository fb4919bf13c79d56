//! The calls of a script outside of a transaction, by lane 0.

ghost use Rattle.std.specs.Prelude.{◌≡◌, true};
ghost use Rattle.solo_view.specs.View.{View};
ghost use Rattle.solo_world.specs.Opening.{Opening};
ghost use Rattle.solo_exec.specs.Calls.{stands_alone};
ghost use Rattle.solo_exec.specs.Progress.{ActedOutside, IsStart};

use crate::calls::{Names, action_of, id_of};
use pm_objects::Refusal;
use solo_action::{cancel, defer_free, publish, reserve, set_value, write_reserved};
use solo_made::CallBlocks;
use solo_memory::SoloMem;
use solo_pending::PendingActions;
use solo_script::ScriptOp;
use solo_world::Lane;

/// Makes the call that this line is. The answer is the offset that it gave, if it reserved an object.
pub(crate) fn act_outside(
    lane: &mut Lane<SoloMem>,
    blocks: &mut CallBlocks,
    pending: &mut PendingActions,
    names: Names,
    operation: &ScriptOp,
) -> Result<Option<u64>, Refusal>
    requires outside { stands_alone operation.now ≡ true }
    requires first { (o : Opening) × ((first : View) × IsStart o lane.old blocks.old pending.old first) }
    ensures { (o : Opening) (first : View) → IsStart o lane.old blocks.old pending.old first → ActedOutside o first lane.new blocks.new pending.new names operation.now result }
{
    match operation {
        ScriptOp::Reserve { size, kind, .. } => {
            let id = reserve(lane, pending, *size, *kind)?;
            return Ok(Some(id.off));
        }
        ScriptOp::WriteReserved { id, off, bytes } => {
            write_reserved(lane, pending, id_of(names, *id), *off, bytes.as_slice())?;
        }
        ScriptOp::DeferFree { id } => defer_free(lane, pending, id_of(names, *id))?,
        ScriptOp::Set { id, off, value } => {
            set_value(lane, pending, action_of(names, *id, *off, *value))?;
        }
        ScriptOp::Publish => publish(lane, blocks, pending)?,
        ScriptOp::Cancel => cancel(lane, pending)?,
        _ => unreachable!(),
    }
    Ok(None)
}
