//! The lines of a transaction that change what is pending, by lane 0.

ghost use Rattle.std.specs.Prelude.{◌≡◌, true, List, [], ◌∷◌, ◌++◌, ℕ, IfErr, OnOk};
ghost use Rattle.solo_script.specs.declared.script.ScriptLine.{ScriptLine};
ghost use Rattle.solo_script.specs.declared.script.ScriptOp.TheVariants as op;
ghost use Rattle.solo_view.specs.View.{View};
ghost use Rattle.solo_world.specs.Opening.{Opening};
ghost use Rattle.solo_exec.specs.Calls.{id_of, stands_alone};
ghost use Rattle.solo_exec.specs.Letters.{LettersKept};
ghost use Rattle.solo_exec.specs.Replies.{Values};
ghost use Rattle.solo_exec.specs.Progress.{IsAtLine, IsLaneAtLine, IsLaneWith, IsNotDone, IsRefusalGiven};

use crate::calls::{Names, action_of, id_of};
use crate::lines::{NotDone, not_done};
use pm_objects::{Refusal, Value};
use solo_made::CallBlocks;
use solo_memory::SoloMem;
use solo_pending::{PendingActions, SetAction};
use solo_script::{ScriptId, ScriptLine, ScriptOp};
use solo_transaction::{cancel, defer_free, publish, reserve, set_value, write_reserved};
use solo_world::Lane;

/// Adds the reason why the line with this number was refused to what the lines gave: that aborts nothing. The lane's stop alone ends them.
fn give_refusal(values: &mut Vec<(u64, Value)>, line: u64, why: Refusal) -> Result<(), NotDone>
    ensures { IsRefusalGiven line why values.old.items values.new.items result }
{
    if why == Refusal::Stopped {
        return Err(NotDone::Stopped);
    }
    values.push((line, Value::Refused(why)))?;
    Ok(())
}

/// Reserves an object of this size and type, and adds its offset to what the lines gave, or the reason why it is refused.
fn reserve_at(
    lane: &mut Lane<SoloMem>,
    blocks: &CallBlocks,
    pending: &mut PendingActions,
    said: &ScriptLine,
    size: u64,
    kind: u64,
    values: &mut Vec<(u64, Value)>,
) -> Result<(), NotDone>
    requires at_work { (names : Names) × IsLaneWith lane.old blocks.now pending.old names values.old.items }
    ensures done { OnOk result ((o : Opening) (first : View) (names : Names) (front : List ScriptLine) (letter : ℕ) → IsAtLine o first lane.old blocks.now pending.old names front values.old.items
        → said.now.operation ≡ op.Reserve letter size kind → IsAtLine o first lane.new blocks.now pending.new names (front ++ said.now ∷ []) values.new.items) }
    ensures ends { IfErr result (λ why. (o : Opening) (first : View) (names : Names) (front rest : List ScriptLine) (letter : ℕ) → IsAtLine o first lane.old blocks.now pending.old names front values.old.items
        → said.now.operation ≡ op.Reserve letter size kind → IsNotDone o first lane.new blocks.now pending.new names (front ++ said.now ∷ rest) values.new.items why) }
    ensures letters { LettersKept (said.now ∷ []) values.old.items values.new.items result }
{
    match reserve(lane, blocks, pending, size, kind) {
        Ok(id) => {
            values.push((said.line, Value::Offset(id.off)))?;
            Ok(())
        }
        Err(why) => give_refusal(values, said.line, why),
    }
}

/// Writes the bytes of this line into what is reserved, or adds the reason why that is refused to what the lines gave.
fn put_at(
    lane: &mut Lane<SoloMem>,
    blocks: &CallBlocks,
    pending: &PendingActions,
    names: Names,
    said: &ScriptLine,
    range: (ScriptId, u64, &[u8]),
    values: &mut Vec<(u64, Value)>,
) -> Result<(), NotDone>
    requires is_said { said.now.operation ≡ op.WriteReserved range.0 range.1 range.2.now }
    requires at_work { IsLaneWith lane.old blocks.now pending.now names values.old.items }
    ensures done { OnOk result ((o : Opening) (first : View) (front : List ScriptLine) → IsAtLine o first lane.old blocks.now pending.now names front values.old.items
        → IsAtLine o first lane.new blocks.now pending.now names (front ++ said.now ∷ []) values.new.items) }
    ensures ends { IfErr result (λ why. (o : Opening) (first : View) (front rest : List ScriptLine) → IsAtLine o first lane.old blocks.now pending.now names front values.old.items
        → IsNotDone o first lane.new blocks.now pending.now names (front ++ said.now ∷ rest) values.new.items why) }
    ensures letters { LettersKept (said.now ∷ []) values.old.items values.new.items result }
{
    let (id, off, bytes) = range;
    match write_reserved(lane, blocks, pending, id_of(names, id), off, bytes) {
        Ok(()) => Ok(()),
        Err(why) => give_refusal(values, said.line, why),
    }
}

/// Makes the free of this line's object pending, or adds the reason why that is refused to what the lines gave.
fn defer_at(
    lane: &mut Lane<SoloMem>,
    blocks: &CallBlocks,
    pending: &mut PendingActions,
    names: Names,
    said: &ScriptLine,
    id: ScriptId,
    values: &mut Vec<(u64, Value)>,
) -> Result<(), NotDone>
    requires is_said { said.now.operation ≡ op.DeferFree id }
    requires at_work { IsLaneWith lane.old blocks.now pending.old names values.old.items }
    ensures done { OnOk result ((o : Opening) (first : View) (front : List ScriptLine) → IsAtLine o first lane.old blocks.now pending.old names front values.old.items
        → IsAtLine o first lane.new blocks.now pending.new names (front ++ said.now ∷ []) values.new.items) }
    ensures ends { IfErr result (λ why. (o : Opening) (first : View) (front rest : List ScriptLine) → IsAtLine o first lane.old blocks.now pending.old names front values.old.items
        → IsNotDone o first lane.new blocks.now pending.new names (front ++ said.now ∷ rest) values.new.items why) }
    ensures letters { LettersKept (said.now ∷ []) values.old.items values.new.items result }
{
    match defer_free(lane, blocks, pending, id_of(names, id)) {
        Ok(()) => Ok(()),
        Err(why) => give_refusal(values, said.line, why),
    }
}

/// Makes the word of this line pending, or adds the reason why that is refused to what the lines gave.
fn set_at(
    lane: &mut Lane<SoloMem>,
    blocks: &CallBlocks,
    pending: &mut PendingActions,
    said: &ScriptLine,
    action: SetAction,
    values: &mut Vec<(u64, Value)>,
) -> Result<(), NotDone>
    requires at_work { (names : Names) × IsLaneWith lane.old blocks.now pending.old names values.old.items }
    ensures done { OnOk result ((o : Opening) (first : View) (names : Names) (front : List ScriptLine) (id : ScriptId) → IsAtLine o first lane.old blocks.now pending.old names front values.old.items
        → said.now.operation ≡ op.Set id action.off action.value → action.id ≡ id_of names id
        → IsAtLine o first lane.new blocks.now pending.new names (front ++ said.now ∷ []) values.new.items) }
    ensures ends { IfErr result (λ why. (o : Opening) (first : View) (names : Names) (front rest : List ScriptLine) (id : ScriptId) → IsAtLine o first lane.old blocks.now pending.old names front values.old.items
        → said.now.operation ≡ op.Set id action.off action.value → action.id ≡ id_of names id
        → IsNotDone o first lane.new blocks.now pending.new names (front ++ said.now ∷ rest) values.new.items why) }
    ensures letters { LettersKept (said.now ∷ []) values.old.items values.new.items result }
{
    match set_value(lane, blocks, pending, action) {
        Ok(()) => Ok(()),
        Err(why) => give_refusal(values, said.line, why),
    }
}

/// Makes what is pending the transaction's.
fn publish_at(
    lane: &mut Lane<SoloMem>,
    blocks: &mut CallBlocks,
    pending: &mut PendingActions,
    said: &ScriptLine,
) -> Result<(), NotDone>
    requires is_said { said.now.operation ≡ op.Publish }
    requires at_work { (names : Names) × IsLaneAtLine lane.old blocks.old pending.old names }
    ensures done { OnOk result ((o : Opening) (first : View) (names : Names) (front : List ScriptLine) (values : Values) → IsAtLine o first lane.old blocks.old pending.old names front values
        → IsAtLine o first lane.new blocks.new pending.new names (front ++ said.now ∷ []) values) }
    ensures ends { IfErr result (λ why. (o : Opening) (first : View) (names : Names) (front rest : List ScriptLine) (values : Values) → IsAtLine o first lane.old blocks.old pending.old names front values
        → IsNotDone o first lane.new blocks.new pending.new names (front ++ said.now ∷ rest) values why) }
{
    match publish(lane, blocks, pending) {
        Ok(()) => Ok(()),
        Err(why) => Err(not_done(said.line, why)),
    }
}

/// Gives up what is pending.
fn cancel_at(
    lane: &mut Lane<SoloMem>,
    blocks: &CallBlocks,
    pending: &mut PendingActions,
    said: &ScriptLine,
) -> Result<(), NotDone>
    requires is_said { said.now.operation ≡ op.Cancel }
    requires at_work { (names : Names) × IsLaneAtLine lane.old blocks.now pending.old names }
    ensures done { OnOk result ((o : Opening) (first : View) (names : Names) (front : List ScriptLine) (values : Values) → IsAtLine o first lane.old blocks.now pending.old names front values
        → IsAtLine o first lane.new blocks.now pending.new names (front ++ said.now ∷ []) values) }
    ensures ends { IfErr result (λ why. (o : Opening) (first : View) (names : Names) (front rest : List ScriptLine) (values : Values) → IsAtLine o first lane.old blocks.now pending.old names front values
        → IsNotDone o first lane.new blocks.now pending.new names (front ++ said.now ∷ rest) values why) }
{
    match cancel(lane, blocks, pending) {
        Ok(()) => Ok(()),
        Err(why) => Err(not_done(said.line, why)),
    }
}

/// Makes the change of this line to what is pending.
pub(crate) fn act_at(
    lane: &mut Lane<SoloMem>,
    blocks: &mut CallBlocks,
    pending: &mut PendingActions,
    names: Names,
    said: &ScriptLine,
    values: &mut Vec<(u64, Value)>,
) -> Result<(), NotDone>
    requires is_action { stands_alone said.now.operation ≡ true }
    requires at_work { IsLaneWith lane.old blocks.old pending.old names values.old.items }
    ensures done { OnOk result ((o : Opening) (first : View) (front : List ScriptLine) → IsAtLine o first lane.old blocks.old pending.old names front values.old.items
        → IsAtLine o first lane.new blocks.new pending.new names (front ++ said.now ∷ []) values.new.items) }
    ensures ends { IfErr result (λ why. (o : Opening) (first : View) (front rest : List ScriptLine) → IsAtLine o first lane.old blocks.old pending.old names front values.old.items
        → IsNotDone o first lane.new blocks.new pending.new names (front ++ said.now ∷ rest) values.new.items why) }
    ensures letters { LettersKept (said.now ∷ []) values.old.items values.new.items result }
{
    match &said.operation {
        ScriptOp::Reserve {
            letter: _,
            size,
            kind,
        } => reserve_at(lane, blocks, pending, said, *size, *kind, values),
        ScriptOp::WriteReserved { id, off, bytes } => {
            let range = (*id, *off, bytes.as_slice());
            put_at(lane, blocks, pending, names, said, range, values)
        }
        ScriptOp::DeferFree { id } => defer_at(lane, blocks, pending, names, said, *id, values),
        ScriptOp::Set { id, off, value } => {
            let action = action_of(names, *id, *off, *value);
            set_at(lane, blocks, pending, said, action, values)
        }
        ScriptOp::Publish => publish_at(lane, blocks, pending, said),
        ScriptOp::Cancel => cancel_at(lane, blocks, pending, said),
        _ => unreachable!(),
    }
}
