//! The work of a transaction's lines by lane 0.

ghost use Rattle.std.specs.Prelude.{◌≡◌, ℕ, true, List, [], ◌∷◌, ◌++◌, map, IfErr, OnOk, All, alloc_error};
ghost use Rattle.solo_made.specs.Made.{BlockLists};
ghost use Rattle.solo_script.specs.Scripts.{IsChange, IsTransaction, operations};
ghost use Rattle.solo_script.specs.declared.script.ScriptLine.{ScriptLine};
ghost use Rattle.solo_pending.specs.declared.pending.PendingActions.{PendingActions};
ghost use Rattle.solo_script.specs.declared.script.ScriptOp.{ScriptOp};
ghost use Rattle.solo_script.specs.declared.script.ScriptOp.TheVariants as op;
ghost use Rattle.solo_script.specs.declared.script.ScriptWant.{ScriptWant};
ghost use Rattle.solo_view.specs.View.{View};
ghost use Rattle.solo_world.specs.Opening.{Opening};
ghost use Rattle.solo_exec.specs.Calls.{id_of, stands_alone, want_of};
ghost use Rattle.solo_exec.specs.Letters.{AreInOrder, LettersKept, offsets_in, resolved};
ghost use Rattle.solo_exec.specs.Replies.{Values};
ghost use Rattle.solo_exec.specs.Progress.{CameTo, IsAtLine, IsStart, IsLaneAtLine, IsLaneWith, IsNotDone, not_done};
ghost use Rattle.solo_exec.specs.declared.lines.NotDone.TheVariants.{Memory};

use crate::actions::act_at;
use crate::calls::{Names, id_of, wants_of};
use crate::letters::resolved_line;
use pm_objects::{Refusal, Sequence, Value, Want};
use solo_made::CallBlocks;
use solo_memory::SoloMem;
use solo_pending::PendingActions;
use solo_script::{ScriptId, ScriptLine, ScriptOp};
use solo_transaction::{add_range, alloc, begin, commit, free, read, write};
use solo_world::Lane;
use std::alloc::{AllocError, AllocFailed, Global};

/// Why a script's transaction was not committed.
#[derive(Clone, Copy, Debug, PartialEq, Eq)]
pub(crate) enum NotDone {
    /// This line was refused, and gave the transaction up.
    GivenUp { line: u64, refusal: Refusal },
    /// The lane came to its stop.
    Stopped,
    /// At this line no generation or no number was left to the lane.
    Spent { line: u64 },
    /// There was no memory for what the lines want or give.
    Memory(AllocError),
}

impl From<AllocError> for NotDone {
    ghost use Rattle.std.specs.Prelude.{◌≡◌, alloc_error};
    ghost use Rattle.solo_exec.specs.declared.lines.NotDone.TheVariants.{Memory};

    ghost from_gives = { λ _ why. why ≡ Memory alloc_error };

    fn from(error: AllocError) -> Self {
        NotDone::Memory(error)
    }
}

impl<T: Drop> From<AllocFailed<T>> for NotDone {
    ghost use Rattle.std.specs.Prelude.{◌≡◌, alloc_error};
    ghost use Rattle.solo_exec.specs.declared.lines.NotDone.TheVariants.{Memory};

    ghost from_gives = { λ _ why. why ≡ Memory alloc_error };

    fn from(_: AllocFailed<T>) -> Self {
        NotDone::Memory(AllocError)
    }
}

/// Why the line with this number is not done, if it answers so.
pub(crate) fn not_done(line: u64, why: Refusal) -> NotDone
    ensures { result ≡ not_done line why }
{
    match why {
        Refusal::Stopped => NotDone::Stopped,
        Refusal::Spent => NotDone::Spent { line },
        refusal => NotDone::GivenUp { line, refusal },
    }
}

/// Records the range that this line names.
fn add_at(
    lane: &mut Lane<SoloMem>,
    blocks: &CallBlocks,
    names: Names,
    said: &ScriptLine,
    id: ScriptId,
    off: u64,
    len: u64,
) -> Result<(), NotDone>
    requires is_said { said.now.operation ≡ op.Add id off len }
    requires at_work { (actions : PendingActions) × IsLaneAtLine lane.old blocks.now actions names }
    ensures done { OnOk result ((o : Opening) (first : View) (actions : PendingActions) (front : List ScriptLine) (values : Values) → IsAtLine o first lane.old blocks.now actions names front values
        → IsAtLine o first lane.new blocks.now actions names (front ++ said.now ∷ []) values) }
    ensures ends { IfErr result (λ why. (o : Opening) (first : View) (actions : PendingActions) (front rest : List ScriptLine) (values : Values) → IsAtLine o first lane.old blocks.now actions names front values
        → IsNotDone o first lane.new blocks.now actions names (front ++ said.now ∷ rest) values why) }
{
    match add_range(lane, blocks, id_of(names, id), off, len) {
        Ok(_) => Ok(()),
        Err(why) => Err(not_done(said.line, why)),
    }
}

/// Writes the bytes that this line names.
fn write_at(
    lane: &mut Lane<SoloMem>,
    blocks: &CallBlocks,
    names: Names,
    said: &ScriptLine,
    id: ScriptId,
    off: u64,
    bytes: &[u8],
) -> Result<(), NotDone>
    requires is_said { said.now.operation ≡ op.Write id off bytes.now }
    requires at_work { (actions : PendingActions) × IsLaneAtLine lane.old blocks.now actions names }
    ensures done { OnOk result ((o : Opening) (first : View) (actions : PendingActions) (front : List ScriptLine) (values : Values) → IsAtLine o first lane.old blocks.now actions names front values
        → IsAtLine o first lane.new blocks.now actions names (front ++ said.now ∷ []) values) }
    ensures ends { IfErr result (λ why. (o : Opening) (first : View) (actions : PendingActions) (front rest : List ScriptLine) (values : Values) → IsAtLine o first lane.old blocks.now actions names front values
        → IsNotDone o first lane.new blocks.now actions names (front ++ said.now ∷ rest) values why) }
{
    match write(lane, blocks, id_of(names, id), off, bytes) {
        Ok(()) => Ok(()),
        Err(why) => Err(not_done(said.line, why)),
    }
}

/// Reads the bytes that this line names, and adds them to what the lines gave.
fn read_at(
    alloc: Global,
    lane: &mut Lane<SoloMem>,
    blocks: &CallBlocks,
    names: Names,
    said: &ScriptLine,
    range: (ScriptId, u64, u64),
    values: &mut Vec<(u64, Value)>,
) -> Result<(), NotDone>
    requires is_said { said.now.operation ≡ op.Read range.0 range.1 range.2 }
    requires at_work { (actions : PendingActions) × IsLaneWith lane.old blocks.now actions names values.old.items }
    ensures done { OnOk result ((o : Opening) (first : View) (actions : PendingActions) (front : List ScriptLine) → IsAtLine o first lane.old blocks.now actions names front values.old.items
        → IsAtLine o first lane.new blocks.now actions names (front ++ said.now ∷ []) values.new.items) }
    ensures ends { IfErr result (λ why. (o : Opening) (first : View) (actions : PendingActions) (front rest : List ScriptLine) → IsAtLine o first lane.old blocks.now actions names front values.old.items
        → IsNotDone o first lane.new blocks.now actions names (front ++ said.now ∷ rest) values.new.items why) }
    ensures letters { LettersKept (said.now ∷ []) values.old.items values.new.items result }
{
    let (id, off, len) = range;
    let mut bytes = vec![in alloc; 0; len as usize]?;
    match read(lane, blocks, id_of(names, id), off, bytes.as_mut_slice()) {
        Ok(()) => {
            let value = Value::Bytes(Sequence::from_vec(bytes));
            values.push((said.line, value))?;
            Ok(())
        }
        Err(why) => Err(not_done(said.line, why)),
    }
}

/// Makes an object of this size and type, and adds its offset to what the lines gave.
fn make_at(
    lane: &mut Lane<SoloMem>,
    blocks: &mut CallBlocks,
    said: &ScriptLine,
    size: u64,
    kind: u64,
    values: &mut Vec<(u64, Value)>,
) -> Result<(), NotDone>
    requires at_work { (names : Names) × ((actions : PendingActions) × IsLaneWith lane.old blocks.old actions names values.old.items) }
    ensures done { OnOk result ((o : Opening) (first : View) (actions : PendingActions) (names : Names) (front : List ScriptLine) (letter : ℕ) → IsAtLine o first lane.old blocks.old actions names front values.old.items
        → said.now.operation ≡ op.Alloc letter size kind → IsAtLine o first lane.new blocks.new actions names (front ++ said.now ∷ []) values.new.items) }
    ensures ends { IfErr result (λ why. (o : Opening) (first : View) (actions : PendingActions) (names : Names) (front rest : List ScriptLine) (letter : ℕ) → IsAtLine o first lane.old blocks.old actions names front values.old.items
        → said.now.operation ≡ op.Alloc letter size kind → IsNotDone o first lane.new blocks.new actions names (front ++ said.now ∷ rest) values.new.items why) }
    ensures letters { LettersKept (said.now ∷ []) values.old.items values.new.items result }
{
    match alloc(lane, blocks, size, kind) {
        Ok(id) => {
            values.push((said.line, Value::Offset(id.off)))?;
            Ok(())
        }
        Err(why) => Err(not_done(said.line, why)),
    }
}

/// Frees the object that this line names.
fn free_at(
    lane: &mut Lane<SoloMem>,
    blocks: &mut CallBlocks,
    names: Names,
    said: &ScriptLine,
    id: ScriptId,
) -> Result<(), NotDone>
    requires is_said { said.now.operation ≡ op.Free id }
    requires at_work { (actions : PendingActions) × IsLaneAtLine lane.old blocks.old actions names }
    ensures done { OnOk result ((o : Opening) (first : View) (actions : PendingActions) (front : List ScriptLine) (values : Values) → IsAtLine o first lane.old blocks.old actions names front values
        → IsAtLine o first lane.new blocks.new actions names (front ++ said.now ∷ []) values) }
    ensures ends { IfErr result (λ why. (o : Opening) (first : View) (actions : PendingActions) (front rest : List ScriptLine) (values : Values) → IsAtLine o first lane.old blocks.old actions names front values
        → IsNotDone o first lane.new blocks.new actions names (front ++ said.now ∷ rest) values why) }
{
    match free(lane, blocks, id_of(names, id)) {
        Ok(()) => Ok(()),
        Err(why) => Err(not_done(said.line, why)),
    }
}

/// Makes the change of this line: records a range, writes bytes or reads some, makes an object or frees one, or changes what is pending.
fn change_at(
    alloc: Global,
    lane: &mut Lane<SoloMem>,
    blocks: &mut CallBlocks,
    pending: &mut PendingActions,
    names: Names,
    said: &ScriptLine,
    values: &mut Vec<(u64, Value)>,
) -> Result<(), NotDone>
    requires is_change { IsChange said.now.operation }
    requires at_work { IsLaneWith lane.old blocks.old pending.old names values.old.items }
    ensures done { OnOk result ((o : Opening) (first : View) (front : List ScriptLine) → IsAtLine o first lane.old blocks.old pending.old names front values.old.items
        → IsAtLine o first lane.new blocks.new pending.new names (front ++ said.now ∷ []) values.new.items) }
    ensures ends { IfErr result (λ why. (o : Opening) (first : View) (front rest : List ScriptLine) → IsAtLine o first lane.old blocks.old pending.old names front values.old.items
        → IsNotDone o first lane.new blocks.new pending.new names (front ++ said.now ∷ rest) values.new.items why) }
    ensures letters { LettersKept (said.now ∷ []) values.old.items values.new.items result }
{
    match &said.operation {
        ScriptOp::Add { id, off, len } => add_at(lane, blocks, names, said, *id, *off, *len),
        ScriptOp::Write { id, off, bytes } => {
            write_at(lane, blocks, names, said, *id, *off, bytes.as_slice())
        }
        ScriptOp::Read { id, off, len } => {
            read_at(alloc, lane, blocks, names, said, (*id, *off, *len), values)
        }
        ScriptOp::Alloc {
            letter: _,
            size,
            kind,
        } => make_at(lane, blocks, said, *size, *kind, values),
        ScriptOp::Free { id } => free_at(lane, blocks, names, said, *id),
        ScriptOp::Reserve { .. }
        | ScriptOp::WriteReserved { .. }
        | ScriptOp::DeferFree { .. }
        | ScriptOp::Set { .. }
        | ScriptOp::Publish
        | ScriptOp::Cancel => act_at(lane, blocks, pending, names, said, values),
        ScriptOp::Begin { .. } | ScriptOp::Commit => unreachable!(),
    }
}

/// Makes the changes of these lines, up to the first that is not done. The letters of each stand for the offsets that were given before, or by the
/// lines before it.
fn change_all(
    alloc: Global,
    lane: &mut Lane<SoloMem>,
    blocks: &mut CallBlocks,
    pending: &mut PendingActions,
    names: Names,
    given: &[(u64, u64)],
    lines: &[ScriptLine],
    values: &mut Vec<(u64, Value)>,
) -> Result<(), NotDone>
    requires are_changes { All IsChange (operations lines.now) }
    requires ordered { AreInOrder lines.now }
    requires at_work { IsLaneWith lane.old blocks.old pending.old names values.old.items }
    ensures at_work { OnOk result (IsLaneWith lane.new blocks.new pending.new names values.new.items) }
    ensures done { OnOk result ((o : Opening) (first : View) (front : List ScriptLine) → IsAtLine o first lane.old blocks.old pending.old names front values.old.items
        → IsAtLine o first lane.new blocks.new pending.new names (front ++ resolved (given.now ++ offsets_in values.new.items) lines.now) values.new.items) }
    ensures ends { IfErr result (λ why. (o : Opening) (first : View) (front rest : List ScriptLine) → IsAtLine o first lane.old blocks.old pending.old names front values.old.items
        → IsNotDone o first lane.new blocks.new pending.new names (front ++ resolved (given.now ++ offsets_in values.new.items) lines.now ++ rest) values.new.items why) }
    ensures letters { LettersKept lines.now values.old.items values.new.items result }
{
    for said in lines {
        let said = resolved_line(alloc, given, values.as_slice(), said)?;
        change_at(alloc, lane, blocks, pending, names, &said, values)?;
    }
    Ok(())
}

/// Begins the transaction of this line, with the locks that it wants.
fn begin_with(
    lane: &mut Lane<SoloMem>,
    blocks: &mut CallBlocks,
    names: Names,
    said: &ScriptLine,
    wants: &[Want],
) -> Result<(), NotDone>
    requires begins { (asked : List ScriptWant) × ((said.now.operation ≡ op.Begin asked) × (wants.now ≡ map (want_of names) asked)) }
    requires first { (o : Opening) × ((first : View) × ((actions : PendingActions) × IsStart o lane.old blocks.old actions first)) }
    ensures at_work { OnOk result ((o : Opening) (first : View) (actions : PendingActions) → IsStart o lane.old blocks.old actions first → IsLaneWith lane.new blocks.new actions names []) }
    ensures done { OnOk result ((o : Opening) (first : View) (actions : PendingActions) → IsStart o lane.old blocks.old actions first → IsAtLine o first lane.new blocks.new actions names (said.now ∷ []) []) }
    ensures ends { IfErr result (λ why. (o : Opening) (first : View) (actions : PendingActions) (rest : List ScriptLine) → IsStart o lane.old blocks.old actions first → IsNotDone o first lane.new blocks.new actions names (said.now ∷ rest) [] why) }
{
    match begin(lane, blocks, wants) {
        Ok(()) => Ok(()),
        Err(why) => Err(not_done(said.line, why)),
    }
}

/// Begins the transaction, at this line.
fn begin_at(
    alloc: Global,
    lane: &mut Lane<SoloMem>,
    blocks: &mut CallBlocks,
    names: Names,
    said: &ScriptLine,
) -> Result<(), NotDone>
    requires begins { (asked : List ScriptWant) × (said.now.operation ≡ op.Begin asked) }
    requires first { (o : Opening) × ((first : View) × ((actions : PendingActions) × IsStart o lane.old blocks.old actions first)) }
    ensures at_work { OnOk result ((o : Opening) (first : View) (actions : PendingActions) → IsStart o lane.old blocks.old actions first → IsLaneWith lane.new blocks.new actions names []) }
    ensures done { OnOk result ((o : Opening) (first : View) (actions : PendingActions) → IsStart o lane.old blocks.old actions first → IsAtLine o first lane.new blocks.new actions names (said.now ∷ []) []) }
    ensures ends { IfErr result (λ why. (o : Opening) (first : View) (actions : PendingActions) (rest : List ScriptLine) → IsStart o lane.old blocks.old actions first → IsNotDone o first lane.new blocks.new actions names (said.now ∷ rest) [] why) }
{
    let ScriptOp::Begin { wants } = &said.operation else {
        unreachable!()
    };
    let wants = wants_of(alloc, names, wants.as_slice())?;
    begin_with(lane, blocks, names, said, wants.as_slice())
}

/// Commits the transaction.
fn commit_all(lane: &mut Lane<SoloMem>, blocks: &CallBlocks, names: Names) -> Result<(), NotDone>
    requires at_work { (actions : PendingActions) × IsLaneAtLine lane.old blocks.now actions names }
    ensures { (o : Opening) (first : View) (actions : PendingActions) (front : List ScriptLine) (values : Values) (said : ScriptLine) → IsAtLine o first lane.old blocks.now actions names front values → said.operation ≡ op.Commit
        → CameTo o first lane.new blocks.now actions names (front ++ said ∷ []) values result }
{
    match commit(lane, blocks) {
        Ok(()) => Ok(()),
        Err(_) => Err(NotDone::Stopped),
    }
}

/// Makes the transaction of these lines, up to the first that is not done; what they gave is added to the values. Their letters stand for the
/// offsets that were given before, or by the lines before them.
pub(crate) fn transact(
    alloc: Global,
    lane: &mut Lane<SoloMem>,
    blocks: &mut CallBlocks,
    pending: &mut PendingActions,
    names: Names,
    given: &[(u64, u64)],
    lines: &[ScriptLine],
    values: &mut Vec<(u64, Value)>,
) -> Result<(), NotDone>
    requires transaction { IsTransaction (operations lines.now) }
    requires ordered { AreInOrder lines.now }
    requires first { (o : Opening) × ((first : View) × IsStart o lane.old blocks.old pending.old first) }
    requires none { values.old.items ≡ [] }
    ensures made { (o : Opening) (first : View) → IsStart o lane.old blocks.old pending.old first
        → CameTo o first lane.new blocks.new pending.new names (resolved (given.now ++ offsets_in values.new.items) lines.now) values.new.items result }
    ensures letters { LettersKept lines.now [] values.new.items result }
{
    let begin = resolved_line(alloc, given, values.as_slice(), &lines[0])?;
    begin_at(alloc, lane, blocks, names, &begin)?;
    change_all(
        alloc,
        lane,
        blocks,
        pending,
        names,
        given,
        &lines[1..lines.len() - 1],
        values,
    )?;
    commit_all(lane, blocks, names)
}
