ghost use Rattle.std.specs.Prelude.{◌≡◌, ◌+◌, [], None, Some};
ghost use Rattle.pm_objects.specs.declared.calls.Operation.TheVariants.{Commit};
ghost use Rattle.pm_plan.specs.Plans.{IsMade};
ghost use Rattle.pm_redo.specs.Calls.{MayLog};
ghost use Rattle.pm_redo.specs.Stages.{CanSeal};
ghost use Rattle.pm_undo.specs.Undoing.{KeepsLog};
ghost use Rattle.pm_call.specs.Commits.{CallCommitted, Committed, KnowsEntries, LookedAtEntries};
ghost use Rattle.pm_call.specs.At.{At};
ghost use Rattle.pm_call.specs.Did.{After, IsAt, IsAtSo};
ghost use Rattle.pm_world.specs.LaneFields.{Standing, at_work};
ghost use Rattle.pm_world.specs.Lent.{operation_of};
ghost use Rattle.pm_call.specs.Finishing.{CanEndRecords, CanFinish, CanLogCall, CanNumber};
ghost use Rattle.pm_call.specs.Finishing.{EndedRecords, Finished, FinishedEntries, FinishedRecords};
ghost use Rattle.pm_call.specs.Finishing.{KeepsCall, PerformedCall, PerformedEntries, StandsAs};
ghost use Rattle.pm_call.specs.GivenUp.{MayEnd};
ghost use Rattle.pm_call.specs.Plans.{ends_call};

use pm_layout::WORD_BYTES;
use pm_memory::Stopped;
use pm_model::Stage;
use pm_objects::Operation;
use pm_plan::persist_all;
use pm_record::Redo;
use pm_redo::{log, perform};
use pm_undo::retire;
use pm_world::{Lane, LawfulMem, LentOperation};

/// Tells the operation that ends the open call, and draws the call's number: how many were drawn
/// before.
fn number_call<M: LawfulMem>(lane: &mut Lane<M>, told: LentOperation<'_>) -> u64
    requires { MayEnd (M.at lane.old.memory) (operation_of told) None }
    ensures made { IsMade (M.at lane.old.memory) (M.at lane.new.memory)
        (ends_call (operation_of told.entry) None result) }
    ensures lane { lane.new ≡ record lane.old
        { memory = lane.new.memory; drawn = Some (result + 1); last = result + 1 } }
{
    lane.memory.tell(told, None);
    let number = lane.memory.draw();
    lane.drawn = Some(number + 1);
    lane.last = number + 1;
    number
}

/// Ends the records of a call that has its number, where there are some.
fn end_records<M: LawfulMem>(lane: &mut Lane<M>) -> Result<(), Stopped>
    requires { StandsAs (KeepsLog M.at lane.old) CanEndRecords }
    ensures { EndedRecords M.at lane.old lane.new result }
{
    if lane.log.records.is_empty() {
        Ok(())
    } else {
        retire(lane)
    }
}

/// Numbers a call that is committed and lists no entry, and ends its records.
fn finish_records<M: LawfulMem>(lane: &mut Lane<M>) -> Result<(), Stopped>
    requires empty { lane.old.entries.items ≡ [] }
    requires may { StandsAs (KeepsLog M.at lane.old) (λ v. CanNumber v Commit CanEndRecords) }
    ensures { FinishedRecords M.at Commit lane.old lane.new result }
{
    let operation = Operation::Commit;
    number_call(lane, LentOperation::Whole(&operation));
    end_records(lane)
}

/// Performs the log of a call that has its number.
fn perform_entries<M: LawfulMem>(lane: &mut Lane<M>) -> Result<(), Stopped>
    requires { StandsAs (KeepsCall M.at lane.old) CanSeal }
    ensures { PerformedEntries M.at lane.old lane.new result }
{
    perform(lane)?;
    lane.log.generation += 1;
    Ok(())
}

/// Numbers a call whose log is written, with the operation that ends it, and performs the log.
fn perform_call<M: LawfulMem>(lane: &mut Lane<M>, told: LentOperation<'_>) -> Result<(), Stopped>
    requires { StandsAs (KeepsCall M.at lane.old) (λ v. CanNumber v (operation_of told) CanSeal) }
    ensures { PerformedCall M.at (operation_of told.entry) lane.old lane.new result }
{
    number_call(lane, told);
    perform_entries(lane)
}

/// Writes a log of the lane's entries, numbers the call with the operation that ends it, a commit or a
/// publish, and performs the log. Makes exactly the memory calls of `logs_entries`.
///
/// # Errors
///
/// `Stopped`: the lane came to its stop; the first of the calls are made.
pub fn finish_entries<M: LawfulMem>(
    lane: &mut Lane<M>,
    told: LentOperation<'_>,
) -> Result<(), Stopped>
    requires { StandsAs (MayLog M.at lane.old lane.old.log.generation)
        (λ v. CanLogCall v (operation_of told) lane.old.entries.items) }
    ensures { FinishedEntries M.at (operation_of told.entry) lane.old lane.new result }
{
    log(lane, lane.log.generation)?;
    perform_call(lane, told)
}

/// Numbers a call of which all is persistent, and ends its records, or performs its entries.
fn finish<M: LawfulMem>(lane: &mut Lane<M>) -> Result<(), Stopped>
    requires { StandsAs (KeepsLog M.at lane.old) (λ v. CanFinish v lane.old.entries.items) }
    ensures { Finished M.at lane.old lane.new result }
{
    if lane.entries.is_empty() {
        finish_records(lane)
    } else {
        let operation = Operation::Commit;
        finish_entries(lane, LentOperation::Whole(&operation))
    }
}

/// Commits the outermost level: all that the call did is made persistent, and it takes its number,
/// after which its records end. Where it published words, a log of them is written before the number
/// is taken, and performed after it. Makes exactly the memory calls of `commits`. The lane's locks are
/// held still.
///
/// # Errors
///
/// `Stopped`: the lane came to its stop; the first of the calls are made.
fn commit_outermost<M: LawfulMem>(lane: &mut Lane<M>) -> Result<(), Stopped>
    requires { IsAtSo M.at lane.old (λ s. (s.level ≡ 1) × KnowsEntries s) }
    ensures { Committed M.at lane.old lane.new result }
{
    persist_all(&mut lane.memory)?;
    finish(lane)?;
    lane.drawn = None;
    lane.stage = Stage::OnCommit;
    Ok(())
}

/// Looks at the word of each of these entries.
fn look_each<M: LawfulMem>(mem: &mut M, entries: &[Redo])
    requires { (s : Standing) × M.at mem.old s.view × At s × (s.entries ≡ entries.now) }
    ensures { (s : Standing) → M.at mem.old s.view → At s → s.entries ≡ entries.now
        → After s (λ t. KnowsEntries t × M.at mem.new t.view × At t
        × (at_work t ≡ at_work s)) }
{
    for entry in entries {
        let _found = mem.see(entry.place / WORD_BYTES);
    }
}

/// Looks at each word that the lane published.
fn look_entries<M: LawfulMem>(lane: &mut Lane<M>)
    requires { IsAt M.at lane.old }
    ensures { LookedAtEntries M.at lane.old lane.new }
{
    look_each(&mut lane.memory, lane.entries.as_slice());
}

/// Commits the call of a lane at its outermost level: it looks at the words that it published, all
/// that it did is made persistent, it takes its number, and its log ends. Makes exactly the memory
/// calls of `commits` after the looks. The lane's locks are held still.
///
/// # Errors
///
/// `Stopped`: the lane came to its stop; the first of the calls are made.
pub fn commit_call<M: LawfulMem>(lane: &mut Lane<M>) -> Result<(), Stopped>
    requires { IsAtSo M.at lane.old (λ s. s.level ≡ 1) }
    ensures { CallCommitted M.at lane.old lane.new result }
{
    look_entries(lane);
    commit_outermost(lane)
}
