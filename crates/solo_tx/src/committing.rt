ghost use Rattle.std.specs.Prelude.{◌≡◌, ◌⊎◌, ◌-◌, ◌≤◌, [], None, Some, Err, true, IfErr, OnErr, OnOk};
ghost use Rattle.pm_objects.specs.declared.calls.Operation.TheVariants.{Commit};
ghost use Rattle.pm_objects.specs.declared.refusal.Refusal.{Refusal};
ghost use Rattle.pm_objects.specs.declared.refusal.Refusal.TheVariants as refusal;
ghost use Rattle.solo_undo.specs.Working.{IsSeenWithArea};
ghost use Rattle.solo_view.specs.Steps.Step.{Tell};
ghost use Rattle.solo_view.specs.View.{View};
ghost use Rattle.solo_view.specs.Views.{after};
ghost use Rattle.solo_world.specs.Opening.{Opening};
ghost use Rattle.solo_world.specs.Sequences.{IsMade, IsReady, IsStopped, Runs, in_turn, one, settles};
ghost use Rattle.solo_world.specs.declared.lane.Stage.TheVariants as stage;
ghost use Rattle.solo_tx.specs.AtWork.{IsAtWork};
ghost use Rattle.solo_tx.specs.Ending.{IsDecidable, IsEndedBy, IsLaneAtWork, IsStoppedIn, MayCommitCall, PublishesNoBlock, StopsDrawn, StopsEnded};
ghost use Rattle.solo_tx.specs.Sequences.{commits, decides, decides_all, logs_listed, retires_any};
ghost use Rattle.solo_tx.specs.Stages.{work_refusal};

use crate::ending::end_call;
use crate::publishing::publish_log;
use crate::stages::check_work;
use pm_objects::{Operation, Refusal};
use solo_memory::Stopped;
use solo_undo::retire;
use solo_world::{Lane, LawfulMem, Stage, settle};

/// Ends the records, if there are any.
fn retire_any<M: LawfulMem>(lane: &mut Lane<M>) -> Result<(), Stopped>
    requires area { IsSeenWithArea (M.at lane.old.memory) }
    requires ready { IsReady (M.at lane.old.memory) (retires_any lane.old.records.items) }
    ensures ran { Runs (M.at lane.old.memory) (M.at lane.new.memory) (retires_any lane.old.records.items) result }
    ensures none { OnOk result (lane.new.records.items ≡ []) }
    ensures else_same { lane.new ≡ record lane.old { memory = lane.new.memory; records = lane.new.records } }
{
    if lane.records.is_empty() {
        Ok(())
    } else {
        retire(lane)
    }
}

/// Tells the commit, draws the call's number, and ends the records.
#[tactic(auto, using(solo_world::proofs::Sequencing::runs_then), unfolding(crate::specs::Sequences::decides))]
fn decide<M: LawfulMem>(lane: &mut Lane<M>) -> Result<(), Stopped>
    requires decidable { IsDecidable (M.at lane.old.memory) lane.old.records.items [] }
    ensures ran { Runs (M.at lane.old.memory) (M.at lane.new.memory) (decides lane.old.records.items lane.new.last) result }
    ensures none { OnOk result (lane.new.records.items ≡ []) }
    ensures drawn { lane.new.drawn ≡ Some lane.new.last }
    ensures stops { OnErr result (StopsEnded (M.at lane.old.memory) (M.at lane.new.memory) lane.old.records.items [] lane.new.last) }
    ensures else_same { lane.new ≡ record lane.old { memory = lane.new.memory; records = lane.new.records; drawn = lane.new.drawn; last = lane.new.last } }
{
    end_call(lane, &Operation::Commit, None);
    retire_any(lane)
}

/// Decides the call: what it published is performed, if anything, else its records are ended.
fn decide_all<M: LawfulMem>(lane: &mut Lane<M>) -> Result<(), Stopped>
    requires decidable { IsDecidable (M.at lane.old.memory) lane.old.records.items lane.old.entries.items }
    ensures ran { Runs (M.at lane.old.memory) (M.at lane.new.memory) (decides_all lane.old.records.items lane.old.entries.items lane.new.last) result }
    ensures none { OnOk result (lane.new.records.items ≡ []) }
    ensures unlisted { OnOk result (lane.new.entries.items ≡ []) }
    ensures drawn { OnOk result (lane.new.drawn ≡ Some lane.new.last) }
    ensures stops { OnErr result (((lane.new.drawn ≡ lane.old.drawn) × IsStopped (M.at lane.old.memory) (M.at lane.new.memory) (logs_listed lane.old.entries.items))
        ⊎ ((lane.new.drawn ≡ Some lane.new.last) × StopsEnded (M.at lane.old.memory) (M.at lane.new.memory) lane.old.records.items lane.old.entries.items lane.new.last)) }
    ensures else_same { lane.new ≡ record lane.old { memory = lane.new.memory; records = lane.new.records; entries = lane.new.entries; drawn = lane.new.drawn; last = lane.new.last } }
{
    if lane.entries.is_empty() {
        decide(lane)
    } else {
        publish_log(lane, &Operation::Commit)
    }
}

/// Commits the lane's open call, whatever the transaction's level and stage, of which it changes nothing: the part of pmemobj_tx_commit(3) that reaches
/// the memory. All that the call did is made persistent; the redo entries that the lane lists, if any, are logged; the commit is told, and the call
/// draws its number; then the log is performed, by which all of its words change at once, or, without entries, the records are ended. An entry may be of
/// a word that the lane locked for writing, or, of a lane that is alone, of one that allocates or frees a block. Makes exactly the memory calls of
/// `commits`, or the first of them up to the lane's stop.
#[tactic(auto, using(solo_world::proofs::Sequencing::runs_then, solo_world::proofs::Sequencing::runs_err), unfolding(crate::specs::Sequences::commits))]
pub fn commit_call<M: LawfulMem>(lane: &mut Lane<M>) -> Result<(), Stopped>
    requires may { MayCommitCall M.at lane.old }
    ensures ran { Runs (M.at lane.old.memory) (M.at lane.new.memory) (commits lane.old.records.items lane.old.entries.items lane.new.last) result }
    ensures none { OnOk result (lane.new.records.items ≡ []) }
    ensures unlisted { OnOk result (lane.new.entries.items ≡ []) }
    ensures drawn { OnOk result (lane.new.drawn ≡ Some lane.new.last) }
    ensures stops { OnErr result (((lane.new.drawn ≡ lane.old.drawn) × IsStopped (M.at lane.old.memory) (M.at lane.new.memory) (in_turn settles (logs_listed lane.old.entries.items)))
        ⊎ ((lane.new.drawn ≡ Some lane.new.last) × StopsDrawn (M.at lane.old.memory) (M.at lane.new.memory) lane.old.records.items lane.old.entries.items lane.new.last)) }
    ensures else_same { lane.new ≡ record lane.old { memory = lane.new.memory; records = lane.new.records; entries = lane.new.entries; drawn = lane.new.drawn; last = lane.new.last } }
{
    settle(&mut lane.memory)?;
    decide_all(lane)
}

/// Commits the outermost level.
fn commit_outer<M: LawfulMem>(lane: &mut Lane<M>) -> Result<(), Refusal>
    requires at_work { IsLaneAtWork M.at lane.old }
    ensures ended { OnOk result ((o : Opening) (v : View) → IsAtWork o M.at lane.old v → PublishesNoBlock v → lane.old.level ≡ 1 → IsEndedBy M.at lane.new v (commits lane.old.records.items lane.old.entries.items lane.new.last) Commit None) }
    ensures none { OnOk result (lane.new.records.items ≡ []) }
    ensures lane { OnOk result (lane.new ≡ record lane.old { memory = lane.new.memory; records = lane.new.records; entries = lane.new.entries; stage = stage.OnCommit; drawn = Some lane.new.last; last = lane.new.last }) }
    ensures stops { OnErr result ((o : Opening) (v : View) → IsAtWork o M.at lane.old v → PublishesNoBlock v → lane.old.level ≡ 1 → IsStoppedIn M.at lane.new v (commits lane.old.records.items lane.old.entries.items lane.new.last) Commit None) }
    ensures stopped { IfErr result (λ r. r ≡ refusal.Stopped) }
    ensures stopped_lane { OnErr result (lane.new ≡ record lane.old { memory = lane.new.memory; records = lane.new.records; entries = lane.new.entries; drawn = lane.new.drawn; last = lane.new.last; stopped = true }) }
{
    match commit_call(lane) {
        Ok(()) => {
            lane.stage = Stage::OnCommit;
            Ok(())
        }
        Err(Stopped) => {
            lane.stopped = true;
            Err(Refusal::Stopped)
        }
    }
}

/// Commits an inner level: the operation is told, and all else is left to the outer ones. Once the level has ended, the transaction is in work again.
pub fn commit_inner<M: LawfulMem>(lane: &mut Lane<M>)
    requires at_work { IsLaneAtWork M.at lane.old }
    ensures made { IsMade (M.at lane.old.memory) (M.at lane.new.memory) (one (Tell Commit None)) }
    ensures lane { lane.new ≡ record lane.old { memory = lane.new.memory; stage = stage.OnCommit } }
    ensures stays { (o : Opening) (v : View) → IsAtWork o M.at lane.old v → 2 ≤ lane.old.level
        → IsAtWork o M.at (record lane.new { level = lane.new.level - 1; stage = stage.Work }) (after v (Tell Commit None)) }
{
    lane.memory.tell(&Operation::Commit, None);
    lane.stage = Stage::OnCommit;
}

/// Commits the transaction's level: pmemobj_tx_commit(3). At the outermost level all that the call did is made persistent, it draws its
/// number and its records are ended, after which no power failure takes it back; an inner level's is only told, and once that level has
/// ended the transaction is in work again. The lane keeps its locks until the outermost level ends. `NotWork` and `NoTx` for the
/// transaction's stage, and `Stopped` where the lane had stopped, change nothing; `Stopped` where it comes to its stop leaves the first of
/// these memory calls made.
pub fn commit<M: LawfulMem>(lane: &mut Lane<M>) -> Result<(), Refusal>
    requires at_work { work_refusal lane.old ≡ None → IsLaneAtWork M.at lane.old }
    ensures refused { (r : Refusal) → work_refusal lane.old ≡ Some r → (result ≡ Err r) × (lane.new ≡ lane.old) }
    ensures ended { OnOk result ((o : Opening) (v : View) → IsAtWork o M.at lane.old v → PublishesNoBlock v → lane.old.level ≡ 1 → IsEndedBy M.at lane.new v (commits lane.old.records.items lane.old.entries.items lane.new.last) Commit None) }
    ensures none { OnOk result (lane.old.level ≡ 1 → lane.new.records.items ≡ []) }
    ensures lane { OnOk result (lane.old.level ≡ 1
        → lane.new ≡ record lane.old { memory = lane.new.memory; records = lane.new.records; entries = lane.new.entries; stage = stage.OnCommit; drawn = Some lane.new.last; last = lane.new.last }) }
    ensures inner_made { OnOk result (2 ≤ lane.old.level → IsMade (M.at lane.old.memory) (M.at lane.new.memory) (one (Tell Commit None))) }
    ensures inner_lane { OnOk result (2 ≤ lane.old.level → lane.new ≡ record lane.old { memory = lane.new.memory; stage = stage.OnCommit }) }
    ensures inner_stays { OnOk result ((o : Opening) (v : View) → IsAtWork o M.at lane.old v → 2 ≤ lane.old.level
        → IsAtWork o M.at (record lane.new { level = lane.new.level - 1; stage = stage.Work }) (after v (Tell Commit None))) }
    ensures stops { OnErr result (work_refusal lane.old ≡ None → (o : Opening) (v : View) → IsAtWork o M.at lane.old v → PublishesNoBlock v → IsStoppedIn M.at lane.new v (commits lane.old.records.items lane.old.entries.items lane.new.last) Commit None) }
    ensures stopped { IfErr result (λ r. work_refusal lane.old ≡ None → r ≡ refusal.Stopped) }
    ensures stopped_lane { OnErr result (work_refusal lane.old ≡ None
        → lane.new ≡ record lane.old { memory = lane.new.memory; records = lane.new.records; entries = lane.new.entries; drawn = lane.new.drawn; last = lane.new.last; stopped = true }) }
{
    check_work(lane)?;
    if lane.level == 1 {
        commit_outer(lane)?;
    } else {
        commit_inner(lane);
    }
    Ok(())
}
