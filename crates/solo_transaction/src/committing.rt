//! The commit of a transaction that may have made and freed objects.

ghost use Rattle.std.specs.Prelude.{◌≡◌, ◌-◌, ◌≤◌, [], None, Some, Err, true, IfErr, OnErr, OnOk};
ghost use Rattle.pm_objects.specs.declared.calls.Operation.TheVariants.{Commit};
ghost use Rattle.pm_objects.specs.declared.refusal.Refusal.{Refusal};
ghost use Rattle.pm_objects.specs.declared.refusal.Refusal.TheVariants as refusal;
ghost use Rattle.solo_tx.specs.Ending.{IsEndedBy, IsStoppedAmong, IsStoppedIn, PublishesNoBlock};
ghost use Rattle.solo_tx.specs.Sequences.{commits};
ghost use Rattle.solo_tx.specs.Stages.{work_refusal};
ghost use Rattle.solo_view.specs.Steps.Step.{Tell};
ghost use Rattle.solo_view.specs.View.{View};
ghost use Rattle.solo_view.specs.Views.{after};
ghost use Rattle.solo_world.specs.Opening.{Opening};
ghost use Rattle.solo_world.specs.Sequences.{IsMade, one};
ghost use Rattle.solo_world.specs.declared.lane.Stage.TheVariants as stage;
ghost use Rattle.solo_transaction.specs.AtWork.{IsAtWorkWith};
ghost use Rattle.solo_transaction.specs.Committing.{HasCommitted, MayCommitWith, MayPublishBlocks, commits_with};

use pm_objects::Refusal;
use solo_made::CallBlocks;
use solo_memory::Stopped;
use solo_tx::{check_work, commit_call, commit_inner};
use solo_world::{Lane, LawfulMem, Stage};

/// Commits the outermost level.
fn commit_outer<M: LawfulMem>(lane: &mut Lane<M>, blocks: &CallBlocks) -> Result<(), Refusal>
    requires at_work { MayCommitWith M.at lane.old blocks.now }
    ensures committed { OnOk result ((o : Opening) (v : View) → IsAtWorkWith o M.at lane.old blocks.now v → MayPublishBlocks v blocks.now → HasCommitted M.at lane.new v (commits_with lane.old blocks.now v.lanes lane.new.last)) }
    ensures ended { OnOk result ((o : Opening) (v : View) → IsAtWorkWith o M.at lane.old blocks.now v → MayPublishBlocks v blocks.now → PublishesNoBlock v → lane.old.level ≡ 1
        → IsEndedBy M.at lane.new v (commits lane.old.records.items lane.old.entries.items lane.new.last) Commit None) }
    ensures none { OnOk result (lane.new.records.items ≡ []) }
    ensures lane { OnOk result (lane.new ≡ record lane.old { memory = lane.new.memory; records = lane.new.records; entries = lane.new.entries; stage = stage.OnCommit; drawn = Some lane.new.last; last = lane.new.last }) }
    ensures stops { OnErr result ((o : Opening) (v : View) → IsAtWorkWith o M.at lane.old blocks.now v → MayPublishBlocks v blocks.now
        → IsStoppedAmong M.at lane.new v (commits_with lane.old blocks.now v.lanes lane.new.last) Commit None) }
    ensures stops_ended { OnErr result ((o : Opening) (v : View) → IsAtWorkWith o M.at lane.old blocks.now v → MayPublishBlocks v blocks.now → PublishesNoBlock v → lane.old.level ≡ 1
        → IsStoppedIn M.at lane.new v (commits lane.old.records.items lane.old.entries.items lane.new.last) Commit None) }
    ensures stopped { IfErr result (λ r. r ≡ refusal.Stopped) }
    ensures stopped_lane { OnErr result (lane.new ≡ record lane.old { memory = lane.new.memory; records = lane.new.records; entries = lane.new.entries; drawn = lane.new.drawn; last = lane.new.last; stopped = true }) }
{
    blocks.list_entries(lane);
    match commit_call(lane) {
        Ok(()) => {
            lane.stage = Stage::OnCommit;
            Ok(())
        }
        Err(Stopped) => {
            lane.stopped = true;
            Err(Refusal::Stopped)
        }
    }
}

/// Commits the transaction's level: pmemobj_tx_commit(3). At the outermost level the entries of the blocks of what the call found and freed, and then
/// of what it made and has, are listed behind those of the actions that it published. All that the call did is made persistent, the log of these
/// entries is written, the call draws its number, and the log is performed: its words, and so its objects, change at once when the seal is drained. Without
/// entries its records are ended in the place of that. The lane keeps its locks until the outermost level ends. An inner level's commit is only told, and
/// once that level has ended the transaction is in work again, with its lists. `NotWork` and `NoTx` for the transaction's stage, and `Stopped` where the lane
/// had stopped, change nothing; `Stopped` where it comes to its stop leaves the first of these memory calls made.
pub fn commit<M: LawfulMem>(lane: &mut Lane<M>, blocks: &CallBlocks) -> Result<(), Refusal>
    requires at_work { work_refusal lane.old ≡ None → MayCommitWith M.at lane.old blocks.now }
    ensures refused { (r : Refusal) → work_refusal lane.old ≡ Some r → (result ≡ Err r) × (lane.new ≡ lane.old) }
    ensures committed { OnOk result ((o : Opening) (v : View) → IsAtWorkWith o M.at lane.old blocks.now v → MayPublishBlocks v blocks.now → lane.old.level ≡ 1
        → HasCommitted M.at lane.new v (commits_with lane.old blocks.now v.lanes lane.new.last)) }
    ensures ended { OnOk result ((o : Opening) (v : View) → IsAtWorkWith o M.at lane.old blocks.now v → MayPublishBlocks v blocks.now → PublishesNoBlock v → lane.old.level ≡ 1
        → IsEndedBy M.at lane.new v (commits lane.old.records.items lane.old.entries.items lane.new.last) Commit None) }
    ensures none { OnOk result (lane.old.level ≡ 1 → lane.new.records.items ≡ []) }
    ensures lane { OnOk result (lane.old.level ≡ 1
        → lane.new ≡ record lane.old { memory = lane.new.memory; records = lane.new.records; entries = lane.new.entries; stage = stage.OnCommit; drawn = Some lane.new.last; last = lane.new.last }) }
    ensures inner_made { OnOk result (2 ≤ lane.old.level → IsMade (M.at lane.old.memory) (M.at lane.new.memory) (one (Tell Commit None))) }
    ensures inner_lane { OnOk result (2 ≤ lane.old.level → lane.new ≡ record lane.old { memory = lane.new.memory; stage = stage.OnCommit }) }
    ensures inner_stays { OnOk result ((o : Opening) (v : View) → IsAtWorkWith o M.at lane.old blocks.now v → 2 ≤ lane.old.level
        → IsAtWorkWith o M.at (record lane.new { level = lane.new.level - 1; stage = stage.Work }) blocks.now (after v (Tell Commit None))) }
    ensures stops { OnErr result (work_refusal lane.old ≡ None → (o : Opening) (v : View) → IsAtWorkWith o M.at lane.old blocks.now v → MayPublishBlocks v blocks.now
        → IsStoppedAmong M.at lane.new v (commits_with lane.old blocks.now v.lanes lane.new.last) Commit None) }
    ensures stops_ended { OnErr result (work_refusal lane.old ≡ None → (o : Opening) (v : View) → IsAtWorkWith o M.at lane.old blocks.now v → MayPublishBlocks v blocks.now → PublishesNoBlock v
        → IsStoppedIn M.at lane.new v (commits lane.old.records.items lane.old.entries.items lane.new.last) Commit None) }
    ensures stopped { IfErr result (λ r. work_refusal lane.old ≡ None → r ≡ refusal.Stopped) }
    ensures stopped_lane { OnErr result (work_refusal lane.old ≡ None
        → lane.new ≡ record lane.old { memory = lane.new.memory; records = lane.new.records; entries = lane.new.entries; drawn = lane.new.drawn; last = lane.new.last; stopped = true }) }
{
    check_work(lane)?;
    if lane.level == 1 {
        commit_outer(lane, blocks)?;
    } else {
        commit_inner(lane);
    }
    Ok(())
}
