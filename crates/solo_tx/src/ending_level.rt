ghost use Rattle.std.specs.Prelude.{◌≡◌, ◌-◌, ◌≤◌, [], None, Some, Err, IfErr, IfOk, OnOk};
ghost use Rattle.pm_objects.specs.declared.history.TxErr.TheVariants as error;
ghost use Rattle.pm_objects.specs.declared.refusal.Refusal.{Refusal};
ghost use Rattle.solo_view.specs.View.{View};
ghost use Rattle.solo_world.specs.Lanes.{IsIdle};
ghost use Rattle.solo_world.specs.Sequences.{IsMade};
ghost use Rattle.solo_world.specs.declared.lane.Stage.TheVariants as stage;
ghost use Rattle.solo_lock.specs.Locking.{gives};
ghost use Rattle.solo_tx.specs.Ending.{IsAfterCall, IsClosedBy, IsLaneAfterCall};
ghost use Rattle.solo_tx.specs.Stages.{end_refusal, stage_behind};

use crate::stages::check_end;
use pm_objects::{Refusal, TxErr};
use solo_lock::give_all;
use solo_world::{Lane, LawfulMem, Stage};

/// Closes the transaction: the lane gives its locks back, and is as before it.
pub fn close<M: LawfulMem>(lane: &mut Lane<M>)
    requires after { IsLaneAfterCall M.at lane.old }
    ensures made { IsMade (M.at lane.old.memory) (M.at lane.new.memory) (gives lane.old.locks.items) }
    ensures none { lane.new.locks.items ≡ [] }
    ensures lane { lane.new ≡ record lane.old { memory = lane.new.memory; locks = lane.new.locks; level = 0; stage = stage.None; error = error.None; drawn = None } }
    ensures closed { (v : View) → IsAfterCall M.at lane.old v → IsClosedBy M.at lane.new v (gives lane.old.locks.items) }
{
    give_all(&mut lane.memory, lane.locks.as_slice());
    lane.locks.clear();
    lane.level = 0;
    lane.stage = Stage::None;
    lane.error = TxErr::None;
    lane.drawn = None;
}

/// The stage of the outer level once an inner one has ended.
fn outer_stage(error: TxErr) -> Stage
    ensures { result ≡ stage_behind error }
{
    if error == TxErr::None {
        Stage::Work
    } else {
        Stage::OnAbort
    }
}

/// Ends a level of the transaction, and answers why it was aborted, if it was: pmemobj_tx_end(3). At the outermost level the lane gives its
/// locks back, in the order in which it took them, and is as before the transaction; the end of an inner level leaves the outer one in work,
/// or aborted as it was. `InTx` while the level is in work, `NoTx` where none is open, and `Stopped` where the lane had stopped change
/// nothing.
pub fn end<M: LawfulMem>(lane: &mut Lane<M>) -> Result<TxErr, Refusal>
    requires after { end_refusal lane.old ≡ None → lane.old.level ≡ 1 → IsLaneAfterCall M.at lane.old }
    ensures refused { (r : Refusal) → end_refusal lane.old ≡ Some r → (result ≡ Err r) × (lane.new ≡ lane.old) }
    ensures refuses { IfErr result (λ r. end_refusal lane.old ≡ Some r) }
    ensures error { IfOk result (λ error. error ≡ lane.old.error) }
    ensures inner { OnOk result (2 ≤ lane.old.level → lane.new ≡ record lane.old { level = lane.old.level - 1; stage = stage_behind lane.old.error }) }
    ensures made { OnOk result (lane.old.level ≡ 1 → IsMade (M.at lane.old.memory) (M.at lane.new.memory) (gives lane.old.locks.items)) }
    ensures none { OnOk result (lane.old.level ≡ 1 → lane.new.locks.items ≡ []) }
    ensures lane { OnOk result (lane.old.level ≡ 1
        → lane.new ≡ record lane.old { memory = lane.new.memory; locks = lane.new.locks; level = 0; stage = stage.None; error = error.None; drawn = None }) }
    ensures idle { OnOk result (lane.old.level ≡ 1 → IsIdle lane.new) }
    ensures closed { OnOk result ((v : View) → IsAfterCall M.at lane.old v → lane.old.level ≡ 1 → IsClosedBy M.at lane.new v (gives lane.old.locks.items)) }
{
    check_end(lane)?;
    let error = lane.error;
    if lane.level == 1 {
        close(lane);
    } else {
        lane.level -= 1;
        lane.stage = outer_stage(error);
    }
    Ok(error)
}
