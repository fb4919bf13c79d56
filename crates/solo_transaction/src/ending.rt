//! A transaction that made and freed objects, ended.

ghost use Rattle.std.specs.Prelude.{◌≡◌, ◌-◌, ◌≤◌, [], All, None, Some, Err, IfErr, IfOk, OnOk};
ghost use Rattle.pm_objects.specs.declared.history.TxErr.TheVariants as error;
ghost use Rattle.pm_objects.specs.declared.refusal.Refusal.{Refusal};
ghost use Rattle.solo_reclaim.specs.KeptBlocks.{Keeps};
ghost use Rattle.solo_tx.specs.Stages.{end_refusal, stage_behind};
ghost use Rattle.solo_view.specs.View.{View};
ghost use Rattle.solo_world.specs.Lanes.{IsIdle};
ghost use Rattle.solo_world.specs.declared.lane.Stage.TheVariants as stage;
ghost use Rattle.solo_transaction.specs.Ending.{HasEndedWith, MayEnd};

use pm_image::Block;
use pm_objects::{Refusal, TxErr};
use solo_reclaim::reclaim;
use solo_world::{Lane, LawfulMem};

/// Ends a level of the transaction, and answers why it was aborted, if it was: pmemobj_tx_end(3). At the outermost level the lane gives its locks back,
/// in the order in which it took them, and then each block that it reserved or freed and that no word of the pool says is taken, but for those that it
/// keeps: what it made and did not publish, and what it freed. It keeps what is reserved and pending; else it is as before the transaction then. The end of an inner level leaves the outer one in work, or aborted as
/// it was. `InTx` while the level is in work, `NoTx` where none is open, and `Stopped` where the lane had stopped change nothing. The lane is alone,
/// so far.
pub fn end<M: LawfulMem>(lane: &mut Lane<M>, kept: &[Block]) -> Result<TxErr, Refusal>
    requires may { end_refusal lane.old ≡ None → lane.old.level ≡ 1 → (v : View) × (MayEnd M.at lane.old v × All (Keeps v) kept.now) }
    ensures refused { (r : Refusal) → end_refusal lane.old ≡ Some r → (result ≡ Err r) × (lane.new ≡ lane.old) }
    ensures refuses { IfErr result (λ r. end_refusal lane.old ≡ Some r) }
    ensures error { IfOk result (λ error. error ≡ lane.old.error) }
    ensures inner { OnOk result (2 ≤ lane.old.level → lane.new ≡ record lane.old { level = lane.old.level - 1; stage = stage_behind lane.old.error }) }
    ensures ended { OnOk result ((v : View) → MayEnd M.at lane.old v → All (Keeps v) kept.now → lane.old.level ≡ 1 → HasEndedWith M.at lane.new v lane.old.locks.items kept.now) }
    ensures none { OnOk result (lane.old.level ≡ 1 → lane.new.locks.items ≡ []) }
    ensures lane { OnOk result (lane.old.level ≡ 1
        → lane.new ≡ record lane.old { memory = lane.new.memory; locks = lane.new.locks; level = 0; stage = stage.None; error = error.None; drawn = None }) }
    ensures idle { OnOk result (lane.old.level ≡ 1 → IsIdle lane.new) }
{
    let is_outermost = lane.level == 1;
    let ended = solo_tx::end(lane);
    if is_outermost && ended.is_ok() {
        reclaim(&mut lane.memory, lane.shape, kept);
    }
    ended
}
