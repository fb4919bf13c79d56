//! A transaction that may make and free objects, begun.

ghost use Rattle.std.specs.Prelude.{◌≡◌, Any, Err, IfErr, OnOk, false, length, true};
ghost use Rattle.solo_lock.specs.Lacking.{LacksObject};
ghost use Rattle.solo_lock.specs.Resting.{IsAtRest, IsLaneAtRest};
ghost use Rattle.pm_objects.specs.declared.refusal.Refusal.TheVariants as refusal;
ghost use Rattle.solo_tx.specs.Begins.{FailsToBegin, HasFoundNone, IsBeginCause, LeavesLane};
ghost use Rattle.solo_view.specs.Founds.{IsAlone};
ghost use Rattle.solo_view.specs.View.{View};
ghost use Rattle.solo_world.specs.declared.lane.Stage.TheVariants as stage;
ghost use Rattle.solo_transaction.specs.Beginning.{HasBegunWith};

use pm_objects::{Refusal, Want};
use solo_made::CallBlocks;
use solo_world::{Lane, LawfulMem};

/// Begins a transaction where none is open, which made and freed nothing so far, with these locks, each tried once: pmemobj_tx_begin(3). The first
/// reason that applies is the answer. `Stopped` where the lane had stopped, `Spent` where its generation or the numbers are used up, and `Busy`
/// where a lock is another lane's: then the lane is at rest as before, with no lock. `LocksFull` where more than 64 objects are wanted, and
/// `NoObject` where a want is of no object: then what was undrained is persistent, the call is over, and its level 1 is left aborted, to be ended.
/// `Stopped` also where the lane comes to its stop before such a refusal is told. What is listed stays where none is begun.
pub fn begin<M: LawfulMem>(
    lane: &mut Lane<M>,
    blocks: &mut CallBlocks,
    wants: &[Want],
) -> Result<(), Refusal>
    requires rests { lane.old.stopped ≡ false → IsLaneAtRest M.at lane.old }
    ensures stopped { lane.old.stopped ≡ true → (result ≡ Err refusal.Stopped) × (lane.new ≡ lane.old) }
    ensures begun { OnOk result ((v : View) → IsAtRest M.at lane.old v → IsAlone v → HasBegunWith M.at lane.new blocks.new v wants.now) }
    ensures opened { OnOk result (lane.new ≡ record lane.old { memory = lane.new.memory; locks = lane.new.locks; level = 1; stage = stage.Work }) }
    ensures pages { OnOk result (length blocks.new.dropped ≡ length blocks.old.dropped) }
    ensures fails { IfErr result (λ r. (v : View) → IsAtRest M.at lane.old v → FailsToBegin M.at lane.new v wants.now r) }
    ensures lacks { result ≡ Err refusal.NoObject → (v : View) → IsAtRest M.at lane.old v → HasFoundNone M.at lane.new v wants.now }
    ensures missing { result ≡ Err refusal.NoObject → (v : View) → IsAtRest M.at lane.old v → IsAlone v → Any (LacksObject v) wants.now }
    ensures leaves { IfErr result (λ r. LeavesLane r lane.old lane.new) }
    ensures unlisted { IfErr result (λ r. blocks.new ≡ blocks.old) }
    ensures causes { IfErr result (IsBeginCause lane.old.stopped) }
{
    let begun = solo_tx::begin(lane, wants);
    if begun.is_ok() {
        blocks.clear();
    }
    begun
}
