ghost use Rattle.std.specs.Prelude.{◌≡◌, ◌≢◌, ◌⊎◌, ℕ, length, [], None, Some, true, Err, IfErr, OnErr, OnOk};
ghost use Rattle.solo_crash.specs.CallBlocks.{IsOldIn};
ghost use Rattle.solo_crash.specs.Operations.{IsReason};
ghost use Rattle.pm_objects.specs.declared.calls.Operation.TheVariants.{Write};
ghost use Rattle.pm_objects.specs.declared.history.TxErr.TheVariants as error;
ghost use Rattle.pm_objects.specs.declared.refusal.Refusal.{Refusal};
ghost use Rattle.pm_objects.specs.declared.refusal.Refusal.TheVariants as refusal;
ghost use Rattle.solo_view.specs.View.{View};
ghost use Rattle.solo_world.specs.Opening.{Opening};
ghost use Rattle.solo_world.specs.Sequences.{Runs};
ghost use Rattle.solo_world.specs.declared.lane.Stage.TheVariants as stage;
ghost use Rattle.solo_tx.specs.AtWork.{IsAtWork};
ghost use Rattle.solo_tx.specs.Calls.{HasLooked, IsGivenUpFor, IsStoppedAt};
ghost use Rattle.solo_tx.specs.Ending.{IsLaneAtWork, MayGiveUp};
ghost use Rattle.solo_tx.specs.Learning.{HasChecked};
ghost use Rattle.solo_tx.specs.Ranges.{CanWrite, HasWrittenRange, MayWriteRange, StopsUndrawn, writes_range};
ghost use Rattle.solo_tx.specs.Stages.{work_refusal};

use crate::checking::check_write;
use crate::refusing::refuse_write;
use crate::stages::check_work;
use crate::words::write_words;
use pm_objects::{Oid, Refusal};
use solo_memory::Stopped;
use solo_world::{Lane, LawfulMem};

/// Writes bytes into a recorded range of an object that the lane holds, and tells so. Makes exactly the memory calls of `writes_range`, or the
/// first of them up to the lane's stop.
pub fn do_write<M: LawfulMem>(
    lane: &mut Lane<M>,
    id: Oid,
    off: u64,
    bytes: &[u8],
) -> Result<(), Stopped>
    requires may { MayWriteRange M.at lane.old id off (length bytes.now) }
    ensures ran { Runs (M.at lane.old.memory) (M.at lane.new.memory) (writes_range id off bytes.now) result }
    ensures done { OnOk result ((o : Opening) (v : View) → IsAtWork o M.at lane.old v → IsOldIn v id.off → CanWrite v id off (length bytes.now) → HasWrittenRange o M.at lane.new v id off bytes.now) }
    ensures stops { OnErr result ((o : Opening) (v : View) → IsAtWork o M.at lane.old v → CanWrite v id off (length bytes.now) → StopsUndrawn (M.at lane.new.memory) v (writes_range id off bytes.now)) }
    ensures else_same { lane.new ≡ record lane.old { memory = lane.new.memory } }
{
    write_words(&mut lane.memory, id.off + off, bytes)?;
    lane.memory.tell_write(id, off, bytes, None);
    Ok(())
}

/// Checks the range, and writes it.
fn try_write<M: LawfulMem>(
    lane: &mut Lane<M>,
    id: Oid,
    off: u64,
    bytes: &[u8],
) -> Result<(), Refusal>
    requires at_work { IsLaneAtWork M.at lane.old }
    ensures done { OnOk result ((o : Opening) (v : View) → IsAtWork o M.at lane.old v → IsOldIn v id.off → HasLooked v (λ w. CanWrite w id off (length bytes.now) × HasWrittenRange o M.at lane.new w id off bytes.now)) }
    ensures refused { IfErr result (λ r. r ≢ refusal.Stopped → (o : Opening) (v : View) → IsAtWork o M.at lane.old v
        → HasChecked o M.at lane.new v (λ w. IsReason w (Write id off bytes.now) (record { id = id; off = off; len = length bytes.now }) r)) }
    ensures stops { result ≡ Err refusal.Stopped → (o : Opening) (v : View) → IsAtWork o M.at lane.old v → HasLooked v (λ w. CanWrite w id off (length bytes.now) × StopsUndrawn (M.at lane.new.memory) w (writes_range id off bytes.now)) }
    ensures causes { IfErr result (λ r. (r ≡ refusal.NotLocked) ⊎ (r ≡ refusal.OutOfRange) ⊎ (r ≡ refusal.NotAdded) ⊎ (r ≡ refusal.Stopped)) }
    ensures else_same { lane.new ≡ record lane.old { memory = lane.new.memory } }
{
    check_write(lane, id, off, bytes.len() as u64)?;
    match do_write(lane, id, off, bytes) {
        Ok(()) => Ok(()),
        Err(Stopped) => Err(Refusal::Stopped),
    }
}

/// Writes the range in a transaction at work, or gives it up.
fn write_at_work<M: LawfulMem>(
    lane: &mut Lane<M>,
    id: Oid,
    off: u64,
    bytes: &[u8],
) -> Result<(), Refusal>
    requires at_work { IsLaneAtWork M.at lane.old }
    ensures done { OnOk result ((o : Opening) (v : View) → IsAtWork o M.at lane.old v → IsOldIn v id.off → HasLooked v (λ w. CanWrite w id off (length bytes.now) × HasWrittenRange o M.at lane.new w id off bytes.now)) }
    ensures lane { OnOk result (lane.new ≡ record lane.old { memory = lane.new.memory }) }
    ensures given_up { IfErr result (λ r. r ≢ refusal.Stopped → (o : Opening) (v : View) → IsAtWork o M.at lane.old v → IsOldIn v id.off → MayGiveUp v
        → HasLooked v (λ w. IsGivenUpFor M.at lane.new lane.old.records.items (Write id off bytes.now) (record { id = id; off = off; len = length bytes.now }) r w)) }
    ensures none { IfErr result (λ r. r ≢ refusal.Stopped → lane.new.records.items ≡ []) }
    ensures given_up_lane { IfErr result (λ r. r ≢ refusal.Stopped
        → lane.new ≡ record lane.old { memory = lane.new.memory; records = lane.new.records; entries = lane.new.entries; stage = stage.OnAbort; error = error.Refused r; drawn = Some lane.new.last; last = lane.new.last }) }
    ensures stopped { IfErr result (λ r. r ≡ refusal.Stopped → (o : Opening) (v : View) → IsAtWork o M.at lane.old v → IsOldIn v id.off → MayGiveUp v
        → HasLooked v (λ w. IsStoppedAt M.at lane.new lane.old.records.items (Write id off bytes.now) (record { id = id; off = off; len = length bytes.now }) (λ u. CanWrite u id off (length bytes.now)) (writes_range id off bytes.now) w)) }
    ensures stopped_lane { IfErr result (λ r. r ≡ refusal.Stopped
        → lane.new ≡ record lane.old { memory = lane.new.memory; records = lane.new.records; drawn = lane.new.drawn; last = lane.new.last; stopped = true }) }
    ensures causes { IfErr result (λ r. (r ≡ refusal.NotLocked) ⊎ (r ≡ refusal.OutOfRange) ⊎ (r ≡ refusal.NotAdded) ⊎ (r ≡ refusal.Stopped)) }
{
    match try_write(lane, id, off, bytes) {
        Ok(()) => Ok(()),
        Err(why) => Err(refuse_write(lane, id, off, bytes, why)),
    }
}

/// Writes bytes into an object from one of its bytes on, all of whose words were recorded. `NotLocked` where the lane does not hold the object
/// for writing, `OutOfRange` where the bytes pass its end, and `NotAdded` where a word of them was not recorded: each gives the transaction up.
/// `NotWork` and `NoTx` for the transaction's stage, and `Stopped` where the lane had stopped, change nothing; `Stopped` where it comes to its
/// stop leaves the first of the memory calls made.
pub fn write<M: LawfulMem>(
    lane: &mut Lane<M>,
    id: Oid,
    off: u64,
    bytes: &[u8],
) -> Result<(), Refusal>
    requires at_work { work_refusal lane.old ≡ None → IsLaneAtWork M.at lane.old }
    ensures refused { (r : Refusal) → work_refusal lane.old ≡ Some r → (result ≡ Err r) × (lane.new ≡ lane.old) }
    ensures done { OnOk result ((o : Opening) (v : View) → IsAtWork o M.at lane.old v → IsOldIn v id.off → HasLooked v (λ w. CanWrite w id off (length bytes.now) × HasWrittenRange o M.at lane.new w id off bytes.now)) }
    ensures lane { OnOk result (lane.new ≡ record lane.old { memory = lane.new.memory }) }
    ensures given_up { IfErr result (λ r. work_refusal lane.old ≡ None → r ≢ refusal.Stopped → (o : Opening) (v : View) → IsAtWork o M.at lane.old v → IsOldIn v id.off → MayGiveUp v
        → HasLooked v (λ w. IsGivenUpFor M.at lane.new lane.old.records.items (Write id off bytes.now) (record { id = id; off = off; len = length bytes.now }) r w)) }
    ensures none { IfErr result (λ r. work_refusal lane.old ≡ None → r ≢ refusal.Stopped → lane.new.records.items ≡ []) }
    ensures given_up_lane { IfErr result (λ r. work_refusal lane.old ≡ None → r ≢ refusal.Stopped
        → lane.new ≡ record lane.old { memory = lane.new.memory; records = lane.new.records; entries = lane.new.entries; stage = stage.OnAbort; error = error.Refused r; drawn = Some lane.new.last; last = lane.new.last }) }
    ensures stopped { IfErr result (λ r. work_refusal lane.old ≡ None → r ≡ refusal.Stopped → (o : Opening) (v : View) → IsAtWork o M.at lane.old v → IsOldIn v id.off → MayGiveUp v
        → HasLooked v (λ w. IsStoppedAt M.at lane.new lane.old.records.items (Write id off bytes.now) (record { id = id; off = off; len = length bytes.now }) (λ u. CanWrite u id off (length bytes.now)) (writes_range id off bytes.now) w)) }
    ensures stopped_lane { IfErr result (λ r. work_refusal lane.old ≡ None → r ≡ refusal.Stopped
        → lane.new ≡ record lane.old { memory = lane.new.memory; records = lane.new.records; drawn = lane.new.drawn; last = lane.new.last; stopped = true }) }
    ensures causes { IfErr result (λ r. work_refusal lane.old ≡ None → (r ≡ refusal.NotLocked) ⊎ (r ≡ refusal.OutOfRange) ⊎ (r ≡ refusal.NotAdded) ⊎ (r ≡ refusal.Stopped)) }
{
    check_work(lane)?;
    write_at_work(lane, id, off, bytes)?;
    Ok(())
}
