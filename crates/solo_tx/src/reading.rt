ghost use Rattle.std.specs.Prelude.{◌≡◌, ◌≢◌, ◌⊎◌, false, true, length, [], None, Some, Err, IfErr, OnErr, OnOk};
ghost use Rattle.solo_crash.specs.CallBlocks.{IsOldIn};
ghost use Rattle.solo_crash.specs.Operations.{IsReason};
ghost use Rattle.pm_objects.specs.declared.calls.Operation.TheVariants.{Read};
ghost use Rattle.pm_objects.specs.declared.history.TxErr.TheVariants as error;
ghost use Rattle.pm_objects.specs.declared.refusal.Refusal.{Refusal};
ghost use Rattle.pm_objects.specs.declared.refusal.Refusal.TheVariants as refusal;
ghost use Rattle.solo_view.specs.View.{View};
ghost use Rattle.solo_world.specs.Opening.{Opening};
ghost use Rattle.solo_world.specs.Sequences.{IsMade};
ghost use Rattle.solo_world.specs.declared.lane.Stage.TheVariants as stage;
ghost use Rattle.solo_tx.specs.AtWork.{IsAtWork};
ghost use Rattle.solo_tx.specs.Calls.{HasLooked, IsGivenUpFor, IsStoppedFor};
ghost use Rattle.solo_tx.specs.Ending.{IsLaneAtWork, MayGiveUp};
ghost use Rattle.solo_tx.specs.Learning.{HasChecked};
ghost use Rattle.solo_tx.specs.Ranges.{HasReadRange, KnowsRange, MayReadRange, reads_range};
ghost use Rattle.solo_tx.specs.Stages.{work_refusal};

use crate::checking::check_words;
use crate::refusing::refuse;
use crate::stages::check_work;
use crate::words::read_words;
use pm_objects::{Oid, Operation, Refusal};
use solo_world::{Lane, LawfulMem};

/// Reads bytes of a range of an object that the lane holds and knows, and tells so. Makes exactly the memory calls of `reads_range`.
pub fn do_read<M: LawfulMem>(lane: &mut Lane<M>, id: Oid, off: u64, into: &mut [u8])
    requires may { MayReadRange M.at lane.old id off (length into.old) }
    ensures as_long { length into.new ≡ length into.old }
    ensures made { IsMade (M.at lane.old.memory) (M.at lane.new.memory) (reads_range id off (length into.old) into.new) }
    ensures done { (o : Opening) (v : View) → IsAtWork o M.at lane.old v → IsOldIn v id.off → KnowsRange v id off (length into.old) false → HasReadRange o M.at lane.new v id off (length into.old) into.new }
    ensures else_same { lane.new ≡ record lane.old { memory = lane.new.memory } }
{
    read_words(&mut lane.memory, id.off + off, into);
    lane.memory.tell_read(id, off, into);
}

/// Checks the range, and reads it.
fn try_read<M: LawfulMem>(
    lane: &mut Lane<M>,
    id: Oid,
    off: u64,
    into: &mut [u8],
) -> Result<(), Refusal>
    requires at_work { IsLaneAtWork M.at lane.old }
    ensures as_long { length into.new ≡ length into.old }
    ensures done { OnOk result ((o : Opening) (v : View) → IsAtWork o M.at lane.old v → IsOldIn v id.off
        → HasLooked v (λ w. KnowsRange w id off (length into.old) false × HasReadRange o M.at lane.new w id off (length into.old) into.new)) }
    ensures refused { IfErr result (λ r. (o : Opening) (v : View) → IsAtWork o M.at lane.old v
        → HasChecked o M.at lane.new v (λ w. IsReason w (Read id off (length into.old)) (record { id = id; off = off; len = length into.old }) r)) }
    ensures unread { OnErr result (into.new ≡ into.old) }
    ensures causes { IfErr result (λ r. (r ≡ refusal.NotLocked) ⊎ (r ≡ refusal.OutOfRange)) }
    ensures else_same { lane.new ≡ record lane.old { memory = lane.new.memory } }
{
    check_words(lane, id, off, into.len() as u64, false)?;
    do_read(lane, id, off, into);
    Ok(())
}

/// Reads the range in a transaction at work, or gives it up.
fn read_at_work<M: LawfulMem>(
    lane: &mut Lane<M>,
    id: Oid,
    off: u64,
    into: &mut [u8],
) -> Result<(), Refusal>
    requires at_work { IsLaneAtWork M.at lane.old }
    ensures as_long { length into.new ≡ length into.old }
    ensures unread { OnErr result (into.new ≡ into.old) }
    ensures done { OnOk result ((o : Opening) (v : View) → IsAtWork o M.at lane.old v → IsOldIn v id.off → HasLooked v (λ w. KnowsRange w id off (length into.old) false × HasReadRange o M.at lane.new w id off (length into.old) into.new)) }
    ensures lane { OnOk result (lane.new ≡ record lane.old { memory = lane.new.memory }) }
    ensures given_up { IfErr result (λ r. r ≢ refusal.Stopped → (o : Opening) (v : View) → IsAtWork o M.at lane.old v → IsOldIn v id.off → MayGiveUp v
        → HasLooked v (λ w. IsGivenUpFor M.at lane.new lane.old.records.items (Read id off (length into.old)) (record { id = id; off = off; len = length into.old }) r w)) }
    ensures none { IfErr result (λ r. r ≢ refusal.Stopped → lane.new.records.items ≡ []) }
    ensures given_up_lane { IfErr result (λ r. r ≢ refusal.Stopped
        → lane.new ≡ record lane.old { memory = lane.new.memory; records = lane.new.records; entries = lane.new.entries; stage = stage.OnAbort; error = error.Refused r; drawn = Some lane.new.last; last = lane.new.last }) }
    ensures stopped { IfErr result (λ r. r ≡ refusal.Stopped → (o : Opening) (v : View) → IsAtWork o M.at lane.old v → IsOldIn v id.off → MayGiveUp v
        → HasLooked v (λ w. IsStoppedFor M.at lane.new lane.old.records.items (Read id off (length into.old)) (record { id = id; off = off; len = length into.old }) w)) }
    ensures stopped_lane { IfErr result (λ r. r ≡ refusal.Stopped
        → lane.new ≡ record lane.old { memory = lane.new.memory; records = lane.new.records; drawn = lane.new.drawn; last = lane.new.last; stopped = true }) }
    ensures causes { IfErr result (λ r. (r ≡ refusal.NotLocked) ⊎ (r ≡ refusal.OutOfRange) ⊎ (r ≡ refusal.Stopped)) }
{
    let len = into.len() as u64;
    match try_read(lane, id, off, into) {
        Ok(()) => Ok(()),
        Err(why) => Err(refuse(lane, &Operation::Read { id, off, len }, why)),
    }
}

/// Reads bytes of an object from one of its bytes on. `NotLocked` where the lane does not hold the object, and `OutOfRange` where the bytes
/// pass its end: each gives the transaction up, and no byte is read. `NotWork` and `NoTx` for the transaction's stage, and `Stopped` where the
/// lane had stopped, change nothing; `Stopped` where it comes to its stop while it gives the transaction up leaves the first of the memory
/// calls made.
pub fn read<M: LawfulMem>(
    lane: &mut Lane<M>,
    id: Oid,
    off: u64,
    into: &mut [u8],
) -> Result<(), Refusal>
    requires at_work { work_refusal lane.old ≡ None → IsLaneAtWork M.at lane.old }
    ensures refused { (r : Refusal) → work_refusal lane.old ≡ Some r → (result ≡ Err r) × (lane.new ≡ lane.old) }
    ensures as_long { length into.new ≡ length into.old }
    ensures unread { OnErr result (into.new ≡ into.old) }
    ensures done { OnOk result ((o : Opening) (v : View) → IsAtWork o M.at lane.old v → IsOldIn v id.off → HasLooked v (λ w. KnowsRange w id off (length into.old) false × HasReadRange o M.at lane.new w id off (length into.old) into.new)) }
    ensures lane { OnOk result (lane.new ≡ record lane.old { memory = lane.new.memory }) }
    ensures given_up { IfErr result (λ r. work_refusal lane.old ≡ None → r ≢ refusal.Stopped → (o : Opening) (v : View) → IsAtWork o M.at lane.old v → IsOldIn v id.off → MayGiveUp v
        → HasLooked v (λ w. IsGivenUpFor M.at lane.new lane.old.records.items (Read id off (length into.old)) (record { id = id; off = off; len = length into.old }) r w)) }
    ensures none { IfErr result (λ r. work_refusal lane.old ≡ None → r ≢ refusal.Stopped → lane.new.records.items ≡ []) }
    ensures given_up_lane { IfErr result (λ r. work_refusal lane.old ≡ None → r ≢ refusal.Stopped
        → lane.new ≡ record lane.old { memory = lane.new.memory; records = lane.new.records; entries = lane.new.entries; stage = stage.OnAbort; error = error.Refused r; drawn = Some lane.new.last; last = lane.new.last }) }
    ensures stopped { IfErr result (λ r. work_refusal lane.old ≡ None → r ≡ refusal.Stopped → (o : Opening) (v : View) → IsAtWork o M.at lane.old v → IsOldIn v id.off → MayGiveUp v
        → HasLooked v (λ w. IsStoppedFor M.at lane.new lane.old.records.items (Read id off (length into.old)) (record { id = id; off = off; len = length into.old }) w)) }
    ensures stopped_lane { IfErr result (λ r. work_refusal lane.old ≡ None → r ≡ refusal.Stopped
        → lane.new ≡ record lane.old { memory = lane.new.memory; records = lane.new.records; drawn = lane.new.drawn; last = lane.new.last; stopped = true }) }
    ensures causes { IfErr result (λ r. work_refusal lane.old ≡ None → (r ≡ refusal.NotLocked) ⊎ (r ≡ refusal.OutOfRange) ⊎ (r ≡ refusal.Stopped)) }
{
    check_work(lane)?;
    read_at_work(lane, id, off, into)?;
    Ok(())
}
