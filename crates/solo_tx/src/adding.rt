ghost use Rattle.std.specs.Prelude.{◌≡◌, ◌≢◌, ◌⊎◌, ◌+◌, ◌≤◌, length, [], Err, None, Some, true, IfOk, IfErr, OnOk};
ghost use Rattle.solo_crash.specs.CallBlocks.{IsOldIn};
ghost use Rattle.solo_crash.specs.Operations.{IsReason};
ghost use Rattle.solo_model.specs.Bytes.{covered_words, new_words};
ghost use Rattle.pm_objects.specs.declared.calls.Operation.TheVariants.{AddRange};
ghost use Rattle.pm_objects.specs.declared.refusal.Refusal.TheVariants as refusal;
ghost use Rattle.solo_tx.specs.Stages.{work_refusal};
ghost use Rattle.pm_objects.specs.declared.history.TxErr.TheVariants as error;
ghost use Rattle.pm_objects.specs.declared.refusal.Refusal.{Refusal};
ghost use Rattle.solo_world.specs.declared.lane.Stage.TheVariants as stage;
ghost use Rattle.solo_undo.specs.Spans.{words_in};
ghost use Rattle.solo_memory.specs.Runs.{Made};
ghost use Rattle.solo_view.specs.Steps.Step.{Tell};
ghost use Rattle.solo_view.specs.View.{View};
ghost use Rattle.solo_world.specs.Opening.{Opening};
ghost use Rattle.solo_world.specs.Sequences.{IsMade, IsStopped};
ghost use Rattle.solo_tx.specs.AtWork.{IsAtWork};
ghost use Rattle.solo_tx.specs.Calls.{HasLooked, IsGivenUpFor, IsStoppedAt};
ghost use Rattle.solo_tx.specs.Ending.{IsLaneAtWork, MayGiveUp};
ghost use Rattle.solo_tx.specs.Learning.{HasChecked};
ghost use Rattle.solo_tx.specs.Ranges.{CanAdd, HasAddedRange, MayAddRange, StopsUndrawn, adds_range};

use crate::checking::check_words;
use crate::refusing::refuse;
use crate::stages::check_work;
use pm_objects::{Oid, Operation, Refusal};
use solo_undo::snapshot;
use solo_world::{Lane, LawfulMem};

/// Tells that a range was recorded.
fn tell_added<M: LawfulMem>(mem: &mut M, id: Oid, off: u64, len: u64)
    requires { M.can mem.old (Tell (AddRange id off len) None) }
    ensures { Made (M.at mem.old) (M.at mem.new) (Tell (AddRange id off len) None) }
{
    mem.tell(&Operation::AddRange { id, off, len }, None);
}

/// Records a range that the lane holds for writing and knows, and tells so: how many words had no record yet. Makes exactly the memory calls
/// of `adds_range`. `LogFull` where more records are needed than are free of 64, which changes nothing; `Stopped` where the lane came to its
/// stop, the first of the calls being made.
pub fn do_add<M: LawfulMem>(lane: &mut Lane<M>, id: Oid, off: u64, len: u64) -> Result<u64, Refusal>
    requires may { MayAddRange M.at lane.old id off len }
    ensures words { IfOk result (λ count. count ≡ length (new_words (words_in lane.old.records.items) (covered_words (id.off + off) len))) }
    ensures made { OnOk result (IsMade (M.at lane.old.memory) (M.at lane.new.memory) (adds_range lane.old.records.items id off len)) }
    ensures done { OnOk result ((o : Opening) (v : View) → IsAtWork o M.at lane.old v → IsOldIn v id.off → CanAdd v id off len → HasAddedRange o M.at lane.new v lane.old.records.items id off len) }
    ensures full { result ≡ Err refusal.LogFull → (o : Opening) (v : View) → IsAtWork o M.at lane.old v → CanAdd v id off len
        → IsReason v (AddRange id off len) (record { id = id; off = off; len = len }) refusal.LogFull }
    ensures unchanged { result ≡ Err refusal.LogFull → lane.new ≡ lane.old }
    ensures stopped { result ≡ Err refusal.Stopped → IsStopped (M.at lane.old.memory) (M.at lane.new.memory) (adds_range lane.old.records.items id off len) }
    ensures stops { result ≡ Err refusal.Stopped → (o : Opening) (v : View) → IsAtWork o M.at lane.old v → CanAdd v id off len → StopsUndrawn (M.at lane.new.memory) v (adds_range lane.old.records.items id off len) }
    ensures causes { IfErr result (λ r. (r ≡ refusal.LogFull) ⊎ (r ≡ refusal.Stopped)) }
    ensures else_same { lane.new ≡ record lane.old { memory = lane.new.memory; records = lane.new.records } }
{
    let count = snapshot(lane, id.off + off, len)?;
    tell_added(&mut lane.memory, id, off, len);
    Ok(count)
}

/// Checks the range, and records it.
fn try_add<M: LawfulMem>(lane: &mut Lane<M>, id: Oid, off: u64, len: u64) -> Result<u64, Refusal>
    requires at_work { IsLaneAtWork M.at lane.old }
    ensures words { IfOk result (λ count. count ≡ length (new_words (words_in lane.old.records.items) (covered_words (id.off + off) len))) }
    ensures done { OnOk result ((o : Opening) (v : View) → IsAtWork o M.at lane.old v → IsOldIn v id.off → HasLooked v (λ w. CanAdd w id off len × HasAddedRange o M.at lane.new w lane.old.records.items id off len)) }
    ensures refused { IfErr result (λ r. r ≢ refusal.Stopped → (o : Opening) (v : View) → IsAtWork o M.at lane.old v
        → HasChecked o M.at lane.new v (λ w. IsReason w (AddRange id off len) (record { id = id; off = off; len = len }) r)) }
    ensures kept { IfErr result (λ r. r ≢ refusal.Stopped → lane.new.records ≡ lane.old.records) }
    ensures stops { result ≡ Err refusal.Stopped → (o : Opening) (v : View) → IsAtWork o M.at lane.old v
        → HasLooked v (λ w. CanAdd w id off len × StopsUndrawn (M.at lane.new.memory) w (adds_range lane.old.records.items id off len)) }
    ensures causes { IfErr result (λ r. (r ≡ refusal.NotLocked) ⊎ (r ≡ refusal.OutOfRange) ⊎ (r ≡ refusal.LogFull) ⊎ (r ≡ refusal.Stopped)) }
    ensures else_same { lane.new ≡ record lane.old { memory = lane.new.memory; records = lane.new.records } }
{
    check_words(lane, id, off, len, true)?;
    Ok(do_add(lane, id, off, len)?)
}

/// Records the range in a transaction at work, or gives it up.
fn add_at_work<M: LawfulMem>(
    lane: &mut Lane<M>,
    id: Oid,
    off: u64,
    len: u64,
) -> Result<u64, Refusal>
    requires at_work { IsLaneAtWork M.at lane.old }
    ensures words { IfOk result (λ count. count ≡ length (new_words (words_in lane.old.records.items) (covered_words (id.off + off) len))) }
    ensures done { OnOk result ((o : Opening) (v : View) → IsAtWork o M.at lane.old v → IsOldIn v id.off → HasLooked v (λ w. CanAdd w id off len × HasAddedRange o M.at lane.new w lane.old.records.items id off len)) }
    ensures lane { OnOk result (lane.new ≡ record lane.old { memory = lane.new.memory; records = lane.new.records }) }
    ensures given_up { IfErr result (λ r. r ≢ refusal.Stopped → (o : Opening) (v : View) → IsAtWork o M.at lane.old v → IsOldIn v id.off → MayGiveUp v
        → HasLooked v (λ w. IsGivenUpFor M.at lane.new lane.old.records.items (AddRange id off len) (record { id = id; off = off; len = len }) r w)) }
    ensures none { IfErr result (λ r. r ≢ refusal.Stopped → lane.new.records.items ≡ []) }
    ensures given_up_lane { IfErr result (λ r. r ≢ refusal.Stopped
        → lane.new ≡ record lane.old { memory = lane.new.memory; records = lane.new.records; entries = lane.new.entries; stage = stage.OnAbort; error = error.Refused r; drawn = Some lane.new.last; last = lane.new.last }) }
    ensures stopped { IfErr result (λ r. r ≡ refusal.Stopped → (o : Opening) (v : View) → IsAtWork o M.at lane.old v → IsOldIn v id.off → MayGiveUp v
        → HasLooked v (λ w. IsStoppedAt M.at lane.new lane.old.records.items (AddRange id off len) (record { id = id; off = off; len = len }) (λ u. CanAdd u id off len) (adds_range lane.old.records.items id off len) w)) }
    ensures stopped_lane { IfErr result (λ r. r ≡ refusal.Stopped
        → lane.new ≡ record lane.old { memory = lane.new.memory; records = lane.new.records; drawn = lane.new.drawn; last = lane.new.last; stopped = true }) }
    ensures causes { IfErr result (λ r. (r ≡ refusal.NotLocked) ⊎ (r ≡ refusal.OutOfRange) ⊎ (r ≡ refusal.LogFull) ⊎ (r ≡ refusal.Stopped)) }
{
    match try_add(lane, id, off, len) {
        Ok(count) => Ok(count),
        Err(why) => Err(refuse(lane, &Operation::AddRange { id, off, len }, why)),
    }
}

/// Records so many bytes of an object from one on, so that they may be written and are put back if the transaction is given up:
/// pmemobj_tx_add_range(3). How many words had no record yet. `NotLocked` where the lane does not hold the object for writing, `OutOfRange`
/// where the range passes its end, and `LogFull` where more records are needed than are free of 64: each gives the transaction up. `NotWork`
/// and `NoTx` for the transaction's stage, and `Stopped` where the lane had stopped, change nothing; `Stopped` where it comes to its stop
/// leaves the first of the memory calls made.
pub fn add_range<M: LawfulMem>(
    lane: &mut Lane<M>,
    id: Oid,
    off: u64,
    len: u64,
) -> Result<u64, Refusal>
    requires at_work { work_refusal lane.old ≡ None → IsLaneAtWork M.at lane.old }
    ensures refused { (r : Refusal) → work_refusal lane.old ≡ Some r → (result ≡ Err r) × (lane.new ≡ lane.old) }
    ensures words { IfOk result (λ count. count ≡ length (new_words (words_in lane.old.records.items) (covered_words (id.off + off) len))) }
    ensures done { OnOk result ((o : Opening) (v : View) → IsAtWork o M.at lane.old v → IsOldIn v id.off → HasLooked v (λ w. CanAdd w id off len × HasAddedRange o M.at lane.new w lane.old.records.items id off len)) }
    ensures lane { OnOk result (lane.new ≡ record lane.old { memory = lane.new.memory; records = lane.new.records }) }
    ensures given_up { IfErr result (λ r. work_refusal lane.old ≡ None → r ≢ refusal.Stopped → (o : Opening) (v : View) → IsAtWork o M.at lane.old v → IsOldIn v id.off → MayGiveUp v
        → HasLooked v (λ w. IsGivenUpFor M.at lane.new lane.old.records.items (AddRange id off len) (record { id = id; off = off; len = len }) r w)) }
    ensures none { IfErr result (λ r. work_refusal lane.old ≡ None → r ≢ refusal.Stopped → lane.new.records.items ≡ []) }
    ensures given_up_lane { IfErr result (λ r. work_refusal lane.old ≡ None → r ≢ refusal.Stopped
        → lane.new ≡ record lane.old { memory = lane.new.memory; records = lane.new.records; entries = lane.new.entries; stage = stage.OnAbort; error = error.Refused r; drawn = Some lane.new.last; last = lane.new.last }) }
    ensures stopped { IfErr result (λ r. work_refusal lane.old ≡ None → r ≡ refusal.Stopped → (o : Opening) (v : View) → IsAtWork o M.at lane.old v → IsOldIn v id.off → MayGiveUp v
        → HasLooked v (λ w. IsStoppedAt M.at lane.new lane.old.records.items (AddRange id off len) (record { id = id; off = off; len = len }) (λ u. CanAdd u id off len) (adds_range lane.old.records.items id off len) w)) }
    ensures stopped_lane { IfErr result (λ r. work_refusal lane.old ≡ None → r ≡ refusal.Stopped
        → lane.new ≡ record lane.old { memory = lane.new.memory; records = lane.new.records; drawn = lane.new.drawn; last = lane.new.last; stopped = true }) }
    ensures causes { IfErr result (λ r. work_refusal lane.old ≡ None → (r ≡ refusal.NotLocked) ⊎ (r ≡ refusal.OutOfRange) ⊎ (r ≡ refusal.LogFull) ⊎ (r ≡ refusal.Stopped)) }
{
    check_work(lane)?;
    Ok(add_at_work(lane, id, off, len)?)
}
