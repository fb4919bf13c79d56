//! Ranges of any object.

ghost use Rattle.std.specs.Prelude.{◌≡◌, ◌≢◌, ◌⊎◌, ◌+◌, false, true, length, [], None, Some, Err, IfErr, IfOk, OnErr, OnOk};
ghost use Rattle.solo_crash.specs.CallBlocks.{IsOldIn};
ghost use Rattle.solo_crash.specs.Operations.{HasNewRange, IsMade};
ghost use Rattle.solo_made.specs.Made.{BlockLists};
ghost use Rattle.solo_model.specs.Bytes.{covered_words, new_words};
ghost use Rattle.pm_objects.specs.declared.calls.Operation.TheVariants.{AddRange, Read, Write};
ghost use Rattle.pm_objects.specs.declared.history.TxErr.TheVariants as error;
ghost use Rattle.pm_objects.specs.declared.refusal.Refusal.{Refusal};
ghost use Rattle.pm_objects.specs.declared.refusal.Refusal.TheVariants as refusal;
ghost use Rattle.solo_tx.specs.Calls.{HasLooked};
ghost use Rattle.solo_tx.specs.Ending.{IsStoppedIn};
ghost use Rattle.solo_tx.specs.Ranges.{CanAdd, CanWrite, HasAddedRange, HasReadRange, HasWrittenRange, KnowsRange, adds_range, reads_range, writes_range};
ghost use Rattle.solo_tx.specs.Stages.{work_refusal};
ghost use Rattle.solo_undo.specs.Spans.{words_in};
ghost use Rattle.solo_view.specs.View.{View};
ghost use Rattle.solo_view.specs.Views.{after_all};
ghost use Rattle.solo_world.specs.Opening.{Opening};
ghost use Rattle.solo_world.specs.declared.lane.Stage.TheVariants as stage;
ghost use Rattle.solo_transaction.specs.AnyRanges.{IsRefusedFor, IsStoppedAnywhere, IsStoppedRefusing};
ghost use Rattle.solo_transaction.specs.AtWork.{IsAtWorkWith, IsLaneAtWorkWith};
ghost use Rattle.solo_transaction.specs.NewRanges.{HasAddedNew, HasReadNew, HasWrittenNew, MayUseNew};

use crate::new_ranges::{do_add_new, do_read_new, do_write_new};
use crate::origins::{Origin, origin_of};
use pm_objects::{Oid, Operation, Refusal};
use solo_made::CallBlocks;
use solo_memory::Stopped;
use solo_tx::{check_work, refuse, refuse_write};
use solo_world::{Lane, LawfulMem};

/// Records the range in a transaction at work, or gives it up.
fn add_at_work<M: LawfulMem>(
    lane: &mut Lane<M>,
    blocks: &CallBlocks,
    id: Oid,
    off: u64,
    len: u64,
) -> Result<u64, Refusal>
    requires at_work { IsLaneAtWorkWith M.at lane.old blocks.now }
    ensures either { OnOk result ((o : Opening) (v : View) → IsAtWorkWith o M.at lane.old blocks.now v → IsOldIn v id.off ⊎ IsMade v id) }
    ensures words { IfOk result (λ count. (o : Opening) (v : View) → IsAtWorkWith o M.at lane.old blocks.now v → IsOldIn v id.off → count ≡ length (new_words (words_in lane.old.records.items) (covered_words (id.off + off) len))) }
    ensures no_words { IfOk result (λ count. (o : Opening) (v : View) → IsAtWorkWith o M.at lane.old blocks.now v → IsMade v id → count ≡ 0) }
    ensures found { OnOk result ((o : Opening) (v : View) → IsAtWorkWith o M.at lane.old blocks.now v → IsOldIn v id.off
        → HasLooked v (λ w. CanAdd w id off len × HasAddedRange o M.at lane.new w lane.old.records.items id off len × IsAtWorkWith o M.at lane.new blocks.now (after_all w (adds_range lane.old.records.items id off len w)))) }
    ensures made { OnOk result ((o : Opening) (v : View) → IsAtWorkWith o M.at lane.old blocks.now v → IsMade v id → HasAddedNew o M.at lane.new blocks.now v id off len) }
    ensures lane { OnOk result (lane.new ≡ record lane.old { memory = lane.new.memory; records = lane.new.records }) }
    ensures given_up { IfErr result (λ r. r ≢ refusal.Stopped → (o : Opening) (v : View) → IsAtWorkWith o M.at lane.old blocks.now v
        → HasLooked v (IsRefusedFor M.at lane.new lane.old.records.items (AddRange id off len) (record { id = id; off = off; len = len }) r)) }
    ensures none { IfErr result (λ r. r ≢ refusal.Stopped → lane.new.records.items ≡ []) }
    ensures given_up_lane { IfErr result (λ r. r ≢ refusal.Stopped
        → lane.new ≡ record lane.old { memory = lane.new.memory; records = lane.new.records; entries = lane.new.entries; stage = stage.OnAbort; error = error.Refused r; drawn = Some lane.new.last; last = lane.new.last }) }
    ensures stopped { IfErr result (λ r. r ≡ refusal.Stopped → (o : Opening) (v : View) → IsAtWorkWith o M.at lane.old blocks.now v
        → HasLooked v (IsStoppedAnywhere M.at lane.new lane.old.records.items (AddRange id off len) (record { id = id; off = off; len = len }) (λ u. CanAdd u id off len) (adds_range lane.old.records.items id off len))) }
    ensures stopped_lane { IfErr result (λ r. r ≡ refusal.Stopped
        → lane.new ≡ record lane.old { memory = lane.new.memory; records = lane.new.records; drawn = lane.new.drawn; last = lane.new.last; stopped = true }) }
    ensures causes { IfErr result (λ r. (r ≡ refusal.NotLocked) ⊎ (r ≡ refusal.NoObject) ⊎ (r ≡ refusal.OutOfRange) ⊎ (r ≡ refusal.LogFull) ⊎ (r ≡ refusal.Stopped)) }
{
    match origin_of(blocks, lane.pool, id, off, len) {
        Ok(Origin::Found) => solo_tx::add_range(lane, id, off, len),
        Ok(Origin::Made) => {
            do_add_new(lane, id, off, len);
            Ok(0)
        }
        Err(why) => Err(refuse(lane, &Operation::AddRange { id, off, len }, why)),
    }
}

/// Records so many bytes of an object from one on, so that they may be written: pmemobj_tx_add_range(3). How many words had no record yet; 0 of an
/// object that the transaction made, which needs none: it is given back whole if the transaction is given up. `NotLocked` where the lane does
/// not hold one that it found for writing, or the id is of another pool, `NoObject` where the transaction freed the object, `OutOfRange` where
/// the range passes its end, and `LogFull` where more records are needed than are free of 64: each gives the transaction up. `NotWork` and
/// `NoTx` for the transaction's stage, and `Stopped` where the lane had stopped, change nothing; `Stopped` where it comes to its stop leaves
/// the first of the memory calls made.
pub fn add_range<M: LawfulMem>(
    lane: &mut Lane<M>,
    blocks: &CallBlocks,
    id: Oid,
    off: u64,
    len: u64,
) -> Result<u64, Refusal>
    requires at_work { work_refusal lane.old ≡ None → IsLaneAtWorkWith M.at lane.old blocks.now }
    ensures refused { (r : Refusal) → work_refusal lane.old ≡ Some r → (result ≡ Err r) × (lane.new ≡ lane.old) }
    ensures either { OnOk result ((o : Opening) (v : View) → IsAtWorkWith o M.at lane.old blocks.now v → IsOldIn v id.off ⊎ IsMade v id) }
    ensures words { IfOk result (λ count. (o : Opening) (v : View) → IsAtWorkWith o M.at lane.old blocks.now v → IsOldIn v id.off → count ≡ length (new_words (words_in lane.old.records.items) (covered_words (id.off + off) len))) }
    ensures no_words { IfOk result (λ count. (o : Opening) (v : View) → IsAtWorkWith o M.at lane.old blocks.now v → IsMade v id → count ≡ 0) }
    ensures found { OnOk result ((o : Opening) (v : View) → IsAtWorkWith o M.at lane.old blocks.now v → IsOldIn v id.off
        → HasLooked v (λ w. CanAdd w id off len × HasAddedRange o M.at lane.new w lane.old.records.items id off len × IsAtWorkWith o M.at lane.new blocks.now (after_all w (adds_range lane.old.records.items id off len w)))) }
    ensures made { OnOk result ((o : Opening) (v : View) → IsAtWorkWith o M.at lane.old blocks.now v → IsMade v id → HasAddedNew o M.at lane.new blocks.now v id off len) }
    ensures lane { OnOk result (lane.new ≡ record lane.old { memory = lane.new.memory; records = lane.new.records }) }
    ensures given_up { IfErr result (λ r. work_refusal lane.old ≡ None → r ≢ refusal.Stopped → (o : Opening) (v : View) → IsAtWorkWith o M.at lane.old blocks.now v
        → HasLooked v (IsRefusedFor M.at lane.new lane.old.records.items (AddRange id off len) (record { id = id; off = off; len = len }) r)) }
    ensures none { IfErr result (λ r. work_refusal lane.old ≡ None → r ≢ refusal.Stopped → lane.new.records.items ≡ []) }
    ensures given_up_lane { IfErr result (λ r. work_refusal lane.old ≡ None → r ≢ refusal.Stopped
        → lane.new ≡ record lane.old { memory = lane.new.memory; records = lane.new.records; entries = lane.new.entries; stage = stage.OnAbort; error = error.Refused r; drawn = Some lane.new.last; last = lane.new.last }) }
    ensures stopped { IfErr result (λ r. work_refusal lane.old ≡ None → r ≡ refusal.Stopped → (o : Opening) (v : View) → IsAtWorkWith o M.at lane.old blocks.now v
        → HasLooked v (IsStoppedAnywhere M.at lane.new lane.old.records.items (AddRange id off len) (record { id = id; off = off; len = len }) (λ u. CanAdd u id off len) (adds_range lane.old.records.items id off len))) }
    ensures stopped_lane { IfErr result (λ r. work_refusal lane.old ≡ None → r ≡ refusal.Stopped
        → lane.new ≡ record lane.old { memory = lane.new.memory; records = lane.new.records; drawn = lane.new.drawn; last = lane.new.last; stopped = true }) }
    ensures causes { IfErr result (λ r. work_refusal lane.old ≡ None → (r ≡ refusal.NotLocked) ⊎ (r ≡ refusal.NoObject) ⊎ (r ≡ refusal.OutOfRange) ⊎ (r ≡ refusal.LogFull) ⊎ (r ≡ refusal.Stopped)) }
{
    check_work(lane)?;
    Ok(add_at_work(lane, blocks, id, off, len)?)
}

/// Reads the range in a transaction at work, or gives it up.
fn read_at_work<M: LawfulMem>(
    lane: &mut Lane<M>,
    blocks: &CallBlocks,
    id: Oid,
    off: u64,
    into: &mut [u8],
) -> Result<(), Refusal>
    requires at_work { IsLaneAtWorkWith M.at lane.old blocks.now }
    ensures as_long { length into.new ≡ length into.old }
    ensures unread { OnErr result (into.new ≡ into.old) }
    ensures either { OnOk result ((o : Opening) (v : View) → IsAtWorkWith o M.at lane.old blocks.now v → IsOldIn v id.off ⊎ IsMade v id) }
    ensures found { OnOk result ((o : Opening) (v : View) → IsAtWorkWith o M.at lane.old blocks.now v → IsOldIn v id.off
        → HasLooked v (λ w. KnowsRange w id off (length into.old) false × HasReadRange o M.at lane.new w id off (length into.old) into.new × IsAtWorkWith o M.at lane.new blocks.now (after_all w (reads_range id off (length into.old) into.new w)))) }
    ensures made { OnOk result ((o : Opening) (v : View) → IsAtWorkWith o M.at lane.old blocks.now v → IsMade v id → HasReadNew o M.at lane.new blocks.now v id off (length into.old) into.new) }
    ensures lane { OnOk result (lane.new ≡ record lane.old { memory = lane.new.memory }) }
    ensures given_up { IfErr result (λ r. r ≢ refusal.Stopped → (o : Opening) (v : View) → IsAtWorkWith o M.at lane.old blocks.now v
        → HasLooked v (IsRefusedFor M.at lane.new lane.old.records.items (Read id off (length into.old)) (record { id = id; off = off; len = length into.old }) r)) }
    ensures none { IfErr result (λ r. r ≢ refusal.Stopped → lane.new.records.items ≡ []) }
    ensures given_up_lane { IfErr result (λ r. r ≢ refusal.Stopped
        → lane.new ≡ record lane.old { memory = lane.new.memory; records = lane.new.records; entries = lane.new.entries; stage = stage.OnAbort; error = error.Refused r; drawn = Some lane.new.last; last = lane.new.last }) }
    ensures stopped { IfErr result (λ r. r ≡ refusal.Stopped → (o : Opening) (v : View) → IsAtWorkWith o M.at lane.old blocks.now v
        → HasLooked v (IsStoppedRefusing M.at lane.new lane.old.records.items (Read id off (length into.old)) (record { id = id; off = off; len = length into.old }))) }
    ensures stopped_lane { IfErr result (λ r. r ≡ refusal.Stopped
        → lane.new ≡ record lane.old { memory = lane.new.memory; records = lane.new.records; drawn = lane.new.drawn; last = lane.new.last; stopped = true }) }
    ensures causes { IfErr result (λ r. (r ≡ refusal.NotLocked) ⊎ (r ≡ refusal.NoObject) ⊎ (r ≡ refusal.OutOfRange) ⊎ (r ≡ refusal.Stopped)) }
{
    let len = into.len() as u64;
    match origin_of(blocks, lane.pool, id, off, len) {
        Ok(Origin::Found) => solo_tx::read(lane, id, off, into),
        Ok(Origin::Made) => {
            do_read_new(lane, id, off, into);
            Ok(())
        }
        Err(why) => Err(refuse(lane, &Operation::Read { id, off, len }, why)),
    }
}

/// Reads bytes of an object from one of its bytes on, whether the transaction found or made it. `NotLocked` where the lane holds no lock of one
/// that it found, or the id is of another pool, `NoObject` where the transaction freed the object, and `OutOfRange` where the bytes pass its
/// end: each gives the transaction up, and no byte is read. `NotWork` and `NoTx` for the transaction's stage, and `Stopped` where the lane had
/// stopped, change nothing; `Stopped` where it comes to its stop while it gives the transaction up leaves the first of the memory calls made.
pub fn read<M: LawfulMem>(
    lane: &mut Lane<M>,
    blocks: &CallBlocks,
    id: Oid,
    off: u64,
    into: &mut [u8],
) -> Result<(), Refusal>
    requires at_work { work_refusal lane.old ≡ None → IsLaneAtWorkWith M.at lane.old blocks.now }
    ensures refused { (r : Refusal) → work_refusal lane.old ≡ Some r → (result ≡ Err r) × (lane.new ≡ lane.old) }
    ensures as_long { length into.new ≡ length into.old }
    ensures unread { OnErr result (into.new ≡ into.old) }
    ensures either { OnOk result ((o : Opening) (v : View) → IsAtWorkWith o M.at lane.old blocks.now v → IsOldIn v id.off ⊎ IsMade v id) }
    ensures found { OnOk result ((o : Opening) (v : View) → IsAtWorkWith o M.at lane.old blocks.now v → IsOldIn v id.off
        → HasLooked v (λ w. KnowsRange w id off (length into.old) false × HasReadRange o M.at lane.new w id off (length into.old) into.new × IsAtWorkWith o M.at lane.new blocks.now (after_all w (reads_range id off (length into.old) into.new w)))) }
    ensures made { OnOk result ((o : Opening) (v : View) → IsAtWorkWith o M.at lane.old blocks.now v → IsMade v id → HasReadNew o M.at lane.new blocks.now v id off (length into.old) into.new) }
    ensures lane { OnOk result (lane.new ≡ record lane.old { memory = lane.new.memory }) }
    ensures given_up { IfErr result (λ r. work_refusal lane.old ≡ None → r ≢ refusal.Stopped → (o : Opening) (v : View) → IsAtWorkWith o M.at lane.old blocks.now v
        → HasLooked v (IsRefusedFor M.at lane.new lane.old.records.items (Read id off (length into.old)) (record { id = id; off = off; len = length into.old }) r)) }
    ensures none { IfErr result (λ r. work_refusal lane.old ≡ None → r ≢ refusal.Stopped → lane.new.records.items ≡ []) }
    ensures given_up_lane { IfErr result (λ r. work_refusal lane.old ≡ None → r ≢ refusal.Stopped
        → lane.new ≡ record lane.old { memory = lane.new.memory; records = lane.new.records; entries = lane.new.entries; stage = stage.OnAbort; error = error.Refused r; drawn = Some lane.new.last; last = lane.new.last }) }
    ensures stopped { IfErr result (λ r. work_refusal lane.old ≡ None → r ≡ refusal.Stopped → (o : Opening) (v : View) → IsAtWorkWith o M.at lane.old blocks.now v
        → HasLooked v (IsStoppedRefusing M.at lane.new lane.old.records.items (Read id off (length into.old)) (record { id = id; off = off; len = length into.old }))) }
    ensures stopped_lane { IfErr result (λ r. work_refusal lane.old ≡ None → r ≡ refusal.Stopped
        → lane.new ≡ record lane.old { memory = lane.new.memory; records = lane.new.records; drawn = lane.new.drawn; last = lane.new.last; stopped = true }) }
    ensures causes { IfErr result (λ r. work_refusal lane.old ≡ None → (r ≡ refusal.NotLocked) ⊎ (r ≡ refusal.NoObject) ⊎ (r ≡ refusal.OutOfRange) ⊎ (r ≡ refusal.Stopped)) }
{
    check_work(lane)?;
    read_at_work(lane, blocks, id, off, into)?;
    Ok(())
}

/// Writes into an object that the transaction made, or says that the lane came to its stop.
fn write_new<M: LawfulMem>(
    lane: &mut Lane<M>,
    id: Oid,
    off: u64,
    bytes: &[u8],
) -> Result<(), Refusal>
    requires may { MayUseNew M.at lane.old id off (length bytes.now) }
    ensures done { OnOk result ((o : Opening) (blocks : BlockLists) (v : View) → IsAtWorkWith o M.at lane.old blocks v → HasNewRange v id off (length bytes.now) → HasWrittenNew o M.at lane.new blocks v id off bytes.now) }
    ensures lane { OnOk result (lane.new ≡ record lane.old { memory = lane.new.memory }) }
    ensures stops { OnErr result ((o : Opening) (blocks : BlockLists) (v : View) → IsAtWorkWith o M.at lane.old blocks v → HasNewRange v id off (length bytes.now) → IsStoppedIn M.at lane.new v (writes_range id off bytes.now) (Write id off bytes.now) None) }
    ensures stopped { IfErr result (λ r. r ≡ refusal.Stopped) }
    ensures stopped_lane { OnErr result (lane.new ≡ record lane.old { memory = lane.new.memory; stopped = true }) }
{
    match do_write_new(lane, id, off, bytes) {
        Ok(()) => Ok(()),
        Err(Stopped) => {
            lane.stopped = true;
            Err(Refusal::Stopped)
        }
    }
}

/// Writes the range in a transaction at work, or gives it up.
fn write_at_work<M: LawfulMem>(
    lane: &mut Lane<M>,
    blocks: &CallBlocks,
    id: Oid,
    off: u64,
    bytes: &[u8],
) -> Result<(), Refusal>
    requires at_work { IsLaneAtWorkWith M.at lane.old blocks.now }
    ensures either { OnOk result ((o : Opening) (v : View) → IsAtWorkWith o M.at lane.old blocks.now v → IsOldIn v id.off ⊎ IsMade v id) }
    ensures found { OnOk result ((o : Opening) (v : View) → IsAtWorkWith o M.at lane.old blocks.now v → IsOldIn v id.off
        → HasLooked v (λ w. CanWrite w id off (length bytes.now) × HasWrittenRange o M.at lane.new w id off bytes.now × IsAtWorkWith o M.at lane.new blocks.now (after_all w (writes_range id off bytes.now w)))) }
    ensures made { OnOk result ((o : Opening) (v : View) → IsAtWorkWith o M.at lane.old blocks.now v → IsMade v id → HasWrittenNew o M.at lane.new blocks.now v id off bytes.now) }
    ensures lane { OnOk result (lane.new ≡ record lane.old { memory = lane.new.memory }) }
    ensures given_up { IfErr result (λ r. r ≢ refusal.Stopped → (o : Opening) (v : View) → IsAtWorkWith o M.at lane.old blocks.now v
        → HasLooked v (IsRefusedFor M.at lane.new lane.old.records.items (Write id off bytes.now) (record { id = id; off = off; len = length bytes.now }) r)) }
    ensures none { IfErr result (λ r. r ≢ refusal.Stopped → lane.new.records.items ≡ []) }
    ensures given_up_lane { IfErr result (λ r. r ≢ refusal.Stopped
        → lane.new ≡ record lane.old { memory = lane.new.memory; records = lane.new.records; entries = lane.new.entries; stage = stage.OnAbort; error = error.Refused r; drawn = Some lane.new.last; last = lane.new.last }) }
    ensures stopped { IfErr result (λ r. r ≡ refusal.Stopped → (o : Opening) (v : View) → IsAtWorkWith o M.at lane.old blocks.now v
        → HasLooked v (IsStoppedAnywhere M.at lane.new lane.old.records.items (Write id off bytes.now) (record { id = id; off = off; len = length bytes.now }) (λ u. CanWrite u id off (length bytes.now) ⊎ HasNewRange u id off (length bytes.now)) (writes_range id off bytes.now))) }
    ensures stopped_lane { IfErr result (λ r. r ≡ refusal.Stopped
        → lane.new ≡ record lane.old { memory = lane.new.memory; records = lane.new.records; drawn = lane.new.drawn; last = lane.new.last; stopped = true }) }
    ensures causes { IfErr result (λ r. (r ≡ refusal.NotLocked) ⊎ (r ≡ refusal.NoObject) ⊎ (r ≡ refusal.OutOfRange) ⊎ (r ≡ refusal.NotAdded) ⊎ (r ≡ refusal.Stopped)) }
{
    match origin_of(blocks, lane.pool, id, off, bytes.len() as u64) {
        Ok(Origin::Found) => solo_tx::write(lane, id, off, bytes),
        Ok(Origin::Made) => write_new(lane, id, off, bytes),
        Err(why) => Err(refuse_write(lane, id, off, bytes, why)),
    }
}

/// Writes bytes into an object from one of its bytes on: into one that the transaction made as they are, into one that it found where all of
/// their words were recorded. `NotLocked` where the lane does not hold one that it found for writing, or the id is of another pool, `NoObject`
/// where the transaction freed the object, `OutOfRange` where the bytes pass its end, and `NotAdded` where a word of one that it found was not
/// recorded: each gives the transaction up. `NotWork` and `NoTx` for the transaction's stage, and `Stopped` where the lane had stopped, change
/// nothing; `Stopped` where it comes to its stop leaves the first of the memory calls made.
pub fn write<M: LawfulMem>(
    lane: &mut Lane<M>,
    blocks: &CallBlocks,
    id: Oid,
    off: u64,
    bytes: &[u8],
) -> Result<(), Refusal>
    requires at_work { work_refusal lane.old ≡ None → IsLaneAtWorkWith M.at lane.old blocks.now }
    ensures refused { (r : Refusal) → work_refusal lane.old ≡ Some r → (result ≡ Err r) × (lane.new ≡ lane.old) }
    ensures either { OnOk result ((o : Opening) (v : View) → IsAtWorkWith o M.at lane.old blocks.now v → IsOldIn v id.off ⊎ IsMade v id) }
    ensures found { OnOk result ((o : Opening) (v : View) → IsAtWorkWith o M.at lane.old blocks.now v → IsOldIn v id.off
        → HasLooked v (λ w. CanWrite w id off (length bytes.now) × HasWrittenRange o M.at lane.new w id off bytes.now × IsAtWorkWith o M.at lane.new blocks.now (after_all w (writes_range id off bytes.now w)))) }
    ensures made { OnOk result ((o : Opening) (v : View) → IsAtWorkWith o M.at lane.old blocks.now v → IsMade v id → HasWrittenNew o M.at lane.new blocks.now v id off bytes.now) }
    ensures lane { OnOk result (lane.new ≡ record lane.old { memory = lane.new.memory }) }
    ensures given_up { IfErr result (λ r. work_refusal lane.old ≡ None → r ≢ refusal.Stopped → (o : Opening) (v : View) → IsAtWorkWith o M.at lane.old blocks.now v
        → HasLooked v (IsRefusedFor M.at lane.new lane.old.records.items (Write id off bytes.now) (record { id = id; off = off; len = length bytes.now }) r)) }
    ensures none { IfErr result (λ r. work_refusal lane.old ≡ None → r ≢ refusal.Stopped → lane.new.records.items ≡ []) }
    ensures given_up_lane { IfErr result (λ r. work_refusal lane.old ≡ None → r ≢ refusal.Stopped
        → lane.new ≡ record lane.old { memory = lane.new.memory; records = lane.new.records; entries = lane.new.entries; stage = stage.OnAbort; error = error.Refused r; drawn = Some lane.new.last; last = lane.new.last }) }
    ensures stopped { IfErr result (λ r. work_refusal lane.old ≡ None → r ≡ refusal.Stopped → (o : Opening) (v : View) → IsAtWorkWith o M.at lane.old blocks.now v
        → HasLooked v (IsStoppedAnywhere M.at lane.new lane.old.records.items (Write id off bytes.now) (record { id = id; off = off; len = length bytes.now }) (λ u. CanWrite u id off (length bytes.now) ⊎ HasNewRange u id off (length bytes.now)) (writes_range id off bytes.now))) }
    ensures stopped_lane { IfErr result (λ r. work_refusal lane.old ≡ None → r ≡ refusal.Stopped
        → lane.new ≡ record lane.old { memory = lane.new.memory; records = lane.new.records; drawn = lane.new.drawn; last = lane.new.last; stopped = true }) }
    ensures causes { IfErr result (λ r. work_refusal lane.old ≡ None → (r ≡ refusal.NotLocked) ⊎ (r ≡ refusal.NoObject) ⊎ (r ≡ refusal.OutOfRange) ⊎ (r ≡ refusal.NotAdded) ⊎ (r ≡ refusal.Stopped)) }
{
    check_work(lane)?;
    write_at_work(lane, blocks, id, off, bytes)?;
    Ok(())
}
