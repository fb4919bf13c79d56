//! Objects made in a transaction.

ghost use Rattle.std.specs.Prelude.{◌≡◌, ◌≢◌, ◌⊎◌, ◌+◌, ◌^◌, ◌<◌, ◌≤◌, ◌++◌, [], ◌∷◌, None, Some, Err, true, length, IfErr, IfOk, OnOk};
ghost use Rattle.solo_crash.specs.CallBlocks.{CallBlocks as Call, with_made};
ghost use Rattle.solo_crash.specs.Operations.{IsAllocReason, entries_so_far};
ghost use Rattle.solo_epoch.specs.Allocating.{object_in_block, with_object_told};
ghost use Rattle.solo_made.specs.Made.{FitsPages, ListsBlocks};
ghost use Rattle.solo_model.specs.Actions.{max_entries};
ghost use Rattle.pm_objects.specs.declared.history.TxErr.TheVariants as error;
ghost use Rattle.pm_objects.specs.declared.ids.Oid.{Oid};
ghost use Rattle.pm_objects.specs.declared.refusal.Refusal.{Refusal};
ghost use Rattle.pm_objects.specs.declared.refusal.Refusal.TheVariants as refusal;
ghost use Rattle.solo_tx.specs.Stages.{work_refusal};
ghost use Rattle.solo_undo.specs.Working.{IsWorking};
ghost use Rattle.solo_view.specs.View.{View};
ghost use Rattle.solo_world.specs.Opening.{Opening};
ghost use Rattle.solo_world.specs.declared.lane.Stage.TheVariants as stage;
ghost use Rattle.solo_transaction.specs.Allocating.{made_in_block, HasAllocated, IsAllocGivenUp, IsAllocStopped, IsLaneToAllocate, IsStoppedMaking, MayAllocate};
ghost use Rattle.solo_transaction.specs.AtWork.{IsAtWorkWith};

use crate::freeing::has_room;
use pm_image::Block;
use pm_layout::{LINE_BYTES, MAX_SIZE};
use pm_objects::{Oid, Operation, Refusal, Value};
use solo_alloc::new_object;
use solo_blocks::NoBlock;
use solo_made::{CallBlocks, Made};
use solo_tx::{check_work, refuse};
use solo_world::{Lane, LawfulMem};

/// Whether the call may have one more object of so many bytes: `BadSize` where it has none or more than `MAX_SIZE`, `ActionsFull` where the log has
/// no room for its entry, and for the one that ends the generation.
fn check_alloc<M: LawfulMem>(lane: &Lane<M>, blocks: &CallBlocks, size: u64) -> Result<(), Refusal>
    ensures some { OnOk result (1 ≤ size) }
    ensures most { OnOk result (size ≤ 262080) }
    ensures room { OnOk result ((o : Opening) (v : View) → IsAtWorkWith o M.at lane.now blocks.now v → entries_so_far v + 2 ≤ max_entries) }
    ensures few { OnOk result (length blocks.now.made < 63) }
    ensures refused { IfErr result (λ r. (o : Opening) (v : View) → IsAtWorkWith o M.at lane.now blocks.now v → IsAllocReason v size r) }
    ensures causes { IfErr result (λ r. (r ≡ refusal.BadSize) ⊎ (r ≡ refusal.ActionsFull)) }
{
    if size == 0 || size > MAX_SIZE {
        return Err(Refusal::BadSize);
    }
    if !has_room(lane, blocks) {
        return Err(Refusal::ActionsFull);
    }
    Ok(())
}

/// Tells the object that was made in the block, and lists it. Its id is the answer.
fn tell_made<M: LawfulMem>(
    lane: &mut Lane<M>,
    blocks: &mut CallBlocks,
    block: Block,
    size: u64,
    kind: u64,
) -> Oid
    requires may { (v : View) × (M.at lane.old.memory v × IsWorking v) }
    requires few { length blocks.old.made < 63 }
    requires fits { FitsPages (length blocks.old.dropped) (made_in_block block size kind) }
    requires inside { block.place + 64 < 2 ^ 64 }
    ensures told { (v : View) → M.at lane.old.memory v → M.at lane.new.memory (with_object_told v (object_in_block block size kind)) }
    ensures id { result ≡ record { pool = lane.old.pool; off = block.place + 64 } }
    ensures of_call { (call : Call) → ListsBlocks blocks.old call → ListsBlocks blocks.new (with_made (object_in_block block size kind) call) }
    ensures listed { blocks.new ≡ record blocks.old { made = blocks.old.made ++ made_in_block block size kind ∷ [] } }
    ensures else_same { lane.new ≡ record lane.old { memory = lane.new.memory } }
{
    let off = block.place + LINE_BYTES;
    let operation = Operation::Alloc { size, kind };
    lane.memory.tell(&operation, Some(&Value::Offset(off)));
    blocks.add_made(Made { off, kind, size });
    let pool = lane.pool;
    Oid { pool, off }
}

/// Says that the lane came to its stop.
pub(crate) fn stop<M>(lane: &mut Lane<M>) -> Refusal
    ensures answer { result ≡ refusal.Stopped }
    ensures lane { lane.new ≡ record lane.old { stopped = true } }
{
    lane.stopped = true;
    Refusal::Stopped
}

/// Makes the object, for which the log has room; or gives the transaction up, where no block is free.
fn make_object<M: LawfulMem>(
    lane: &mut Lane<M>,
    blocks: &mut CallBlocks,
    size: u64,
    kind: u64,
) -> Result<Oid, Refusal>
    requires at_work { IsLaneToAllocate M.at lane.old blocks.old }
    requires some { 1 ≤ size }
    requires most { size ≤ 262080 }
    requires room { (o : Opening) (v : View) → IsAtWorkWith o M.at lane.old blocks.old v → entries_so_far v + 2 ≤ max_entries }
    requires few { length blocks.old.made < 63 }
    ensures done { IfOk result (λ id. (o : Opening) (v : View) → MayAllocate o M.at lane.old blocks.old v → HasAllocated o M.at lane.new blocks.new v size kind id) }
    ensures lane { OnOk result (lane.new ≡ record lane.old { memory = lane.new.memory }) }
    ensures given_up { IfErr result (λ r. r ≢ refusal.Stopped → (o : Opening) (v : View) → MayAllocate o M.at lane.old blocks.old v
        → IsAllocGivenUp M.at lane.new v lane.old.records.items size kind r) }
    ensures none { IfErr result (λ r. r ≢ refusal.Stopped → lane.new.records.items ≡ []) }
    ensures given_up_lane { IfErr result (λ r. r ≢ refusal.Stopped
        → lane.new ≡ record lane.old { memory = lane.new.memory; records = lane.new.records; entries = lane.new.entries; stage = stage.OnAbort; error = error.Refused r; drawn = Some lane.new.last; last = lane.new.last }) }
    ensures stopped { IfErr result (λ r. r ≡ refusal.Stopped → (o : Opening) (v : View) → MayAllocate o M.at lane.old blocks.old v
        → IsStoppedMaking M.at lane.old lane.new v size kind ⊎ IsAllocStopped M.at lane.new v lane.old.records.items size kind) }
    ensures stopped_lane { IfErr result (λ r. r ≡ refusal.Stopped
        → lane.new ≡ record lane.old { memory = lane.new.memory; records = lane.new.records; drawn = lane.new.drawn; last = lane.new.last; stopped = true }) }
    ensures unlisted { IfErr result (λ r. blocks.new ≡ blocks.old) }
    ensures causes { IfErr result (λ r. (r ≡ refusal.NoSpace) ⊎ (r ≡ refusal.Stopped)) }
{
    match new_object(lane, size, kind) {
        Ok(block) => Ok(tell_made(lane, blocks, block, size, kind)),
        Err(NoBlock::Refused(why)) => Err(refuse(lane, &Operation::Alloc { size, kind }, why)),
        Err(NoBlock::Stopped(_)) => Err(stop(lane)),
    }
}

/// Makes the object in a transaction at work, or gives it up.
fn alloc_at_work<M: LawfulMem>(
    lane: &mut Lane<M>,
    blocks: &mut CallBlocks,
    size: u64,
    kind: u64,
) -> Result<Oid, Refusal>
    requires at_work { IsLaneToAllocate M.at lane.old blocks.old }
    ensures done { IfOk result (λ id. (o : Opening) (v : View) → MayAllocate o M.at lane.old blocks.old v → HasAllocated o M.at lane.new blocks.new v size kind id) }
    ensures lane { OnOk result (lane.new ≡ record lane.old { memory = lane.new.memory }) }
    ensures given_up { IfErr result (λ r. r ≢ refusal.Stopped → (o : Opening) (v : View) → MayAllocate o M.at lane.old blocks.old v
        → IsAllocGivenUp M.at lane.new v lane.old.records.items size kind r) }
    ensures none { IfErr result (λ r. r ≢ refusal.Stopped → lane.new.records.items ≡ []) }
    ensures given_up_lane { IfErr result (λ r. r ≢ refusal.Stopped
        → lane.new ≡ record lane.old { memory = lane.new.memory; records = lane.new.records; entries = lane.new.entries; stage = stage.OnAbort; error = error.Refused r; drawn = Some lane.new.last; last = lane.new.last }) }
    ensures stopped { IfErr result (λ r. r ≡ refusal.Stopped → (o : Opening) (v : View) → MayAllocate o M.at lane.old blocks.old v
        → IsStoppedMaking M.at lane.old lane.new v size kind ⊎ IsAllocStopped M.at lane.new v lane.old.records.items size kind) }
    ensures stopped_lane { IfErr result (λ r. r ≡ refusal.Stopped
        → lane.new ≡ record lane.old { memory = lane.new.memory; records = lane.new.records; drawn = lane.new.drawn; last = lane.new.last; stopped = true }) }
    ensures unlisted { IfErr result (λ r. blocks.new ≡ blocks.old) }
    ensures causes { IfErr result (λ r. (r ≡ refusal.BadSize) ⊎ (r ≡ refusal.ActionsFull) ⊎ (r ≡ refusal.NoSpace) ⊎ (r ≡ refusal.Stopped)) }
{
    match check_alloc(lane, blocks, size) {
        Ok(()) => make_object(lane, blocks, size, kind),
        Err(why) => Err(refuse(lane, &Operation::Alloc { size, kind }, why)),
    }
}

/// Makes a new object of so many bytes, 1 to `MAX_SIZE`, all of them 0, and of this type, in the transaction: pmemobj_tx_alloc(3). Its block is the
/// least that is free; it is the transaction's own until the commit, which allocates it. The answer is its id. `BadSize` for another size,
/// `ActionsFull` where the log has no room for its entry, and `NoSpace` where no block is free, nor a chunk of which to make a run: each gives
/// the transaction up. `NotWork` and `NoTx` for the transaction's stage, and `Stopped` where the lane had stopped, change nothing; `Stopped` where
/// it comes to its stop leaves the first of the memory calls made. The lane is alone, so far.
pub fn alloc<M: LawfulMem>(
    lane: &mut Lane<M>,
    blocks: &mut CallBlocks,
    size: u64,
    kind: u64,
) -> Result<Oid, Refusal>
    requires at_work { work_refusal lane.old ≡ None → IsLaneToAllocate M.at lane.old blocks.old }
    ensures refused { (r : Refusal) → work_refusal lane.old ≡ Some r → (result ≡ Err r) × ((lane.new ≡ lane.old) × (blocks.new ≡ blocks.old)) }
    ensures done { IfOk result (λ id. (o : Opening) (v : View) → MayAllocate o M.at lane.old blocks.old v → HasAllocated o M.at lane.new blocks.new v size kind id) }
    ensures lane { OnOk result (lane.new ≡ record lane.old { memory = lane.new.memory }) }
    ensures given_up { IfErr result (λ r. work_refusal lane.old ≡ None → r ≢ refusal.Stopped → (o : Opening) (v : View) → MayAllocate o M.at lane.old blocks.old v
        → IsAllocGivenUp M.at lane.new v lane.old.records.items size kind r) }
    ensures none { IfErr result (λ r. work_refusal lane.old ≡ None → r ≢ refusal.Stopped → lane.new.records.items ≡ []) }
    ensures given_up_lane { IfErr result (λ r. work_refusal lane.old ≡ None → r ≢ refusal.Stopped
        → lane.new ≡ record lane.old { memory = lane.new.memory; records = lane.new.records; entries = lane.new.entries; stage = stage.OnAbort; error = error.Refused r; drawn = Some lane.new.last; last = lane.new.last }) }
    ensures stopped { IfErr result (λ r. work_refusal lane.old ≡ None → r ≡ refusal.Stopped → (o : Opening) (v : View) → MayAllocate o M.at lane.old blocks.old v
        → IsStoppedMaking M.at lane.old lane.new v size kind ⊎ IsAllocStopped M.at lane.new v lane.old.records.items size kind) }
    ensures stopped_lane { IfErr result (λ r. work_refusal lane.old ≡ None → r ≡ refusal.Stopped
        → lane.new ≡ record lane.old { memory = lane.new.memory; records = lane.new.records; drawn = lane.new.drawn; last = lane.new.last; stopped = true }) }
    ensures unlisted { IfErr result (λ r. blocks.new ≡ blocks.old) }
    ensures causes { IfErr result (λ r. work_refusal lane.old ≡ None → (r ≡ refusal.BadSize) ⊎ (r ≡ refusal.ActionsFull) ⊎ (r ≡ refusal.NoSpace) ⊎ (r ≡ refusal.Stopped)) }
{
    check_work(lane)?;
    let id = alloc_at_work(lane, blocks, size, kind)?;
    Ok(id)
}
