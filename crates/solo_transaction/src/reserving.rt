//! Objects reserved in a transaction.

ghost use Rattle.std.specs.Prelude.{◌≡◌, ◌≢◌, ◌⊎◌, ◌+◌, ◌^◌, ◌<◌, ◌≤◌, None, Some, Err, true, IfErr, IfOk, OnErr, OnOk};
ghost use Rattle.solo_crash.specs.Pending.{pending_in};
ghost use Rattle.solo_epoch.specs.Allocating.{object_in_block};
ghost use Rattle.solo_epoch.specs.Reserving.{with_object_reserved};
ghost use Rattle.solo_model.specs.Actions.{Pending, max_actions, pending_count, with_reservation};
ghost use Rattle.pm_objects.specs.declared.calls.Operation.TheVariants.{Reserve};
ghost use Rattle.pm_objects.specs.declared.history.Value.TheVariants.{Refused};
ghost use Rattle.pm_objects.specs.declared.refusal.Refusal.{Refusal};
ghost use Rattle.pm_objects.specs.declared.refusal.Refusal.TheVariants as refusal;
ghost use Rattle.solo_pending.specs.AllPending.{IsPendingAs, count_in};
ghost use Rattle.solo_tx.specs.Stages.{work_refusal};
ghost use Rattle.solo_undo.specs.Working.{IsWorking};
ghost use Rattle.solo_view.specs.Steps.Step.{Tell};
ghost use Rattle.solo_view.specs.View.{View};
ghost use Rattle.solo_view.specs.Views.{after};
ghost use Rattle.solo_world.specs.Opening.{Opening};
ghost use Rattle.solo_transaction.specs.Allocating.{IsLaneToAllocate, IsStoppedMaking, MayAllocate};
ghost use Rattle.solo_transaction.specs.Reserving.{HasRefusedReserve, HasReservedObject};

use crate::allocating::stop;
use pm_image::Block;
use pm_layout::LINE_BYTES;
use pm_objects::{Oid, Operation, Refusal, Value};
use solo_alloc::new_object;
use solo_blocks::NoBlock;
use solo_made::CallBlocks;
use solo_pending::{PendingActions, Reserved};
use solo_tx::check_work;
use solo_world::{Lane, LawfulMem};

/// Tells the object that was made in the block as reserved, and lists it with what is pending. Its id is the answer.
fn tell_reserved<M: LawfulMem>(
    lane: &mut Lane<M>,
    pending: &mut PendingActions,
    block: Block,
    size: u64,
    kind: u64,
) -> Oid
    requires may { (v : View) × (M.at lane.old.memory v × IsWorking v) }
    requires few { count_in pending.old < 63 }
    requires inside { block.place + 64 < 2 ^ 64 }
    ensures told { (v : View) → M.at lane.old.memory v → M.at lane.new.memory (with_object_reserved v (object_in_block block size kind)) }
    ensures id { result ≡ record { pool = lane.old.pool; off = block.place + 64 } }
    ensures listed { (p : Pending) → IsPendingAs pending.old p → IsPendingAs pending.new (with_reservation (block.place + 64) kind size p) }
    ensures else_same { lane.new ≡ record lane.old { memory = lane.new.memory } }
{
    let off = block.place + LINE_BYTES;
    let operation = Operation::Reserve { size, kind };
    lane.memory.tell(&operation, Some(&Value::Offset(off)));
    pending.reserve(Reserved { off, kind, size });
    let pool = lane.pool;
    Oid { pool, off }
}

/// Tells why no object was reserved.
fn tell_refused<M: LawfulMem>(mem: &mut M, size: u64, kind: u64, why: Refusal)
    requires may { (v : View) × (M.at mem.old v × IsWorking v) }
    ensures told { (v : View) → M.at mem.old v → M.at mem.new (after v (Tell (Reserve size kind) (Some (Refused why)))) }
{
    let operation = Operation::Reserve { size, kind };
    mem.tell(&operation, Some(&Value::Refused(why)));
}

/// Makes the object that is to be reserved, where one more action may be pending; or refuses it, where no block is free.
fn reserve_object<M: LawfulMem>(
    lane: &mut Lane<M>,
    blocks: &CallBlocks,
    pending: &mut PendingActions,
    size: u64,
    kind: u64,
) -> Result<Oid, Refusal>
    requires at_work { IsLaneToAllocate M.at lane.old blocks.now }
    requires some { 1 ≤ size }
    requires most { size ≤ 262080 }
    requires few { count_in pending.old < 63 }
    requires room { (p : Pending) → IsPendingAs pending.old p → pending_count p < max_actions }
    ensures done { IfOk result (λ id. (o : Opening) (v : View) → MayAllocate o M.at lane.old blocks.now v → IsPendingAs pending.old (pending_in v)
        → HasReservedObject o M.at lane.new blocks.now pending.new v size kind id) }
    ensures refuses { IfErr result (λ r. r ≢ refusal.Stopped → (o : Opening) (v : View) → MayAllocate o M.at lane.old blocks.now v → IsPendingAs pending.old (pending_in v)
        → HasRefusedReserve o M.at lane.new blocks.now v size kind r) }
    ensures stopped { IfErr result (λ r. r ≡ refusal.Stopped → (o : Opening) (v : View) → MayAllocate o M.at lane.old blocks.now v → IsStoppedMaking M.at lane.old lane.new v size kind) }
    ensures lane { result ≢ Err refusal.Stopped → lane.new ≡ record lane.old { memory = lane.new.memory } }
    ensures stopped_lane { IfErr result (λ r. r ≡ refusal.Stopped → lane.new ≡ record lane.old { memory = lane.new.memory; stopped = true }) }
    ensures unchanged { OnErr result (pending.new ≡ pending.old) }
    ensures causes { IfErr result (λ r. (r ≡ refusal.NoSpace) ⊎ (r ≡ refusal.Stopped)) }
{
    match new_object(lane, size, kind) {
        Ok(block) => Ok(tell_reserved(lane, pending, block, size, kind)),
        Err(NoBlock::Refused(why)) => {
            tell_refused(&mut lane.memory, size, kind, why);
            Err(why)
        }
        Err(NoBlock::Stopped(_)) => Err(stop(lane)),
    }
}

/// Reserves the object in a transaction at work, or refuses it.
fn reserve_at_work<M: LawfulMem>(
    lane: &mut Lane<M>,
    blocks: &CallBlocks,
    pending: &mut PendingActions,
    size: u64,
    kind: u64,
) -> Result<Oid, Refusal>
    requires at_work { IsLaneToAllocate M.at lane.old blocks.now }
    ensures done { IfOk result (λ id. (o : Opening) (v : View) → MayAllocate o M.at lane.old blocks.now v → IsPendingAs pending.old (pending_in v)
        → HasReservedObject o M.at lane.new blocks.now pending.new v size kind id) }
    ensures refuses { IfErr result (λ r. r ≢ refusal.Stopped → (o : Opening) (v : View) → MayAllocate o M.at lane.old blocks.now v → IsPendingAs pending.old (pending_in v)
        → HasRefusedReserve o M.at lane.new blocks.now v size kind r) }
    ensures stopped { IfErr result (λ r. r ≡ refusal.Stopped → (o : Opening) (v : View) → MayAllocate o M.at lane.old blocks.now v → IsStoppedMaking M.at lane.old lane.new v size kind) }
    ensures lane { result ≢ Err refusal.Stopped → lane.new ≡ record lane.old { memory = lane.new.memory } }
    ensures stopped_lane { IfErr result (λ r. r ≡ refusal.Stopped → lane.new ≡ record lane.old { memory = lane.new.memory; stopped = true }) }
    ensures unchanged { OnErr result (pending.new ≡ pending.old) }
    ensures causes { IfErr result (λ r. (r ≡ refusal.BadSize) ⊎ (r ≡ refusal.ActionsFull) ⊎ (r ≡ refusal.NoSpace) ⊎ (r ≡ refusal.Stopped)) }
{
    match pending.check_reserve(size) {
        Ok(()) => reserve_object(lane, blocks, pending, size, kind),
        Err(why) => {
            tell_refused(&mut lane.memory, size, kind, why);
            Err(why)
        }
    }
}

/// Reserves a new object of so many bytes, 1 to `MAX_SIZE`, all of them 0, and of this type, in the transaction: pmemobj_reserve(3). Its block is the
/// least that is free; the object comes to be where what is pending is published, and until then the lane alone has it. The answer is its id.
/// `BadSize` for another size, `ActionsFull` where 63 actions are pending, and `NoSpace` where no block is free, nor a chunk of which to make a
/// run: each is told, changes nothing, and leaves the transaction in work. `NotWork` and `NoTx` for the transaction's stage, and `Stopped` where
/// the lane had stopped, are not told; `Stopped` where it comes to its stop leaves the first of the memory calls made. The lane is alone, so far.
pub fn reserve<M: LawfulMem>(
    lane: &mut Lane<M>,
    blocks: &CallBlocks,
    pending: &mut PendingActions,
    size: u64,
    kind: u64,
) -> Result<Oid, Refusal>
    requires at_work { work_refusal lane.old ≡ None → IsLaneToAllocate M.at lane.old blocks.now }
    ensures refused { (r : Refusal) → work_refusal lane.old ≡ Some r → (result ≡ Err r) × ((lane.new ≡ lane.old) × (pending.new ≡ pending.old)) }
    ensures done { IfOk result (λ id. (o : Opening) (v : View) → MayAllocate o M.at lane.old blocks.now v → IsPendingAs pending.old (pending_in v)
        → HasReservedObject o M.at lane.new blocks.now pending.new v size kind id) }
    ensures refuses { IfErr result (λ r. work_refusal lane.old ≡ None → r ≢ refusal.Stopped → (o : Opening) (v : View) → MayAllocate o M.at lane.old blocks.now v → IsPendingAs pending.old (pending_in v)
        → HasRefusedReserve o M.at lane.new blocks.now v size kind r) }
    ensures stopped { IfErr result (λ r. work_refusal lane.old ≡ None → r ≡ refusal.Stopped → (o : Opening) (v : View) → MayAllocate o M.at lane.old blocks.now v → IsStoppedMaking M.at lane.old lane.new v size kind) }
    ensures lane { result ≢ Err refusal.Stopped → lane.new ≡ record lane.old { memory = lane.new.memory } }
    ensures stopped_lane { IfErr result (λ r. work_refusal lane.old ≡ None → r ≡ refusal.Stopped → lane.new ≡ record lane.old { memory = lane.new.memory; stopped = true }) }
    ensures unchanged { OnErr result (pending.new ≡ pending.old) }
    ensures causes { IfErr result (λ r. work_refusal lane.old ≡ None → (r ≡ refusal.BadSize) ⊎ (r ≡ refusal.ActionsFull) ⊎ (r ≡ refusal.NoSpace) ⊎ (r ≡ refusal.Stopped)) }
{
    check_work(lane)?;
    reserve_at_work(lane, blocks, pending, size, kind)
}
