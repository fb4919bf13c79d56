//! Objects reserved where no transaction is open.

ghost use Rattle.std.specs.Prelude.{◌≡◌, ◌≢◌, ◌⊎◌, ◌+◌, ◌^◌, ◌<◌, ◌≤◌, [], None, Some, Err, true, false, IfErr, IfOk, OnErr};
ghost use Rattle.solo_crash.specs.Pending.{pending_before, pending_in};
ghost use Rattle.solo_crash.specs.Reserving.{IsReserveReason};
ghost use Rattle.solo_memory.specs.declared.lane_mem.Stopped.{Stopped as HasStopped};
ghost use Rattle.solo_model.specs.Actions.{Pending, max_actions, pending_count, with_reservation};
ghost use Rattle.pm_objects.specs.declared.calls.Operation.TheVariants.{Reserve};
ghost use Rattle.pm_objects.specs.declared.history.Value.TheVariants.{Offset, Refused};
ghost use Rattle.pm_objects.specs.declared.refusal.Refusal.TheVariants as refusal;
ghost use Rattle.solo_pending.specs.AllPending.{IsPendingAs, count_in};
ghost use Rattle.solo_blocks.specs.declared.making.NoBlock.TheVariants as no_block;
ghost use Rattle.solo_alloc.specs.NewObjects.{GivesNoObject};
ghost use Rattle.solo_tx.specs.Beginning.{IsSpent};
ghost use Rattle.solo_tx.specs.Sequences.{ends_call};
ghost use Rattle.solo_view.specs.View.{View};
ghost use Rattle.solo_view.specs.Views.{after_all};
ghost use Rattle.solo_lock.specs.Begun.{IsBegun, IsLaneBegun};
ghost use Rattle.solo_lock.specs.Resting.{IsAtRest};
ghost use Rattle.solo_action.specs.BegunAlone.{BeginsAlone, BeginsWithPending};
ghost use Rattle.solo_action.specs.Outside.{RestsAlone};
ghost use Rattle.solo_action.specs.Reserving.{HasRefusedBegun, HasRefusedOutside, HasReservedBegun, HasReservedOutside, HasStoppedReserving, IsReserveCause};

use crate::telling::end_outside;
use pm_image::Block;
use pm_layout::LINE_BYTES;
use pm_objects::{Oid, Operation, Refusal, Value};
use solo_alloc::new_object;
use solo_blocks::NoBlock;
use solo_pending::{PendingActions, Reserved};
use solo_transaction::ReservedMem;
use solo_tx::start;
use solo_world::Lane;

/// Ends a call that has begun by the object that was made in the block: it is told as reserved and listed with what is pending, and the call draws its number. The lane, which
/// holds no lock, is at rest then. The object's id is the answer.
fn end_reserved<M: ReservedMem>(
    lane: &mut Lane<M>,
    pending: &mut PendingActions,
    block: Block,
    size: u64,
    kind: u64,
) -> Oid
    requires begun { IsLaneBegun M.at lane.old }
    requires free { lane.old.locks.items ≡ [] }
    requires few { count_in pending.old < 63 }
    requires inside { block.place + 64 < 2 ^ 64 }
    ensures rests { (u : View) → IsBegun M.at lane.old u → IsAtRest M.at lane.new (after_all u (ends_call (Reserve size kind) (Some (Offset (block.place + 64))) lane.new.last u)) }
    ensures id { result ≡ record { pool = lane.old.pool; off = block.place + 64 } }
    ensures listed { (p : Pending) → IsPendingAs pending.old p → IsPendingAs pending.new (with_reservation (block.place + 64) kind size p) }
    ensures free { lane.new.locks.items ≡ [] }
    ensures lane { lane.new ≡ record lane.old { memory = lane.new.memory; locks = lane.new.locks; drawn = None; last = lane.new.last } }
{
    let off = block.place + LINE_BYTES;
    let operation = Operation::Reserve { size, kind };
    end_outside(lane, &operation, Some(&Value::Offset(off)));
    pending.reserve(Reserved { off, kind, size });
    let pool = lane.pool;
    Oid { pool, off }
}

/// Ends a call that has begun by telling why no object was reserved. The lane, which holds no lock, is at rest then.
fn end_refused<M: ReservedMem>(lane: &mut Lane<M>, size: u64, kind: u64, why: Refusal)
    requires begun { IsLaneBegun M.at lane.old }
    requires free { lane.old.locks.items ≡ [] }
    ensures rests { (u : View) → IsBegun M.at lane.old u → IsAtRest M.at lane.new (after_all u (ends_call (Reserve size kind) (Some (Refused why)) lane.new.last u)) }
    ensures free { lane.new.locks.items ≡ [] }
    ensures lane { lane.new ≡ record lane.old { memory = lane.new.memory; locks = lane.new.locks; drawn = None; last = lane.new.last } }
{
    let operation = Operation::Reserve { size, kind };
    end_outside(lane, &operation, Some(&Value::Refused(why)));
}

/// Makes the object that is to be reserved, in a call that has begun, where one more action may be pending; or refuses it, where no block is free.
fn reserve_object<M: ReservedMem>(
    lane: &mut Lane<M>,
    pending: &mut PendingActions,
    size: u64,
    kind: u64,
) -> Result<Oid, Refusal>
    requires begun { BeginsWithPending M.at lane.old pending.old }
    requires free { lane.old.locks.items ≡ [] }
    requires some { 1 ≤ size }
    requires most { size ≤ 262080 }
    requires few { count_in pending.old < 63 }
    requires room { (p : Pending) → IsPendingAs pending.old p → pending_count p < max_actions }
    ensures done { IfOk result (λ id. (w : View) → BeginsAlone M.at lane.old w → IsPendingAs pending.old (pending_in w) → HasReservedBegun M.at lane.new pending.new w size kind id) }
    ensures refuses { IfErr result (λ r. r ≢ refusal.Stopped → (w : View) → BeginsAlone M.at lane.old w → IsPendingAs pending.old (pending_in w) → HasRefusedBegun M.at lane.new w size kind r) }
    ensures free { result ≢ Err refusal.Stopped → lane.new.locks.items ≡ [] }
    ensures lane { result ≢ Err refusal.Stopped → lane.new ≡ record lane.old { memory = lane.new.memory; locks = lane.new.locks; drawn = None; last = lane.new.last } }
    ensures stops { result ≡ Err refusal.Stopped → (w : View) → BeginsAlone M.at lane.old w → (stop : HasStopped) × GivesNoObject (M.at lane.new.memory) w size kind (no_block.Stopped stop) }
    ensures stopped_lane { result ≡ Err refusal.Stopped → lane.new ≡ record lane.old { memory = lane.new.memory; stopped = true } }
    ensures unchanged { OnErr result (pending.new ≡ pending.old) }
    ensures causes { IfErr result (λ r. (r ≡ refusal.NoSpace) ⊎ (r ≡ refusal.Stopped)) }
{
    match new_object(lane, size, kind) {
        Ok(block) => Ok(end_reserved(lane, pending, block, size, kind)),
        Err(NoBlock::Refused(why)) => {
            end_refused(lane, size, kind, why);
            Err(why)
        }
        Err(NoBlock::Stopped(_)) => {
            lane.stopped = true;
            Err(Refusal::Stopped)
        }
    }
}

/// Reserves the object in a call that has begun, or refuses it; either is all of the call.
fn reserve_begun<M: ReservedMem>(
    lane: &mut Lane<M>,
    pending: &mut PendingActions,
    size: u64,
    kind: u64,
) -> Result<Oid, Refusal>
    requires begun { BeginsWithPending M.at lane.old pending.old }
    requires free { lane.old.locks.items ≡ [] }
    ensures done { IfOk result (λ id. (w : View) → BeginsAlone M.at lane.old w → IsPendingAs pending.old (pending_in w) → HasReservedBegun M.at lane.new pending.new w size kind id) }
    ensures refuses { IfErr result (λ r. r ≢ refusal.Stopped → (w : View) → BeginsAlone M.at lane.old w → IsPendingAs pending.old (pending_in w) → HasRefusedBegun M.at lane.new w size kind r) }
    ensures free { result ≢ Err refusal.Stopped → lane.new.locks.items ≡ [] }
    ensures lane { result ≢ Err refusal.Stopped → lane.new ≡ record lane.old { memory = lane.new.memory; locks = lane.new.locks; drawn = None; last = lane.new.last } }
    ensures stops { result ≡ Err refusal.Stopped → (w : View) → BeginsAlone M.at lane.old w → (stop : HasStopped) × GivesNoObject (M.at lane.new.memory) w size kind (no_block.Stopped stop) }
    ensures stopped_lane { result ≡ Err refusal.Stopped → lane.new ≡ record lane.old { memory = lane.new.memory; stopped = true } }
    ensures unchanged { OnErr result (pending.new ≡ pending.old) }
    ensures causes { IfErr result (λ r. (r ≡ refusal.BadSize) ⊎ (r ≡ refusal.ActionsFull) ⊎ (r ≡ refusal.NoSpace) ⊎ (r ≡ refusal.Stopped)) }
{
    match pending.check_reserve(size) {
        Ok(()) => reserve_object(lane, pending, size, kind),
        Err(why) => {
            end_refused(lane, size, kind, why);
            Err(why)
        }
    }
}

/// Reserves a new object of so many bytes, 1 to `MAX_SIZE`, all of them 0, and of this type, where no transaction is open: pmemobj_reserve(3). Its block is the least that is free;
/// the object comes to be where what is pending is published, and until then the lane alone has it. The answer is its id. `BadSize` for another size, `ActionsFull` where 63
/// actions are pending, and `NoSpace` where no block is free, nor a chunk of which to make a run: each is told, and leaves what is pending as it was. `Stopped` where the lane had
/// stopped, and `Spent` where its generation or the numbers are used up, are not told, and change nothing; `Stopped` where it comes to its stop leaves the first of the memory
/// calls made. The lane is alone, so far.
pub fn reserve<M: ReservedMem>(
    lane: &mut Lane<M>,
    pending: &mut PendingActions,
    size: u64,
    kind: u64,
) -> Result<Oid, Refusal>
    requires rests { lane.old.stopped ≡ false → (v : View) × (RestsAlone M.at lane.old v × IsPendingAs pending.old (pending_before v)) }
    ensures stopped { lane.old.stopped ≡ true → (result ≡ Err refusal.Stopped) × (lane.new ≡ lane.old) }
    ensures done { IfOk result (λ id. (v : View) → RestsAlone M.at lane.old v → IsPendingAs pending.old (pending_before v) → HasReservedOutside M.at lane.new pending.new v size kind id) }
    ensures refuses { IfErr result (λ r. r ≢ refusal.Stopped → r ≢ refusal.Spent → (v : View) → RestsAlone M.at lane.old v → IsPendingAs pending.old (pending_before v)
        → HasRefusedOutside M.at lane.new v size kind r) }
    ensures stops { result ≡ Err refusal.Stopped → (v : View) → RestsAlone M.at lane.old v → HasStoppedReserving M.at lane.new v size kind }
    ensures spent { result ≡ Err refusal.Spent → (v : View) → IsAtRest M.at lane.old v → IsSpent M.at lane.new v }
    ensures spent_lane { result ≡ Err refusal.Spent → lane.new ≡ record lane.old { memory = lane.new.memory } }
    ensures unchanged { OnErr result (pending.new ≡ pending.old) }
    ensures lane { result ≢ Err refusal.Stopped → lane.new ≡ record lane.old { memory = lane.new.memory; last = lane.new.last } }
    ensures stopped_lane { lane.old.stopped ≡ false → result ≡ Err refusal.Stopped → lane.new ≡ record lane.old { memory = lane.new.memory; stopped = true } }
    ensures causes { IfErr result (IsReserveCause lane.old.stopped) }
{
    if lane.stopped {
        return Err(Refusal::Stopped);
    }
    start(lane)?;
    reserve_begun(lane, pending, size, kind)
}
