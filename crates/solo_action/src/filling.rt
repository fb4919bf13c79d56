//! Bytes written into objects that are reserved, where no transaction is open.

ghost use Rattle.std.specs.Prelude.{◌≡◌, ◌≢◌, ◌⊎◌, [], true, false, length, None, Some, Err, IfErr, OnErr, OnOk};
ghost use Rattle.solo_crash.specs.Pending.{pending_before, pending_in};
ghost use Rattle.pm_objects.specs.declared.calls.Operation.TheVariants.{WriteReserved};
ghost use Rattle.pm_objects.specs.declared.history.Value.TheVariants.{Refused};
ghost use Rattle.pm_objects.specs.declared.refusal.Refusal.TheVariants as refusal;
ghost use Rattle.solo_pending.specs.AllPending.{IsPendingAs};
ghost use Rattle.solo_tx.specs.Beginning.{IsSpent};
ghost use Rattle.solo_tx.specs.Ending.{IsReadyForAny};
ghost use Rattle.solo_tx.specs.Ranges.{StopsUndrawn};
ghost use Rattle.solo_tx.specs.Sequences.{ends_call};
ghost use Rattle.solo_view.specs.View.{View};
ghost use Rattle.solo_view.specs.Views.{after_all};
ghost use Rattle.solo_world.specs.Sequences.{IsMade};
ghost use Rattle.solo_world.specs.Tellings.{reply_of};
ghost use Rattle.solo_lock.specs.Begun.{IsBegun, IsLaneBegun};
ghost use Rattle.solo_lock.specs.Resting.{IsAtRest};
ghost use Rattle.solo_transaction.specs.Filling.{HasReservedRange, puts_range};
ghost use Rattle.solo_action.specs.BegunAlone.{BeginsAlone, BeginsWithPending};
ghost use Rattle.solo_action.specs.Filling.{HasPutBegun, HasPutOutside, HasRefusedPutOutside, HasStoppedPutting, IsPutCause, MayPutOutside};
ghost use Rattle.solo_action.specs.Outside.{IsEndedOnceTold, IsToldAtOnce, RestsAlone};

use crate::telling::come_to_rest;
use pm_objects::{Oid, Refusal};
use solo_memory::Stopped;
use solo_pending::PendingActions;
use solo_transaction::ReservedMem;
use solo_tx::{draw_number, start, write_words};
use solo_world::Lane;

/// Tells the write that is all of the open call, done or refused, its bytes being lent, and draws the call's number.
fn draw_put<M: ReservedMem>(
    lane: &mut Lane<M>,
    id: Oid,
    off: u64,
    bytes: &[u8],
    refusal: Option<Refusal>,
)
    requires ready { IsReadyForAny (M.at lane.old.memory) (ends_call (WriteReserved id off bytes.now) (reply_of refusal)) }
    ensures made { IsMade (M.at lane.old.memory) (M.at lane.new.memory) (ends_call (WriteReserved id off bytes.now) (reply_of refusal) lane.new.last) }
    ensures drawn { lane.new.drawn ≡ Some lane.new.last }
    ensures else_same { lane.new ≡ record lane.old { memory = lane.new.memory; drawn = lane.new.drawn; last = lane.new.last } }
{
    lane.memory.tell_put(id, off, bytes, refusal);
    draw_number(lane);
}

/// Ends a call that has begun by the write that it is, done or refused: that is told, and the call draws its number. The lane, which holds no lock, is at rest then.
fn end_put<M: ReservedMem>(
    lane: &mut Lane<M>,
    id: Oid,
    off: u64,
    bytes: &[u8],
    refusal: Option<Refusal>,
)
    requires begun { IsLaneBegun M.at lane.old }
    requires free { lane.old.locks.items ≡ [] }
    ensures rests { (v : View) → IsBegun M.at lane.old v → IsAtRest M.at lane.new (after_all v (ends_call (WriteReserved id off bytes.now) (reply_of refusal) lane.new.last v)) }
    ensures told { (v : View) → IsBegun M.at lane.old v → IsEndedOnceTold v (WriteReserved id off bytes.now) (reply_of refusal)
        → IsToldAtOnce M.at lane.new v (WriteReserved id off bytes.now) (reply_of refusal) }
    ensures free { lane.new.locks.items ≡ [] }
    ensures lane { lane.new ≡ record lane.old { memory = lane.new.memory; locks = lane.new.locks; drawn = None; last = lane.new.last } }
{
    draw_put(lane, id, off, bytes, refusal);
    come_to_rest(lane);
}

/// Writes the bytes in a call that has begun, and ends it by that; or says that the lane came to its stop.
fn put_or_stop<M: ReservedMem>(
    lane: &mut Lane<M>,
    id: Oid,
    off: u64,
    bytes: &[u8],
) -> Result<(), Refusal>
    requires may { MayPutOutside M.at lane.old id off (length bytes.now) }
    requires free { lane.old.locks.items ≡ [] }
    ensures done { OnOk result ((w : View) → BeginsAlone M.at lane.old w → HasReservedRange w id off (length bytes.now) → HasPutBegun M.at lane.new w id off bytes.now) }
    ensures free { OnOk result (lane.new.locks.items ≡ []) }
    ensures lane { OnOk result (lane.new ≡ record lane.old { memory = lane.new.memory; locks = lane.new.locks; drawn = None; last = lane.new.last }) }
    ensures stops { OnErr result ((w : View) → BeginsAlone M.at lane.old w → HasReservedRange w id off (length bytes.now) → StopsUndrawn (M.at lane.new.memory) w (puts_range id off bytes.now)) }
    ensures stopped { IfErr result (λ r. r ≡ refusal.Stopped) }
    ensures stopped_lane { OnErr result (lane.new ≡ record lane.old { memory = lane.new.memory; stopped = true }) }
{
    match write_words(&mut lane.memory, id.off + off, bytes) {
        Ok(()) => {
            end_put(lane, id, off, bytes, None);
            Ok(())
        }
        Err(Stopped) => {
            lane.stopped = true;
            Err(Refusal::Stopped)
        }
    }
}

/// Writes the bytes in a call that has begun, or refuses to; either is all of the call.
fn put_begun<M: ReservedMem>(
    lane: &mut Lane<M>,
    pending: &PendingActions,
    id: Oid,
    off: u64,
    bytes: &[u8],
) -> Result<(), Refusal>
    requires begun { BeginsWithPending M.at lane.old pending.now }
    requires free { lane.old.locks.items ≡ [] }
    ensures done { OnOk result ((w : View) → BeginsAlone M.at lane.old w → IsPendingAs pending.now (pending_in w) → HasPutBegun M.at lane.new w id off bytes.now) }
    ensures listed { OnOk result ((w : View) → BeginsAlone M.at lane.old w → IsPendingAs pending.now (pending_in w) → IsPendingAs pending.now (pending_in (after_all w (puts_range id off bytes.now w)))) }
    ensures refuses { IfErr result (λ r. r ≢ refusal.Stopped → (w : View) → BeginsAlone M.at lane.old w → IsPendingAs pending.now (pending_in w) → HasRefusedPutOutside M.at lane.new w id off bytes.now r) }
    ensures free { result ≢ Err refusal.Stopped → lane.new.locks.items ≡ [] }
    ensures lane { result ≢ Err refusal.Stopped → lane.new ≡ record lane.old { memory = lane.new.memory; locks = lane.new.locks; drawn = None; last = lane.new.last } }
    ensures stops { IfErr result (λ r. r ≡ refusal.Stopped → (w : View) → BeginsAlone M.at lane.old w → IsPendingAs pending.now (pending_in w)
        → HasReservedRange w id off (length bytes.now) × StopsUndrawn (M.at lane.new.memory) w (puts_range id off bytes.now)) }
    ensures stopped_lane { result ≡ Err refusal.Stopped → lane.new ≡ record lane.old { memory = lane.new.memory; stopped = true } }
    ensures causes { IfErr result (λ r. (r ≡ refusal.NotReserved) ⊎ (r ≡ refusal.OutOfRange) ⊎ (r ≡ refusal.Stopped)) }
{
    match pending.check_put(lane.pool, id, off, bytes.len() as u64) {
        Ok(()) => put_or_stop(lane, id, off, bytes),
        Err(why) => {
            end_put(lane, id, off, bytes, Some(why));
            Err(why)
        }
    }
}

/// Writes bytes into an object that is reserved, from this byte of it on, where no transaction is open: a plain memory access in pmemobj_reserve(3)'s use, which here is a
/// call of the history. They are stored word by word in rising place, and may be undrained still as the call draws its number. `NotReserved` where nothing is reserved at the
/// offset, or the id is of another pool, else `OutOfRange` where the bytes pass its end: each is told, and changes nothing. `Stopped` where the lane had stopped, and `Spent`
/// where its generation or the numbers are used up, are not told, and change nothing; `Stopped` where it comes to its stop leaves the first of the stores made. What is pending
/// stays as it is listed. The lane is alone, so far.
pub fn write_reserved<M: ReservedMem>(
    lane: &mut Lane<M>,
    pending: &PendingActions,
    id: Oid,
    off: u64,
    bytes: &[u8],
) -> Result<(), Refusal>
    requires rests { lane.old.stopped ≡ false → (v : View) × (RestsAlone M.at lane.old v × IsPendingAs pending.now (pending_before v)) }
    ensures stopped { lane.old.stopped ≡ true → (result ≡ Err refusal.Stopped) × (lane.new ≡ lane.old) }
    ensures done { OnOk result ((v : View) → RestsAlone M.at lane.old v → IsPendingAs pending.now (pending_before v) → HasPutOutside M.at lane.new pending.now v id off bytes.now) }
    ensures refuses { IfErr result (λ r. r ≢ refusal.Stopped → r ≢ refusal.Spent → (v : View) → RestsAlone M.at lane.old v → IsPendingAs pending.now (pending_before v)
        → HasRefusedPutOutside M.at lane.new v id off bytes.now r) }
    ensures stops { result ≡ Err refusal.Stopped → (v : View) → RestsAlone M.at lane.old v → IsPendingAs pending.now (pending_before v) → HasStoppedPutting M.at lane.new v id off bytes.now }
    ensures spent { result ≡ Err refusal.Spent → (v : View) → IsAtRest M.at lane.old v → IsSpent M.at lane.new v }
    ensures spent_lane { result ≡ Err refusal.Spent → lane.new ≡ record lane.old { memory = lane.new.memory } }
    ensures lane { result ≢ Err refusal.Stopped → lane.new ≡ record lane.old { memory = lane.new.memory; last = lane.new.last } }
    ensures stopped_lane { lane.old.stopped ≡ false → result ≡ Err refusal.Stopped → lane.new ≡ record lane.old { memory = lane.new.memory; stopped = true } }
    ensures causes { IfErr result (IsPutCause lane.old.stopped) }
{
    if lane.stopped {
        return Err(Refusal::Stopped);
    }
    start(lane)?;
    put_begun(lane, pending, id, off, bytes)
}
