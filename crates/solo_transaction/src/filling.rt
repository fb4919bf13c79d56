//! Bytes written into objects that are reserved.

ghost use Rattle.std.specs.Prelude.{◌≡◌, ◌≢◌, ◌⊎◌, true, length, None, Some, Err, IfErr, OnErr, OnOk};
ghost use Rattle.solo_crash.specs.Pending.{pending_in};
ghost use Rattle.solo_made.specs.Made.{BlockLists};
ghost use Rattle.solo_memory.specs.Runs.{Made};
ghost use Rattle.pm_objects.specs.declared.calls.Operation.TheVariants.{WriteReserved};
ghost use Rattle.pm_objects.specs.declared.refusal.Refusal.{Refusal};
ghost use Rattle.pm_objects.specs.declared.refusal.Refusal.TheVariants as refusal;
ghost use Rattle.solo_pending.specs.AllPending.{IsPendingAs};
ghost use Rattle.solo_tx.specs.Ending.{IsStoppedIn};
ghost use Rattle.solo_tx.specs.Ranges.{StopsUndrawn};
ghost use Rattle.solo_tx.specs.Stages.{work_refusal};
ghost use Rattle.solo_view.specs.Founds.{IsAlone};
ghost use Rattle.solo_view.specs.Steps.Step.{Tell};
ghost use Rattle.solo_view.specs.View.{View};
ghost use Rattle.solo_view.specs.Views.{after_all};
ghost use Rattle.solo_world.specs.Opening.{Opening};
ghost use Rattle.solo_world.specs.Sequences.{Runs};
ghost use Rattle.solo_world.specs.Tellings.{reply_of};
ghost use Rattle.solo_transaction.specs.AtWork.{IsAtWorkWith};
ghost use Rattle.solo_transaction.specs.Published.{HasOwnCounts};
ghost use Rattle.solo_transaction.specs.Filling.{HasPut, HasRefusedPut, HasReservedRange, IsLaneWithPending, MayPut, puts_range};

use pm_objects::{Oid, Refusal};
use solo_made::CallBlocks;
use solo_memory::{SoloMem, Stopped};
use solo_pending::PendingActions;
use solo_tx::{check_work, write_words};
use solo_world::{Lane, LawfulMem};

/// A lane's memory that is also told of bytes written into what is reserved, and that counts the calls and numbers of a lane which is alone.
pub trait ReservedMem: LawfulMem {
    /// Tells such a write, or why it was refused, its bytes being lent: an operation has bytes of its own, and a lane takes no memory. For the
    /// proof alone, nothing else is done.
    fn tell_put(&mut self, id: Oid, off: u64, bytes: &[u8], refusal: Option<Refusal>)
        requires { Self.can self.old (Tell (WriteReserved id off bytes.now) (reply_of refusal)) }
        ensures { Made (Self.at self.old) (Self.at self.new) (Tell (WriteReserved id off bytes.now) (reply_of refusal)) };

    /// The numbers that a lane alone has drawn are its own, and it made no more counted calls than up to its stop number.
    ghost counts: { (m : Self) (v : View) → Self.at m v → IsAlone v → HasOwnCounts v };
}

impl ReservedMem for SoloMem {
    ghost use Rattle.solo_transaction.specs.SoloCounts.{counts_solo};

    fn tell_put(&mut self, _id: Oid, _off: u64, _bytes: &[u8], _refusal: Option<Refusal>) {}

    ghost counts = { counts_solo };
}

/// Writes bytes into an object that is reserved, from this byte of it on, and tells so. Makes exactly the memory calls of `puts_range`, or the
/// first of them up to the lane's stop.
fn do_put<M: ReservedMem>(
    lane: &mut Lane<M>,
    id: Oid,
    off: u64,
    bytes: &[u8],
) -> Result<(), Stopped>
    requires may { MayPut M.at lane.old id off (length bytes.now) }
    ensures ran { Runs (M.at lane.old.memory) (M.at lane.new.memory) (puts_range id off bytes.now) result }
    ensures done { OnOk result ((o : Opening) (blocks : BlockLists) (v : View) → IsAtWorkWith o M.at lane.old blocks v → HasReservedRange v id off (length bytes.now) → HasPut o M.at lane.new blocks v id off bytes.now) }
    ensures stops { OnErr result ((o : Opening) (blocks : BlockLists) (v : View) → IsAtWorkWith o M.at lane.old blocks v → HasReservedRange v id off (length bytes.now) → StopsUndrawn (M.at lane.new.memory) v (puts_range id off bytes.now)) }
    ensures else_same { lane.new ≡ record lane.old { memory = lane.new.memory } }
{
    write_words(&mut lane.memory, id.off + off, bytes)?;
    lane.memory.tell_put(id, off, bytes, None);
    Ok(())
}

/// Writes them, or says that the lane came to its stop.
fn put_or_stop<M: ReservedMem>(
    lane: &mut Lane<M>,
    id: Oid,
    off: u64,
    bytes: &[u8],
) -> Result<(), Refusal>
    requires may { MayPut M.at lane.old id off (length bytes.now) }
    ensures done { OnOk result ((o : Opening) (blocks : BlockLists) (v : View) → IsAtWorkWith o M.at lane.old blocks v → HasReservedRange v id off (length bytes.now) → HasPut o M.at lane.new blocks v id off bytes.now) }
    ensures lane { OnOk result (lane.new ≡ record lane.old { memory = lane.new.memory }) }
    ensures stops { OnErr result ((o : Opening) (blocks : BlockLists) (v : View) → IsAtWorkWith o M.at lane.old blocks v → HasReservedRange v id off (length bytes.now) → IsStoppedIn M.at lane.new v (puts_range id off bytes.now) (WriteReserved id off bytes.now) None) }
    ensures stopped { IfErr result (λ r. r ≡ refusal.Stopped) }
    ensures stopped_lane { OnErr result (lane.new ≡ record lane.old { memory = lane.new.memory; stopped = true }) }
{
    match do_put(lane, id, off, bytes) {
        Ok(()) => Ok(()),
        Err(Stopped) => {
            lane.stopped = true;
            Err(Refusal::Stopped)
        }
    }
}

/// Writes the bytes in a transaction at work, or refuses to.
fn put_at_work<M: ReservedMem>(
    lane: &mut Lane<M>,
    blocks: &CallBlocks,
    pending: &PendingActions,
    id: Oid,
    off: u64,
    bytes: &[u8],
) -> Result<(), Refusal>
    requires at_work { IsLaneWithPending M.at lane.old blocks.now pending.now }
    ensures done { OnOk result ((o : Opening) (v : View) → IsAtWorkWith o M.at lane.old blocks.now v → IsPendingAs pending.now (pending_in v) → HasPut o M.at lane.new blocks.now v id off bytes.now) }
    ensures listed { OnOk result ((o : Opening) (v : View) → IsAtWorkWith o M.at lane.old blocks.now v → IsPendingAs pending.now (pending_in v) → IsPendingAs pending.now (pending_in (after_all v (puts_range id off bytes.now v)))) }
    ensures refuses { IfErr result (λ r. r ≢ refusal.Stopped → (o : Opening) (v : View) → IsAtWorkWith o M.at lane.old blocks.now v → IsPendingAs pending.now (pending_in v)
        → HasRefusedPut o M.at lane.new blocks.now pending.now v id off bytes.now r) }
    ensures stopped { IfErr result (λ r. r ≡ refusal.Stopped → (o : Opening) (v : View) → IsAtWorkWith o M.at lane.old blocks.now v → IsPendingAs pending.now (pending_in v)
        → IsStoppedIn M.at lane.new v (puts_range id off bytes.now) (WriteReserved id off bytes.now) None) }
    ensures stopped_inside { IfErr result (λ r. r ≡ refusal.Stopped → (o : Opening) (v : View) → IsAtWorkWith o M.at lane.old blocks.now v → IsPendingAs pending.now (pending_in v) → HasReservedRange v id off (length bytes.now)) }
    ensures lane { result ≢ Err refusal.Stopped → lane.new ≡ record lane.old { memory = lane.new.memory } }
    ensures stopped_lane { IfErr result (λ r. r ≡ refusal.Stopped → lane.new ≡ record lane.old { memory = lane.new.memory; stopped = true }) }
    ensures causes { IfErr result (λ r. (r ≡ refusal.NotReserved) ⊎ (r ≡ refusal.OutOfRange) ⊎ (r ≡ refusal.Stopped)) }
{
    match pending.check_put(lane.pool, id, off, bytes.len() as u64) {
        Ok(()) => put_or_stop(lane, id, off, bytes),
        Err(why) => {
            lane.memory.tell_put(id, off, bytes, Some(why));
            Err(why)
        }
    }
}

/// Writes bytes into an object that is reserved, from this byte of it on, in a transaction: a plain memory access in pmemobj_reserve(3)'s use. They
/// are stored word by word in rising place. `NotReserved` where nothing is reserved at the offset, or the id is of another pool, else `OutOfRange`
/// where the bytes pass its end: each is told, changes nothing, and leaves the transaction in work. `NotWork` and `NoTx` for the transaction's
/// stage, and `Stopped` where the lane had stopped, are not told; `Stopped` where it comes to its stop leaves the first of the stores made.
pub fn write_reserved<M: ReservedMem>(
    lane: &mut Lane<M>,
    blocks: &CallBlocks,
    pending: &PendingActions,
    id: Oid,
    off: u64,
    bytes: &[u8],
) -> Result<(), Refusal>
    requires at_work { work_refusal lane.old ≡ None → IsLaneWithPending M.at lane.old blocks.now pending.now }
    ensures refused { (r : Refusal) → work_refusal lane.old ≡ Some r → (result ≡ Err r) × (lane.new ≡ lane.old) }
    ensures done { OnOk result ((o : Opening) (v : View) → IsAtWorkWith o M.at lane.old blocks.now v → IsPendingAs pending.now (pending_in v) → HasPut o M.at lane.new blocks.now v id off bytes.now) }
    ensures listed { OnOk result ((o : Opening) (v : View) → IsAtWorkWith o M.at lane.old blocks.now v → IsPendingAs pending.now (pending_in v) → IsPendingAs pending.now (pending_in (after_all v (puts_range id off bytes.now v)))) }
    ensures refuses { IfErr result (λ r. work_refusal lane.old ≡ None → r ≢ refusal.Stopped → (o : Opening) (v : View) → IsAtWorkWith o M.at lane.old blocks.now v → IsPendingAs pending.now (pending_in v)
        → HasRefusedPut o M.at lane.new blocks.now pending.now v id off bytes.now r) }
    ensures stopped { IfErr result (λ r. work_refusal lane.old ≡ None → r ≡ refusal.Stopped → (o : Opening) (v : View) → IsAtWorkWith o M.at lane.old blocks.now v → IsPendingAs pending.now (pending_in v)
        → IsStoppedIn M.at lane.new v (puts_range id off bytes.now) (WriteReserved id off bytes.now) None) }
    ensures stopped_inside { IfErr result (λ r. work_refusal lane.old ≡ None → r ≡ refusal.Stopped → (o : Opening) (v : View) → IsAtWorkWith o M.at lane.old blocks.now v → IsPendingAs pending.now (pending_in v)
        → HasReservedRange v id off (length bytes.now)) }
    ensures lane { result ≢ Err refusal.Stopped → lane.new ≡ record lane.old { memory = lane.new.memory } }
    ensures stopped_lane { IfErr result (λ r. work_refusal lane.old ≡ None → r ≡ refusal.Stopped → lane.new ≡ record lane.old { memory = lane.new.memory; stopped = true }) }
    ensures causes { IfErr result (λ r. work_refusal lane.old ≡ None → (r ≡ refusal.NotReserved) ⊎ (r ≡ refusal.OutOfRange) ⊎ (r ≡ refusal.Stopped)) }
{
    check_work(lane)?;
    put_at_work(lane, blocks, pending, id, off, bytes)
}
