//! Objects freed in a transaction.

ghost use Rattle.std.specs.Prelude.{◌≡◌, ◌≢◌, ◌⊎◌, ℕ, ◌+◌, ◌*◌, ◌<◌, ◌≤◌, [], find, None, Some, Ok, Err, true, false, length, slice_index, is_some, All, IfErr, IfOk, IfSome, IsNone, IsTrue, OnOk, map};
ghost use Rattle.solo_crash.specs.OpenCall.{lock_of};
ghost use Rattle.solo_crash.specs.Operations.{IsGone, entries_so_far, has_at};
ghost use Rattle.solo_model.specs.Actions.{max_entries};
ghost use Rattle.solo_made.specs.Made.{BlockLists, begins_at};
ghost use Rattle.solo_model.specs.Transaction.{is_locked};
ghost use Rattle.pm_objects.specs.declared.calls.Operation.TheVariants.{Free};
ghost use Rattle.pm_objects.specs.declared.history.TxErr.TheVariants as error;
ghost use Rattle.pm_objects.specs.declared.refusal.Refusal.{Refusal};
ghost use Rattle.pm_objects.specs.declared.refusal.Refusal.TheVariants as refusal;
ghost use Rattle.solo_tx.specs.Calls.{HasLooked};
ghost use Rattle.solo_tx.specs.Learning.{Looks};
ghost use Rattle.solo_tx.specs.Stages.{work_refusal};
ghost use Rattle.solo_view.specs.Steps.Step.{Tell};
ghost use Rattle.solo_view.specs.View.{View};
ghost use Rattle.solo_memory.specs.Runs.{Made};
ghost use Rattle.solo_world.specs.Lanes.{lock_of as view_lock};
ghost use Rattle.solo_world.specs.Opening.{Opening};
ghost use Rattle.solo_world.specs.declared.lane.HeldLock.{HeldLock};
ghost use Rattle.solo_world.specs.declared.lane.Stage.TheVariants as stage;
ghost use Rattle.solo_transaction.specs.AtWork.{HasBlock, HasLookedWith, IsAtWorkWith};
ghost use Rattle.solo_transaction.specs.Freeing.{CanFree, HasFreed, IsFreeGivenUp, IsFreeRefused, IsFreeStopped, IsOwned, lines_of, writes_line};
ghost use Rattle.solo_transaction.specs.declared.freeing.Owned.{Owned};
ghost use Rattle.solo_transaction.specs.declared.freeing.Owned.TheVariants as is;

use pm_objects::{Oid, Operation, Refusal};
use solo_made::CallBlocks;
use solo_tx::{check_work, refuse};
use solo_world::{HeldLock, Lane, LawfulMem, MAX_ENTRIES};

/// Bytes of a line.
const LINE_BYTES: u64 = 64;

/// The word of a pool that has its root's offset.
const ROOT_WORD: u64 = 64;

/// An object that the lane may use as its call's own: it made it, or it found it and holds it for writing, with a block of so many lines.
#[derive(Clone, Copy, Debug, PartialEq, Eq)]
pub(crate) enum Owned {
    Made,
    Found(u64),
}

/// The first of these locks that is of the line, for writing.
fn lock_at(locks: &[HeldLock], line: u64) -> Option<HeldLock>
    ensures { result ≡ find (writes_line line) locks.now }
{
    locks
        .iter()
        .copied()
        .find(|lock| lock.line == line && lock.write)
}

/// How many lines the block of the object at the offset has, where one of these locks is its own, for writing, and a block was found under it.
pub(crate) fn held_block(locks: &[HeldLock], off: u64) -> Option<u64>
    ensures some { IfSome result (λ lines. HasBlock locks.now off lines) }
    ensures none { IsNone result → All (λ (l : HeldLock). IsTrue (is_some l.block)) locks.now → is_locked (map lock_of (map view_lock locks.now)) off true ≡ false }
{
    if off < LINE_BYTES || off % LINE_BYTES != 0 {
        return None;
    }
    let lock = lock_at(locks, off / LINE_BYTES - 1)?;
    lock.block
}

/// Whether the object is one that the call made, or found and holds for writing. `NotLocked` where it is neither, and `NoObject` where it is gone.
pub(crate) fn owned_at<M: LawfulMem>(
    lane: &Lane<M>,
    blocks: &CallBlocks,
    id: Oid,
) -> Result<Owned, Refusal>
    ensures ok { IfOk result (λ owned. (o : Opening) (v : View) → IsAtWorkWith o M.at lane.now blocks.now v → IsOwned v id owned) }
    ensures not_locked { result ≡ Err refusal.NotLocked → (o : Opening) (v : View) → IsAtWorkWith o M.at lane.now blocks.now v → id.pool ≡ v.pool → has_at v id.off true ≡ false }
    ensures gone { result ≡ Err refusal.NoObject → (o : Opening) (v : View) → IsAtWorkWith o M.at lane.now blocks.now v → IsGone v id true }
    ensures causes { IfErr result (λ r. (r ≡ refusal.NotLocked) ⊎ (r ≡ refusal.NoObject)) }
{
    if id.pool != lane.pool {
        return Err(Refusal::NotLocked);
    }
    if blocks.is_gone(id.off) {
        return Err(Refusal::NoObject);
    }
    if blocks.made_at(id.off).is_some() {
        return Ok(Owned::Made);
    }
    match held_block(lane.locks.as_slice(), id.off) {
        Some(lines) => Ok(Owned::Found(lines)),
        None => Err(Refusal::NotLocked),
    }
}

/// Looks at the root's offset: 0 where there is no root.
pub(crate) fn load_root<M: LawfulMem>(lane: &mut Lane<M>) -> u64
    requires at_work { (blocks : BlockLists) × ((o : Opening) × ((v : View) × IsAtWorkWith o M.at lane.old blocks v)) }
    ensures looked { (blocks : BlockLists) (o : Opening) (v : View) → IsAtWorkWith o M.at lane.old blocks v
        → HasLookedWith o M.at lane.new blocks v (λ w. slice_index w.words 64 ≡ result) }
    ensures else_same { lane.new ≡ record lane.old { memory = lane.new.memory } }
{
    lane.memory.load(ROOT_WORD)
}

/// Whether the log has room for one entry more, and for the one that ends the generation.
pub(crate) fn has_room<M: LawfulMem>(lane: &Lane<M>, blocks: &CallBlocks) -> bool
    ensures yes { IsTrue result → (o : Opening) (v : View) → IsAtWorkWith o M.at lane.now blocks.now v → entries_so_far v + 2 ≤ max_entries }
    ensures no_ { result ≡ false → (o : Opening) (v : View) → IsAtWorkWith o M.at lane.now blocks.now v → max_entries < entries_so_far v + 2 }
    ensures few { IsTrue result → length blocks.now.freed < 63 }
    ensures few_made { IsTrue result → length blocks.now.made < 63 }
{
    let published = lane.entries.len() + 2;
    published <= MAX_ENTRIES && blocks.count() <= MAX_ENTRIES - published
}

/// Whether the lane may free the object, where the root is at this offset. `NotLocked`, `NoObject`, `RootKept` or `ActionsFull` is the first
/// reason why not.
fn check_free<M: LawfulMem>(
    lane: &Lane<M>,
    blocks: &CallBlocks,
    id: Oid,
    root: u64,
) -> Result<Owned, Refusal>
    ensures ok { IfOk result (λ owned. (o : Opening) (v : View) → IsAtWorkWith o M.at lane.now blocks.now v → slice_index v.words 64 ≡ root → CanFree v id owned) }
    ensures few { IfOk result (λ owned. owned ≢ is.Made → length blocks.now.freed < 63) }
    ensures refused { IfErr result (λ r. (o : Opening) (v : View) → IsAtWorkWith o M.at lane.now blocks.now v → slice_index v.words 64 ≡ root → IsFreeRefused v id r) }
    ensures causes { IfErr result (λ r. (r ≡ refusal.NotLocked) ⊎ (r ≡ refusal.NoObject) ⊎ (r ≡ refusal.RootKept) ⊎ (r ≡ refusal.ActionsFull)) }
{
    let owned = owned_at(lane, blocks, id)?;
    if root == id.off {
        return Err(Refusal::RootKept);
    }
    if owned != Owned::Made && !has_room(lane, blocks) {
        return Err(Refusal::ActionsFull);
    }
    Ok(owned)
}

/// How many lines the block of an object has that was found; none are known of one that the call made.
fn lines_of(owned: Owned) -> u64
    ensures { result ≡ lines_of owned }
{
    match owned {
        Owned::Made => 0,
        Owned::Found(lines) => lines,
    }
}

/// Tells that the object is freed, and lists it so.
fn tell_freed<M: LawfulMem>(lane: &mut Lane<M>, blocks: &mut CallBlocks, id: Oid, owned: Owned)
    requires can { (o : Opening) × ((v : View) × (IsAtWorkWith o M.at lane.old blocks.old v × CanFree v id owned)) }
    requires few { owned ≢ is.Made → length blocks.old.freed < 63 }
    ensures done { (o : Opening) (v : View) → IsAtWorkWith o M.at lane.old blocks.old v → CanFree v id owned → HasFreed o M.at lane.new blocks.new v id }
    ensures else_same { lane.new ≡ record lane.old { memory = lane.new.memory } }
{
    lane.memory.tell(&Operation::Free { id }, None);
    blocks.free(id.off, lines_of(owned));
}

/// Frees the object in a transaction at work, or gives it up.
fn free_at_work<M: LawfulMem>(
    lane: &mut Lane<M>,
    blocks: &mut CallBlocks,
    id: Oid,
) -> Result<(), Refusal>
    requires at_work { (o : Opening) × ((v : View) × IsAtWorkWith o M.at lane.old blocks.old v) }
    ensures done { OnOk result ((o : Opening) (v : View) → IsAtWorkWith o M.at lane.old blocks.old v → HasLooked v (λ w. HasFreed o M.at lane.new blocks.new w id)) }
    ensures lane { OnOk result (lane.new ≡ record lane.old { memory = lane.new.memory }) }
    ensures given_up { IfErr result (λ r. r ≢ refusal.Stopped → (o : Opening) (v : View) → IsAtWorkWith o M.at lane.old blocks.old v
        → HasLooked v (IsFreeGivenUp M.at lane.new lane.old.records.items id r)) }
    ensures none { IfErr result (λ r. r ≢ refusal.Stopped → lane.new.records.items ≡ []) }
    ensures given_up_lane { IfErr result (λ r. r ≢ refusal.Stopped
        → lane.new ≡ record lane.old { memory = lane.new.memory; records = lane.new.records; entries = lane.new.entries; stage = stage.OnAbort; error = error.Refused r; drawn = Some lane.new.last; last = lane.new.last }) }
    ensures stopped { IfErr result (λ r. r ≡ refusal.Stopped → (o : Opening) (v : View) → IsAtWorkWith o M.at lane.old blocks.old v
        → HasLooked v (IsFreeStopped M.at lane.new lane.old.records.items id)) }
    ensures stopped_lane { IfErr result (λ r. r ≡ refusal.Stopped
        → lane.new ≡ record lane.old { memory = lane.new.memory; records = lane.new.records; drawn = lane.new.drawn; last = lane.new.last; stopped = true }) }
    ensures unlisted { IfErr result (λ r. blocks.new ≡ blocks.old) }
    ensures causes { IfErr result (λ r. (r ≡ refusal.NotLocked) ⊎ (r ≡ refusal.NoObject) ⊎ (r ≡ refusal.RootKept) ⊎ (r ≡ refusal.ActionsFull) ⊎ (r ≡ refusal.Stopped)) }
{
    let root = load_root(lane);
    match check_free(lane, blocks, id, root) {
        Ok(owned) => {
            tell_freed(lane, blocks, id, owned);
            Ok(())
        }
        Err(why) => Err(refuse(lane, &Operation::Free { id }, why)),
    }
}

/// Frees an object that the transaction found and holds for writing, or one that it made: pmemobj_tx_free(3). Its block is given back at the
/// commit; from now on the object is gone. `NotLocked` where the call neither made it nor holds it for writing, `NoObject` where it is gone,
/// `RootKept` where it is the root, and `ActionsFull` where the log has no room for its entry: each gives the transaction up. `NotWork` and
/// `NoTx` for the transaction's stage, and `Stopped` where the lane had stopped, change nothing; `Stopped` where it comes to its stop as it
/// gives the transaction up leaves the first of the memory calls made.
pub fn free<M: LawfulMem>(
    lane: &mut Lane<M>,
    blocks: &mut CallBlocks,
    id: Oid,
) -> Result<(), Refusal>
    requires at_work { work_refusal lane.old ≡ None → (o : Opening) × ((v : View) × IsAtWorkWith o M.at lane.old blocks.old v) }
    ensures refused { (r : Refusal) → work_refusal lane.old ≡ Some r → (result ≡ Err r) × ((lane.new ≡ lane.old) × (blocks.new ≡ blocks.old)) }
    ensures done { OnOk result ((o : Opening) (v : View) → IsAtWorkWith o M.at lane.old blocks.old v → HasLooked v (λ w. HasFreed o M.at lane.new blocks.new w id)) }
    ensures lane { OnOk result (lane.new ≡ record lane.old { memory = lane.new.memory }) }
    ensures given_up { IfErr result (λ r. work_refusal lane.old ≡ None → r ≢ refusal.Stopped → (o : Opening) (v : View) → IsAtWorkWith o M.at lane.old blocks.old v
        → HasLooked v (IsFreeGivenUp M.at lane.new lane.old.records.items id r)) }
    ensures none { IfErr result (λ r. work_refusal lane.old ≡ None → r ≢ refusal.Stopped → lane.new.records.items ≡ []) }
    ensures given_up_lane { IfErr result (λ r. work_refusal lane.old ≡ None → r ≢ refusal.Stopped
        → lane.new ≡ record lane.old { memory = lane.new.memory; records = lane.new.records; entries = lane.new.entries; stage = stage.OnAbort; error = error.Refused r; drawn = Some lane.new.last; last = lane.new.last }) }
    ensures stopped { IfErr result (λ r. work_refusal lane.old ≡ None → r ≡ refusal.Stopped → (o : Opening) (v : View) → IsAtWorkWith o M.at lane.old blocks.old v
        → HasLooked v (IsFreeStopped M.at lane.new lane.old.records.items id)) }
    ensures stopped_lane { IfErr result (λ r. work_refusal lane.old ≡ None → r ≡ refusal.Stopped
        → lane.new ≡ record lane.old { memory = lane.new.memory; records = lane.new.records; drawn = lane.new.drawn; last = lane.new.last; stopped = true }) }
    ensures unlisted { IfErr result (λ r. blocks.new ≡ blocks.old) }
    ensures causes { IfErr result (λ r. work_refusal lane.old ≡ None → (r ≡ refusal.NotLocked) ⊎ (r ≡ refusal.NoObject) ⊎ (r ≡ refusal.RootKept) ⊎ (r ≡ refusal.ActionsFull) ⊎ (r ≡ refusal.Stopped)) }
{
    check_work(lane)?;
    Ok(free_at_work(lane, blocks, id)?)
}
