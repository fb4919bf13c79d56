ghost use Rattle.std.specs.Prelude.{◌≡◌, ◌-◌, ◌≤◌, [], length};
ghost use Rattle.pm_view.specs.View.{View};
ghost use Rattle.pm_lock.specs.Acquiring.{Acquired, CanAcquire, TriedObjects, lacks_place, to_take};
ghost use Rattle.pm_lock.specs.Wants.{PlannedAll};

use crate::finding::find_all;
use crate::taking::{lock_all, try_all};
use crate::wants::plan_wants;
use arrayvec::ArrayVec;
use pm_memory::Stopped;
use pm_objects::{Refusal, Want};
use pm_world::{HeldLock, Lane, LawfulMem};
use std::sync::Wait;

/// Plans the locks that the lane is to take.
fn plan_objects<M: LawfulMem>(
    lane: &Lane<M>,
    new: &[u64],
    wants: &[Want],
    plan: &mut ArrayVec<HeldLock, 64>,
) -> Result<(), Refusal>
    requires { plan.old.items ≡ [] }
    ensures few { length lane.now.locks.items ≤ 64 }
    ensures planned { PlannedAll (to_take lane.now new.now wants.now) (lacks_place lane.now wants.now)
        (64 - length lane.now.locks.items) plan.new.items result }
{
    plan_wants(
        lane.shape,
        lane.pool,
        lane.locks.as_slice(),
        new,
        wants,
        plan,
    )
}

/// Waits for the locks of the objects that a call wants, in rising place, and looks under each for
/// its object: pmemobj_tx_begin(3). `new` are the lines of objects that are new in the call.
///
/// # Errors
///
/// - `LocksFull`: the lane would hold more than 64 locks; nothing is done.
/// - `NoObject`: an id has not the form of an object's, and nothing is done; or under a lock no
///   object stands, and the lane holds all of the locks.
/// - `Stopped`: a lock is not free, and some lane is at its stop number; the locks before it are held.
pub fn lock_objects<M: LawfulMem, R: Wait>(
    rt: &R,
    lane: &mut Lane<M>,
    new: &[u64],
    wants: &[Want],
) -> Result<(), Refusal>
    requires { (v : View) × CanAcquire M.at lane.old new.now v }
    ensures { Acquired M.at new.now wants.now lane.old lane.new result }
{
    let mut plan = ArrayVec::new();
    if let Err(refusal) = plan_objects(lane, new, wants, &mut plan) {
        return Err(refusal);
    }
    if let Err(Stopped) = lock_all(rt, lane, plan.as_slice()) {
        return Err(Refusal::Stopped);
    }
    if find_all(&mut lane.memory, lane.shape, plan.as_slice()) {
        Ok(())
    } else {
        Err(Refusal::NoObject)
    }
}

/// Tries the locks of the objects that are wanted inside a transaction, each once, and looks under each
/// for its object. A lock that the lane holds stays as it is. `new` are the lines of objects that are
/// new in the call.
///
/// # Errors
///
/// - `LocksFull`: the lane would hold more than 64 locks; nothing is done.
/// - `NoObject`: an id has not the form of an object's, and nothing is done; or under a lock no
///   object stands, and the lane holds all of the locks.
/// - `Busy`: another lane had a lock; those before it are held.
pub fn try_objects<M: LawfulMem>(
    lane: &mut Lane<M>,
    new: &[u64],
    wants: &[Want],
) -> Result<(), Refusal>
    requires { (v : View) × CanAcquire M.at lane.old new.now v }
    ensures { TriedObjects M.at new.now wants.now lane.old lane.new result }
{
    let mut plan = ArrayVec::new();
    if let Err(refusal) = plan_objects(lane, new, wants, &mut plan) {
        return Err(refusal);
    }
    if !try_all(lane, plan.as_slice()) {
        return Err(Refusal::Busy);
    }
    if find_all(&mut lane.memory, lane.shape, plan.as_slice()) {
        Ok(())
    } else {
        Err(Refusal::NoObject)
    }
}
