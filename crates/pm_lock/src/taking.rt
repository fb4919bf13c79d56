ghost use Rattle.std.specs.Prelude.{◌≡◌, ◌+◌, ◌<◌, ◌≤◌, true, length, slice_set};
ghost use Rattle.pm_view.specs.Founds.{Found};
ghost use Rattle.pm_view.specs.Steps.Step.{Raise};
ghost use Rattle.pm_view.specs.View.{View};
ghost use Rattle.pm_view.specs.Views.{after};
ghost use Rattle.pm_world.specs.Lawful.{MayRaise, MayTake};
ghost use Rattle.pm_lock.specs.Holding.{MayTakeAll};
ghost use Rattle.pm_lock.specs.Locking.{AllLocked, AllTried, Locked, Raised, Stands, Tried, Waited, lock_at, lock_of};
ghost use Rattle.pm_lock.specs.Steps.{takes};

use pm_memory::Stopped;
use pm_world::{HeldLock, Lane, LawfulMem};
use std::sync::Wait;

/// Tries a line's lock once.
fn try_line<M: LawfulMem>(mem: &mut M, line: u64, write: bool) -> bool
    requires { (v : View) × M.at mem.old v × MayTake v line }
    ensures { (v : View) → M.at mem.old v → MayTake v line → M.at mem.new (after v (takes line write result)) × Found v (takes line write result) }
{
    if write {
        mem.take_write(line)
    } else {
        mem.take_read(line)
    }
}

/// Waits for a line's lock.
fn wait_line<M: LawfulMem, R: Wait>(
    rt: &R,
    mem: &mut M,
    line: u64,
    write: bool,
) -> Result<(), Stopped>
    requires { (v : View) × M.at mem.old v × MayTake v line }
    ensures { Waited M.at line write mem.old mem.new result }
{
    for _ in rt.forever() {
        if try_line(mem, line, write) {
            return Ok(());
        }
        if mem.stop_seen() {
            return Err(Stopped);
        }
    }
    unreachable!()
}

/// Tries a line's lock once: whether the lane holds it now. False is `Busy`: another lane had it.
pub fn try_lock<M: LawfulMem>(lane: &mut Lane<M>, line: u64, write: bool) -> bool
    requires room { length lane.old.locks.items < 64 }
    requires stands { Stands M.at lane.old (λ v. MayTake v line) }
    ensures { Tried M.at line write lane.old lane.new result }
{
    let won = try_line(&mut lane.memory, line, write);
    if won {
        lane.locks.push(HeldLock { line, write });
    }
    won
}

/// Waits for a line's lock, and holds it.
///
/// # Errors
///
/// `Stopped`: the lock is not free, and some lane is at its stop number; no lock is taken.
pub fn lock<M: LawfulMem, R: Wait>(
    rt: &R,
    lane: &mut Lane<M>,
    line: u64,
    write: bool,
) -> Result<(), Stopped>
    requires room { length lane.old.locks.items < 64 }
    requires stands { Stands M.at lane.old (λ v. MayTake v line) }
    ensures { Locked M.at line write lane.old lane.new result }
{
    wait_line(rt, &mut lane.memory, line, write)?;
    lane.locks.push(HeldLock { line, write });
    Ok(())
}

/// Waits for these locks, one after another in rising place, and holds them.
///
/// # Errors
///
/// `Stopped`: one of them is not free, and some lane is at its stop number; those before it are held.
pub fn lock_all<M: LawfulMem, R: Wait>(
    rt: &R,
    lane: &mut Lane<M>,
    locks: &[HeldLock],
) -> Result<(), Stopped>
    requires room { length lane.old.locks.items + length locks.now ≤ 64 }
    requires stands { Stands M.at lane.old (λ v. MayTakeAll v locks.now) }
    ensures { AllLocked M.at locks.now lane.old lane.new result }
{
    for held in locks {
        lock(rt, lane, held.line, held.write)?;
    }
    Ok(())
}

/// Tries each of these locks once, in rising place, until one is refused: whether the lane holds all
/// of them now. False is `Busy`: it holds those before the refused one.
pub fn try_all<M: LawfulMem>(lane: &mut Lane<M>, locks: &[HeldLock]) -> bool
    requires room { length lane.old.locks.items + length locks.now ≤ 64 }
    requires stands { Stands M.at lane.old (λ v. MayTakeAll v locks.now) }
    ensures { AllTried M.at locks.now lane.old lane.new result }
{
    for held in locks {
        if !try_lock(lane, held.line, held.write) {
            return false;
        }
    }
    true
}

/// Tries once to hold a line for writing that is held for reading.
fn raise_line<M: LawfulMem>(mem: &mut M, line: u64) -> bool
    requires { (v : View) × M.at mem.old v × MayRaise v line }
    ensures { (v : View) → M.at mem.old v → MayRaise v line → M.at mem.new (after v (Raise line result)) × Found v (Raise line result) }
{
    mem.raise(line)
}

/// The lock of a lane's list becomes one for writing.
fn mark(locks: &mut [HeldLock], i: usize)
    requires { i < length locks.old }
    ensures { locks.new ≡ slice_set locks.old i (lock_of (lock_at locks.old i).line true) }
{
    locks[i] = HeldLock {
        line: locks[i].line,
        write: true,
    };
}

/// Tries once to hold a lock of the lane's list for writing that it holds for reading: whether it
/// does now. False is `Busy`: another lane reads.
pub fn raise<M: LawfulMem>(lane: &mut Lane<M>, i: usize) -> bool
    requires inside { i < length lane.old.locks.items }
    requires stands { Stands M.at lane.old (λ v. MayRaise v (lock_at lane.old.locks.items i).line) }
    ensures { Raised M.at i lane.old lane.new result }
{
    let won = raise_line(&mut lane.memory, lane.locks[i].line);
    if won {
        mark(lane.locks.as_mut_slice(), i);
    }
    won
}
