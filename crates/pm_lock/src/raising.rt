ghost use Rattle.std.specs.Prelude.{◌≡◌, ◌<◌, true, length};
ghost use Rattle.pm_view.specs.View.{View};
ghost use Rattle.pm_world.specs.Lawful.{MayRaise};
ghost use Rattle.pm_lock.specs.Locking.{Stands, lock_at};
ghost use Rattle.pm_lock.specs.Raising.{MayRaiseAll, RaisedAll, RaisedOne, is_raised};
ghost use Rattle.pm_lock.specs.Wants.{is_at_line, wants_to_write};

use crate::places::line_of;
use crate::taking::raise;
use pm_layout::Shape;
use pm_objects::Want;
use pm_world::{HeldLock, Lane, LawfulMem};

/// Whether there is a line, and it is this one.
fn is_at_line(line: Option<u64>, other: u64) -> bool
    ensures { result ≡ is_at_line line other }
{
    match line {
        Some(line) => line == other,
        None => false,
    }
}

/// Whether something is wanted for writing under the lock of the line.
fn wants_to_write(shape: Shape, pool: u64, wants: &[Want], line: u64) -> bool
    ensures { result ≡ wants_to_write shape pool wants.now line }
{
    for want in wants {
        let here = is_at_line(line_of(shape, pool, want.id), line);
        if want.write & here {
            return true;
        }
    }
    false
}

/// Whether the lock is held for reading, and something is wanted for writing under it.
fn is_raised(shape: Shape, pool: u64, wants: &[Want], held: HeldLock) -> bool
    ensures { result ≡ is_raised (wants_to_write shape pool wants.now) held }
{
    let writes = wants_to_write(shape, pool, wants, held.line);
    !held.write & writes
}

/// Raises a lock of the lane's list, where something is wanted for writing under it: whether it is
/// held so now.
fn raise_one<M: LawfulMem>(lane: &mut Lane<M>, wants: &[Want], i: usize) -> bool
    requires inside { i < length lane.old.locks.items }
    requires stands { Stands M.at lane.old (λ v.
        is_raised (wants_to_write lane.old.shape lane.old.pool wants.now) (lock_at lane.old.locks.items i) ≡ true
        → MayRaise v (lock_at lane.old.locks.items i).line) }
    ensures { RaisedOne M.at (wants_to_write lane.old.shape lane.old.pool wants.now) i lane.old lane.new result }
{
    if is_raised(lane.shape, lane.pool, wants, lane.locks[i]) {
        raise(lane, i)
    } else {
        true
    }
}

/// Raises each lock that the lane holds for reading, and under which something is wanted for writing,
/// at one try each, until one is refused: whether all are held for writing now. False is `Busy`:
/// another lane reads; those before it are raised.
pub fn raise_wanted<M: LawfulMem>(lane: &mut Lane<M>, wants: &[Want]) -> bool
    requires { Stands M.at lane.old (λ v. MayRaiseAll v lane.old.locks.items) }
    ensures { RaisedAll M.at (wants_to_write lane.old.shape lane.old.pool wants.now) lane.old lane.new result }
{
    for i in 0..lane.locks.len() {
        if !raise_one(lane, wants, i) {
            return false;
        }
    }
    true
}
