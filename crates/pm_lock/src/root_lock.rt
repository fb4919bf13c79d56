ghost use Rattle.std.specs.Prelude.{◌<◌, length};
ghost use Rattle.pm_lock.specs.Locking.{Stands};
ghost use Rattle.pm_lock.specs.RootLock.{MayLockRoot, RootLocked};

use crate::taking::lock;
use pm_layout::ROOT_WORD;
use pm_memory::Stopped;
use pm_world::{Lane, LawfulMem};
use std::sync::Wait;

/// Waits for the lock of the root word, which is line 0's, and tells the root's offset; 0 for none.
///
/// # Errors
///
/// `Stopped`: the lock is not free, and some lane is at its stop number; no lock is taken.
pub fn lock_root<M: LawfulMem, R: Wait>(
    rt: &R,
    lane: &mut Lane<M>,
    write: bool,
) -> Result<u64, Stopped>
    requires room { length lane.old.locks.items < 64 }
    requires stands { Stands M.at lane.old MayLockRoot }
    ensures { RootLocked M.at write lane.old lane.new result }
{
    if let Err(stopped) = lock(rt, lane, 0, write) {
        return Err(stopped);
    }
    let root = lane.memory.load(ROOT_WORD);
    Ok(root)
}
