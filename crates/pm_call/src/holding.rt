ghost use Rattle.std.specs.Prelude.{◌≡◌, ◌≤◌, ◌==◌, ◌&&◌, ◌||◌, not, IsTrue};
ghost use Rattle.std.specs.List.{list_any};
ghost use Rattle.pm_world.specs.declared.lane.HeldLock.{HeldLock};
ghost use Rattle.pm_call.specs.Held.{is_in_locks};

use pm_world::HeldLock;

/// Whether the lock of the object at an offset is among these, for writing if so asked.
pub fn is_held(locks: &[HeldLock], off: u64, write: bool) -> bool
    ensures held { result ≡ is_in_locks locks.now off write }
    ensures high { IsTrue result → 128 ≤ off }
{
    off % 64 == 0 && off >= 128 && has_line(locks, off / 64 - 1, write)
}

/// Whether the lock of a line is among these, for writing if so asked.
fn has_line(locks: &[HeldLock], line: u64, write: bool) -> bool
    ensures { result
        ≡ list_any (λ (l : HeldLock). l.line == line && (l.write || not write)) locks.now }
{
    locks
        .iter()
        .any(|lock| lock.line == line && (lock.write || !write))
}
