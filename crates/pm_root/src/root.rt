ghost use Rattle.std.specs.Prelude.{◌≡◌, false};
ghost use Rattle.pm_call.specs.Between.{IsLaneBetween};
ghost use Rattle.pm_root.specs.Root.{FieldsStay, RootFound};
ghost use Rattle.pm_root.specs.Root as root;

use pm_call::{open_call, stop};
use pm_lock::{give_back, lock_root};
use pm_memory::Stopped;
use pm_objects::{Oid, Refusal};
use pm_world::{Lane, LawfulMem};
use std::sync::Wait;

/// The root's id in the pool with this id, by the root word; null where that is 0.
fn id_of(pool: u64, word: u64) -> Oid
    ensures { result ≡ root.id_of pool word }
{
    if word == 0 {
        Oid::NULL
    } else {
        Oid { pool, off: word }
    }
}

/// The id of the pool's root, null where there is none: pmemobj_root(3). The lane waits for the lock
/// of line 0, for reading, looks at the root word under it, and gives it back at once. It is no call:
/// nothing is told, no commit number is drawn, and no counted memory call is made.
///
/// # Errors
///
/// - `Stopped`: the lane had stopped, and nothing is done; or the lock is not free, and some lane is
///   at its stop number; the lane says that it stopped.
/// - `InTx`: a transaction is open; nothing is done.
/// - `Spent`: no commit number is left; nothing is done but a look at how many were drawn.
pub fn root_id<M: LawfulMem, R: Wait>(rt: &R, lane: &mut Lane<M>) -> Result<Oid, Refusal>
    requires { lane.old.stopped ≡ false → lane.old.level ≡ 0 → IsLaneBetween M.at lane.old }
    ensures found { RootFound M.at lane.old lane.new result }
    ensures stays { FieldsStay lane.old lane.new result }
{
    if lane.stopped {
        return Err(Refusal::Stopped);
    }
    if lane.level > 0 {
        return Err(Refusal::InTx);
    }
    open_call(lane)?;
    match lock_root(rt, lane, false) {
        Ok(word) => {
            give_back(lane);
            Ok(id_of(lane.pool, word))
        }
        Err(Stopped) => Err(stop(lane)),
    }
}
