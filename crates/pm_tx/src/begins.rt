ghost use Rattle.std.specs.Prelude.{◌≡◌, false, None};
ghost use Rattle.pm_call.specs.Between.{IsLaneBetween};
ghost use Rattle.pm_call.specs.Did as did;
ghost use Rattle.pm_call.specs.Did.{IsAt};
ghost use Rattle.pm_tx.specs.Begins.{LevelBegun};

use pm_call::{begin_inner, begin_outermost, work_refusal};
use pm_objects::{Refusal, Want};
use pm_world::{Lane, LawfulMem};
use std::sync::Wait;

/// Begins a transaction, or a level inside one that is at work, with the locks of these objects:
/// pmemobj_tx_begin(3). The outermost level opens a call, and waits for its locks in rising place; a
/// level inside tries each once. Under each lock the lane looks for its object. The lane holds them
/// until the outermost level ends.
///
/// # Errors
///
/// - `Stopped`: the lane had stopped, and nothing is done; or at the outermost level a lock is not
///   free, and some lane is at its stop number; or inside, the lane comes to its stop as the
///   transaction is given up. The lane says that it stopped.
/// - `NotWork`: the transaction is past its work; nothing is done.
/// - `Spent`: outside, the lane's generation is 2^62, or 2^62 numbers were drawn; nothing is done.
/// - `Deep`: the transaction has 64 levels; it is given up.
/// - `LocksFull`: the lane would hold more than 64 locks.
/// - `NoObject`: an id has not the form of an object's, or under its lock no object stands.
/// - `Busy`: inside, another lane has a lock, or reads under one that is to be raised.
///
/// After `LocksFull`, `NoObject` or `Busy` the transaction is aborted: inside, all that it did is
/// rolled back; outside, the begin is a call of its own, at level 1, that changes nothing.
pub fn begin<M: LawfulMem, R: Wait>(
    rt: &R,
    lane: &mut Lane<M>,
    wants: &[Want],
) -> Result<(), Refusal>
    requires idle { lane.old.stopped ≡ false → lane.old.level ≡ 0 → IsLaneBetween M.at lane.old }
    requires work { did.work_refusal lane.old ≡ None → IsAt M.at lane.old }
    ensures { LevelBegun M.at lane.old lane.new wants.now result }
{
    match work_refusal(lane) {
        None => begin_inner(lane, wants),
        Some(Refusal::NoTx) => begin_outermost(rt, lane, wants),
        Some(why) => Err(why),
    }
}
