ghost use Rattle.pm_call.specs.Did.{IsAt};
ghost use Rattle.pm_call.specs.WantedTaken.{WantedTaken};
ghost use Rattle.pm_call.specs.WantedTried.{WantedTried};

use pm_lock::{raise_wanted, try_objects};
use pm_objects::{Refusal, Want};
use pm_world::{Lane, LawfulMem};

/// Tries the locks of the objects that an operation inside a transaction wants, each once, and
/// looks under each for its object: pmemobj_tx_lock(3). No lock is raised.
///
/// # Errors
///
/// - `LocksFull`: the lane would hold more than 64 locks; nothing is done.
/// - `NoObject`: an id has not the form of an object's, and nothing is done; or under a lock no
///   object stands, and the lane holds all of the locks.
/// - `Busy`: another lane had a lock; those before it are held.
pub fn try_wanted<M: LawfulMem>(lane: &mut Lane<M>, wants: &[Want]) -> Result<(), Refusal>
    requires { IsAt M.at lane.old }
    ensures { WantedTried M.at lane.old lane.new wants.now result }
{
    try_objects(lane, &[], wants)
}

/// Takes the locks of the objects that an operation inside a transaction wants: tries each once,
/// looks under each for its object, and raises those that are to be written: pmemobj_tx_lock(3).
///
/// # Errors
///
/// - `LocksFull`: the lane would hold more than 64 locks; nothing is done.
/// - `NoObject`: an id has not the form of an object's, and nothing is done; or under a lock no
///   object stands, and the lane holds all of the locks, none of them raised.
/// - `Busy`: another lane had a lock, and those before it are held; or another lane reads under
///   one that is to be raised, and all are held, those before it raised.
pub fn take_wanted<M: LawfulMem>(lane: &mut Lane<M>, wants: &[Want]) -> Result<(), Refusal>
    requires { IsAt M.at lane.old }
    ensures { WantedTaken M.at lane.old lane.new wants.now result }
{
    try_wanted(lane, wants)?;
    if raise_wanted(lane, wants) {
        Ok(())
    } else {
        Err(Refusal::Busy)
    }
}
