ghost use Rattle.pm_world.specs.Lent.{operation_of};
ghost use Rattle.pm_call.specs.Did.{IsAt, IsAtSo};
ghost use Rattle.pm_call.specs.LockOps.{BeganInner, LockedWanted};
ghost use Rattle.pm_call.specs.Locking.{IsLocking};

use crate::rollback::refuse;
use crate::trying::take_wanted;
use pm_objects::{Refusal, Want};
use pm_world::{Lane, LawfulMem, LentOperation};

/// How many levels a transaction may have.
const MAX_LEVELS: u64 = 64;

/// Takes the locks that an operation of a transaction at work wants, looks under each for its
/// object, and tells the operation: a lock, or a begin of an inner level. The lane is at this level
/// of the transaction then, 1 to 64: pmemobj_tx_lock(3).
///
/// # Errors
///
/// - `LocksFull`: the lane would hold more than 64 locks; the transaction is given up.
/// - `NoObject`: an id has not the form of an object's, or under its lock no object stands; the
///   transaction is given up.
/// - `Busy`: another lane has a lock, or reads under one that is to be raised; the transaction is
///   given up.
/// - `Stopped`: the lane came to its stop as it gave the transaction up; the first of the calls of
///   `gives_up` are made, and the lane says that it stopped.
pub fn lock_wanted<M: LawfulMem>(
    lane: &mut Lane<M>,
    wants: &[Want],
    operation: LentOperation<'_>,
    level: u64,
) -> Result<(), Refusal>
    requires { IsAtSo M.at lane.old
        (λ s. IsLocking (operation_of operation) wants.now s.level level) }
    ensures { LockedWanted M.at lane.old lane.new (operation_of operation.entry) wants.now level
        result }
{
    match take_wanted(lane, wants) {
        Ok(()) => {
            lane.memory.tell(operation, None);
            lane.level = level;
            Ok(())
        }
        Err(why) => Err(refuse(lane, operation, why)),
    }
}

/// Begins a level inside of a transaction at work, and takes the locks that it wants:
/// pmemobj_tx_begin(3). The lane keeps them until the outermost level ends.
///
/// # Errors
///
/// - `Deep`: the transaction has 64 levels; it is given up, and no lock is tried.
/// - `LocksFull`: the lane would hold more than 64 locks; the transaction is given up.
/// - `NoObject`: an id has not the form of an object's, or under its lock no object stands; the
///   transaction is given up.
/// - `Busy`: another lane has a lock, or reads under one that is to be raised; the transaction is
///   given up.
/// - `Stopped`: the lane came to its stop as it gave the transaction up; the first of the calls of
///   `gives_up` are made, and the lane says that it stopped.
pub fn begin_inner<M: LawfulMem>(lane: &mut Lane<M>, wants: &[Want]) -> Result<(), Refusal>
    requires { IsAt M.at lane.old }
    ensures { BeganInner M.at lane.old lane.new wants.now result }
{
    if lane.level >= MAX_LEVELS {
        return Err(refuse(lane, LentOperation::Begin(wants), Refusal::Deep));
    }
    let level = lane.level + 1;
    lock_wanted(lane, wants, LentOperation::Begin(wants), level)
}
