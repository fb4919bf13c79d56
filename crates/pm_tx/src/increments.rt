ghost use Rattle.std.specs.Prelude.{◌≡◌, None};
ghost use Rattle.pm_objects.specs.declared.calls.Operation.TheVariants.{Increment};
ghost use Rattle.pm_call.specs.Did as did;
ghost use Rattle.pm_call.specs.Did.{Checked, Did, IsAt, Tried};
ghost use Rattle.pm_call.specs.Incrementing.{HasSum, MayIncrement};
ghost use Rattle.pm_call.specs.Plans.{increments};

use pm_call::{check_number, check_range, do_increment, refuse, work_refusal};
use pm_layout::WORD_BYTES;
use pm_objects::{Oid, Operation, Refusal};
use pm_world::{Lane, LawfulMem, LentOperation};

/// Checks that the lane has a number of eight bytes for reading, and then for writing, and that
/// each word of it has a record.
fn check_increment<M: LawfulMem>(
    lane: &mut Lane<M>,
    id: Oid,
    off: u64,
    by: u64,
) -> Result<(), Refusal>
    requires { IsAt M.at lane.old }
    ensures { Checked M.at lane.old lane.new (λ s done. MayIncrement s id off)
        (Increment id off by) result }
{
    match check_range(lane, id, false, off, WORD_BYTES) {
        Ok(()) => check_number(lane, id, off),
        Err(why) => Err(why),
    }
}

/// Checks the number, and adds to it.
fn try_increment<M: LawfulMem>(
    lane: &mut Lane<M>,
    id: Oid,
    off: u64,
    by: u64,
) -> Result<u64, Refusal>
    requires { IsAt M.at lane.old }
    ensures { Tried M.at lane.old lane.new (Increment id off by) (λ v. increments id off by)
        (HasSum id off by) result }
{
    match check_increment(lane, id, off, by) {
        Ok(()) => do_increment(lane, id, off, by),
        Err(why) => Err(why),
    }
}

/// Adds to a number of eight bytes of an object, from its byte `off` on, the lowest first, modulo
/// 2^64: the new number. Each word that they cover was recorded by `add_range`, so that they are
/// put back if the transaction is given up. The object's lock is held for writing. Makes exactly
/// the memory calls of `increments`, and loads of the number's words before them. PMDK has no such
/// call: it stores through a pointer, pmemobj_direct(3).
///
/// # Errors
///
/// - `Stopped`: the lane had stopped, and nothing is done; or it comes to its stop, the first of
///   the calls are made, and the lane says that it stopped.
/// - `NoTx`: no transaction is open; nothing is done.
/// - `NotWork`: the transaction is past its work; nothing is done.
/// - `NotLocked`: the object is not locked; or its eight bytes are within it, and it is locked for
///   reading alone; the transaction is given up.
/// - `OutOfRange`: the eight bytes pass the object's end; the transaction is given up.
/// - `NotAdded`: a word of them has no record; the transaction is given up.
#[tactic(auto, using(pm_call::proofs::Calls::did_ok, pm_call::proofs::Calls::did_err, pm_call::proofs::Calls::did_nothing, pm_call::proofs::Calls::refused_so))]
pub fn increment<M: LawfulMem>(
    lane: &mut Lane<M>,
    id: Oid,
    off: u64,
    by: u64,
) -> Result<u64, Refusal>
    requires { did.work_refusal lane.old ≡ None → IsAt M.at lane.old }
    ensures { Did M.at lane.old lane.new (Increment id off by) (λ v. increments id off by)
        (HasSum id off by) result }
{
    if let Some(why) = work_refusal(lane) {
        return Err(why);
    }
    match try_increment(lane, id, off, by) {
        Ok(number) => Ok(number),
        Err(why) => {
            let operation = Operation::Increment { id, off, by };
            Err(refuse(lane, LentOperation::Whole(&operation), why))
        }
    }
}
