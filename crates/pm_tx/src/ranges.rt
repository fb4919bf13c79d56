ghost use Rattle.std.specs.Prelude.{◌≡◌, None, length};
ghost use Rattle.pm_objects.specs.declared.calls.Operation.TheVariants.{AddRange, Read, Write};
ghost use Rattle.pm_call.specs.Adding.{HasCounted};
ghost use Rattle.pm_call.specs.Did as did;
ghost use Rattle.pm_call.specs.Did.{Checked, Did, IsAt, Tried};
ghost use Rattle.pm_call.specs.Plans.{adds, gets, puts};
ghost use Rattle.pm_call.specs.Reading.{HasRead};
ghost use Rattle.pm_call.specs.Writing.{MayPut};
ghost use Rattle.pm_tx.specs.Buffers.{IsReadInto};

use pm_call::{
    check_range, check_recorded, check_words, do_add, do_read, do_write, refuse, work_refusal,
};
use pm_objects::{Oid, Operation, Refusal};
use pm_world::{Lane, LawfulMem, LentOperation};

/// Checks the range, and records it.
fn try_add<M: LawfulMem>(lane: &mut Lane<M>, id: Oid, off: u64, len: u64) -> Result<u64, Refusal>
    requires { IsAt M.at lane.old }
    ensures { Tried M.at lane.old lane.new (AddRange id off len) (λ v. adds id off len)
        (HasCounted id off len) result }
{
    match check_words(lane, id, true, off, len) {
        Ok(()) => do_add(lane, id, off, len),
        Err(why) => Err(why),
    }
}

/// Records what a range of an object holds, `len` bytes from byte `off` of the object on, so that
/// it may be written and is put back if the transaction is given up: pmemobj_tx_add_range(3). The
/// object's lock is held for writing. Whole words are recorded, none twice: how many words had no
/// record yet. Makes exactly the memory calls of `adds`.
///
/// # Errors
///
/// - `Stopped`: the lane had stopped, and nothing is done; or it comes to its stop, the first of
///   the calls are made, and the lane says that it stopped.
/// - `NoTx`: no transaction is open; nothing is done.
/// - `NotWork`: the transaction is past its work; nothing is done.
/// - `NotLocked`: the object is not locked for writing; the transaction is given up.
/// - `OutOfRange`: the range passes the object's end; the transaction is given up.
/// - `LogFull`: more records are needed than are free of 64; the transaction is given up.
#[tactic(auto, using(pm_call::proofs::Calls::did_ok, pm_call::proofs::Calls::did_err, pm_call::proofs::Calls::did_nothing, pm_call::proofs::Calls::refused_so))]
pub fn add_range<M: LawfulMem>(
    lane: &mut Lane<M>,
    id: Oid,
    off: u64,
    len: u64,
) -> Result<u64, Refusal>
    requires { did.work_refusal lane.old ≡ None → IsAt M.at lane.old }
    ensures { Did M.at lane.old lane.new (AddRange id off len) (λ v. adds id off len)
        (HasCounted id off len) result }
{
    if let Some(why) = work_refusal(lane) {
        return Err(why);
    }
    match try_add(lane, id, off, len) {
        Ok(count) => Ok(count),
        Err(why) => {
            let operation = Operation::AddRange { id, off, len };
            Err(refuse(lane, LentOperation::Whole(&operation), why))
        }
    }
}

/// Checks that the lane has a range of an object for writing, and that each word of it has a
/// record.
fn check_write<M: LawfulMem>(
    lane: &mut Lane<M>,
    id: Oid,
    off: u64,
    bytes: &[u8],
) -> Result<(), Refusal>
    requires { IsAt M.at lane.old }
    ensures { Checked M.at lane.old lane.new (λ s done. MayPut s id off bytes.now)
        (Write id off bytes.now) result }
{
    match check_range(lane, id, true, off, bytes.len() as u64) {
        Ok(()) => check_recorded(lane, id, off, bytes),
        Err(why) => Err(why),
    }
}

/// Checks the range, and writes it.
#[tactic(auto, using(pm_call::proofs::Calls::tried_err, pm_call::proofs::Calls::tried_then, pm_call::proofs::Calls::checked_so))]
fn try_write<M: LawfulMem>(
    lane: &mut Lane<M>,
    id: Oid,
    off: u64,
    bytes: &[u8],
) -> Result<(), Refusal>
    requires { IsAt M.at lane.old }
    ensures { Tried M.at lane.old lane.new (Write id off bytes.now) (λ v. puts id off bytes.now)
        (λ v done. Unit) result }
{
    match check_write(lane, id, off, bytes) {
        Ok(()) => do_write(lane, id, off, bytes),
        Err(why) => Err(why),
    }
}

/// Writes bytes into an object from its byte `off` on, in place; each word that they cover was
/// recorded by `add_range`, so that they are put back if the transaction is given up. The object's
/// lock is held for writing. Makes exactly the memory calls of `puts`. PMDK has no such call: it
/// stores through a pointer, pmemobj_direct(3).
///
/// # Errors
///
/// - `Stopped`: the lane had stopped, and nothing is done; or it comes to its stop, the first of
///   the calls are made, and the lane says that it stopped.
/// - `NoTx`: no transaction is open; nothing is done.
/// - `NotWork`: the transaction is past its work; nothing is done.
/// - `NotLocked`: the object is not locked for writing; the transaction is given up.
/// - `OutOfRange`: the range passes the object's end; the transaction is given up.
/// - `NotAdded`: a word of the range has no record; the transaction is given up.
#[tactic(auto, using(pm_call::proofs::Calls::did_ok, pm_call::proofs::Calls::did_err, pm_call::proofs::Calls::did_nothing, pm_call::proofs::Calls::refused_so))]
pub fn write<M: LawfulMem>(
    lane: &mut Lane<M>,
    id: Oid,
    off: u64,
    bytes: &[u8],
) -> Result<(), Refusal>
    requires { did.work_refusal lane.old ≡ None → IsAt M.at lane.old }
    ensures { Did M.at lane.old lane.new (Write id off bytes.now) (λ v. puts id off bytes.now)
        (λ v done. Unit) result }
{
    if let Some(why) = work_refusal(lane) {
        return Err(why);
    }
    match try_write(lane, id, off, bytes) {
        Ok(()) => Ok(()),
        Err(why) => Err(refuse(lane, LentOperation::Write { id, off, bytes }, why)),
    }
}

/// Checks the range, and reads it.
fn try_read<M: LawfulMem>(
    lane: &mut Lane<M>,
    id: Oid,
    off: u64,
    into: &mut [u8],
) -> Result<(), Refusal>
    requires { IsAt M.at lane.old }
    ensures buffer { IsReadInto into.old into.new result }
    ensures did { Tried M.at lane.old lane.new (Read id off (length into.old))
        (λ v. gets id off (length into.old)) (HasRead id off (length into.old) into.new) result }
{
    match check_range(lane, id, false, off, into.len() as u64) {
        Ok(()) => {
            do_read(lane, id, off, into);
            Ok(())
        }
        Err(why) => Err(why),
    }
}

/// Reads bytes of an object from its byte `off` on, as many as the buffer has, as the transaction
/// has them. The object's lock is held. Makes exactly the memory calls of `gets`, and loads of the
/// range's words before them; an error leaves the buffer as it was. PMDK has no such call: it reads
/// through a pointer, pmemobj_direct(3).
///
/// # Errors
///
/// - `Stopped`: the lane had stopped, and nothing is done; or it comes to its stop as the
///   transaction is given up, the first of the calls are made, and the lane says that it stopped.
/// - `NoTx`: no transaction is open; nothing is done.
/// - `NotWork`: the transaction is past its work; nothing is done.
/// - `NotLocked`: the object is not locked; the transaction is given up.
/// - `OutOfRange`: the range passes the object's end; the transaction is given up.
pub fn read<M: LawfulMem>(
    lane: &mut Lane<M>,
    id: Oid,
    off: u64,
    into: &mut [u8],
) -> Result<(), Refusal>
    requires { did.work_refusal lane.old ≡ None → IsAt M.at lane.old }
    ensures buffer { IsReadInto into.old into.new result }
    ensures did { Did M.at lane.old lane.new (Read id off (length into.old))
        (λ v. gets id off (length into.old)) (HasRead id off (length into.old) into.new) result }
{
    if let Some(why) = work_refusal(lane) {
        return Err(why);
    }
    let len = into.len() as u64;
    match try_read(lane, id, off, into) {
        Ok(()) => Ok(()),
        Err(why) => {
            let operation = Operation::Read { id, off, len };
            Err(refuse(lane, LentOperation::Whole(&operation), why))
        }
    }
}
