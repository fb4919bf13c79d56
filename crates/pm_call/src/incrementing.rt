ghost use Rattle.std.specs.Prelude.{◌≡◌, ℕ, false};
ghost use Rattle.pm_objects.specs.declared.calls.Operation.TheVariants.{Increment};
ghost use Rattle.pm_world.specs.LaneFields.{Standing, Works};
ghost use Rattle.pm_call.specs.At.{At};
ghost use Rattle.pm_call.specs.Did.{Acted, After, Found, IsAtSo};
ghost use Rattle.pm_call.specs.Incrementing.{HasSum, MayIncrement, NumbersMayBeIncremented};
ghost use Rattle.pm_call.specs.Plans.{increments, known_number};
ghost use Rattle.pm_call.specs.Ranges.{HasRange};

use crate::checking::holds;
use crate::reading::read_words;
use crate::writing::write_words;
use pm_layout::WORD_BYTES;
use pm_memory::Stopped;
use pm_objects::{Oid, Operation, Refusal, Value};
use pm_undo::are_recorded;
use pm_world::{Lane, LawfulMem, LentOperation, LentValue};

/// A law: a lane at work that recorded the words of a number of eight bytes may write its sum with
/// another number, and tell it, and is at work then. No code runs.
pub fn numbers_may_be_incremented()
    ensures { NumbersMayBeIncremented }
{}

/// Checks that a number of eight bytes that the lane may read is its to write: the object is held
/// for writing, and each word of the number has a record.
///
/// # Errors
///
/// - `NotLocked`: the object is held for reading alone; nothing is done.
/// - `NotAdded`: a word has no record; nothing is done.
pub fn check_number<M: LawfulMem>(lane: &Lane<M>, id: Oid, off: u64) -> Result<(), Refusal>
    requires { IsAtSo M.at lane.now (λ s. HasRange s id off 8 false) }
    ensures { (by : ℕ) (s : Standing) → Works M.at lane.now s → At s → HasRange s id off 8 false
        → Found M.at lane.now (λ s done. MayIncrement s id off) (Increment id off by) result s }
{
    if !holds(lane, id, true) {
        return Err(Refusal::NotLocked);
    }
    if are_recorded(lane.log.records.as_slice(), id.off + off, WORD_BYTES) {
        Ok(())
    } else {
        Err(Refusal::NotAdded)
    }
}

/// Reads a number of eight bytes of an object, the lowest first, where it is the lane's to write.
/// It looks at each word of it.
fn read_number<M: LawfulMem>(lane: &mut Lane<M>, id: Oid, off: u64) -> u64
    requires { IsAtSo M.at lane.old (λ s. MayIncrement s id off) }
    ensures { (s : Standing) → Works M.at lane.old s → At s → MayIncrement s id off
        → After s (λ t. (result ≡ known_number t.view id off) × MayIncrement t id off
        × Works M.at lane.new t × At t) }
{
    let mut bytes = [0; WORD_BYTES as usize];
    read_words(lane, id, off, &mut bytes);
    u64::from_le_bytes(bytes)
}

/// Adds to a number of eight bytes of an object, modulo 2^64, where it is the lane's to write and
/// recorded, and adds the increment to the call: the new number. It looks at each word of the
/// number. Makes exactly the memory calls of `increments` then.
///
/// # Errors
///
/// `Stopped`: the lane came to its stop; the first of the calls are made.
pub fn do_increment<M: LawfulMem>(
    lane: &mut Lane<M>,
    id: Oid,
    off: u64,
    by: u64,
) -> Result<u64, Refusal>
    requires { IsAtSo M.at lane.old (λ s. MayIncrement s id off) }
    ensures { Acted M.at lane.old lane.new (λ s. MayIncrement s id off) (Increment id off by)
        (λ v. increments id off by) (HasSum id off by) result }
{
    let number = read_number(lane, id, off).wrapping_add(by);
    match write_words(&mut lane.memory, id.off + off, &number.to_le_bytes()) {
        Ok(()) => {
            let operation = Operation::Increment { id, off, by };
            let value = Value::Number(number);
            lane.memory.tell(
                LentOperation::Whole(&operation),
                Some(LentValue::Whole(&value)),
            );
            Ok(number)
        }
        Err(Stopped) => Err(Refusal::Stopped),
    }
}
