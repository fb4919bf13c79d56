ghost use Rattle.pm_objects.specs.declared.calls.Operation.TheVariants.{AddRange};
ghost use Rattle.pm_call.specs.Adding.{CanAdd, HasCounted, RangesMayBeAdded};
ghost use Rattle.pm_call.specs.Did.{Acted, IsAtSo};
ghost use Rattle.pm_call.specs.Plans.{adds};

use pm_objects::{Oid, Operation, Refusal};
use pm_undo::snapshot;
use pm_world::{Lane, LawfulMem, LentOperation};

/// A law: a lane at work may add a range of an object under its write lock, once it looked at each
/// word of it, where there are slots for the records that it needs; the lane is at work then. No code
/// runs.
pub fn ranges_may_be_added()
    ensures { RangesMayBeAdded }
{}

/// Records the words of a range that have no record yet, and adds the operation to the open call: how
/// many words. The range is of an object under its write lock, `len` bytes from byte `off` of the
/// object on, and each word of it was looked at. Makes exactly the memory calls of `adds`.
///
/// # Errors
///
/// - `LogFull`: more records are needed than are free of 64; nothing is done.
/// - `Stopped`: the lane came to its stop; the first of the calls are made, and the lane's lists stay.
pub fn do_add<M: LawfulMem>(lane: &mut Lane<M>, id: Oid, off: u64, len: u64) -> Result<u64, Refusal>
    requires { IsAtSo M.at lane.old (λ s. CanAdd s id off len) }
    ensures { Acted M.at lane.old lane.new (λ s. CanAdd s id off len) (AddRange id off len)
        (λ v. adds id off len) (HasCounted id off len) result }
{
    match snapshot(lane, id.off + off, len) {
        Ok(count) => {
            let operation = Operation::AddRange { id, off, len };
            lane.memory.tell(LentOperation::Whole(&operation), None);
            Ok(count)
        }
        Err(why) => Err(why),
    }
}
