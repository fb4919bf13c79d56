//! Which object a range is of.

ghost use Rattle.std.specs.Prelude.{◌≡◌, ◌+◌, ◌<◌, ◌≤◌, Err, IfErr, OnOk};
ghost use Rattle.solo_crash.specs.CallBlocks.{CallBlocks as Call};
ghost use Rattle.solo_made.specs.Made.{ListsBlocks};
ghost use Rattle.pm_objects.specs.declared.refusal.Refusal.TheVariants as refusal;
ghost use Rattle.solo_transaction.specs.AnyRanges.{Sorts};

use pm_objects::{Oid, Refusal};
use solo_made::CallBlocks;

/// Where the object of a range comes from.
#[derive(Clone, Copy, Debug, PartialEq, Eq, Drop)]
pub(crate) enum Origin {
    /// The transaction found it.
    Found,
    /// The transaction made it.
    Made,
}

/// Whether a range, in bytes, ends in an object of this size, or where that does: `OutOfRange` where it passes the end.
fn check_end(size: u64, off: u64, len: u64) -> Result<(), Refusal>
    ensures ok { OnOk result (off + len ≤ size) }
    ensures past { IfErr result (λ r. (r ≡ refusal.OutOfRange) × (size < off + len)) }
{
    if off > size || len > size - off {
        return Err(Refusal::OutOfRange);
    }
    Ok(())
}

/// Whether the transaction with these lists found or made the object of a range, in bytes, of a pool. `NotLocked` where the id is of another
/// pool, `NoObject` where the object is gone, and `OutOfRange` where the range passes the end of one that was made: of one that was found no
/// more is known here.
pub(crate) fn origin_of(
    blocks: &CallBlocks,
    pool: u64,
    id: Oid,
    off: u64,
    len: u64,
) -> Result<Origin, Refusal>
    ensures { (call : Call) → ListsBlocks blocks.now call → Sorts call pool id off len result }
{
    if id.pool != pool {
        return Err(Refusal::NotLocked);
    }
    if blocks.is_gone(id.off) {
        return Err(Refusal::NoObject);
    }
    match blocks.made_at(id.off) {
        Some(made) => {
            check_end(made.size, off, len)?;
            Ok(Origin::Made)
        }
        None => Ok(Origin::Found),
    }
}
