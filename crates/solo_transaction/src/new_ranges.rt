//! Ranges of an object that the transaction made.

ghost use Rattle.std.specs.Prelude.{◌≡◌, length, OnErr, OnOk, None};
ghost use Rattle.solo_crash.specs.Operations.{HasNewRange};
ghost use Rattle.solo_made.specs.Made.{BlockLists};
ghost use Rattle.solo_tx.specs.Ranges.{StopsUndrawn, reads_range, writes_range};
ghost use Rattle.solo_view.specs.View.{View};
ghost use Rattle.solo_world.specs.Opening.{Opening};
ghost use Rattle.solo_world.specs.Sequences.{IsMade, Runs};
ghost use Rattle.solo_transaction.specs.AtWork.{IsAtWorkWith};
ghost use Rattle.solo_transaction.specs.NewRanges.{HasAddedNew, HasReadNew, HasWrittenNew, MayUseNew, adds_new};

use pm_objects::{Oid, Operation};
use solo_memory::Stopped;
use solo_tx::{read_words, write_words};
use solo_world::{Lane, LawfulMem};

/// Tells that a range was asked to be recorded of an object that the transaction made, in bytes: it needs no record. Makes exactly the memory
/// call of `adds_new`.
pub fn do_add_new<M: LawfulMem>(lane: &mut Lane<M>, id: Oid, off: u64, len: u64)
    requires may { MayUseNew M.at lane.old id off len }
    ensures made { IsMade (M.at lane.old.memory) (M.at lane.new.memory) (adds_new id off len) }
    ensures done { (o : Opening) (blocks : BlockLists) (v : View) → IsAtWorkWith o M.at lane.old blocks v → HasNewRange v id off len → HasAddedNew o M.at lane.new blocks v id off len }
    ensures else_same { lane.new ≡ record lane.old { memory = lane.new.memory } }
{
    lane.memory
        .tell(&Operation::AddRange { id, off, len }, None);
}

/// Writes bytes into an object that the transaction made, from this byte of it on, and tells so. Makes exactly the memory calls of
/// `writes_range`, or the first of them up to the lane's stop.
pub fn do_write_new<M: LawfulMem>(
    lane: &mut Lane<M>,
    id: Oid,
    off: u64,
    bytes: &[u8],
) -> Result<(), Stopped>
    requires may { MayUseNew M.at lane.old id off (length bytes.now) }
    ensures ran { Runs (M.at lane.old.memory) (M.at lane.new.memory) (writes_range id off bytes.now) result }
    ensures done { OnOk result ((o : Opening) (blocks : BlockLists) (v : View) → IsAtWorkWith o M.at lane.old blocks v → HasNewRange v id off (length bytes.now) → HasWrittenNew o M.at lane.new blocks v id off bytes.now) }
    ensures stops { OnErr result ((o : Opening) (blocks : BlockLists) (v : View) → IsAtWorkWith o M.at lane.old blocks v → HasNewRange v id off (length bytes.now) → StopsUndrawn (M.at lane.new.memory) v (writes_range id off bytes.now)) }
    ensures else_same { lane.new ≡ record lane.old { memory = lane.new.memory } }
{
    write_words(&mut lane.memory, id.off + off, bytes)?;
    lane.memory.tell_write(id, off, bytes, None);
    Ok(())
}

/// Reads bytes of an object that the transaction made, from this byte of it on, and tells so. Makes exactly the memory calls of `reads_range`.
pub fn do_read_new<M: LawfulMem>(lane: &mut Lane<M>, id: Oid, off: u64, into: &mut [u8])
    requires may { MayUseNew M.at lane.old id off (length into.old) }
    ensures as_long { length into.new ≡ length into.old }
    ensures made { IsMade (M.at lane.old.memory) (M.at lane.new.memory) (reads_range id off (length into.old) into.new) }
    ensures done { (o : Opening) (blocks : BlockLists) (v : View) → IsAtWorkWith o M.at lane.old blocks v → HasNewRange v id off (length into.old) → HasReadNew o M.at lane.new blocks v id off (length into.old) into.new }
    ensures else_same { lane.new ≡ record lane.old { memory = lane.new.memory } }
{
    read_words(&mut lane.memory, id.off + off, into);
    lane.memory.tell_read(id, off, into);
}
