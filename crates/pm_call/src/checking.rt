ghost use Rattle.std.specs.Prelude.{◌≡◌, ◌≤◌, true, Bool, IsTrue};
ghost use Rattle.pm_objects.specs.declared.calls.Operation.{Operation};
ghost use Rattle.pm_world.specs.LaneFields.{Standing, Works};
ghost use Rattle.pm_call.specs.At.{At};
ghost use Rattle.pm_call.specs.Did.{After, Checked, IsAt, IsAtSo};
ghost use Rattle.pm_call.specs.Ranges.{HasRange, HasSeen, IsRangeOf, Judged, is_held_so};

use crate::holding::is_held;
use crate::writing::count_words;
use pm_layout::WORD_BYTES;
use pm_objects::{Oid, Refusal};
use pm_world::{Lane, LawfulMem};

/// Whether the lane holds the object, for writing if so asked.
pub fn holds<M: LawfulMem>(lane: &Lane<M>, id: Oid, write: bool) -> bool
    ensures held { (s : Standing) → Works M.at lane.now s → result ≡ is_held_so s id write }
    ensures high { IsTrue result → 128 ≤ id.off }
{
    id.pool == lane.pool && is_held(lane.locks.as_slice(), id.off, write)
}

/// Why a range of an object of this size is refused, if it is.
pub fn judge(held: bool, size: u64, off: u64, len: u64) -> Result<(), Refusal>
    ensures { Judged held size off len result }
{
    match off.checked_add(len) {
        _ if !held => Err(Refusal::NotLocked),
        Some(end) if end <= size => Ok(()),
        _ => Err(Refusal::OutOfRange),
    }
}

/// Checks that the lane has a range of an object: it holds the object, for writing if so asked, and
/// the range ends within it. It looks at the object's size.
///
/// # Errors
///
/// - `NotLocked`: the object's lock is not held so; nothing is done.
/// - `OutOfRange`: the range passes the object's end; nothing is done.
pub fn check_range<M: LawfulMem>(
    lane: &mut Lane<M>,
    id: Oid,
    write: bool,
    off: u64,
    len: u64,
) -> Result<(), Refusal>
    requires { IsAt M.at lane.old }
    ensures { (op : Operation) → IsRangeOf op id off len write
        → Checked M.at lane.old lane.new (λ s done. HasRange s id off len write) op result }
{
    if !holds(lane, id, false) {
        return Err(Refusal::NotLocked);
    }
    let size = lane.memory.see(id.off / 8 - 7);
    judge(holds(lane, id, write), size, off, len)
}

/// Looks at each word of a range that the lane has.
fn look_words<M: LawfulMem>(lane: &mut Lane<M>, id: Oid, off: u64, len: u64)
    requires { IsAtSo M.at lane.old (λ s. (write : Bool) × HasRange s id off len write) }
    ensures { (write : Bool) (s : Standing) → Works M.at lane.old s → At s
        → HasRange s id off len write
        → After s (λ t. HasSeen t id off len write × Works M.at lane.new t × At t) }
{
    let place = id.off + off;
    for i in 0..count_words(place, len) {
        let _found = lane.memory.see(place / WORD_BYTES + i);
    }
}

/// Checks that the lane has a range of an object: it holds the object, for writing if so asked, and
/// the range ends within it. It looks at the object's size and at each word of the range.
///
/// # Errors
///
/// - `NotLocked`: the object's lock is not held so; nothing is done.
/// - `OutOfRange`: the range passes the object's end; nothing is done.
pub fn check_words<M: LawfulMem>(
    lane: &mut Lane<M>,
    id: Oid,
    write: bool,
    off: u64,
    len: u64,
) -> Result<(), Refusal>
    requires { IsAt M.at lane.old }
    ensures { (op : Operation) → IsRangeOf op id off len write
        → Checked M.at lane.old lane.new (λ s done. HasSeen s id off len write) op result }
{
    match check_range(lane, id, write, off, len) {
        Ok(()) => {
            look_words(lane, id, off, len);
            Ok(())
        }
        Err(why) => Err(why),
    }
}
