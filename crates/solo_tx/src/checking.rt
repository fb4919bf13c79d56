ghost use Rattle.std.specs.Prelude.{◌≡◌, ◌≢◌, ◌⊎◌, ◌≤◌, Err, ℕ, ◌+◌, ◌*◌, ◌-◌, ◌/◌, ◌^◌, ◌<◌, Contains, true, false, Bool, IsTrue, IsNone, IfSome, IfErr, OnOk, map};
ghost use Rattle.std.specs.List.{list_any};
ghost use Rattle.solo_crash.specs.OpenCall.{lock_of};
ghost use Rattle.solo_crash.specs.Operations.{HasRange, IsNotAdded, IsNotHeld, PassesEnd};
ghost use Rattle.solo_model.specs.Bytes.{covered_words, is_among};
ghost use Rattle.solo_model.specs.Transaction.{is_locked};
ghost use Rattle.pm_objects.specs.declared.refusal.Refusal.TheVariants as refusal;
ghost use Rattle.solo_undo.specs.Spans.{words_in};
ghost use Rattle.solo_view.specs.View.{View};
ghost use Rattle.solo_world.specs.Lanes.{lock_of as view_lock};
ghost use Rattle.solo_world.specs.Opening.{Opening};
ghost use Rattle.solo_world.specs.declared.lane.Stage.TheVariants as stage;
ghost use Rattle.solo_tx.specs.AtWork.{IsAtWork};
ghost use Rattle.solo_tx.specs.Ending.{IsLaneAtWork};
ghost use Rattle.solo_tx.specs.Learning.{HasChecked};
ghost use Rattle.solo_tx.specs.Ranges.{CanWrite, KnowsRange, is_lock_of};

use crate::learning::learn;
use crate::words::{WORD_BYTES, count_words};
use pm_objects::{Oid, Refusal};
use solo_undo::is_recorded;
use solo_world::{HeldLock, Lane, LawfulMem, Span, Stage};

/// Bytes of a line.
const LINE_BYTES: u64 = 64;

/// Words of a line.
const LINE_WORDS: u64 = 8;

/// Whether one of the locks is of the line, for writing if so asked.
fn holds(locks: &[HeldLock], line: u64, write: bool) -> bool
    ensures { result ≡ list_any (is_lock_of line write) locks.now }
{
    locks
        .iter()
        .any(|lock| lock.line == line && (lock.write || !write))
}

/// The line before which an object of the pool would begin, where a lock of it is among these, for writing if so asked.
pub(crate) fn held_line(locks: &[HeldLock], pool: u64, id: Oid, write: bool) -> Option<u64>
    ensures some { IfSome result (λ line. (id.pool ≡ pool) × (id.off ≡ 64 * line + 64) × (list_any (is_lock_of line write) locks.now ≡ true)) }
    ensures none { IsNone result → id.pool ≡ pool → is_locked (map lock_of (map view_lock locks.now)) id.off write ≡ false }
{
    if id.pool != pool || id.off < LINE_BYTES || id.off % LINE_BYTES != 0 {
        return None;
    }
    let line = id.off / LINE_BYTES - 1;
    if holds(locks, line, write) {
        Some(line)
    } else {
        None
    }
}

/// Whether the lane may use the range of an object, for writing if so asked: `NotLocked` where it doesn't hold the object's lock so, and
/// `OutOfRange` where the range passes the object's end. It looks at the object's size, which it knows.
pub fn check_range<M: LawfulMem>(
    lane: &mut Lane<M>,
    id: Oid,
    off: u64,
    len: u64,
    write: bool,
) -> Result<(), Refusal>
    requires work { IsLaneAtWork M.at lane.old }
    ensures ok { OnOk result ((o : Opening) (v : View) → IsAtWork o M.at lane.old v → HasChecked o M.at lane.new v (λ w. HasRange w id off len write)) }
    ensures not_locked { result ≡ Err refusal.NotLocked → (o : Opening) (v : View) → IsAtWork o M.at lane.old v → HasChecked o M.at lane.new v (λ w. IsNotHeld w id write) }
    ensures out_of_range { result ≡ Err refusal.OutOfRange → (o : Opening) (v : View) → IsAtWork o M.at lane.old v → HasChecked o M.at lane.new v (λ w. PassesEnd w id off len write) }
    ensures causes { IfErr result (λ r. (r ≡ refusal.NotLocked) ⊎ (r ≡ refusal.OutOfRange)) }
    ensures else_same { lane.new ≡ record lane.old { memory = lane.new.memory } }
{
    let Some(line) = held_line(lane.locks.as_slice(), lane.pool, id, write) else {
        return Err(Refusal::NotLocked);
    };
    let size = lane.memory.load(LINE_WORDS * line + 1);
    if off > size || len > size - off {
        return Err(Refusal::OutOfRange);
    }
    Ok(())
}

/// The same, and looks at each word of the range, so that the lane knows them.
pub fn check_words<M: LawfulMem>(
    lane: &mut Lane<M>,
    id: Oid,
    off: u64,
    len: u64,
    write: bool,
) -> Result<(), Refusal>
    requires work { IsLaneAtWork M.at lane.old }
    ensures ok { OnOk result ((o : Opening) (v : View) → IsAtWork o M.at lane.old v → HasChecked o M.at lane.new v (λ w. KnowsRange w id off len write)) }
    ensures not_locked { result ≡ Err refusal.NotLocked → (o : Opening) (v : View) → IsAtWork o M.at lane.old v → HasChecked o M.at lane.new v (λ w. IsNotHeld w id write) }
    ensures out_of_range { result ≡ Err refusal.OutOfRange → (o : Opening) (v : View) → IsAtWork o M.at lane.old v → HasChecked o M.at lane.new v (λ w. PassesEnd w id off len write) }
    ensures causes { IfErr result (λ r. (r ≡ refusal.NotLocked) ⊎ (r ≡ refusal.OutOfRange)) }
    ensures else_same { lane.new ≡ record lane.old { memory = lane.new.memory } }
{
    check_range(lane, id, off, len, write)?;
    learn(&mut lane.memory, id.off + off, len);
    Ok(())
}

/// Whether each word that has some of so many bytes from a place on has a record.
fn are_recorded(records: &[Span], place: u64, len: u64) -> bool
    requires range { place + len < 2 ^ 60 }
    ensures yes { IsTrue result → (i : ℕ) → Contains (covered_words place len) i → is_among (words_in records.now) i ≡ true }
    ensures no_ { result ≡ false → (i : ℕ) × (Contains (covered_words place len) i × (is_among (words_in records.now) i ≡ false)) }
{
    for i in 0..count_words(place, len) {
        if !is_recorded(records, place / WORD_BYTES + i) {
            return false;
        }
    }
    true
}

/// Whether the lane may write the range: as `check_range`, and `NotAdded` where a word of it has no record.
pub fn check_write<M: LawfulMem>(
    lane: &mut Lane<M>,
    id: Oid,
    off: u64,
    len: u64,
) -> Result<(), Refusal>
    requires work { IsLaneAtWork M.at lane.old }
    ensures ok { OnOk result ((o : Opening) (v : View) → IsAtWork o M.at lane.old v → HasChecked o M.at lane.new v (λ w. CanWrite w id off len)) }
    ensures not_locked { result ≡ Err refusal.NotLocked → (o : Opening) (v : View) → IsAtWork o M.at lane.old v → HasChecked o M.at lane.new v (λ w. IsNotHeld w id true) }
    ensures out_of_range { result ≡ Err refusal.OutOfRange → (o : Opening) (v : View) → IsAtWork o M.at lane.old v → HasChecked o M.at lane.new v (λ w. PassesEnd w id off len true) }
    ensures not_added { result ≡ Err refusal.NotAdded → (o : Opening) (v : View) → IsAtWork o M.at lane.old v → HasChecked o M.at lane.new v (λ w. IsNotAdded w id off len true) }
    ensures causes { IfErr result (λ r. (r ≡ refusal.NotLocked) ⊎ (r ≡ refusal.OutOfRange) ⊎ (r ≡ refusal.NotAdded)) }
    ensures else_same { lane.new ≡ record lane.old { memory = lane.new.memory } }
{
    check_range(lane, id, off, len, true)?;
    if are_recorded(lane.records.as_slice(), id.off + off, len) {
        Ok(())
    } else {
        Err(Refusal::NotAdded)
    }
}
