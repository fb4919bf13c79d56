ghost use Rattle.std.specs.Prelude.{◌≡◌, ◌+◌, ◌*◌, ◌/◌, ◌%◌, ◌^◌, ◌<◌, ℕ, [], ◌∷◌, false, length, slice_index, Ok};
ghost use Rattle.pm_crash.specs.Looked.{bytes_seen};
ghost use Rattle.pm_objects.specs.declared.calls.Operation.TheVariants.{Read};
ghost use Rattle.pm_plan.specs.Plans.{known_word};
ghost use Rattle.pm_words.specs.Words.{bytes_of};
ghost use Rattle.pm_world.specs.LaneFields.{Standing, Works};
ghost use Rattle.pm_call.specs.At.{At};
ghost use Rattle.pm_call.specs.Did.{Acted, After, IsAtSo};
ghost use Rattle.pm_call.specs.Plans.{gets};
ghost use Rattle.pm_call.specs.Ranges.{HasRange, HasSeen};
ghost use Rattle.pm_call.specs.Reading.{HasRead, RangesMayBeRead};

use crate::writing::count_words;
use pm_layout::WORD_BYTES;
use pm_objects::{Oid, Operation};
use pm_world::{Lane, LawfulMem, LentOperation, LentValue};

/// A law: a lane at work that knows the words of a range may tell their bytes, and is at work then.
/// No code runs.
pub fn ranges_may_be_read()
    ensures { RangesMayBeRead }
{}

/// Copies those bytes of a word that are among the bytes read from a place on.
pub fn copy_bytes(into: &mut [u8], place: u64, word: u64, x: u64)
    requires range { place + length into.old < 2 ^ 60 }
    requires above { place < 8 * word + 8 }
    requires below { 8 * word < place + length into.old }
    ensures as_long { length into.new ≡ length into.old }
    ensures inside { (k : ℕ) → k < length into.old → (place + k) / 8 ≡ word
        → slice_index into.new k ≡ slice_index (bytes_of (x ∷ [])) ((place + k) % 8) }
    ensures before { (k : ℕ) → place + k < 8 * word
        → slice_index into.new k ≡ slice_index into.old k }
{
    let at = WORD_BYTES * word;
    let from = place.saturating_sub(at) as usize;
    let skipped = at.saturating_sub(place) as usize;
    let end = (skipped + (WORD_BYTES as usize - from)).min(into.len());
    let bytes = x.to_le_bytes();
    into[skipped..end].copy_from_slice(&bytes[from..from + (end - skipped)]);
}

/// Looks at each word of a range that the lane has, in rising place, and copies its bytes.
pub fn read_words<M: LawfulMem>(lane: &mut Lane<M>, id: Oid, off: u64, into: &mut [u8])
    requires { IsAtSo M.at lane.old (λ s. HasRange s id off (length into.old) false) }
    ensures as_long { length into.new ≡ length into.old }
    ensures read { (s : Standing) → Works M.at lane.old s → At s
        → HasRange s id off (length into.old) false
        → After s (λ t. HasSeen t id off (length into.old) false
        × (into.new ≡ bytes_seen (known_word t.view) id.off off (length into.old))
        × Works M.at lane.new t × At t) }
{
    let place = id.off + off;
    for i in 0..count_words(place, into.len() as u64) {
        let word = place / WORD_BYTES + i;
        let x = lane.memory.see(word);
        copy_bytes(into, place, word, x);
    }
}

/// Reads bytes of an object from its byte `off` on, where the lane has the range, and adds the read
/// to the call, with its bytes. It looks at each word of the range. Makes exactly the memory calls
/// of `gets` then.
pub fn do_read<M: LawfulMem>(lane: &mut Lane<M>, id: Oid, off: u64, into: &mut [u8])
    requires { IsAtSo M.at lane.old (λ s. HasRange s id off (length into.old) false) }
    ensures as_long { length into.new ≡ length into.old }
    ensures did { Acted M.at lane.old lane.new (λ s. HasRange s id off (length into.old) false)
        (Read id off (length into.old)) (λ v. gets id off (length into.old))
        (HasRead id off (length into.old) into.new) (Ok tt) }
{
    let len = into.len() as u64;
    read_words(lane, id, off, into);
    let operation = Operation::Read { id, off, len };
    lane.memory.tell(
        LentOperation::Whole(&operation),
        Some(LentValue::Bytes(into)),
    );
}
