ghost use Rattle.std.specs.Prelude.{◌≡◌, ◌+◌, ◌*◌, ◌^◌, ◌<◌, length, true};
ghost use Rattle.pm_crash.specs.Writes.{written_word};
ghost use Rattle.pm_model.specs.Transaction.{covered_words};
ghost use Rattle.pm_objects.specs.declared.calls.Operation.TheVariants.{Write};
ghost use Rattle.pm_plan.specs.Plans.{IsReady, Runs};
ghost use Rattle.pm_world.specs.LaneFields.{Standing, Works};
ghost use Rattle.pm_call.specs.At.{At};
ghost use Rattle.pm_call.specs.Did.{Acted, Found, IsAtSo};
ghost use Rattle.pm_call.specs.Plans.{puts, writes_word, writes_words};
ghost use Rattle.pm_call.specs.Ranges.{HasRange};
ghost use Rattle.pm_call.specs.Writing.{MayPut, RangesMayBeWritten};

use pm_layout::WORD_BYTES;
use pm_memory::Stopped;
use pm_objects::{Oid, Refusal};
use pm_plan::{look, store};
use pm_undo::are_recorded;
use pm_words::patch;
use pm_world::{Lane, LawfulMem, LentOperation};

/// How many words have some of so many bytes from a place on.
pub fn count_words(place: u64, len: u64) -> u64
    requires { place + len < 2 ^ 60 }
    ensures { result ≡ length (covered_words place len) }
{
    if len == 0 {
        return 0;
    }
    (place + len - 1) / WORD_BYTES + 1 - place / WORD_BYTES
}

/// The word with those of its bytes replaced that are among the bytes written from a place on.
pub fn patched_word(place: u64, bytes: &[u8], word: u64, x: u64) -> u64
    requires range { place + length bytes.now < 2 ^ 60 }
    requires above { place < 8 * word + 8 }
    requires below { 8 * word < place + length bytes.now }
    ensures { result ≡ written_word place bytes.now word x }
{
    let at = WORD_BYTES * word;
    let from = place.saturating_sub(at);
    let skipped = at.saturating_sub(place) as usize;
    let end = (skipped + (WORD_BYTES - from) as usize).min(bytes.len());
    patch(x, from as usize, &bytes[skipped..end])
}

/// Puts its bytes into one word of those that they cover.
fn write_word<M: LawfulMem>(mem: &mut M, place: u64, bytes: &[u8], word: u64) -> Result<(), Stopped>
    requires range { place + length bytes.now < 2 ^ 60 }
    requires above { place < 8 * word + 8 }
    requires below { 8 * word < place + length bytes.now }
    requires ready { IsReady (M.at mem.old) (writes_word place bytes.now word) }
    ensures { Runs (M.at mem.old) (M.at mem.new) (writes_word place bytes.now word) result }
{
    let x = look(mem, word);
    store(mem, word, patched_word(place, bytes, word, x))
}

/// Writes bytes from a byte place of the pool on: each word that they cover, in rising place, is
/// looked at and stored; its other bytes stay.
pub fn write_words<M: LawfulMem>(mem: &mut M, place: u64, bytes: &[u8]) -> Result<(), Stopped>
    requires range { place + length bytes.now < 2 ^ 60 }
    requires ready { IsReady (M.at mem.old) (writes_words place bytes.now) }
    ensures { Runs (M.at mem.old) (M.at mem.new) (writes_words place bytes.now) result }
{
    for i in 0..count_words(place, bytes.len() as u64) {
        write_word(mem, place, bytes, place / WORD_BYTES + i)?;
    }
    Ok(())
}

/// Checks that bytes may be written into a range that is the lane's to write: each word of it has a
/// record.
///
/// # Errors
///
/// `NotAdded`: a word has none; nothing is done.
pub fn check_recorded<M: LawfulMem>(
    lane: &Lane<M>,
    id: Oid,
    off: u64,
    bytes: &[u8],
) -> Result<(), Refusal>
    requires { IsAtSo M.at lane.now (λ s. HasRange s id off (length bytes.now) true) }
    ensures { (s : Standing) → Works M.at lane.now s → At s → HasRange s id off (length bytes.now) true
        → Found M.at lane.now (λ s done. MayPut s id off bytes.now) (Write id off bytes.now) result s }
{
    if are_recorded(
        lane.log.records.as_slice(),
        id.off + off,
        bytes.len() as u64,
    ) {
        Ok(())
    } else {
        Err(Refusal::NotAdded)
    }
}

/// Writes bytes into an object from byte `off` on, where the range is the lane's to write and
/// recorded, and adds the write to the call. Makes exactly the memory calls of `puts`.
///
/// # Errors
///
/// `Stopped`: the lane came to its stop; the first of the calls are made.
pub fn do_write<M: LawfulMem>(
    lane: &mut Lane<M>,
    id: Oid,
    off: u64,
    bytes: &[u8],
) -> Result<(), Refusal>
    requires { IsAtSo M.at lane.old (λ s. MayPut s id off bytes.now) }
    ensures { Acted M.at lane.old lane.new (λ s. MayPut s id off bytes.now) (Write id off bytes.now)
        (λ v. puts id off bytes.now) (λ v x. Unit) result }
{
    match write_words(&mut lane.memory, id.off + off, bytes) {
        Ok(()) => {
            lane.memory
                .tell(LentOperation::Write { id, off, bytes }, None);
            Ok(())
        }
        Err(Stopped) => Err(Refusal::Stopped),
    }
}

/// A law: a lane at work that recorded the words of a range may put bytes in and tell it, and is at
/// work then. No code runs.
pub fn ranges_may_be_written()
    ensures { RangesMayBeWritten }
{}
