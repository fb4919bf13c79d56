ghost use Rattle.std.specs.Prelude.{◌≡◌, ◌+◌, ◌-◌, ◌*◌, ◌/◌, ◌%◌, ◌^◌, ◌<◌, ◌≤◌, ℕ, [], ◌∷◌, length, slice_index};
ghost use Rattle.solo_crash.specs.Writes.{written_word};
ghost use Rattle.solo_view.specs.View.{View};
ghost use Rattle.pm_words.specs.Words.{bytes_of};
ghost use Rattle.solo_world.specs.Sequences.{IsMade, IsReady, Ready, Runs};
ghost use Rattle.solo_tx.specs.Sequences.{byte_in, word_count, writes_word, writes, reads};

use pm_words::patch;
use solo_memory::Stopped;
use solo_world::{LawfulMem, store};

/// Bytes of a word.
pub const WORD_BYTES: u64 = 8;

/// How many words have some of so many bytes from a place on.
pub fn count_words(place: u64, len: u64) -> u64
    requires { place + len < 2 ^ 60 }
    ensures { result ≡ word_count place len }
{
    if len == 0 {
        return 0;
    }
    (place + len - 1) / WORD_BYTES + 1 - place / WORD_BYTES
}

/// The word with those of its bytes replaced that are among the bytes written from a place on.
fn patched_word(place: u64, bytes: &[u8], word: u64, x: u64) -> u64
    requires range { place + length bytes.now < 2 ^ 60 }
    requires above { place < 8 * word + 8 }
    requires below { 8 * word < place + length bytes.now }
    ensures { result ≡ written_word place bytes.now word x }
{
    let at = WORD_BYTES * word;
    let from = place.saturating_sub(at);
    let skipped = at.saturating_sub(place) as usize;
    let end = (skipped + (WORD_BYTES - from) as usize).min(bytes.len());
    patch(x, from as usize, &bytes[skipped..end])
}

/// Stores one word of those that the bytes cover.
fn write_word<M: LawfulMem>(mem: &mut M, place: u64, bytes: &[u8], word: u64) -> Result<(), Stopped>
    requires range { place + length bytes.now < 2 ^ 60 }
    requires above { place < 8 * word + 8 }
    requires below { 8 * word < place + length bytes.now }
    requires ready { IsReady (M.at mem.old) (writes_word place bytes.now word) }
    ensures { Runs (M.at mem.old) (M.at mem.new) (writes_word place bytes.now word) result }
{
    let x = mem.load(word);
    store(mem, word, patched_word(place, bytes, word, x))
}

/// Writes bytes from a byte place of the pool on: one store for each word that they cover, in rising place, the other bytes of the word as
/// they were. Makes exactly the memory calls of `writes`, or the first of them up to the lane's stop.
pub fn write_words<M: LawfulMem>(mem: &mut M, place: u64, bytes: &[u8]) -> Result<(), Stopped>
    requires range { place + length bytes.now < 2 ^ 60 }
    requires ready { IsReady (M.at mem.old) (writes place bytes.now) }
    ensures { Runs (M.at mem.old) (M.at mem.new) (writes place bytes.now) result }
{
    for i in 0..count_words(place, bytes.len() as u64) {
        write_word(mem, place, bytes, place / WORD_BYTES + i)?;
    }
    Ok(())
}

/// Copies those bytes of a word that are among the bytes read from a place on.
fn copy_part(into: &mut [u8], place: u64, word: u64, x: u64)
    requires range { place + length into.old < 2 ^ 60 }
    requires above { place < 8 * word + 8 }
    requires below { 8 * word < place + length into.old }
    ensures as_long { length into.new ≡ length into.old }
    ensures inside { (k : ℕ) → k < length into.old → 8 * word ≤ place + k → place + k < 8 * word + 8
        → slice_index into.new k ≡ slice_index (bytes_of (x ∷ [])) (place + k - 8 * word) }
    ensures before { (k : ℕ) → place + k < 8 * word → slice_index into.new k ≡ slice_index into.old k }
{
    let at = WORD_BYTES * word;
    let from = place.saturating_sub(at) as usize;
    let skipped = at.saturating_sub(place) as usize;
    let end = (skipped + (WORD_BYTES as usize - from)).min(into.len());
    let bytes = x.to_le_bytes();
    into[skipped..end].copy_from_slice(&bytes[from..from + (end - skipped)]);
}

/// Reads bytes from a byte place of the pool on: a load of each word that has some of them, in rising place. Makes exactly the memory calls
/// of `reads`.
pub fn read_words<M: LawfulMem>(mem: &mut M, place: u64, into: &mut [u8])
    requires range { place + length into.old < 2 ^ 60 }
    requires ready { IsReady (M.at mem.old) (reads place (length into.old)) }
    ensures made { IsMade (M.at mem.old) (M.at mem.new) (reads place (length into.old)) }
    ensures as_long { length into.new ≡ length into.old }
    ensures found { (v : View) → M.at mem.old v → Ready v (reads place (length into.old) v)
        → (k : ℕ) → k < length into.old → slice_index into.new k ≡ byte_in v.words (place + k) }
{
    for i in 0..count_words(place, into.len() as u64) {
        let word = place / WORD_BYTES + i;
        let x = mem.load(word);
        copy_part(into, place, word, x);
    }
}
