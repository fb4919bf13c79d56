ghost use Rattle.std.specs.Prelude.{ℕ, ◌+◌, ◌/◌, ◌^◌, ◌<◌, Contains, length};
ghost use Rattle.solo_model.specs.Bytes.{covered_words};
ghost use Rattle.solo_view.specs.View.{View};
ghost use Rattle.solo_tx.specs.Learning.{Learns};
ghost use Rattle.solo_tx.specs.Sequences.{word_count};

use crate::words::{WORD_BYTES, count_words};
use solo_world::LawfulMem;

/// Looks at each word that has some of so many bytes from a byte place of the pool on, in rising place, so that the lane knows those that it
/// holds. What was known is as it was.
pub fn learn<M: LawfulMem>(mem: &mut M, place: u64, len: u64)
    requires range { place + len < 2 ^ 60 }
    requires inside { (v : View) × (M.at mem.old v × ((i : ℕ) → Contains (covered_words place len) i → i < length v.words)) }
    ensures { (v : View) → M.at mem.old v → (w : View) × (M.at mem.new w × Learns (place / 8) (word_count place len) v w) }
{
    for i in 0..count_words(place, len) {
        let _found = mem.load(place / WORD_BYTES + i);
    }
}
