ghost use Rattle.std.specs.Prelude.{◌≡◌, ◌↔◌, false, length, IsNone, IfSome};
ghost use Rattle.pm_record.specs.Undo.{undo_words, is_record, undo_of};
ghost use Rattle.pm_record.specs.declared.undo.Undo.{Undo};

use pm_layout::{OLD_WORDS, SLOT_WORDS};
use pm_words::sum64;

/// The word of a slot at which the four old words begin: word 3.
const OLD_AT: usize = SUM_AT - OLD_WORDS as usize;

/// The word of a slot that holds the sum of those before it: the last one, word 7.
const SUM_AT: usize = SLOT_WORDS as usize - 1;

/// Words as they were, to be put back. Any numbers make a record: whether its place and count mean something is its
/// reader's to judge.
#[derive(Clone, Copy, Debug, PartialEq, Eq)]
pub struct Undo {
    /// The log's generation when the record was written.
    pub generation: u64,
    /// The place of the first old word, a byte offset.
    pub place: u64,
    /// How many of the old words count, 1 to 4 in a record that a pool writes.
    pub count: u64,
    /// The old words, 0 past the count.
    pub old: [u64; OLD_WORDS as usize],
}

impl Undo {
    /// Writes the record into a slot of eight words: generation, place, count, the four old words, and the sum of
    /// these seven.
    pub fn encode(&self, slot: &mut [u64])
        requires { length slot.old ≡ 8 }
        ensures { slot.new ≡ undo_words self.now }
    {
        slot[0] = self.generation;
        slot[1] = self.place;
        slot[2] = self.count;
        slot[OLD_AT..SUM_AT].copy_from_slice(&self.old);
        slot[SUM_AT] = sum64(&slot[..SUM_AT]);
    }

    /// The record in a slot of eight words, its words as they stand; `None` exactly where the last word is not the
    /// sum of the seven others, as in a slot that was torn.
    pub fn decode(slot: &[u64]) -> Option<Undo>
        requires { length slot.now ≡ 8 }
        ensures value { result ≡ undo_of slot.now }
        ensures spelled { IfSome result (λ u. slot.now ≡ undo_words u) }
        ensures found { (u : Undo) → slot.now ≡ undo_words u → result ≡ Some u }
        ensures none { IsNone result ↔ (is_record slot.now ≡ false) }
    {
        if slot[SUM_AT] != sum64(&slot[..SUM_AT]) {
            return None;
        }
        let mut old = [0; OLD_WORDS as usize];
        old.copy_from_slice(&slot[OLD_AT..SUM_AT]);
        Some(Undo {
            generation: slot[0],
            place: slot[1],
            count: slot[2],
            old,
        })
    }
}
