//! The entries of sealed lanes are applied to the pool's words.

ghost use Rattle.std.specs.Prelude.{◌≡◌, ◌⊎◌, ◌+◌, ◌*◌, ◌<◌, ◌≤◌, ◌↔◌, [], ◌∷◌, length, IsTrue};
ghost use Rattle.pm_recover.specs.Recovery.{IsOutside};
ghost use Rattle.pm_recover.specs.Steps.{AreApplied};

use pm_layout::{LANE_WORDS, PAGE_WORDS, WORD_BYTES};
use pm_raw::RawImage;
use pm_record::{Redo, apply};

/// Applies the entries in their order. Those for words of the areas of so many lanes are left out: they set generations, which
/// are written as the logs end.
pub fn apply_all(image: &mut RawImage, lanes: u64, entries: &[Redo])
    requires { lanes ≤ 32 }
    ensures { AreApplied entries.now lanes image.old image.new }
{
    for one in entries {
        apply_to_word(image, lanes, one);
    }
}

/// Applies the entry to its word, if the image has that outside of the areas of so many lanes.
fn apply_to_word(image: &mut RawImage, lanes: u64, one: &Redo)
    requires { lanes ≤ 32 }
    ensures { AreApplied (one.now ∷ []) lanes image.old image.new }
{
    let word = one.place / WORD_BYTES;
    if one.place % WORD_BYTES == 0 && word < image.len() && is_outside(lanes, word) {
        image.set(word, apply(one, image.word(word)));
    }
}

/// Whether the word is of no lane's area.
fn is_outside(lanes: u64, word: u64) -> bool
    requires { lanes ≤ 32 }
    ensures { IsTrue result ↔ IsOutside lanes word }
{
    word < PAGE_WORDS || PAGE_WORDS + LANE_WORDS * lanes <= word
}
