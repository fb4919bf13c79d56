//! Records that a later one of their lane might be taken for are cleared.

ghost use Rattle.std.specs.Prelude.{◌≡◌, ℕ, ◌+◌, ◌*◌, ◌<◌, ◌≤◌, length, slice_index};
ghost use Rattle.pm_image.specs.Logs.{generation_word, slot_line, undo_slot};
ghost use Rattle.pm_image.specs.Steps.{HasLanes};
ghost use Rattle.pm_recover.specs.Recovery.{IsOfSlot, without_stray};
ghost use Rattle.pm_recover.specs.Steps.{AreCleared};

use pm_image::record_in_slot;
use pm_layout::{LANE_LINES, LANE_WORDS, PAGE_LINES, PAGE_WORDS, SLOT_WORDS, SLOTS_AT, UNDO_SLOTS};
use pm_raw::RawImage;

/// The line of the first lane's first slot: line 81.
const FIRST_SLOT: u64 = PAGE_LINES + SLOTS_AT;

/// Clears each stray record of so many lanes.
pub fn clear_strays(image: &mut RawImage, lanes: u64)
    requires { HasLanes image.old lanes }
    ensures { AreCleared image.old image.new (64 * lanes) }
{
    for number in 0..UNDO_SLOTS * lanes {
        clear_stray(image, number / UNDO_SLOTS, number % UNDO_SLOTS);
    }
}

/// Clears the slot where it has a stray record: one of its lane's generation, or of one that is to come.
fn clear_stray(image: &mut RawImage, lane: u64, slot: u64)
    requires lanes { HasLanes image.old (lane + 1) }
    requires slot { slot < 64 }
    ensures as_long { length image.new ≡ length image.old }
    ensures slot { undo_slot image.new lane slot ≡ without_stray (generation_word image.old lane) (undo_slot image.old lane slot) }
    ensures others { (i : ℕ) → (IsOfSlot lane slot i → ⊥) → slice_index image.new i ≡ slice_index image.old i }
{
    let generation = image.word(PAGE_WORDS + LANE_WORDS * lane);
    if let Some(found) = record_in_slot(image, lane, slot)
        && found.generation >= generation
    {
        clear_slot(image, lane, slot);
    }
}

/// Stores 0 in each word of the slot.
fn clear_slot(image: &mut RawImage, lane: u64, slot: u64)
    requires lanes { HasLanes image.old (lane + 1) }
    requires slot { slot < 64 }
    ensures as_long { length image.new ≡ length image.old }
    ensures cleared { (k : ℕ) → k < 8 → slice_index image.new (8 * slot_line lane slot + k) ≡ 0 }
    ensures others { (i : ℕ) → (IsOfSlot lane slot i → ⊥) → slice_index image.new i ≡ slice_index image.old i }
{
    let first = SLOT_WORDS * (FIRST_SLOT + LANE_LINES * lane + slot);
    for k in 0..SLOT_WORDS {
        image.set(first + k, 0);
    }
}
