//! The logs of lanes are ended: no lane is sealed any more, and each has the generation that it goes on with.

ghost use Rattle.std.specs.Prelude.{◌≡◌, ◌≢◌, ℕ, ◌+◌, ◌^◌, ◌≤◌, length, slice_index};
ghost use Rattle.pm_image.specs.Logs.{area_word, generation, generation_word, seal_word};
ghost use Rattle.pm_image.specs.Steps.{HasLanes};
ghost use Rattle.pm_recover.specs.Recovery.{generation_after, has_record, has_torn_slot, is_raised};
ghost use Rattle.pm_recover.specs.Steps.{AreSettled, HasSoundLogs};

use pm_image::{generation, is_sealed, record_in_slot, valid_record};
use pm_layout::{GENERATION_AT, LANE_WORDS, MAX_GENERATION, PAGE_WORDS, SEAL_AT, UNDO_SLOTS};
use pm_raw::RawImage;

/// Ends the logs of so many lanes.
pub fn settle_lanes(image: &mut RawImage, lanes: u64)
    requires { HasSoundLogs image.old lanes }
    ensures { AreSettled image.old image.new lanes }
{
    for lane in 0..lanes {
        settle_lane(image, lane);
    }
}

/// Ends the lane's log: writes the generation that it goes on with, and the seal 0.
fn settle_lane(image: &mut RawImage, lane: u64)
    requires lanes { HasLanes image.old (lane + 1) }
    requires generation { generation image.old lane ≤ 2 ^ 62 }
    ensures as_long { length image.new ≡ length image.old }
    ensures generation { generation_word image.new lane ≡ generation_after image.old lane }
    ensures seal { seal_word image.new lane ≡ 0 }
    ensures others { (i : ℕ) → i ≢ area_word lane → i ≢ area_word lane + 1 → slice_index image.new i ≡ slice_index image.old i }
{
    let generation = generation_after(image, lane);
    let area = PAGE_WORDS + LANE_WORDS * lane;
    image.set(area + GENERATION_AT, generation);
    image.set(area + SEAL_AT, 0);
}

/// The generation that the lane goes on with: that of its last entry where it is sealed, the next one where it left a record or a
/// torn slot, else its own.
fn generation_after(image: &RawImage, lane: u64) -> u64
    requires lanes { HasLanes image.now (lane + 1) }
    requires generation { generation image.now lane ≤ 2 ^ 62 }
    ensures { result ≡ generation_after image.now lane }
{
    if is_raised(image, lane) {
        generation(image, lane) + 1
    } else {
        generation(image, lane)
    }
}

/// Whether recovery raises the lane's generation.
#[tactic(auto, unfolding(crate::specs::Recovery::is_raised))]
fn is_raised(image: &RawImage, lane: u64) -> bool
    requires { HasLanes image.now (lane + 1) }
    ensures { result ≡ is_raised image.now lane }
{
    !is_sealed(image, lane)
        && (has_record(image, lane)
            || (generation(image, lane) < MAX_GENERATION && has_torn_slot(image, lane)))
}

/// Whether the lane has a valid record.
fn has_record(image: &RawImage, lane: u64) -> bool
    requires { HasLanes image.now (lane + 1) }
    ensures { result ≡ has_record image.now lane }
{
    for slot in 0..UNDO_SLOTS {
        if valid_record(image, lane, slot).is_some() {
            return true;
        }
    }
    false
}

/// Whether the last word of one of the lane's slots is not the sum of the others.
fn has_torn_slot(image: &RawImage, lane: u64) -> bool
    requires { HasLanes image.now (lane + 1) }
    ensures { result ≡ has_torn_slot image.now lane }
{
    for slot in 0..UNDO_SLOTS {
        if record_in_slot(image, lane, slot).is_none() {
            return true;
        }
    }
    false
}
