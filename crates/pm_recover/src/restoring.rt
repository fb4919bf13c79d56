//! The old words of valid records are put back, the last record's first.

ghost use Rattle.std.specs.Prelude.{◌≡◌, ◌+◌, ◌/◌, ◌%◌, ◌<◌, ◌≤◌, [], ◌∷◌, length};
ghost use Rattle.std.specs.List.{flat_map, range_with_len};
ghost use Rattle.std.specs.Option.{option_to_list};
ghost use Rattle.pm_image.specs.Logs.{records};
ghost use Rattle.pm_image.specs.Steps.{valid_record};
ghost use Rattle.pm_recover.specs.Steps.{AreRestored, HasSoundLogs};

use pm_image::valid_record;
use pm_layout::{UNDO_SLOTS, WORD_BYTES};
use pm_raw::RawImage;
use pm_record::Undo;

/// Puts back what the valid records of so many lanes have.
pub fn restore_all(image: &mut RawImage, lanes: u64)
    requires { HasSoundLogs image.old lanes }
    ensures { AreRestored (flat_map (records image.old) (range_with_len 0 lanes)) image.old image.new }
{
    for lane in (0..lanes).rev() {
        restore_lane(image, lane);
    }
}

/// Puts back what the lane's valid records have.
fn restore_lane(image: &mut RawImage, lane: u64)
    requires { HasSoundLogs image.old (lane + 1) }
    ensures { AreRestored (records image.old lane) image.old image.new }
{
    for slot in (0..UNDO_SLOTS).rev() {
        restore_slot(image, lane, slot);
    }
}

/// Puts back what the slot's record has, if it is a valid one.
fn restore_slot(image: &mut RawImage, lane: u64, slot: u64)
    requires sound { HasSoundLogs image.old (lane + 1) }
    requires slot { slot < 64 }
    ensures { AreRestored (option_to_list (valid_record image.old lane slot)) image.old image.new }
{
    if let Some(one) = valid_record(image, lane, slot) {
        restore(image, &one);
    }
}

/// Puts back the record's old words.
fn restore(image: &mut RawImage, one: &Undo)
    requires aligned { one.now.place % 8 ≡ 0 }
    requires few { one.now.count ≤ 4 }
    requires within { one.now.place / 8 + one.now.count ≤ length image.old }
    ensures { AreRestored (one.now ∷ []) image.old image.new }
{
    let first = one.place / WORD_BYTES;
    for k in 0..one.count {
        image.set(first + k, one.old[k as usize]);
    }
}
