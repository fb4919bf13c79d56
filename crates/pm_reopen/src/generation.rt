//! The generation that a lane goes on with.

ghost use Rattle.std.specs.Prelude.{◌≡◌, ◌+◌, ◌^◌, ◌≤◌};
ghost use Rattle.pm_image.specs.Logs.{generation};
ghost use Rattle.pm_image.specs.Steps.{HasLanes};
ghost use Rattle.pm_recover.specs.Recovery.{generation_after, has_record, has_torn_slot, is_raised};

use pm_image::{generation, is_sealed, record_in_slot, valid_record};
use pm_layout::{MAX_GENERATION, UNDO_SLOTS};
use pm_raw::RawImage;

/// The generation that the lane goes on with: that of its last entry where it is sealed, the next
/// one where it left a record or a torn slot, else its own.
pub fn generation_after(image: &RawImage, lane: u64) -> u64
    requires lanes { HasLanes image.now (lane + 1) }
    requires generation { generation image.now lane ≤ 2 ^ 62 }
    ensures { result ≡ generation_after image.now lane }
{
    if is_raised(image, lane) {
        generation(image, lane) + 1
    } else {
        generation(image, lane)
    }
}

/// Whether recovery raises the lane's generation.
#[tactic(auto, unfolding(pm_recover::specs::Recovery::is_raised))]
pub fn is_raised(image: &RawImage, lane: u64) -> bool
    requires { HasLanes image.now (lane + 1) }
    ensures { result ≡ is_raised image.now lane }
{
    !is_sealed(image, lane)
        && (has_record(image, lane)
            || (generation(image, lane) < MAX_GENERATION && has_torn_slot(image, lane)))
}

/// Whether the lane has a valid record.
fn has_record(image: &RawImage, lane: u64) -> bool
    requires { HasLanes image.now (lane + 1) }
    ensures { result ≡ has_record image.now lane }
{
    for slot in 0..UNDO_SLOTS {
        if valid_record(image, lane, slot).is_some() {
            return true;
        }
    }
    false
}

/// Whether the last word of one of the lane's slots is not the sum of the others.
fn has_torn_slot(image: &RawImage, lane: u64) -> bool
    requires { HasLanes image.now (lane + 1) }
    ensures { result ≡ has_torn_slot image.now lane }
{
    for slot in 0..UNDO_SLOTS {
        if record_in_slot(image, lane, slot).is_none() {
            return true;
        }
    }
    false
}
