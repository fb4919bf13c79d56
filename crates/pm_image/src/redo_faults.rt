//! Which entries of sealed lanes no log has.

ghost use Rattle.std.specs.Prelude.{◌≡◌, ◌+◌, ◌*◌, ◌/◌, ◌%◌, ◌<◌, find};
ghost use Rattle.std.specs.List.{range_with_len};
ghost use Rattle.pm_record.specs.Redo.{redo_of};
ghost use Rattle.pm_image.specs.Logs.{entry_pair};
ghost use Rattle.pm_image.specs.LogFaults.{bad_entry, ends_log, good_entry};
ghost use Rattle.pm_image.specs.Steps.{HasLanes};

use crate::lanes::{entry, generation_word, is_sealed, seal};
use crate::targets::is_target;
use pm_layout::{LANE_BYTES, MAX_GENERATION, PAGE_BYTES, REDO_ENTRIES, Shape, WORD_BYTES};
use pm_raw::RawImage;
use pm_record::{Op, Redo};

/// The first entry of a sealed lane that no log has: entry `n % 64` of lane `n / 64`.
pub fn first_bad_entry(image: &RawImage, shape: Shape) -> Option<u64>
    requires { HasLanes image.now shape.lanes }
    ensures { result ≡ find (λ n. bad_entry image.now shape.lanes shape.zones (n / 64) (n % 64)) (range_with_len 0 (64 * shape.lanes)) }
{
    for n in 0..REDO_ENTRIES * shape.lanes {
        if is_bad_entry(image, shape, n / REDO_ENTRIES, n % REDO_ENTRIES) {
            return Some(n);
        }
    }
    None
}

/// Whether the lane sealed the entry of this number, and no log has it.
fn is_bad_entry(image: &RawImage, shape: Shape, lane: u64, i: u64) -> bool
    requires lanes { HasLanes image.now (lane + 1) }
    requires number { i < 64 }
    ensures { result ≡ bad_entry image.now shape.lanes shape.zones lane i }
{
    is_sealed(image, lane) && i < seal(image, lane) && !is_good_entry(image, shape, lane, i)
}

/// Whether a log that the lane sealed may have this entry: the last one ends the log, and the others change what entries may
/// change.
fn is_good_entry(image: &RawImage, shape: Shape, lane: u64, i: u64) -> bool
    requires lanes { HasLanes image.now (lane + 1) }
    requires number { i < 64 }
    ensures { result ≡ good_entry image.now shape.lanes shape.zones lane i (redo_of (entry_pair image.now lane i)) }
{
    let Some(found) = entry(image, lane, i) else {
        return false;
    };
    if i + 1 == seal(image, lane) {
        ends_log(image, lane, &found)
    } else {
        is_target(shape, found.place / WORD_BYTES)
    }
}

/// Whether the entry sets the lane's own generation to a value from 2 to 2^62, which the stored one has already or is one below.
fn ends_log(image: &RawImage, lane: u64, found: &Redo) -> bool
    requires { HasLanes image.now (lane + 1) }
    ensures { result ≡ ends_log image.now lane found.now }
{
    let stored = generation_word(image, lane);
    matches!(found.op, Op::Set)
        && found.place == PAGE_BYTES + LANE_BYTES * lane
        && 2 <= found.value
        && found.value <= MAX_GENERATION
        && (stored == found.value || stored == found.value - 1)
}
