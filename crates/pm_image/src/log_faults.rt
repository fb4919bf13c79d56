//! What is wrong with the lanes' logs.

ghost use Rattle.std.specs.Prelude.{◌≡◌, ◌+◌, ◌*◌, ◌/◌, ◌%◌, ◌<◌, find, not, IfOk};
ghost use Rattle.std.specs.List.{flat_map, range_with_len};
ghost use Rattle.pm_image.specs.Logs.{entries, records};
ghost use Rattle.pm_image.specs.LogFaults.{log_fault, good_lane, good_record, bad_slot};
ghost use Rattle.pm_image.specs.Steps.{HasLanes};

use crate::clashes::first_clash;
use crate::fault::ImageFault;
use crate::lanes::{generation_word, seal, valid_record};
use crate::redo_faults::first_bad_entry;
use crate::restoring::Logs;
use crate::targets::are_in_chunks;
use pm_layout::{MAX_GENERATION, OLD_WORDS, REDO_ENTRIES, Shape, UNDO_SLOTS, WORD_BYTES};
use pm_raw::RawImage;
use pm_record::Undo;
use std::alloc::{AllocError, Global};

/// The first fault of the logs, which have these entries and records.
pub fn first_log_fault(
    alloc: Global,
    image: &RawImage,
    shape: Shape,
    logs: &Logs,
) -> Result<Option<ImageFault>, AllocError>
    requires lanes { HasLanes image.now shape.lanes }
    requires entries { logs.now.entries.items ≡ flat_map (entries image.now) (range_with_len 0 shape.lanes) }
    requires records { logs.now.records.items ≡ flat_map (records image.now) (range_with_len 0 shape.lanes) }
    ensures { IfOk result (λ fault. fault ≡ log_fault image.now shape.lanes shape.zones) }
{
    if let Some(lane) = first_bad_lane(image, shape.lanes) {
        return Ok(Some(ImageFault::Lane(lane)));
    }
    if let Some(n) = first_bad_entry(image, shape) {
        let (lane, entry) = (n / REDO_ENTRIES, n % REDO_ENTRIES);
        return Ok(Some(ImageFault::Redo { lane, entry }));
    }
    if let Some(n) = first_bad_slot(image, shape) {
        let (lane, slot) = (n / UNDO_SLOTS, n % UNDO_SLOTS);
        return Ok(Some(ImageFault::Undo { lane, slot }));
    }
    match first_clash(alloc, image, shape.lanes, logs)? {
        Some(word) => Ok(Some(ImageFault::Clash(WORD_BYTES * word))),
        None => Ok(None),
    }
}

/// The first lane with a generation or a seal out of range.
fn first_bad_lane(image: &RawImage, lanes: u64) -> Option<u64>
    requires { HasLanes image.now lanes }
    ensures { result ≡ find (λ lane. not (good_lane image.now lane)) (range_with_len 0 lanes) }
{
    for lane in 0..lanes {
        if !is_good_lane(image, lane) {
            return Some(lane);
        }
    }
    None
}

/// Whether the lane's generation is 1 to 2^62, and its seal at most 64.
#[tactic(auto, unfolding(crate::specs::LogFaults::good_lane))]
fn is_good_lane(image: &RawImage, lane: u64) -> bool
    requires { HasLanes image.now (lane + 1) }
    ensures { result ≡ good_lane image.now lane }
{
    let generation = generation_word(image, lane);
    let seal = seal(image, lane);
    1 <= generation && generation <= MAX_GENERATION && seal <= REDO_ENTRIES
}

/// The first undo slot with a valid record that no log has: slot `n % 64` of lane `n / 64`.
fn first_bad_slot(image: &RawImage, shape: Shape) -> Option<u64>
    requires { HasLanes image.now shape.lanes }
    ensures { result ≡ find (λ n. bad_slot image.now shape.lanes shape.zones (n / 64) (n % 64)) (range_with_len 0 (64 * shape.lanes)) }
{
    for n in 0..UNDO_SLOTS * shape.lanes {
        if is_bad_slot(image, shape, n / UNDO_SLOTS, n % UNDO_SLOTS) {
            return Some(n);
        }
    }
    None
}

/// Whether the slot has a valid record that no log has.
#[tactic(auto, unfolding(crate::specs::LogFaults::bad_slot))]
fn is_bad_slot(image: &RawImage, shape: Shape, lane: u64, slot: u64) -> bool
    requires lanes { HasLanes image.now (lane + 1) }
    requires slot { slot < 64 }
    ensures { result ≡ bad_slot image.now shape.lanes shape.zones lane slot }
{
    match valid_record(image, lane, slot) {
        Some(found) => !is_good_record(shape, &found),
        None => false,
    }
}

/// Whether the record is of 1 to 4 words of chunks, and its generation can be raised.
#[tactic(auto, unfolding(crate::specs::LogFaults::good_record))]
fn is_good_record(shape: Shape, found: &Undo) -> bool
    ensures { result ≡ good_record shape.lanes shape.zones found.now }
{
    1 <= found.count
        && found.count <= OLD_WORDS
        && found.place % WORD_BYTES == 0
        && are_in_chunks(shape, found.place / WORD_BYTES, found.count)
        && !(found.generation == MAX_GENERATION)
}
