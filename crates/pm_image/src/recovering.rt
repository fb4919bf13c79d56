ghost use Rattle.std.specs.Prelude.{◌≡◌, ◌≢◌, ◌==◌, ℕ, ◌+◌, ◌*◌, ◌<◌, ◌≤◌, None, find, filter, length, slice_index};
ghost use Rattle.std.specs.Option.{option_map};
ghost use Rattle.pm_layout.specs.Layout.{IsShape, pool_size};
ghost use Rattle.pm_image.specs.Logs.{entries, records, entries_for, record_for, covers, old_word, recovered};
ghost use Rattle.pm_image.specs.Steps.{HasLanes, made, entry_for};

use crate::lanes::{covers, entry, is_sealed, old_word, seal, valid_record};
use pm_layout::{Shape, UNDO_SLOTS, WORD_BYTES};
use pm_raw::RawImage;
use pm_record::apply;

/// The word of this number as recovery gives it: the image's with the redo entries of sealed lanes for it applied, where
/// there are any, each lane's in order; else the old word of a valid undo record that covers it; else the
/// image's. An image of no pool's length has no lanes, and its words stand as they are.
pub fn recovered(image: &RawImage, word: u64) -> u64
    requires { word < length image.now }
    ensures in_a_pool { (lanes zones : ℕ) → IsShape lanes zones → pool_size lanes zones ≡ 8 * length image.now → result ≡ recovered image.now lanes word }
    ensures in_no_pool { ((lanes zones : ℕ) → IsShape lanes zones → pool_size lanes zones ≢ 8 * length image.now) → result ≡ slice_index image.now word }
{
    let Some(bytes) = image.len().checked_mul(WORD_BYTES) else {
        return image.word(word);
    };
    match Shape::of_bytes(bytes) {
        Some(shape) => recovered_in(image, shape.lanes, word),
        None => image.word(word),
    }
}

/// The same where the number of lanes is known.
fn recovered_in(image: &RawImage, lanes: u64, word: u64) -> u64
    requires lanes { HasLanes image.now lanes }
    requires word { word < length image.now }
    ensures { result ≡ recovered image.now lanes word }
{
    if let Some(value) = redone(image, lanes, word) {
        return value;
    }
    match undone(image, lanes, word) {
        Some(old) => old,
        None => image.word(word),
    }
}

/// The word with all sealed entries for it applied; nothing where there is none.
fn redone(image: &RawImage, lanes: u64, word: u64) -> Option<u64>
    requires lanes { HasLanes image.now lanes }
    requires word { word < length image.now }
    ensures { result ≡ made None (entries_for image.now lanes (8 * word)) (slice_index image.now word) }
{
    let mut so_far = None;
    for lane in 0..lanes {
        so_far = redone_by(image, lane, word, so_far);
    }
    so_far
}

/// The same with one lane's entries more.
fn redone_by(image: &RawImage, lane: u64, word: u64, before: Option<u64>) -> Option<u64>
    requires lanes { HasLanes image.now (lane + 1) }
    requires word { word < length image.now }
    ensures { result ≡ made before (filter (λ e. e.place == 8 * word) (entries image.now lane)) (slice_index image.now word) }
{
    if !is_sealed(image, lane) {
        return before;
    }
    let mut so_far = before;
    for i in 0..seal(image, lane) {
        so_far = redone_once(image, lane, i, word, so_far);
    }
    so_far
}

/// The same with one entry more.
fn redone_once(image: &RawImage, lane: u64, i: u64, word: u64, before: Option<u64>) -> Option<u64>
    requires lanes { HasLanes image.now (lane + 1) }
    requires number { i < 64 }
    requires word { word < length image.now }
    ensures { result ≡ made before (entry_for image.now lane i (8 * word)) (slice_index image.now word) }
{
    match entry(image, lane, i) {
        Some(entry) if entry.place == WORD_BYTES * word => {
            Some(apply(&entry, before.unwrap_or(image.word(word))))
        }
        _ => before,
    }
}

/// What the first valid record of any lane that covers the word restores.
fn undone(image: &RawImage, lanes: u64, word: u64) -> Option<u64>
    requires lanes { HasLanes image.now lanes }
    requires word { word < length image.now }
    ensures { result ≡ option_map (λ u. old_word u (8 * word)) (record_for image.now lanes (8 * word)) }
{
    for lane in 0..lanes {
        if let Some(old) = undone_by(image, lane, word) {
            return Some(old);
        }
    }
    None
}

/// The same for one lane.
fn undone_by(image: &RawImage, lane: u64, word: u64) -> Option<u64>
    requires lanes { HasLanes image.now (lane + 1) }
    requires word { word < length image.now }
    ensures { result ≡ option_map (λ u. old_word u (8 * word)) (find (λ u. covers u (8 * word)) (records image.now lane)) }
{
    for i in 0..UNDO_SLOTS {
        if let Some(record) = valid_record(image, lane, i) {
            if covers(&record, WORD_BYTES * word) {
                return Some(old_word(&record, WORD_BYTES * word));
            }
        }
    }
    None
}
