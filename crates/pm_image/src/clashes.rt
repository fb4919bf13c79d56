//! Words of which two logs speak.

ghost use Rattle.std.specs.Prelude.{◌≡◌, ℕ, ◌+◌, ◌*◌, ◌^◌, ◌<◌, ◌==◌, ◌&&◌, ◌||◌, nat_lt, find, filter, length, slice_index, if◌then◌else◌, IfOk, IfSome};
ghost use Rattle.std.specs.List.{flat_map, range_with_len};
ghost use Rattle.pm_image.specs.Logs.{covers, entries, records};
ghost use Rattle.pm_image.specs.LogFaults.{bits_of, clashes, lane_mask, lanes_clash};
ghost use Rattle.pm_image.specs.Steps.{AreMarks, HasLanes, entry_for};

use crate::lanes::{covers, entry, is_sealed, seal};
use crate::restoring::Logs;
use pm_layout::{OLD_WORDS, WORD_BYTES};
use pm_raw::RawImage;
use pm_record::{Redo, Undo};
use std::alloc::{AllocError, Global};

/// How many records and entries speak of each word of an image.
#[derive(Drop)]
struct Marks {
    /// The valid records that cover it.
    records: RawImage,
    /// The entries of sealed lanes for it.
    entries: RawImage,
}

/// The first of the image's words of which two logs speak: a valid record covers it beside another one or an entry, or two
/// sealed lanes change a common bit of it.
pub fn first_clash(
    alloc: Global,
    image: &RawImage,
    lanes: u64,
    logs: &Logs,
) -> Result<Option<u64>, AllocError>
    requires lanes { HasLanes image.now lanes }
    requires entries { logs.now.entries.items ≡ flat_map (entries image.now) (range_with_len 0 lanes) }
    requires records { logs.now.records.items ≡ flat_map (records image.now) (range_with_len 0 lanes) }
    ensures inside { IfOk result (λ clash. IfSome clash (λ i. i < length image.now)) }
    ensures first { IfOk result (λ clash. clash ≡ find (λ i. clashes image.now lanes (8 * i)) (range_with_len 0 (length image.now))) }
{
    // most pools have nothing in their logs, and marks take twice the room of the image
    if logs.records.is_empty() && logs.entries.is_empty() {
        return Ok(None);
    }
    let marks = marks_of(alloc, logs, image.len())?;
    for word in 0..image.len() {
        if is_clash(image, lanes, &marks, word) {
            return Ok(Some(word));
        }
    }
    Ok(None)
}

/// Marks each of so many words with its records and entries.
fn marks_of(alloc: Global, logs: &Logs, words: u64) -> Result<Marks, AllocError>
    requires { words < 2 ^ 60 }
    ensures { IfOk result (λ marks. AreMarks logs.now.records.items logs.now.entries.items words marks.records marks.entries) }
{
    let mut records = RawImage::new(alloc, words)?;
    let mut entries = RawImage::new(alloc, words)?;
    mark_records(&logs.records, &mut records);
    mark_entries(&logs.entries, &mut entries);
    Ok(Marks { records, entries })
}

/// Whether two logs speak of the word.
fn is_clash(image: &RawImage, lanes: u64, marks: &Marks, word: u64) -> bool
    requires lanes { HasLanes image.now lanes }
    requires word { word < length image.now }
    requires marks { AreMarks (flat_map (records image.now) (range_with_len 0 lanes)) (flat_map (entries image.now) (range_with_len 0 lanes)) (length image.now) marks.now.records marks.now.entries }
    ensures { result ≡ clashes image.now lanes (8 * word) }
{
    let (records, entries) = (marks.records.word(word), marks.entries.word(word));
    do_records_clash(records, entries)
        || (entries > 1 && do_lanes_clash(image, lanes, WORD_BYTES * word))
}

/// Whether a word with so many records and entries has a record beside another one or an entry.
fn do_records_clash(records: u64, entries: u64) -> bool
    ensures { result ≡ (nat_lt 1 records || (nat_lt 0 records && nat_lt 0 entries)) }
{
    records > 1 || (records > 0 && entries > 0)
}

/// Whether two sealed lanes change a common bit of the word at this place.
fn do_lanes_clash(image: &RawImage, lanes: u64, place: u64) -> bool
    requires { HasLanes image.now lanes }
    ensures { result ≡ lanes_clash image.now lanes place }
{
    let mut earlier = 0;
    for lane in 0..lanes {
        let bits = lane_mask(image, lane, place);
        if earlier & bits != 0 {
            return true;
        }
        earlier |= bits;
    }
    false
}

/// The bits of the word at this place that the lane's entries change.
fn lane_mask(image: &RawImage, lane: u64, place: u64) -> u64
    requires { HasLanes image.now (lane + 1) }
    ensures { result ≡ lane_mask image.now place lane }
{
    if !is_sealed(image, lane) {
        return 0;
    }
    let mut bits = 0;
    for i in 0..seal(image, lane) {
        bits |= entry_mask(image, lane, i, place);
    }
    bits
}

/// The bits of the word at this place that one entry changes.
fn entry_mask(image: &RawImage, lane: u64, i: u64, place: u64) -> u64
    requires lanes { HasLanes image.now (lane + 1) }
    requires number { i < 64 }
    ensures { result ≡ bits_of (entry_for image.now lane i place) }
{
    match entry(image, lane, i) {
        Some(found) if found.place == place => found.mask(),
        _ => 0,
    }
}

/// Counts for each word the records that cover it.
fn mark_records(found: &[Undo], marks: &mut RawImage)
    requires zeros { (i : ℕ) → slice_index marks.old i ≡ 0 }
    requires small { length marks.old < 2 ^ 60 }
    ensures count { (i : ℕ) → i < length marks.old → slice_index marks.new i ≡ length (filter (λ u. covers u (8 * i)) found.now) }
    ensures as_long { length marks.new ≡ length marks.old }
{
    for one in found {
        mark_record(one, marks);
    }
}

/// Counts one more for each word that the record covers.
fn mark_record(found: &Undo, marks: &mut RawImage)
    requires room { (i : ℕ) → slice_index marks.old i + 1 < 2 ^ 64 }
    requires small { length marks.old < 2 ^ 60 }
    ensures count { (i : ℕ) → i < length marks.old → slice_index marks.new i ≡ slice_index marks.old i + (if covers found.now (8 * i) then 1 else 0) }
    ensures as_long { length marks.new ≡ length marks.old }
{
    let first = found.place / WORD_BYTES;
    for word in first..first + OLD_WORDS {
        if word < marks.len() && covers(found, WORD_BYTES * word) {
            marks.set(word, marks.word(word) + 1);
        }
    }
}

/// Counts for each word the entries for it.
fn mark_entries(found: &[Redo], marks: &mut RawImage)
    requires zeros { (i : ℕ) → slice_index marks.old i ≡ 0 }
    requires small { length marks.old < 2 ^ 60 }
    ensures count { (i : ℕ) → i < length marks.old → slice_index marks.new i ≡ length (filter (λ e. e.place == 8 * i) found.now) }
    ensures as_long { length marks.new ≡ length marks.old }
{
    for one in found {
        mark_entry(one, marks);
    }
}

/// Counts one more for the word that the entry changes.
fn mark_entry(found: &Redo, marks: &mut RawImage)
    requires room { (i : ℕ) → slice_index marks.old i + 1 < 2 ^ 64 }
    requires small { length marks.old < 2 ^ 60 }
    ensures count { (i : ℕ) → i < length marks.old → slice_index marks.new i ≡ slice_index marks.old i + (if found.now.place == 8 * i then 1 else 0) }
    ensures as_long { length marks.new ≡ length marks.old }
{
    let word = found.place / WORD_BYTES;
    if word < marks.len() && found.place == WORD_BYTES * word {
        marks.set(word, marks.word(word) + 1);
    }
}
