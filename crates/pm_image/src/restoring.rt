//! The recovered words of a whole image, from its logs read once.

ghost use Rattle.std.specs.Prelude.{◌≡◌, ℕ, ◌+◌, ◌*◌, ◌/◌, ◌^◌, ◌<◌, ◌≤◌, ◌++◌, ◌==◌, [], None, find, filter, length, slice_index, IfOk, OnOk};
ghost use Rattle.std.specs.List.{flat_map, range_with_len};
ghost use Rattle.std.specs.Option.{option_to_list};
ghost use Rattle.pm_record.specs.Redo.{redo_of};
ghost use Rattle.pm_image.specs.Logs.{entry_pair, entries, records, covers, old_word, recovered_words};
ghost use Rattle.pm_image.specs.Steps.{HasLanes, made, valid_record, logged, AreRestored, AreAsLogged};

use crate::lanes::{covers, entry, is_sealed, old_word, seal, valid_record};
use pm_layout::{OLD_WORDS, UNDO_SLOTS, WORD_BYTES};
use pm_raw::RawImage;
use pm_record::{Redo, Undo, apply};
use std::alloc::{AllocError, Global};

/// What the lanes' logs have.
#[derive(Drop)]
pub struct Logs {
    /// The entries of sealed lanes, in the order of lanes, each lane's in order.
    pub entries: Vec<Redo>,
    /// The valid undo records, in the order of lanes and slots.
    pub records: Vec<Undo>,
}

/// Reads the logs of so many lanes.
pub fn read_logs(alloc: Global, image: &RawImage, lanes: u64) -> Result<Logs, AllocError>
    requires { HasLanes image.now lanes }
    ensures entries { IfOk result (λ logs. logs.entries.items ≡ flat_map (entries image.now) (range_with_len 0 lanes)) }
    ensures records { IfOk result (λ logs. logs.records.items ≡ flat_map (records image.now) (range_with_len 0 lanes)) }
{
    let entries = sealed_entries(alloc, image, lanes)?;
    let records = valid_records(alloc, image, lanes)?;
    Ok(Logs { entries, records })
}

/// The entries of the sealed ones of so many lanes, in the order of lanes, each lane's in order. The error says that memory is
/// lacking, and leaves nothing behind.
pub fn sealed_entries(alloc: Global, image: &RawImage, lanes: u64) -> Result<Vec<Redo>, AllocError>
    requires { HasLanes image.now lanes }
    ensures { IfOk result (λ found. found.items ≡ flat_map (entries image.now) (range_with_len 0 lanes)) }
{
    let mut found = Vec::new(alloc);
    for lane in 0..lanes {
        push_entries(image, lane, &mut found)?;
    }
    Ok(found)
}

/// The valid undo records of so many lanes, in the order of lanes and slots.
fn valid_records(alloc: Global, image: &RawImage, lanes: u64) -> Result<Vec<Undo>, AllocError>
    requires { HasLanes image.now lanes }
    ensures { IfOk result (λ found. found.items ≡ flat_map (records image.now) (range_with_len 0 lanes)) }
{
    let mut found = Vec::new(alloc);
    for lane in 0..lanes {
        push_records(image, lane, &mut found)?;
    }
    Ok(found)
}

/// Adds the lane's entries, if it is sealed.
fn push_entries(image: &RawImage, lane: u64, found: &mut Vec<Redo>) -> Result<(), AllocError>
    requires { HasLanes image.now (lane + 1) }
    ensures { OnOk result (found.new.items ≡ found.old.items ++ entries image.now lane) }
{
    if !is_sealed(image, lane) {
        return Ok(());
    }
    for i in 0..seal(image, lane) {
        push_entry(image, lane, i, found)?;
    }
    Ok(())
}

/// Adds the lane's entry of this number, if its words are one.
fn push_entry(image: &RawImage, lane: u64, i: u64, found: &mut Vec<Redo>) -> Result<(), AllocError>
    requires lanes { HasLanes image.now (lane + 1) }
    requires number { i < 64 }
    ensures { OnOk result (found.new.items ≡ found.old.items ++ option_to_list (redo_of (entry_pair image.now lane i))) }
{
    if let Some(one) = entry(image, lane, i) {
        found.push(one)?;
    }
    Ok(())
}

/// Adds the lane's valid records.
fn push_records(image: &RawImage, lane: u64, found: &mut Vec<Undo>) -> Result<(), AllocError>
    requires { HasLanes image.now (lane + 1) }
    ensures { OnOk result (found.new.items ≡ found.old.items ++ records image.now lane) }
{
    for i in 0..UNDO_SLOTS {
        push_record(image, lane, i, found)?;
    }
    Ok(())
}

/// Adds the record of the slot, if it is a valid one.
fn push_record(image: &RawImage, lane: u64, i: u64, found: &mut Vec<Undo>) -> Result<(), AllocError>
    requires lanes { HasLanes image.now (lane + 1) }
    requires number { i < 64 }
    ensures { OnOk result (found.new.items ≡ found.old.items ++ option_to_list (valid_record image.now lane i)) }
{
    if let Some(one) = valid_record(image, lane, i) {
        found.push(one)?;
    }
    Ok(())
}

/// The recovered words of an image of so many lanes, whose logs these are.
pub fn recovered_words(
    alloc: Global,
    image: &RawImage,
    lanes: u64,
    logs: &Logs,
) -> Result<RawImage, AllocError>
    requires small { length image.now < 2 ^ 60 }
    requires entries { logs.now.entries.items ≡ flat_map (entries image.now) (range_with_len 0 lanes) }
    requires records { logs.now.records.items ≡ flat_map (records image.now) (range_with_len 0 lanes) }
    ensures { IfOk result (λ words. words ≡ recovered_words image.now lanes) }
{
    let words = restored(alloc, image, logs)?;
    Ok(words)
}

/// The image with each word as the logs leave it.
fn restored(alloc: Global, image: &RawImage, logs: &Logs) -> Result<RawImage, AllocError>
    requires small { length image.now < 2 ^ 60 }
    ensures as_long { IfOk result (λ words. length words ≡ length image.now) }
    ensures each { IfOk result (λ words. (i : ℕ) → i < length image.now → slice_index words i ≡ logged logs.now.entries.items logs.now.records.items image.now i) }
{
    let mut words = image.copy(alloc)?;
    restore_records(image, logs, &mut words);
    restore_entries(image, logs, &mut words);
    Ok(words)
}

/// Restores the words that records cover.
fn restore_records(image: &RawImage, logs: &Logs, words: &mut RawImage)
    requires same { words.old ≡ image.now }
    requires small { length image.now < 2 ^ 60 }
    ensures { AreAsLogged [] logs.now.records.items logs.now.entries.items logs.now.records.items image.now words.new }
{
    for one in &logs.records {
        restore(image, logs, one.place / WORD_BYTES, OLD_WORDS, words);
    }
}

/// Restores the words that entries change.
fn restore_entries(image: &RawImage, logs: &Logs, words: &mut RawImage)
    requires records { AreAsLogged [] logs.now.records.items logs.now.entries.items logs.now.records.items image.now words.old }
    requires small { length image.now < 2 ^ 60 }
    ensures { AreAsLogged logs.now.entries.items logs.now.records.items logs.now.entries.items logs.now.records.items image.now words.new }
{
    for one in &logs.entries {
        restore(image, logs, one.place / WORD_BYTES, 1, words);
    }
}

/// Writes so many words from one on, those that the image has, as the logs leave them.
fn restore(image: &RawImage, logs: &Logs, from: u64, count: u64, words: &mut RawImage)
    requires as_long { length words.old ≡ length image.now }
    requires small { length image.now < 2 ^ 60 }
    requires from { from < 2 ^ 61 }
    requires count { count ≤ 4 }
    ensures { AreRestored logs.now.entries.items logs.now.records.items image.now words.old words.new from (from + count) }
{
    for i in from..from + count {
        if i < image.len() {
            words.set(i, logged_word(image, logs, i));
        }
    }
}

/// The word as the logs leave it.
fn logged_word(image: &RawImage, logs: &Logs, i: u64) -> u64
    requires inside { i < length image.now }
    requires small { i < 2 ^ 60 }
    ensures { result ≡ logged logs.now.entries.items logs.now.records.items image.now i }
{
    let place = WORD_BYTES * i;
    let word = image.word(i);
    if let Some(value) = redone(&logs.entries, place, word) {
        return value;
    }
    match first_covering(&logs.records, place) {
        Some(one) => old_word(&one, place),
        None => word,
    }
}

/// The word with the entries for it applied, in their order; nothing where there is none.
fn redone(found: &[Redo], place: u64, word: u64) -> Option<u64>
    ensures { result ≡ made None (filter (λ e. e.place == place) found.now) word }
{
    let mut so_far = None;
    for one in found {
        if one.place == place {
            so_far = Some(apply(one, so_far.unwrap_or(word)));
        }
    }
    so_far
}

/// The first of the records that covers the word at this place.
fn first_covering(found: &[Undo], place: u64) -> Option<Undo>
    ensures { result ≡ find (λ u. covers u place) found.now }
{
    found.iter().copied().find(|one| covers(one, place))
}
