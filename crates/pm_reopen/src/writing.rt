//! Changes of the pool's words that a lane's log asks for, and how they become persistent.

ghost use Rattle.std.specs.Prelude.{◌≡◌, ℕ, ◌+◌, ◌/◌, ◌<◌, ◌≤◌, [], ◌∷◌, ◌++◌, All, false, if◌then◌else◌, List, length, map, OnOk};
ghost use Rattle.std.specs.List.{flat_map};
ghost use Rattle.std.specs.Option.{option_to_list};
ghost use Rattle.pm_record.specs.declared.redo.Redo.{Redo};
ghost use Rattle.pm_record.specs.Redo.{redo_of};
ghost use Rattle.pm_image.specs.Logs.{entries, entry_pair, records};
ghost use Rattle.pm_image.specs.Steps.{HasLanes, valid_record};
ghost use Rattle.pm_memory.specs.Changes.{CanAdd, has_unflushed};
ghost use Rattle.pm_recover.specs.Steps.{HasSoundLogs};
ghost use Rattle.pm_reopen.specs.Plan.{lines_of, restores, store_of, writes, written_back};
ghost use Rattle.pm_reopen.specs.Plan.MemoryCall.{Change, Drain, Flush};
ghost use Rattle.pm_reopen.specs.Premise.{HasTargets};
ghost use Rattle.pm_reopen.specs.Running.{MakesOrHalts};
ghost use Rattle.pm_reopen.specs.Steps.{AreUnflushed};

use pm_image::{is_sealed, valid_record};
use pm_layout::{ENTRIES_AT, ENTRY_WORDS, LANE_WORDS, PAGE_WORDS, SEAL_AT, UNDO_SLOTS, WORD_BYTES};
use pm_memory::{LaneMem, SoloMem, Stopped};
use pm_raw::RawImage;
use pm_record::{Op, Redo, Undo};

/// Changes the entry's word by it.
pub fn change(mem: &mut SoloMem, one: &Redo) -> Result<(), Stopped>
    requires word { one.now.place / 8 < length mem.old.words }
    requires room { CanAdd mem.old.changes }
    ensures { MakesOrHalts mem.old mem.new (Change one.now ∷ []) result }
{
    let word = one.place / WORD_BYTES;
    match one.op {
        Op::Set => mem.store(word, one.value)?,
        Op::Or => {
            mem.or(word, one.value)?;
        }
        Op::And => {
            mem.and(word, one.value)?;
        }
    }
    Ok(())
}

/// Stores a value in a word.
pub fn put(mem: &mut SoloMem, word: u64, value: u64) -> Result<(), Stopped>
    requires word { word < length mem.old.words }
    requires small { length mem.old.words ≤ 1098240 }
    requires room { CanAdd mem.old.changes }
    ensures { MakesOrHalts mem.old mem.new (Change (store_of word value) ∷ []) result }
{
    let one = Redo {
        place: WORD_BYTES * word,
        op: Op::Set,
        value,
    };
    Ok(change(mem, &one)?)
}

/// Restores the words of the lane's valid records, and applies its entries where it is sealed.
pub fn write_words(image: &RawImage, mem: &mut SoloMem, lane: u64) -> Result<(), Stopped>
    requires sound { HasSoundLogs image.now (lane + 1) }
    requires targets { HasTargets image.now (lane + 1) }
    requires words { length mem.old.words ≡ length image.now }
    requires drained { mem.old.changes ≡ [] }
    ensures { MakesOrHalts mem.old mem.new (map Change (writes image.now lane)) result }
{
    restore_records(image, mem, lane)?;
    Ok(apply_entries(image, mem, lane)?)
}

/// Restores the words of the lane's valid records.
fn restore_records(image: &RawImage, mem: &mut SoloMem, lane: u64) -> Result<(), Stopped>
    requires sound { HasSoundLogs image.now (lane + 1) }
    requires words { length mem.old.words ≡ length image.now }
    requires drained { mem.old.changes ≡ [] }
    ensures { MakesOrHalts mem.old mem.new (map Change (flat_map restores (records image.now lane))) result }
{
    for slot in 0..UNDO_SLOTS {
        restore_slot(image, mem, lane, slot)?;
    }
    Ok(())
}

/// Restores the words of the slot's record, if it is a valid one.
fn restore_slot(image: &RawImage, mem: &mut SoloMem, lane: u64, slot: u64) -> Result<(), Stopped>
    requires sound { HasSoundLogs image.now (lane + 1) }
    requires slot { slot < 64 }
    requires words { length mem.old.words ≡ length image.now }
    requires room { length mem.old.changes + 4 ≤ 512 }
    ensures { MakesOrHalts mem.old mem.new (map Change (flat_map restores (option_to_list (valid_record image.now lane slot)))) result }
{
    match valid_record(image, lane, slot) {
        Some(one) => Ok(restore(mem, &one)?),
        None => Ok(()),
    }
}

/// Restores the words of a record.
fn restore(mem: &mut SoloMem, one: &Undo) -> Result<(), Stopped>
    requires few { one.now.count ≤ 4 }
    requires within { one.now.place / 8 + one.now.count ≤ length mem.old.words }
    requires small { length mem.old.words ≤ 1098240 }
    requires room { length mem.old.changes + 4 ≤ 512 }
    ensures { MakesOrHalts mem.old mem.new (map Change (restores one.now)) result }
{
    for k in 0..one.count {
        put(mem, one.place / WORD_BYTES + k, one.old[k as usize])?;
    }
    Ok(())
}

/// Applies the lane's entries, if it is sealed.
fn apply_entries(image: &RawImage, mem: &mut SoloMem, lane: u64) -> Result<(), Stopped>
    requires sound { HasSoundLogs image.now (lane + 1) }
    requires targets { HasTargets image.now (lane + 1) }
    requires words { length mem.old.words ≡ length image.now }
    requires few { length mem.old.changes ≤ 256 }
    ensures { MakesOrHalts mem.old mem.new (map Change (entries image.now lane)) result }
{
    if !is_sealed(image, lane) {
        return Ok(());
    }
    let entries = image.word(PAGE_WORDS + LANE_WORDS * lane + SEAL_AT);
    for i in 0..entries {
        apply_entry(image, mem, lane, i)?;
    }
    Ok(())
}

/// Applies the entry of this number, if its words are one.
fn apply_entry(image: &RawImage, mem: &mut SoloMem, lane: u64, i: u64) -> Result<(), Stopped>
    requires lanes { HasLanes image.now (lane + 1) }
    requires number { i < 64 }
    requires inside { All (λ (e : Redo). e.place / 8 < length mem.old.words) (option_to_list (redo_of (entry_pair image.now lane i))) }
    requires room { CanAdd mem.old.changes }
    ensures { MakesOrHalts mem.old mem.new (map Change (option_to_list (redo_of (entry_pair image.now lane i)))) result }
{
    match entry(image, lane, i) {
        Some(one) => Ok(change(mem, &one)?),
        None => Ok(()),
    }
}

/// The lane's redo entry of this number, if its words are one.
fn entry(image: &RawImage, lane: u64, i: u64) -> Option<Redo>
    requires lanes { HasLanes image.now (lane + 1) }
    requires number { i < 64 }
    ensures { result ≡ redo_of (entry_pair image.now lane i) }
{
    let at = PAGE_WORDS + LANE_WORDS * lane + ENTRIES_AT + ENTRY_WORDS * i;
    let pair = [image.word(at), image.word(at + 1)];
    Redo::decode(&pair)
}

/// Makes all changes persistent, in a pool of so many lines: flushes each changed line, in rising
/// place, and drains. There may be no change.
pub fn write_back(mem: &mut SoloMem, lines: u64) -> Result<(), Stopped>
    ensures { (es : List Redo) → AreUnflushed es mem.old.changes → MakesOrHalts mem.old mem.new (written_back lines es) result }
{
    if mem.undrained() == 0 {
        Ok(())
    } else {
        Ok(flush_and_drain(mem, lines)?)
    }
}

/// Flushes each line with a change, in rising place, in a pool of so many lines, and drains. There
/// is a change.
fn flush_and_drain(mem: &mut SoloMem, lines: u64) -> Result<(), Stopped>
    requires { 0 < length mem.old.changes }
    ensures { (es : List Redo) → AreUnflushed es mem.old.changes → MakesOrHalts mem.old mem.new (map Flush (lines_of lines es) ++ Drain ∷ []) result }
{
    flush_all(mem, lines)?;
    Ok(mem.drain()?)
}

/// Flushes each line with a change, in rising place, in a pool of so many lines.
fn flush_all(mem: &mut SoloMem, lines: u64) -> Result<(), Stopped>
    ensures as_many { OnOk result (length mem.new.changes ≡ length mem.old.changes) }
    ensures made { (es : List Redo) → AreUnflushed es mem.old.changes → MakesOrHalts mem.old mem.new (map Flush (lines_of lines es)) result }
{
    for line in 0..lines {
        flush_changed(mem, line)?;
    }
    Ok(())
}

/// Flushes the line if it is the first with an unflushed change.
fn flush_changed(mem: &mut SoloMem, line: u64) -> Result<(), Stopped>
    requires { (other : ℕ) → other < line → has_unflushed mem.old.changes other ≡ false }
    ensures { MakesOrHalts mem.old mem.new (if has_unflushed mem.old.changes line then Flush line ∷ [] else []) result }
{
    if is_changed(mem, line) {
        Ok(mem.flush(line)?)
    } else {
        Ok(())
    }
}

/// Whether the line has an unflushed change, where no earlier one has.
fn is_changed(mem: &SoloMem, line: u64) -> bool
    requires { (other : ℕ) → other < line → has_unflushed mem.now.changes other ≡ false }
    ensures { result ≡ has_unflushed mem.now.changes line }
{
    match mem.unflushed() {
        Some(least) => least == line,
        None => false,
    }
}
