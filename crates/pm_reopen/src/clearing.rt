//! Stray records are cleared: those that their lane, as it goes on, might take for its own.

ghost use Rattle.std.specs.Prelude.{◌≡◌, ◌+◌, ◌*◌, ◌^◌, ◌<◌, ◌≤◌, ◌==◌, if◌then◌else◌, [], ◌∷◌, length, map};
ghost use Rattle.std.specs.List.{flat_map};
ghost use Rattle.pm_image.specs.Logs.{generation, slot_line, undo_slot};
ghost use Rattle.pm_image.specs.Steps.{HasLanes};
ghost use Rattle.pm_recover.specs.Recovery.{is_stray};
ghost use Rattle.pm_reopen.specs.Plan.{cleared, cleared_slot, strays, zeros};
ghost use Rattle.pm_reopen.specs.Plan.MemoryCall.{Change, Drain};
ghost use Rattle.pm_reopen.specs.Running.{MakesOrHalts};

use crate::generation::generation_after;
use crate::writing::put;
use pm_image::record_in_slot;
use pm_layout::{LANE_LINES, PAGE_LINES, SLOT_WORDS, SLOTS_AT, UNDO_SLOTS};
use pm_memory::{LaneMem, SoloMem, Stopped};
use pm_raw::RawImage;

/// The line of the first lane's first slot: line 81.
const FIRST_SLOT: u64 = PAGE_LINES + SLOTS_AT;

/// Clears the lane's slots with a stray record, and makes that persistent.
pub fn clear_strays(image: &RawImage, mem: &mut SoloMem, lane: u64) -> Result<(), Stopped>
    requires lanes { HasLanes image.now (lane + 1) }
    requires generation { generation image.now lane ≤ 2 ^ 62 }
    requires words { length mem.old.words ≡ length image.now }
    requires drained { mem.old.changes ≡ [] }
    ensures { MakesOrHalts mem.old mem.new (cleared lane (strays image.now lane)) result }
{
    clear_slots(image, mem, lane)?;
    Ok(drain_changes(mem)?)
}

/// Drains where there is a change.
fn drain_changes(mem: &mut SoloMem) -> Result<(), Stopped>
    ensures { MakesOrHalts mem.old mem.new (if length mem.old.changes == 0 then [] else Drain ∷ []) result }
{
    if mem.undrained() == 0 {
        Ok(())
    } else {
        Ok(mem.drain()?)
    }
}

/// Stores 0 in each word of the lane's slots with a stray record, and flushes each such slot.
fn clear_slots(image: &RawImage, mem: &mut SoloMem, lane: u64) -> Result<(), Stopped>
    requires lanes { HasLanes image.now (lane + 1) }
    requires generation { generation image.now lane ≤ 2 ^ 62 }
    requires words { length mem.old.words ≡ length image.now }
    requires drained { mem.old.changes ≡ [] }
    ensures { MakesOrHalts mem.old mem.new (flat_map (cleared_slot lane) (strays image.now lane)) result }
{
    let generation = generation_after(image, lane);
    for slot in 0..UNDO_SLOTS {
        clear_stray(image, mem, lane, slot, generation)?;
    }
    Ok(())
}

/// Clears the slot if it has a stray record, where its lane goes on with this generation.
fn clear_stray(
    image: &RawImage,
    mem: &mut SoloMem,
    lane: u64,
    slot: u64,
    generation: u64,
) -> Result<(), Stopped>
    requires lanes { HasLanes image.now (lane + 1) }
    requires slot { slot < 64 }
    requires words { length mem.old.words ≡ length image.now }
    requires room { length mem.old.changes + 8 ≤ 512 }
    ensures { MakesOrHalts mem.old mem.new (if is_stray generation (undo_slot image.now lane slot) then cleared_slot lane slot else []) result }
{
    if is_stray(image, lane, slot, generation) {
        Ok(clear_slot(mem, lane, slot)?)
    } else {
        Ok(())
    }
}

/// Whether the slot has a stray record where its lane goes on with this generation.
fn is_stray(image: &RawImage, lane: u64, slot: u64, generation: u64) -> bool
    requires lanes { HasLanes image.now (lane + 1) }
    requires slot { slot < 64 }
    ensures { result ≡ is_stray generation (undo_slot image.now lane slot) }
{
    match record_in_slot(image, lane, slot) {
        Some(found) => generation <= found.generation,
        None => false,
    }
}

/// Stores 0 in each word of the slot, and flushes it.
fn clear_slot(mem: &mut SoloMem, lane: u64, slot: u64) -> Result<(), Stopped>
    requires lane { lane < 32 }
    requires slot { slot < 64 }
    requires words { 8 * slot_line lane slot + 8 ≤ length mem.old.words }
    requires small { length mem.old.words ≤ 1098240 }
    requires room { length mem.old.changes + 8 ≤ 512 }
    ensures { MakesOrHalts mem.old mem.new (cleared_slot lane slot) result }
{
    let line = FIRST_SLOT + LANE_LINES * lane + slot;
    zero_line(mem, line)?;
    Ok(mem.flush(line)?)
}

/// Stores 0 in each word of a line.
fn zero_line(mem: &mut SoloMem, line: u64) -> Result<(), Stopped>
    requires words { 8 * line + 8 ≤ length mem.old.words }
    requires small { length mem.old.words ≤ 1098240 }
    requires room { length mem.old.changes + 8 ≤ 512 }
    ensures { MakesOrHalts mem.old mem.new (map Change (zeros line)) result }
{
    for k in 0..SLOT_WORDS {
        put(mem, SLOT_WORDS * line + k, 0)?;
    }
    Ok(())
}
