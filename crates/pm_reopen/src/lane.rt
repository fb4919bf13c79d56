//! Recovery lane after lane, on a memory.

ghost use Rattle.std.specs.Prelude.{◌≡◌, ◌+◌, ◌/◌, ◌%◌, ◌≤◌, [], length, OnOk};
ghost use Rattle.pm_recover.specs.Steps.{HasSoundLogs};
ghost use Rattle.pm_reopen.specs.Plan.{lane_plan, log_end, persisted, plan, writes};
ghost use Rattle.pm_reopen.specs.Premise.{HasTargets};
ghost use Rattle.pm_reopen.specs.Running.{MakesOrHalts};

use crate::clearing::clear_strays;
use crate::ending::end_log;
use crate::writing::{write_back, write_words};
use pm_layout::LINE_WORDS;
use pm_memory::{SoloMem, Stopped};
use pm_raw::RawImage;

/// Makes the memory calls that recover an image of so many lanes, on a memory of its words.
pub fn recover_lanes(image: &RawImage, mem: &mut SoloMem, lanes: u64) -> Result<(), Stopped>
    requires sound { HasSoundLogs image.now lanes }
    requires targets { HasTargets image.now lanes }
    requires lines { length image.now % 8 ≡ 0 }
    requires words { length mem.old.words ≡ length image.now }
    requires drained { mem.old.changes ≡ [] }
    ensures made { MakesOrHalts mem.old mem.new (plan image.now lanes) result }
    ensures drained { OnOk result (mem.new.changes ≡ []) }
{
    for lane in 0..lanes {
        recover_lane(image, mem, lane)?;
    }
    Ok(())
}

/// Makes those of one lane.
fn recover_lane(image: &RawImage, mem: &mut SoloMem, lane: u64) -> Result<(), Stopped>
    requires sound { HasSoundLogs image.now (lane + 1) }
    requires targets { HasTargets image.now (lane + 1) }
    requires lines { length image.now % 8 ≡ 0 }
    requires words { length mem.old.words ≡ length image.now }
    requires drained { mem.old.changes ≡ [] }
    ensures made { MakesOrHalts mem.old mem.new (lane_plan image.now lane) result }
    ensures drained { OnOk result (mem.new.changes ≡ []) }
{
    restore_lane(image, mem, lane)?;
    clear_strays(image, mem, lane)?;
    Ok(retire_lane(image, mem, lane)?)
}

/// Restores the lane's words and applies its entries, and makes that persistent.
fn restore_lane(image: &RawImage, mem: &mut SoloMem, lane: u64) -> Result<(), Stopped>
    requires sound { HasSoundLogs image.now (lane + 1) }
    requires targets { HasTargets image.now (lane + 1) }
    requires lines { length image.now % 8 ≡ 0 }
    requires words { length mem.old.words ≡ length image.now }
    requires drained { mem.old.changes ≡ [] }
    ensures made { MakesOrHalts mem.old mem.new (persisted (length image.now / 8) (writes image.now lane)) result }
    ensures drained { OnOk result (mem.new.changes ≡ []) }
{
    let lines = image.len() / LINE_WORDS;
    write_words(image, mem, lane)?;
    Ok(write_back(mem, lines)?)
}

/// Ends the lane's log, and makes that persistent.
fn retire_lane(image: &RawImage, mem: &mut SoloMem, lane: u64) -> Result<(), Stopped>
    requires sound { HasSoundLogs image.now (lane + 1) }
    requires lines { length image.now % 8 ≡ 0 }
    requires words { length mem.old.words ≡ length image.now }
    requires drained { mem.old.changes ≡ [] }
    ensures made { MakesOrHalts mem.old mem.new (persisted (length image.now / 8) (log_end image.now lane)) result }
    ensures drained { OnOk result (mem.new.changes ≡ []) }
{
    let lines = image.len() / LINE_WORDS;
    end_log(image, mem, lane)?;
    Ok(write_back(mem, lines)?)
}
