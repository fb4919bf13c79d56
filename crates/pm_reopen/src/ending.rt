//! A lane's log is ended: it is sealed no more, or goes on with another generation.

ghost use Rattle.std.specs.Prelude.{◌≡◌, ◌+◌, ◌^◌, ◌<◌, ◌≤◌, [], length, map};
ghost use Rattle.pm_image.specs.Logs.{generation};
ghost use Rattle.pm_image.specs.Steps.{HasLanes};
ghost use Rattle.pm_reopen.specs.Plan.{log_end};
ghost use Rattle.pm_reopen.specs.Plan.MemoryCall.{Change};
ghost use Rattle.pm_reopen.specs.Running.{MakesOrHalts};

use crate::generation::is_raised;
use crate::writing::put;
use pm_image::{generation, is_sealed};
use pm_layout::{GENERATION_AT, LANE_WORDS, PAGE_WORDS, SEAL_AT};
use pm_memory::{SoloMem, Stopped};
use pm_raw::RawImage;

/// Stores the end of the lane's log: the seal 0, or the generation that it goes on with; nothing
/// where the log is empty.
pub fn end_log(image: &RawImage, mem: &mut SoloMem, lane: u64) -> Result<(), Stopped>
    requires lanes { HasLanes image.now (lane + 1) }
    requires generation { generation image.now lane ≤ 2 ^ 62 }
    requires words { length mem.old.words ≡ length image.now }
    requires drained { mem.old.changes ≡ [] }
    ensures { MakesOrHalts mem.old mem.new (map Change (log_end image.now lane)) result }
{
    let area = PAGE_WORDS + LANE_WORDS * lane;
    if is_sealed(image, lane) {
        Ok(put(mem, area + SEAL_AT, 0)?)
    } else if is_raised(image, lane) {
        Ok(put(mem, area + GENERATION_AT, generation(image, lane) + 1)?)
    } else {
        Ok(())
    }
}
