ghost use Rattle.std.specs.Prelude.{◌≡◌, ◌<◌};
ghost use Rattle.pm_image.specs.Logs.{slot_line};
ghost use Rattle.solo_view.specs.Area.{area_word};

/// Words of a line.
pub const LINE_WORDS: u64 = 8;

/// Words before the first lane's area, and in each area.
const FIRST_AREA: u64 = 512;

const AREA_WORDS: u64 = 1024;

/// Lines of a lane's area before its undo slots.
const SLOTS_AT: u64 = 17;

/// The first word of a lane's area, its generation.
pub fn area_word(lane: u64) -> u64
    requires { lane < 32 }
    ensures { result ≡ area_word lane }
{
    FIRST_AREA + AREA_WORDS * lane
}

/// The line of an undo slot.
pub fn slot_line(lane: u64, slot: u64) -> u64
    requires lane { lane < 32 }
    requires slot { slot < 64 }
    ensures { result ≡ slot_line lane slot }
{
    area_word(lane) / LINE_WORDS + SLOTS_AT + slot
}
