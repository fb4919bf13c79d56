ghost use Rattle.std.specs.Prelude.{◌≡◌, ◌<◌};
ghost use Rattle.solo_view.specs.Area.{area_word};
ghost use Rattle.solo_world.specs.Entries.{entry_word};

/// Bytes of a word.
pub const WORD_BYTES: u64 = 8;

/// Words of a line.
pub const LINE_WORDS: u64 = 8;

/// Words before the first lane's area, and in each area.
const FIRST_AREA: u64 = 512;

const AREA_WORDS: u64 = 1024;

/// Words of a lane's area before its entries.
const ENTRIES_AT: u64 = 8;

/// Words of an entry.
const ENTRY_WORDS: u64 = 2;

/// The first word of a lane's area, its generation.
pub fn area_word(lane: u64) -> u64
    requires { lane < 32 }
    ensures { result ≡ area_word lane }
{
    FIRST_AREA + AREA_WORDS * lane
}

/// The first word of an entry's pair.
pub fn entry_word(lane: u64, i: u64) -> u64
    requires lane { lane < 32 }
    requires entry { i < 64 }
    ensures { result ≡ entry_word lane i }
{
    area_word(lane) + ENTRIES_AT + ENTRY_WORDS * i
}
