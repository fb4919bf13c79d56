ghost use Rattle.std.specs.Prelude.{◌≡◌, ◌/◌};

use pm_layout::{LINE_BYTES, WORD_BYTES};

/// The line of 64 bytes that holds the byte at this place.
pub fn line_of(place: u64) -> u64
    ensures { result ≡ place / 64 }
{
    place / LINE_BYTES
}

/// The word of 8 bytes that holds the byte at this place.
pub fn word_of(place: u64) -> u64
    ensures { result ≡ place / 8 }
{
    place / WORD_BYTES
}
