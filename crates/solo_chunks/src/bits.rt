//! Bits of a zone's occupancy word.

ghost use Rattle.std.specs.Prelude.{◌≡◌, ◌+◌, ◌≤◌};
ghost use Rattle.solo_chunks.specs.Chunks.{chunk_bits};

use pm_layout::CHUNKS_PER_ZONE;

/// The bits of so many chunks of a zone, from one on, 0 for the first.
pub fn chunk_bits(first: u64, count: u64) -> u64
    requires some { 1 ≤ count }
    requires in_zone { first + count ≤ 64 }
    ensures { result ≡ chunk_bits first count }
{
    u64::MAX >> (CHUNKS_PER_ZONE - count) << first
}
