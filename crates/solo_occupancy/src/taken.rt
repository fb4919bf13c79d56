//! What the descriptor and the bitmap of a run say is taken of it, and the descriptors of a zone of its chunks.

ghost use Rattle.std.specs.Prelude.{◌≡◌, ◌≢◌, ℕ, ◌+◌, ◌*◌, ◌/◌, ◌<◌, ◌↔◌, ◌==◌, ◌&&◌, ◌||◌, not, nat_le, nat_lt, true};
ghost use Rattle.std.specs.Int.{bit_at};
ghost use Rattle.pm_layout.specs.Sizes.{blocks_of};
ghost use Rattle.solo_view.specs.Blocks.{zone_page, is_run, is_huge};
ghost use Rattle.solo_occupancy.specs.Words.{TellsChunks};

use pm_layout::blocks_of;

/// The descriptor's low byte, for a run and for the first chunk of a block.
const RUN: u64 = 1;

const WHOLE: u64 = 2;

/// What the rest of a descriptor counts in.
const DESCRIPTOR_UNIT: u64 = 256;

/// Whether a chunk that has this descriptor is a run: docs/FORMAT.md, "Shapes and places".
pub fn is_run(descriptor: u64) -> bool
    ensures { result ≡ is_run descriptor }
{
    descriptor % DESCRIPTOR_UNIT == RUN
}

/// The occupancy word of a chunk that has this descriptor and begins with this word, as far as the pool's words say: a bit for each block that is
/// allocated. What is no block of a run counts as taken: each bit past the run's blocks, and all 64 of a chunk that is no run. docs/FORMAT.md, "Volatile
/// words".
pub fn taken_blocks(descriptor: u64, bitmap: u64) -> u64
    ensures { (block : ℕ) → block < 64 → (bit_at result block ≡ 1)
        ↔ ((not (is_run descriptor) || nat_le (blocks_of (descriptor / 256)) block || bit_at bitmap block == 1) ≡ true) }
{
    if is_run(descriptor) {
        bitmap | u64::MAX << blocks_of(descriptor / DESCRIPTOR_UNIT)
    } else {
        u64::MAX
    }
}

/// Which of a zone's chunks are taken by their descriptors, as far as these were looked at, by rising place: docs/FORMAT.md, "Volatile words".
#[derive(Clone, Copy, Debug, PartialEq, Eq)]
pub struct TakenChunks {
    /// A bit for each chunk so far that is taken.
    pub bits: u64,
    /// Up to which chunk the huge blocks so far reach.
    pub end: u64,
}

impl TakenChunks {
    /// Before the zone's first chunk.
    pub fn none() -> TakenChunks
        ensures { (words : ℕ → ℕ) (lanes zone : ℕ) → TellsChunks words lanes zone 0 result }
    {
        TakenChunks { bits: 0, end: 0 }
    }

    /// With the zone's next chunk, 0 for the first, which has this descriptor.
    pub fn with_next(self, chunk: u64, descriptor: u64) -> TakenChunks
        requires { chunk < 64 }
        ensures { (words : ℕ → ℕ) (lanes zone : ℕ) → TellsChunks words lanes zone chunk self → words (512 * zone_page lanes zone + chunk) ≡ descriptor
            → TellsChunks words lanes zone (chunk + 1) result }
    {
        let end = furthest_end(self.end, chunk, descriptor);
        let bits = if is_taken(descriptor, chunk, end) {
            with_bit(self.bits, chunk)
        } else {
            self.bits
        };
        TakenChunks { bits, end }
    }
}

/// Whether a chunk is a run, or one of a huge block, where these reach up to `end`.
fn is_taken(descriptor: u64, chunk: u64, end: u64) -> bool
    ensures { result ≡ (is_run descriptor || nat_lt chunk end) }
{
    is_run(descriptor) || chunk < end
}

/// Up to which chunk the huge blocks reach that begin at or before this one, where those before it reach up to `end`.
fn furthest_end(end: u64, chunk: u64, descriptor: u64) -> u64
    requires { chunk < 64 }
    ensures { (other : ℕ) → nat_lt other result ≡ (nat_lt other end || (is_huge descriptor && nat_lt other (chunk + descriptor / 256))) }
{
    if descriptor % DESCRIPTOR_UNIT == WHOLE {
        end.max(chunk + descriptor / DESCRIPTOR_UNIT)
    } else {
        end
    }
}

/// The word with one bit more.
fn with_bit(word: u64, bit: u64) -> u64
    requires { bit < 64 }
    ensures set { bit_at result bit ≡ 1 }
    ensures others { (other : ℕ) → other ≢ bit → bit_at result other ≡ bit_at word other }
{
    word | 1 << bit
}
