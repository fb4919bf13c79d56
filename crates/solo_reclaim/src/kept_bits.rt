//! The bits of the occupancy words that blocks have.

ghost use Rattle.std.specs.Prelude.{◌≡◌, ◌≢◌, ◌⊎◌, ◌↔◌, ℕ, ◌+◌, ◌/◌, ◌%◌, ◌≤◌, ◌<◌, All};
ghost use Rattle.std.specs.Int.{bit_at};
ghost use Rattle.solo_view.specs.declared.occ.Occ.TheVariants.{Run, Zone};
ghost use Rattle.pm_layout.specs.Layout.{chunk_place};
ghost use Rattle.solo_world.specs.Heap.{IsOcc};
ghost use Rattle.solo_reclaim.specs.KeptBlocks.{IsBitOf, IsChunkBitOf, IsKeptBit, IsOfHeap, IsRunBitOf};

use pm_image::Block;
use pm_layout::{CHUNK_BYTES, CHUNKS_PER_ZONE, LINE_BYTES, LINES_PER_CHUNK, Shape};
use pm_words::mask;
use solo_view::Occ;

/// The bits of an occupancy word of the pool that are of these blocks.
pub fn kept_bits(kept: &[Block], shape: Shape, at: Occ) -> u64
    requires pool { IsOcc shape.lanes shape.zones at }
    requires heap { All (IsOfHeap shape.lanes) kept.now }
    ensures { (bit : ℕ) → (bit_at result bit ≡ 1) ↔ IsKeptBit shape.lanes kept.now at bit }
{
    let mut bits = 0;
    for block in kept {
        bits |= bits_of(*block, shape, at);
    }
    bits
}

/// Those that are of one block.
fn bits_of(block: Block, shape: Shape, at: Occ) -> u64
    requires pool { IsOcc shape.lanes shape.zones at }
    requires heap { IsOfHeap shape.lanes block }
    ensures { (bit : ℕ) → (bit_at result bit ≡ 1) ↔ IsBitOf shape.lanes block at bit }
{
    match at {
        Occ::Run(place) => bit_in_run(block, place),
        Occ::Zone(zone) => bits_in_zone(block, shape, zone),
    }
}

/// The bit of a block of the run whose chunk is at this place; none where the block is whole chunks, or lies elsewhere.
fn bit_in_run(block: Block, place: u64) -> u64
    requires whole { place % 4096 ≡ 0 }
    requires behind { block.lines % 64 ≢ 0 → 1 ≤ block.place % 4096 / 64 }
    ensures { (bit : ℕ) → (bit_at result bit ≡ 1) ↔ IsRunBitOf block (Run place) bit }
{
    if block.lines % LINES_PER_CHUNK == 0 || block.place / CHUNK_BYTES != place / CHUNK_BYTES {
        return 0;
    }
    let line = block.place % CHUNK_BYTES / LINE_BYTES;
    mask((line - 1) / block.lines, 1)
}

/// The bits of a block that is whole chunks of this zone; none where it is one of a run, or lies elsewhere.
fn bits_in_zone(block: Block, shape: Shape, zone: u64) -> u64
    requires inside { zone < shape.zones }
    requires heap { IsOfHeap shape.lanes block }
    ensures { (bit : ℕ) → (bit_at result bit ≡ 1) ↔ IsChunkBitOf shape.lanes block (Zone zone) bit }
{
    let chunks = shape.chunk_at(zone, 0);
    if block.lines % LINES_PER_CHUNK != 0 || block.place < chunks {
        return 0;
    }
    let first = (block.place - chunks) / CHUNK_BYTES;
    if first < CHUNKS_PER_ZONE {
        mask(first, block.lines / LINES_PER_CHUNK)
    } else {
        0
    }
}
