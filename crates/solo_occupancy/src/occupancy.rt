//! Each word from the pool's descriptors and bitmaps.

ghost use Rattle.std.specs.Prelude.{◌≡◌, ℕ, ◌+◌, ◌*◌, ◌<◌, ◌≤◌, ◌↔◌, true, false, length, slice_index, IfOk};
ghost use Rattle.std.specs.Int.{bit_at};
ghost use Rattle.solo_view.specs.Blocks.{zone_page, is_chunk};
ghost use Rattle.solo_view.specs.Occupancy.{is_block_taken, is_chunk_taken, IsOccupancy};
ghost use Rattle.solo_occupancy.specs.Words.{run_words_of, zone_words_of};

use crate::taken::{TakenChunks, taken_blocks};
use pm_layout::{CHUNKS_PER_ZONE, MAX_ZONES, Shape};
use std::alloc::{AllocError, Global};

/// Words of a page, and so of a chunk.
const PAGE_WORDS: u64 = 512;

/// Pages of a zone: that of its descriptors, and its chunks.
const ZONE_PAGES: u64 = 65;

/// The occupancy words of a pool: one for each page of 512 words, and one for each of 32 zones. A bit is set of what is taken.
#[derive(Debug, Drop)]
pub struct Occupancy {
    /// Of each page, a bit for each block of the run that it may be.
    pub runs: Vec<u64>,
    /// Of each zone, a bit for each of its 64 chunks.
    pub zones: Vec<u64>,
}

/// The occupancy words of a pool of this shape that has these words. The error says that memory is lacking.
pub fn occupancy_of(alloc: Global, words: &[u64], shape: Shape) -> Result<Occupancy, AllocError>
    requires { length words.now ≡ 512 + 1024 * shape.lanes + 33280 * shape.zones }
    ensures runs { IfOk result (λ occupancy. occupancy.runs.items ≡ run_words_of (slice_index words.now) shape.lanes shape.zones) }
    ensures zones { IfOk result (λ occupancy. occupancy.zones.items ≡ zone_words_of (slice_index words.now) shape.lanes shape.zones) }
    ensures occupied { IfOk result (λ occupancy.
        IsOccupancy occupancy.runs.items occupancy.zones.items (slice_index words.now) shape.lanes shape.zones) }
{
    let runs = run_words(alloc, words, shape)?;
    let zones = zone_words(alloc, words, shape)?;
    Ok(Occupancy { runs, zones })
}

/// A word for each page.
fn run_words(alloc: Global, words: &[u64], shape: Shape) -> Result<Vec<u64>, AllocError>
    requires { length words.now ≡ 512 + 1024 * shape.lanes + 33280 * shape.zones }
    ensures { IfOk result (λ runs. runs.items ≡ run_words_of (slice_index words.now) shape.lanes shape.zones) }
{
    let mut runs = Vec::new(alloc);
    for page in 0..zone_page(shape, shape.zones) {
        runs.push(page_word(words, shape, page))?;
    }
    Ok(runs)
}

/// The word of a page: 0 where it is no chunk.
fn page_word(words: &[u64], shape: Shape, page: u64) -> u64
    requires length { length words.now ≡ 512 + 1024 * shape.lanes + 33280 * shape.zones }
    requires page { page < 1 + 2 * shape.lanes + 65 * shape.zones }
    ensures blocks { (block : ℕ) → is_chunk shape.lanes page ≡ true → block < 64
        → (bit_at result block ≡ 1) ↔ (is_block_taken (slice_index words.now) shape.lanes page block ≡ true) }
    ensures elsewhere { is_chunk shape.lanes page ≡ false → result ≡ 0 }
{
    let first = zone_page(shape, 0);
    if page < first {
        return 0;
    }
    let zone = (page - first) / ZONE_PAGES;
    let chunk = (page - first) % ZONE_PAGES;
    if chunk == 0 {
        return 0;
    }
    let descriptor = words[(PAGE_WORDS * zone_page(shape, zone) + chunk - 1) as usize];
    taken_blocks(descriptor, words[(PAGE_WORDS * page) as usize])
}

/// A word for each of 32 zones.
fn zone_words(alloc: Global, words: &[u64], shape: Shape) -> Result<Vec<u64>, AllocError>
    requires { length words.now ≡ 512 + 1024 * shape.lanes + 33280 * shape.zones }
    ensures { IfOk result (λ zones. zones.items ≡ zone_words_of (slice_index words.now) shape.lanes shape.zones) }
{
    let mut zones = Vec::new(alloc);
    for zone in 0..MAX_ZONES {
        zones.push(zone_word(words, shape, zone))?;
    }
    Ok(zones)
}

/// The word of a zone: 0 where the pool has it not.
fn zone_word(words: &[u64], shape: Shape, zone: u64) -> u64
    requires { length words.now ≡ 512 + 1024 * shape.lanes + 33280 * shape.zones }
    ensures chunks { (chunk : ℕ) → zone < shape.zones → chunk < 64
        → (bit_at result chunk ≡ 1) ↔ (is_chunk_taken (slice_index words.now) shape.lanes zone chunk ≡ true) }
    ensures elsewhere { shape.zones ≤ zone → result ≡ 0 }
{
    if zone < shape.zones {
        chunks_word(words, shape, zone)
    } else {
        0
    }
}

/// The word of a zone that the pool has.
fn chunks_word(words: &[u64], shape: Shape, zone: u64) -> u64
    requires length { length words.now ≡ 512 + 1024 * shape.lanes + 33280 * shape.zones }
    requires zone { zone < shape.zones }
    ensures { (chunk : ℕ) → chunk < 64
        → (bit_at result chunk ≡ 1) ↔ (is_chunk_taken (slice_index words.now) shape.lanes zone chunk ≡ true) }
{
    let descriptors = PAGE_WORDS * zone_page(shape, zone);
    let mut taken = TakenChunks::none();
    for chunk in 0..CHUNKS_PER_ZONE {
        taken = taken.with_next(chunk, words[(descriptors + chunk) as usize]);
    }
    taken.bits
}

/// The page at which a zone begins, or, for the number of zones, that behind them.
fn zone_page(shape: Shape, zone: u64) -> u64
    requires { zone < 33 }
    ensures { result ≡ zone_page shape.lanes zone }
{
    1 + 2 * shape.lanes + ZONE_PAGES * zone
}
