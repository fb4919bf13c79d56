ghost use Rattle.std.specs.Prelude.{◌≡◌, ℕ, ◌+◌, ◌/◌, ◌%◌, ◌<◌, ◌≤◌, ◌==◌, ◌&&◌, ◌||◌, Bool, true, false, not, nat_lt, cond, length, slice_index, IfOk};
ghost use Rattle.pm_layout.specs.Areas.{page_words};
ghost use Rattle.pm_layout.specs.Chunks.{words_of, chunks_of, page_of_chunk, word_of_descriptor};
ghost use Rattle.pm_layout.specs.Sizes.{blocks_of};
ghost use Rattle.pm_shared.specs.Openings.{pool_opening, OccupancyFits};
ghost use Rattle.pm_view.specs.Claims.{is_run, is_huge};
ghost use Rattle.pm_view.specs.Places.{Small, Big};
ghost use Rattle.pm_world.specs.Memory.{bit};
ghost use Rattle.pm_world.specs.Opens.{takes};

use pm_layout::{
    CHUNKS_PER_ZONE, DESCRIPTOR_UNIT, HUGE, PAGE_WORDS, RUN, Shape, ZONE_PAGES, blocks_of,
};
use std::alloc::{AllocError, Global};

/// The occupancy words of a pool, one a page of 512 words and one a zone: docs/FORMAT.md, "Volatile
/// words".
#[derive(Drop)]
pub struct Occupancy {
    /// Of each page, a bit for each block of the run that it may be.
    pub runs: Vec<u64>,
    /// Of each zone, a bit for each of its 64 chunks.
    pub zones: Vec<u64>,
}

impl Occupancy {
    /// The occupancy words that a pool's words take, whatever their descriptors and bitmaps are.
    ///
    /// # Errors
    ///
    /// `AllocError`: there is no memory for them.
    pub fn of_words(alloc: Global, shape: Shape, words: &[u64]) -> Result<Occupancy, AllocError>
        requires { length words.now ≡ words_of shape }
        ensures { IfOk result (λ made. (lanes : ℕ) → OccupancyFits (pool_opening shape lanes words.now) made.runs.items made.zones.items) }
    {
        let runs = run_words(alloc, shape, words)?;
        let zones = zone_words(alloc, shape, words)?;
        Ok(Occupancy { runs, zones })
    }
}

/// The words of pages. That of a page that is no chunk is all ones.
fn run_words(alloc: Global, shape: Shape, words: &[u64]) -> Result<Vec<u64>, AllocError>
    requires { length words.now ≡ words_of shape }
    ensures count { IfOk result (λ runs. length runs.items ≡ words_of shape / page_words) }
    ensures bits { IfOk result (λ runs. (lanes c i : ℕ) → c < chunks_of shape → i < 64 → bit (slice_index runs.items (page_of_chunk shape c)) i ≡ takes (pool_opening shape lanes words.now) (Small c i)) }
{
    let mut runs = vec![in alloc; u64::MAX; words.len() / PAGE_WORDS as usize]?;
    for chunk in 0..CHUNKS_PER_ZONE * shape.zones {
        let page = page_of(shape, chunk);
        let descriptor = words[descriptor_at(shape, chunk)];
        let bitmap = words[page * PAGE_WORDS as usize];
        runs[page] = taken_blocks(descriptor, bitmap);
    }
    Ok(runs)
}

/// The words of zones.
fn zone_words(alloc: Global, shape: Shape, words: &[u64]) -> Result<Vec<u64>, AllocError>
    requires { length words.now ≡ words_of shape }
    ensures count { IfOk result (λ zones. length zones.items ≡ shape.zones) }
    ensures bits { IfOk result (λ zones. (lanes c : ℕ) → c < chunks_of shape → bit (slice_index zones.items (c / 64)) (c % 64) ≡ takes (pool_opening shape lanes words.now) (Big c)) }
{
    let mut zones = vec![in alloc; 0; shape.zones as usize]?;
    let mut end = 0;
    for chunk in 0..CHUNKS_PER_ZONE * shape.zones {
        let descriptor = words[descriptor_at(shape, chunk)];
        end = further_end(end, chunk, descriptor);
        if is_taken(descriptor, chunk, end) {
            set_chunk(&mut zones, chunk);
        }
    }
    Ok(zones)
}

/// The page that is a chunk.
fn page_of(shape: Shape, chunk: u64) -> usize
    requires { chunk < chunks_of shape }
    ensures { result ≡ page_of_chunk shape chunk }
{
    let zone = chunk / CHUNKS_PER_ZONE;
    (1 + 2 * shape.lanes + ZONE_PAGES * zone + 1 + chunk % CHUNKS_PER_ZONE) as usize
}

/// The word that has the descriptor of a chunk.
fn descriptor_at(shape: Shape, chunk: u64) -> usize
    requires { chunk < chunks_of shape }
    ensures { result ≡ word_of_descriptor shape chunk }
{
    let zone = chunk / CHUNKS_PER_ZONE;
    let first_page = 1 + 2 * shape.lanes + ZONE_PAGES * zone;
    (PAGE_WORDS * first_page + chunk % CHUNKS_PER_ZONE) as usize
}

/// Whether a descriptor is that of a run.
fn is_run(descriptor: u64) -> bool
    ensures { result ≡ is_run descriptor }
{
    descriptor % DESCRIPTOR_UNIT == RUN
}

/// What is taken of a chunk with this descriptor and this first word, a bit for each block: of a run
/// its allocated blocks, and the bits past its blocks; else each of the 64 bits.
fn taken_blocks(descriptor: u64, bitmap: u64) -> u64
    ensures { (i : ℕ) → i < 64 → bit result i ≡ (not (is_run descriptor && nat_lt i (blocks_of (descriptor / 256))) || bit bitmap i) }
{
    if is_run(descriptor) {
        bitmap | u64::MAX << blocks_of(descriptor / DESCRIPTOR_UNIT)
    } else {
        u64::MAX
    }
}

/// Whether a chunk is a run, or one of a huge block, where the huge blocks reach up to `end`.
fn is_taken(descriptor: u64, chunk: u64, end: u64) -> bool
    ensures { result ≡ (is_run descriptor || nat_lt chunk end) }
{
    is_run(descriptor) || chunk < end
}

/// Up to which chunk the huge blocks reach that begin at this chunk or before it, where those before
/// it reach up to `end`.
fn further_end(end: u64, chunk: u64, descriptor: u64) -> u64
    requires { chunk < 2048 }
    ensures { (other : ℕ) → nat_lt other result ≡ (nat_lt other end || (is_huge descriptor && nat_lt other (chunk + descriptor / 256))) }
{
    if descriptor % DESCRIPTOR_UNIT == HUGE {
        end.max(chunk + descriptor / DESCRIPTOR_UNIT)
    } else {
        end
    }
}

/// Sets the bit of a chunk in the word of its zone.
fn set_chunk(zones: &mut Vec<u64>, chunk: u64)
    requires { chunk / 64 < length zones.old.items }
    ensures count { length zones.new.items ≡ length zones.old.items }
    ensures bits { (c : ℕ) → bit (slice_index zones.new.items (c / 64)) (c % 64) ≡ ((c == chunk) || bit (slice_index zones.old.items (c / 64)) (c % 64)) }
{
    let zone = (chunk / CHUNKS_PER_ZONE) as usize;
    zones[zone] |= 1 << (chunk % CHUNKS_PER_ZONE);
}
