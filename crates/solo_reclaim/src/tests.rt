ghost use Rattle.std.specs.Prelude.{◌≡◌, ◌+◌, ◌*◌, ◌^◌, ◌<◌, [], ◌∷◌, List, IfOk, bit_or, length, slice_index, slice_set};
ghost use Rattle.std.specs.Option.{ForSome};
ghost use Rattle.solo_reclaim.specs.Tests.{Rests};

use super::*;
use pm_image::Block;
use pm_layout::{Shape, WORD_BYTES, block_at};
use pm_words::mask;
use solo_memory::{LaneMem, LaneSync, SoloMem};
use solo_occupancy::{Occupancy, occupancy_of};
use solo_view::Occ;
use std::alloc::{AllocError, Global};
use std::test::Fail;

/// The words of a pool of one lane and one zone. Chunk 0 is a run of 31 blocks of two lines, the first and the last of them allocated; a huge block of three
/// chunks begins at chunk 5.
fn words_of_pool(alloc: Global) -> Result<Vec<u64>, AllocError>
    ensures { IfOk result (λ words. length words.items ≡ 34816) }
{
    let mut words = vec![in alloc; 0; 34_816]?;
    words[1_536] = 513;
    words[2_048] = 0x4000_0001;
    words[1_541] = 770;
    Ok(words)
}

/// The occupancy words of zones, with these chunks of the first besides.
fn with_chunks(zones: Vec<u64>, chunks: u64) -> Vec<u64>
    requires { 0 < length zones.items }
    ensures items { result.items ≡ slice_set zones.items 0 (bit_or (slice_index zones.items 0) chunks) }
    ensures fits { slice_index zones.items 0 < 2 ^ 64 }
{
    let mut more = zones;
    more[0] |= chunks;
    more
}

/// A lane alone over such words, which has freed these chunks of the zone.
fn lane_that_freed(
    alloc: Global,
    shape: Shape,
    words: Vec<u64>,
    freed: u64,
) -> Result<SoloMem, AllocError>
    requires { length words.items ≡ 512 + 1024 * shape.lanes + 33280 * shape.zones }
    ensures { IfOk result (λ memory. Rests memory shape []) }
{
    let Occupancy { runs, zones } = occupancy_of(alloc, &words, shape)?;
    let more = with_chunks(zones, freed);
    let opened = SoloMem::new(alloc, words, None)?;
    Ok(opened.with_occupancy(runs, more))
}

/// Reserves a block of the zone's first chunk, to keep it, where it is free and the chunk is a run of two lines.
fn keep_block(memory: &mut SoloMem, shape: Shape, index: u64) -> Option<Block>
    requires index { index < 31 }
    requires rests { Rests memory.old shape [] }
    ensures { ForSome result (λ block. Rests memory.new shape (block ∷ [])) }
{
    let place = shape.chunk_at(0, 0);
    let descriptor = memory.load(shape.zone_at(0) / WORD_BYTES);
    if descriptor != 513 {
        return None;
    }
    if !memory.occupy(Occ::Run(place), mask(index, 1)) {
        return None;
    }
    Some(Block {
        place: block_at(place, 2, index),
        lines: 2,
    })
}

/// Reserves two chunks of the zone, to keep them beside this block, where they are free and described by 0.
fn keep_chunks(memory: &mut SoloMem, shape: Shape, block: Block, first: u64) -> Option<Block>
    requires first { first < 63 }
    requires rests { Rests memory.old shape (block ∷ []) }
    ensures { ForSome result (λ chunks. Rests memory.new shape (block ∷ chunks ∷ [])) }
{
    let word = shape.zone_at(0) / WORD_BYTES + first;
    let descriptor = memory.load(word);
    let next = memory.load(word + 1);
    if descriptor != 0 {
        return None;
    }
    if next != 0 {
        return None;
    }
    if !memory.occupy(Occ::Zone(0), mask(first, 2)) {
        return None;
    }
    Some(Block {
        place: shape.chunk_at(0, first),
        lines: 128,
    })
}

/// Reserves blocks of the zone's first chunk, where they are free.
fn reserve(memory: &mut SoloMem, shape: Shape, blocks: u64) -> bool
    requires { (kept : List Block) × Rests memory.old shape kept }
    ensures { (kept : List Block) → Rests memory.old shape kept → Rests memory.new shape kept }
{
    memory.occupy(Occ::Run(shape.chunk_at(0, 0)), blocks)
}

/// Gives back all that the lane has but these blocks, and tells the words of the zone's first chunk and of the zone.
fn words_left(memory: &mut SoloMem, shape: Shape, kept: &[Block]) -> (u64, u64)
    requires { Rests memory.old shape kept.now }
    ensures { Rests memory.new shape kept.now }
{
    reclaim(memory, shape, kept);
    let run = memory.occupied(Occ::Run(shape.chunk_at(0, 0)));
    let zone = memory.occupied(Occ::Zone(0));
    (run, zone)
}

/// Blocks 1 and 2 are reserved and chunks 8 and 9 freed. Behind a reclaim the occupancy words have what the words of the pool say, and a block that was
/// given back is got again.
#[test]
fn all_is_given_back(rt: HostRuntime) -> Result<(), Fail> {
    let shape = Shape::new(1, 1)?;
    let words = words_of_pool(rt.alloc())?;
    let said = (0xFFFF_FFFF_C000_0001, 0xE1);
    let mut memory = lane_that_freed(rt.alloc(), shape, words, 0x300)?;
    assert!(rt; reserve(&mut memory, shape, 0b110));
    assert!(rt; !reserve(&mut memory, shape, 0b100), "it has the block");
    assert_eq!(rt; words_left(&mut memory, shape, &[]), said);
    assert!(rt; reserve(&mut memory, shape, 0b100), "it is free again");
    assert_eq!(rt; words_left(&mut memory, shape, &[]), said);
    assert_eq!(rt;
        words_left(&mut memory, shape, &[]),
        said,
        "nothing is left"
    );
    Ok(())
}

/// Block 1 and chunks 10 and 11 are reserved and kept, blocks 2 and 3 reserved, and chunks 8 and 9 freed. Each reclaim leaves what is kept and gives back the
/// rest.
#[test]
fn what_is_kept_stays(rt: HostRuntime) -> Result<(), Fail> {
    let shape = Shape::new(1, 1)?;
    let words = words_of_pool(rt.alloc())?;
    let left = (0xFFFF_FFFF_C000_0003, 0xCE1);
    let mut memory = lane_that_freed(rt.alloc(), shape, words, 0x300)?;
    let block = keep_block(&mut memory, shape, 1).expect(&rt, "block 1 is free");
    let chunks = keep_chunks(&mut memory, shape, block, 10).expect(&rt, "chunks 10 and 11 are");
    let kept = [block, chunks];
    assert!(rt; reserve(&mut memory, shape, 0b1100));
    assert_eq!(rt; words_left(&mut memory, shape, &kept), left);
    assert!(rt; !reserve(&mut memory, shape, 0b10), "it keeps the block");
    assert!(rt; reserve(&mut memory, shape, 0b100), "it is free again");
    assert_eq!(rt; words_left(&mut memory, shape, &kept), left);
    Ok(())
}
