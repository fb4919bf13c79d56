//! What descriptors and bitmaps say, in recovered words.

ghost use Rattle.std.specs.Prelude.{◌≡◌, ◌+◌, ◌*◌, ◌<◌, ◌≤◌, ◌++◌, ◌==◌, [], ◌∷◌, if◌then◌else◌, find, length, slice_index, All, IfOk, IfSome, OnOk};
ghost use Rattle.std.specs.Int.{bit_at};
ghost use Rattle.std.specs.List.{range_with_len};
ghost use Rattle.std.specs.Option.{option_or};
ghost use Rattle.pm_layout.specs.Layout.{pool_size};
ghost use Rattle.pm_layout.specs.Sizes.{blocks_of, block_place, IfLines, IfChunks};
ghost use Rattle.pm_image.specs.Blocks.{IsAddressable, descriptor_word, chunk_word, class_in, run_blocks, blocks_in, chunk_blocks, blocks};
ghost use Rattle.pm_image.specs.HeapFaults.{chunk_fault, bitmap_fault, zeros_behind, is_described, bad_chunk, is_bad_bitmap, bad_bitmap};

use crate::block::Block;
use crate::fault::ImageFault;
use pm_layout::{
    CHUNK_WORDS, CHUNKS_PER_ZONE, Class, DESCRIPTOR_UNIT, HUGE, LINE_BYTES, LINES_PER_CHUNK,
    PAGE_BYTES, RUN, Shape, WORD_BYTES, blocks_of,
};
use pm_raw::RawImage;
use std::alloc::{AllocError, Global};

/// The first fault of descriptors and bitmaps.
#[tactic(auto, unfolding(crate::specs::HeapFaults::chunk_fault, crate::specs::HeapFaults::bitmap_fault))]
pub fn first_chunk_fault(words: &RawImage, shape: Shape) -> Option<ImageFault>
    requires { pool_size shape.lanes shape.zones ≡ 8 * length words.now }
    ensures { result ≡ option_or (chunk_fault (slice_index words.now) shape.lanes shape.zones) (bitmap_fault (slice_index words.now) shape.lanes shape.zones) }
{
    if let Some(n) = first_bad_chunk(words, shape) {
        let (zone, chunk) = (n / CHUNKS_PER_ZONE, n % CHUNKS_PER_ZONE);
        return Some(ImageFault::Chunk { zone, chunk });
    }
    match first_bad_bitmap(words, shape) {
        Some(n) => {
            let (zone, chunk) = (n / CHUNKS_PER_ZONE, n % CHUNKS_PER_ZONE);
            Some(ImageFault::Bitmap { zone, chunk })
        }
        None => None,
    }
}

/// The number of the first bad descriptor's chunk, counted through all zones.
fn first_bad_chunk(words: &RawImage, shape: Shape) -> Option<u64>
    requires { pool_size shape.lanes shape.zones ≡ 8 * length words.now }
    ensures { result ≡ find (bad_chunk (slice_index words.now) shape.lanes) (range_with_len 0 (64 * shape.zones)) }
{
    for chunk in 0..CHUNKS_PER_ZONE * shape.zones {
        if is_bad_chunk(words, shape, chunk) {
            return Some(chunk);
        }
    }
    None
}

/// Whether the chunk's descriptor is none of the table.
#[tactic(auto, unfolding(crate::specs::HeapFaults::bad_chunk))]
fn is_bad_chunk(words: &RawImage, shape: Shape, chunk: u64) -> bool
    requires size { pool_size shape.lanes shape.zones ≡ 8 * length words.now }
    requires chunk { chunk < 64 * shape.zones }
    ensures { result ≡ bad_chunk (slice_index words.now) shape.lanes chunk }
{
    !is_described(words, descriptor_at(shape, chunk), chunk % CHUNKS_PER_ZONE)
}

/// Whether a descriptor that stands at this word is in the table, its chunk having this number in its zone.
fn is_described(words: &RawImage, at: u64, in_zone: u64) -> bool
    requires number { in_zone < 64 }
    requires inside { at + 64 ≤ in_zone + length words.now }
    requires small { length words.now ≤ 1098240 }
    ensures { result ≡ is_described (slice_index words.now) at in_zone (class_in (slice_index words.now at)) }
{
    match class_in(words.word(at)) {
        None => words.word(at) == 0,
        Some(Class::Lines(_)) => true,
        Some(Class::Chunks(chunks)) => {
            in_zone + chunks <= CHUNKS_PER_ZONE && are_zero_behind(words, at, chunks)
        }
    }
}

/// Whether the descriptors behind this one, up to so many chunks with its own, are 0.
fn are_zero_behind(words: &RawImage, at: u64, chunks: u64) -> bool
    requires inside { at + chunks ≤ length words.now }
    requires small { length words.now ≤ 1098240 }
    ensures { result ≡ zeros_behind (slice_index words.now) at chunks }
{
    for behind in 0..chunks.saturating_sub(1) {
        if words.word(at + 1 + behind) != 0 {
            return false;
        }
    }
    true
}

/// The number of the first run with a bad bitmap, counted through all zones.
fn first_bad_bitmap(words: &RawImage, shape: Shape) -> Option<u64>
    requires { pool_size shape.lanes shape.zones ≡ 8 * length words.now }
    ensures { result ≡ find (bad_bitmap (slice_index words.now) shape.lanes) (range_with_len 0 (64 * shape.zones)) }
{
    for chunk in 0..CHUNKS_PER_ZONE * shape.zones {
        if is_bad_bitmap(words, shape, chunk) {
            return Some(chunk);
        }
    }
    None
}

/// Whether the chunk is a run and its bitmap has a bit past its blocks.
#[tactic(auto, unfolding(crate::specs::HeapFaults::bad_bitmap))]
fn is_bad_bitmap(words: &RawImage, shape: Shape, chunk: u64) -> bool
    requires size { pool_size shape.lanes shape.zones ≡ 8 * length words.now }
    requires chunk { chunk < 64 * shape.zones }
    ensures { result ≡ bad_bitmap (slice_index words.now) shape.lanes chunk }
{
    match class_in(words.word(descriptor_at(shape, chunk))) {
        Some(Class::Lines(lines)) => words.word(chunk_at(shape, chunk)) >= 1 << blocks_of(lines),
        Some(Class::Chunks(_)) | None => false,
    }
}

/// All blocks that the words have, in rising place.
#[tactic(auto, unfolding(crate::specs::Blocks::blocks))]
pub fn blocks_of_words(
    alloc: Global,
    words: &RawImage,
    shape: Shape,
) -> Result<Vec<Block>, AllocError>
    requires { pool_size shape.lanes shape.zones ≡ 8 * length words.now }
    ensures items { IfOk result (λ found. found.items ≡ blocks (slice_index words.now) shape.lanes shape.zones) }
    ensures addressable { IfOk result (λ found. All IsAddressable found.items) }
{
    let mut found = Vec::new(alloc);
    for chunk in 0..CHUNKS_PER_ZONE * shape.zones {
        push_blocks(words, shape, chunk, &mut found)?;
    }
    Ok(found)
}

/// Adds the blocks of one chunk.
#[tactic(auto, unfolding(crate::specs::Blocks::chunk_blocks))]
fn push_blocks(
    words: &RawImage,
    shape: Shape,
    chunk: u64,
    found: &mut Vec<Block>,
) -> Result<(), AllocError>
    requires size { pool_size shape.lanes shape.zones ≡ 8 * length words.now }
    requires chunk { chunk < 64 * shape.zones }
    ensures items { OnOk result (found.new.items ≡ found.old.items ++ chunk_blocks (slice_index words.now) shape.lanes chunk) }
    ensures addressable { All IsAddressable found.old.items → All IsAddressable found.new.items }
{
    let at = chunk_at(shape, chunk);
    let place = WORD_BYTES * at;
    match class_in(words.word(descriptor_at(shape, chunk))) {
        None => Ok(()),
        Some(Class::Lines(lines)) => Ok(push_run(place, words.word(at), lines, found)?),
        Some(Class::Chunks(chunks)) => {
            let lines = LINES_PER_CHUNK * chunks;
            found.push(Block { place, lines })?;
            Ok(())
        }
    }
}

/// Adds the blocks that a run's bitmap has.
fn push_run(place: u64, bitmap: u64, lines: u64, found: &mut Vec<Block>) -> Result<(), AllocError>
    requires place { place ≤ 8785920 }
    requires lines { 0 < blocks_of lines }
    ensures items { OnOk result (found.new.items ≡ found.old.items ++ run_blocks place bitmap lines) }
    ensures addressable { All IsAddressable found.old.items → All IsAddressable found.new.items }
{
    for index in 0..blocks_of(lines) {
        push_block(place, bitmap, lines, index, found)?;
    }
    Ok(())
}

/// Adds the block with this index, if the bitmap has it.
fn push_block(
    place: u64,
    bitmap: u64,
    lines: u64,
    index: u64,
    found: &mut Vec<Block>,
) -> Result<(), AllocError>
    requires place { place ≤ 8785920 }
    requires index { index < blocks_of lines }
    ensures items { OnOk result (found.new.items ≡ found.old.items ++ (if bit_at bitmap index == 1 then record { place = block_place place lines index; lines = lines } ∷ [] else [])) }
    ensures addressable { All IsAddressable found.old.items → All IsAddressable found.new.items }
{
    if bitmap >> index & 1 == 1 {
        let place = place + LINE_BYTES * (1 + lines * index);
        found.push(Block { place, lines })?;
    }
    Ok(())
}

/// What a descriptor makes of its chunk.
#[tactic(auto, unfolding(crate::specs::Blocks::class_in))]
fn class_in(descriptor: u64) -> Option<Class>
    ensures value { result ≡ class_in descriptor }
    ensures lines { IfSome result (λ class. IfLines class (λ lines. 0 < blocks_of lines)) }
    ensures chunks { IfSome result (λ class. IfChunks class (λ chunks. chunks ≤ 64)) }
{
    let kind = descriptor % DESCRIPTOR_UNIT;
    let count = descriptor / DESCRIPTOR_UNIT;
    if kind == RUN && blocks_of(count) > 0 {
        Some(Class::Lines(count))
    } else if kind == HUGE && (1 <= count && count <= CHUNKS_PER_ZONE) {
        Some(Class::Chunks(count))
    } else {
        None
    }
}

/// The word that describes the chunk with this number, counted through all zones; the 63 behind it are in the image.
fn descriptor_at(shape: Shape, chunk: u64) -> u64
    requires { chunk < 64 * shape.zones }
    ensures value { result ≡ descriptor_word shape.lanes chunk }
    ensures inside { 8 * (result + 64) ≤ 8 * (chunk_word shape.lanes chunk) }
{
    shape.zone_at(chunk / CHUNKS_PER_ZONE) / WORD_BYTES + chunk % CHUNKS_PER_ZONE
}

/// The first word of the chunk with this number, counted through all zones.
fn chunk_at(shape: Shape, chunk: u64) -> u64
    requires { chunk < 64 * shape.zones }
    ensures value { result ≡ chunk_word shape.lanes chunk }
    ensures inside { 8 * (result + CHUNK_WORDS) ≤ pool_size shape.lanes shape.zones }
{
    (shape.zone_at(chunk / CHUNKS_PER_ZONE) + PAGE_BYTES) / WORD_BYTES
        + CHUNK_WORDS * (chunk % CHUNKS_PER_ZONE)
}
