//! What stands in blocks, in recovered words. A word past the image's end is read as 0, as definitions have it.

ghost use Rattle.std.specs.Prelude.{◌≡◌, ℕ, ◌+◌, ◌<◌, ◌^◌, find, length, not, slice_index, All, IfOk};
ghost use Rattle.std.specs.Option.{option_or};
ghost use Rattle.pm_objects.specs.Pool.{block_lines};
ghost use Rattle.pm_image.specs.Blocks.{IsAddressable};
ghost use Rattle.pm_image.specs.Contents.{header_word, bytes_in, walk, object_in, objects_in, offset_in};
ghost use Rattle.pm_image.specs.HeapFaults.{block_fault, link_fault, root_fault, good_block, bad_root};
ghost use Rattle.pm_image.specs.Narrowings.{takes_links};

use crate::block::Block;
use crate::fault::ImageFault;
use pm_layout::{
    Class, FIRST_AT, KIND_AT, LINE_WORDS, LINES_PER_CHUNK, LIST_AT, MAX_SIZE, NEXT_AT, PREV_AT,
    ROOT_WORD, SIZE_AT, UNUSED_AT, WORD_BYTES, class_of,
};
use pm_objects::{Object, Sequence};
use pm_raw::RawImage;
use pm_words::bytes_of;
use std::alloc::{AllocError, Global};

/// So many words before an object's first one stands the word of its header line that has the next
/// member.
const NEXT_BEFORE: u64 = LINE_WORDS - NEXT_AT;

/// The first fault of the objects in these blocks, and of the root.
#[tactic(auto, unfolding(crate::specs::HeapFaults::block_fault, crate::specs::HeapFaults::link_fault, crate::specs::HeapFaults::root_fault))]
pub fn first_object_fault(words: &RawImage, blocks: &[Block]) -> Option<ImageFault>
    requires { All IsAddressable blocks.now }
    ensures { result ≡ option_or (block_fault (slice_index words.now) blocks.now) (option_or (link_fault (slice_index words.now) blocks.now) (root_fault (slice_index words.now) blocks.now)) }
{
    if let Some(block) = first_bad_block(words, blocks) {
        return Some(ImageFault::Block(block.offset()));
    }
    if let Some(block) = first_linked(words, blocks) {
        return Some(ImageFault::Link(block.offset()));
    }
    if is_bad_root(words, blocks) {
        return Some(ImageFault::Root(root_word(words)));
    }
    None
}

/// The first block in which no object of its size can stand.
fn first_bad_block(words: &RawImage, blocks: &[Block]) -> Option<Block>
    ensures { result ≡ find (λ block. not (good_block (slice_index words.now) block)) blocks.now }
{
    blocks
        .iter()
        .copied()
        .find(|block| !is_good_block(words, *block))
}

/// Whether an object of 1 to 262,080 bytes can stand in the block, and the header line ends with zeros.
#[tactic(auto, unfolding(crate::specs::HeapFaults::good_block))]
fn is_good_block(words: &RawImage, block: Block) -> bool
    ensures { result ≡ good_block (slice_index words.now) block }
{
    let size = header_word(words, block, SIZE_AT);
    1 <= size
        && size <= MAX_SIZE
        && block_lines(class_of(size)) == block.lines
        && header_word(words, block, UNUSED_AT[0]) == 0
        && header_word(words, block, UNUSED_AT[1]) == 0
}

/// The lines of a block of this class.
fn block_lines(class: Class) -> u64
    requires { block_lines class < 2 ^ 64 }
    ensures { result ≡ block_lines class }
{
    match class {
        Class::Lines(lines) => lines,
        Class::Chunks(chunks) => LINES_PER_CHUNK * chunks,
    }
}

/// The first block whose object has links that this reader does not take.
fn first_linked(words: &RawImage, blocks: &[Block]) -> Option<Block>
    ensures { result ≡ find (λ block. not (takes_links (slice_index words.now) block)) blocks.now }
{
    blocks
        .iter()
        .copied()
        .find(|block| !takes_links(words, *block))
}

/// Whether this reader takes the object's links: it takes none.
fn takes_links(words: &RawImage, block: Block) -> bool
    ensures { result ≡ takes_links (slice_index words.now) block }
{
    header_word(words, block, NEXT_AT) == 0
        && header_word(words, block, PREV_AT) == 0
        && header_word(words, block, LIST_AT) == 0
        && header_word(words, block, FIRST_AT) == 0
}

/// Whether the root word names no object.
#[tactic(auto, unfolding(crate::specs::HeapFaults::bad_root))]
fn is_bad_root(words: &RawImage, blocks: &[Block]) -> bool
    requires { All IsAddressable blocks.now }
    ensures { result ≡ bad_root (slice_index words.now) blocks.now }
{
    let root = root_word(words);
    if root == 0 {
        return false;
    }
    for block in blocks {
        if block.offset() == root {
            return false;
        }
    }
    true
}

/// The root's offset, 0 where there is none.
pub fn root_word(words: &RawImage) -> u64
    ensures { result ≡ slice_index words.now 64 }
{
    word_or_zero(words, ROOT_WORD)
}

/// The objects in these blocks, with their offsets.
#[tactic(auto, unfolding(crate::specs::Contents::objects_in))]
pub fn objects_in(
    alloc: Global,
    words: &RawImage,
    blocks: &[Block],
) -> Result<Vec<(u64, Object)>, AllocError>
    requires { All IsAddressable blocks.now }
    ensures { IfOk result (λ objects. objects.items ≡ objects_in (slice_index words.now) blocks.now) }
{
    let mut objects = Vec::new(alloc);
    for block in blocks {
        let object = object_in(alloc, words, *block, blocks.len())?;
        objects.push((block.offset(), object))?;
    }
    Ok(objects)
}

/// The object in a block of a pool that has so many.
fn object_in(
    alloc: Global,
    words: &RawImage,
    block: Block,
    count: usize,
) -> Result<Object, AllocError>
    ensures { IfOk result (λ object. object ≡ object_in (slice_index words.now) count block) }
{
    let bytes = bytes_in(alloc, words, block)?;
    let members = members_from(alloc, words, count, header_word(words, block, FIRST_AT))?;
    Ok(Object {
        kind: header_word(words, block, KIND_AT),
        bytes: Sequence::from_vec(bytes),
        members: Sequence::from_vec(members),
    })
}

/// The bytes of the object in the block.
#[tactic(auto, unfolding(crate::specs::Contents::bytes_in))]
fn bytes_in(alloc: Global, words: &RawImage, block: Block) -> Result<Vec<u8>, AllocError>
    ensures { IfOk result (λ bytes. bytes.items ≡ bytes_in (slice_index words.now) block) }
{
    let size = header_word(words, block, SIZE_AT);
    let first = block.place / WORD_BYTES + LINE_WORDS;
    let mut bytes = Vec::new(alloc);
    for k in 0..size.div_ceil(WORD_BYTES) {
        let mut part = [0; WORD_BYTES as usize];
        bytes_of(&[word_or_zero(words, first + k)], &mut part);
        bytes.extend_from_slice(&part)?;
    }
    bytes.truncate(size as usize);
    Ok(bytes)
}

/// The offsets that lead from one on by the next words, at most so many.
fn members_from(
    alloc: Global,
    words: &RawImage,
    count: usize,
    first: u64,
) -> Result<Vec<u64>, AllocError>
    ensures { IfOk result (λ members. members.items ≡ walk (slice_index words.now) count first) }
{
    let mut members = Vec::new(alloc);
    let mut off = first;
    while off != 0 && members.len() < count {
        members.push(off)?;
        off = word_or_zero(words, (off / WORD_BYTES).saturating_sub(NEXT_BEFORE));
    }
    Ok(members)
}

/// Word `k` of the block's header line.
fn header_word(words: &RawImage, block: Block, k: u64) -> u64
    requires { k < 8 }
    ensures { result ≡ header_word (slice_index words.now) block k }
{
    word_or_zero(words, block.place / WORD_BYTES + k)
}

fn word_or_zero(words: &RawImage, i: u64) -> u64
    ensures { result ≡ slice_index words.now i }
{
    if i < words.len() { words.word(i) } else { 0 }
}
