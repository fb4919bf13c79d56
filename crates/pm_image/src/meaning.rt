ghost use Rattle.std.specs.Prelude.{◌≡◌, ◌⊎◌, ℕ, ◌+◌, ◌*◌, ◌<◌, ◌≤◌, ◌↔◌, All, [], None, Some, length, slice_index, IfOk, IfErr, IsTrue, OnOk};
ghost use Rattle.pm_layout.specs.Layout.{pool_size};
ghost use Rattle.pm_objects.specs.declared.pool.PoolView.{PoolView};
ghost use Rattle.pm_image.specs.declared.fault.ImageFault.{ImageFault};
ghost use Rattle.pm_image.specs.declared.fault.ImageFault.TheVariants as fault;
ghost use Rattle.pm_image.specs.declared.fault.MeansFault.TheVariants.{Image};
ghost use Rattle.pm_image.specs.Logs as logs;
ghost use Rattle.pm_image.specs.Logs.{recovered_at};
ghost use Rattle.pm_image.specs.Blocks as heap;
ghost use Rattle.pm_image.specs.Blocks.{IsAddressable};
ghost use Rattle.pm_image.specs.LogFaults.{log_fault};
ghost use Rattle.pm_image.specs.HeapFaults.{heap_fault};
ghost use Rattle.pm_image.specs.Means.{HasShape, HasHeader, IsHeaderOf, HasNoLength, HasBadPage, HasOtherShape, pool_in, IsMeaning, IsImageFault, IsUnlessNoMemory};
ghost use Rattle.pm_image.specs.Steps.{IfImage};

use crate::block::Block;
use crate::chunks::{blocks_of_words, first_chunk_fault};
use crate::fault::{ImageFault, MeansFault};
use crate::log_faults::first_log_fault;
use crate::objects::{first_object_fault, objects_in, root_word};
use crate::restoring::{read_logs, recovered_words};
use pm_header::{Header, decode};
use pm_layout::{PAGE_WORDS, Shape, WORD_BYTES};
use pm_objects::{PoolView, Sequence};
use pm_raw::RawImage;
use std::alloc::{AllocError, Global};

/// What the image means: the pool that stands in its recovered words. An error is the image's first fault, or want of memory, and leaves
/// nothing behind: docs/FORMAT.md, "Faults".
pub fn means(alloc: Global, image: &RawImage) -> Result<PoolView, MeansFault>
    ensures pool { IfOk result (IsMeaning image.now) }
    ensures fault { IfErr result (λ e. IfImage e (IsImageFault image.now)) }

    // The one pool or the one fault that the image has is the answer, unless there was no memory for it.
    ensures again { (pool : PoolView) → IsMeaning image.now pool → IsUnlessNoMemory result (Ok pool) }
    ensures exact { (found : ImageFault) → IsImageFault image.now found → IsUnlessNoMemory result (Err (Image found)) }
{
    read_meaning(alloc, image)
}

/// The blocks that the image's recovered words have, in rising place; none where the image has no pool's length.
pub fn blocks(alloc: Global, image: &RawImage) -> Result<Vec<Block>, AllocError>
    ensures in_a_pool { IfOk result (λ found. (lanes zones : ℕ) → HasShape image.now lanes zones → found.items ≡ heap.blocks (recovered_at image.now lanes) lanes zones) }
    ensures in_no_pool { IfOk result (λ found. ((lanes zones : ℕ) → ¬ HasShape image.now lanes zones) → found.items ≡ []) }
{
    match shape_of(image) {
        Ok(shape) => Ok(blocks_in(alloc, image, shape)?),
        Err(MeansFault::Image(_)) => Ok(Vec::new(alloc)),
        Err(MeansFault::Memory) => Err(AllocError),
    }
}

/// The blocks that the recovered words of an image of this shape have.
fn blocks_in(alloc: Global, image: &RawImage, shape: Shape) -> Result<Vec<Block>, AllocError>
    requires { pool_size shape.lanes shape.zones ≡ 8 * length image.now }
    ensures { IfOk result (λ found. found.items ≡ heap.blocks (recovered_at image.now shape.lanes) shape.lanes shape.zones) }
{
    let logs = read_logs(alloc, image, shape.lanes)?;
    let words = recovered_words(alloc, image, shape.lanes, &logs)?;
    let found = blocks_of_words(alloc, &words, shape)?;
    Ok(found)
}

/// The pool that the image means, or its fault.
fn read_meaning(alloc: Global, image: &RawImage) -> Result<PoolView, MeansFault>
    ensures pool { IfOk result (IsMeaning image.now) }
    ensures fault { IfErr result (λ e. IfImage e (IsImageFault image.now)) }
{
    let shape = shape_of(image)?;
    let header = header_of(image, shape)?;
    let words = sound_words(alloc, image, shape)?;
    let blocks = sound_blocks(alloc, &words, shape)?;
    let pool = pool_of(alloc, &words, shape, &header, &blocks)?;
    Ok(pool)
}

/// The pool that recovered words with these blocks hold.
fn pool_of(
    alloc: Global,
    words: &RawImage,
    shape: Shape,
    header: &Header,
    blocks: &[Block],
) -> Result<PoolView, AllocError>
    requires blocks { blocks.now ≡ heap.blocks (slice_index words.now) shape.lanes shape.zones }
    requires addressable { All IsAddressable blocks.now }
    ensures { IfOk result (λ pool. pool ≡ pool_in (slice_index words.now) shape.lanes shape.zones header.now) }
{
    let objects = objects_in(alloc, words, blocks)?;
    let name = Vec::from_slice(alloc, header.name.as_bytes())?;
    let root = match root_word(words) {
        0 => None,
        off => Some(off),
    };
    Ok(PoolView {
        id: header.id,
        name: Sequence::from_vec(name),
        lanes: shape.lanes,
        zones: shape.zones,
        objects: Sequence::from_vec(objects),
        root,
    })
}

/// The shape of a pool of the image's length.
fn shape_of(image: &RawImage) -> Result<Shape, MeansFault>
    ensures size { IfOk result (λ shape. pool_size shape.lanes shape.zones ≡ 8 * length image.now) }
    ensures fault { IfErr result (λ e. IfImage e (HasNoLength image.now)) }
{
    // An image of more bytes than there are numbers fits into no memory.
    let Some(bytes) = image.len().checked_mul(WORD_BYTES) else {
        return Err(MeansFault::Memory);
    };
    match Shape::of_bytes(bytes) {
        Some(shape) => Ok(shape),
        None => Err(MeansFault::Image(ImageFault::Size(bytes))),
    }
}

/// The header of the image, if it is that of a pool of this shape.
fn header_of(image: &RawImage, shape: Shape) -> Result<Header, MeansFault>
    requires { pool_size shape.lanes shape.zones ≡ 8 * length image.now }
    ensures header { IfOk result (HasHeader image.now shape.lanes shape.zones) }
    ensures fits { IfOk result (IsHeaderOf shape.lanes shape.zones) }
    ensures fault { IfErr result (λ e. IfImage e (λ found. HasBadPage image.now found ⊎ HasOtherShape image.now found)) }
{
    let header = match decode(image.words(0, PAGE_WORDS)) {
        Ok(header) => header,
        Err(fault) => return Err(MeansFault::Image(ImageFault::Header(fault))),
    };
    if is_header_of(&header, shape) {
        Ok(header)
    } else {
        Err(MeansFault::Image(ImageFault::Shape))
    }
}

/// Whether the header is that of a pool of this shape.
fn is_header_of(header: &Header, shape: Shape) -> bool
    ensures { IsTrue result ↔ IsHeaderOf shape.lanes shape.zones header.now }
{
    header.lanes == shape.lanes
        && header.zones == shape.zones
        && header.bytes == shape.size()
        && header.id != 0
}

/// The recovered words of the image, if its logs have no fault.
fn sound_words(alloc: Global, image: &RawImage, shape: Shape) -> Result<RawImage, MeansFault>
    requires { pool_size shape.lanes shape.zones ≡ 8 * length image.now }
    ensures words { IfOk result (λ words. words ≡ logs.recovered_words image.now shape.lanes) }
    ensures sound { OnOk result (log_fault image.now shape.lanes shape.zones ≡ None) }
    ensures fault { IfErr result (λ e. IfImage e (λ found. log_fault image.now shape.lanes shape.zones ≡ Some found)) }
{
    let logs = read_logs(alloc, image, shape.lanes)?;
    if let Some(fault) = first_log_fault(alloc, image, shape, &logs)? {
        return Err(MeansFault::Image(fault));
    }
    let words = recovered_words(alloc, image, shape.lanes, &logs)?;
    Ok(words)
}

/// The blocks that recovered words have, if the heap has no fault.
#[tactic(auto, unfolding(crate::specs::HeapFaults::heap_fault))]
fn sound_blocks(alloc: Global, words: &RawImage, shape: Shape) -> Result<Vec<Block>, MeansFault>
    requires { pool_size shape.lanes shape.zones ≡ 8 * length words.now }
    ensures blocks { IfOk result (λ found. found.items ≡ heap.blocks (slice_index words.now) shape.lanes shape.zones) }
    ensures addressable { IfOk result (λ found. All IsAddressable found.items) }
    ensures sound { OnOk result (heap_fault (slice_index words.now) shape.lanes shape.zones ≡ None) }
    ensures fault { IfErr result (λ e. IfImage e (λ found. heap_fault (slice_index words.now) shape.lanes shape.zones ≡ Some found)) }
{
    if let Some(fault) = first_chunk_fault(words, shape) {
        return Err(MeansFault::Image(fault));
    }
    let blocks = blocks_of_words(alloc, words, shape)?;
    match first_object_fault(words, &blocks) {
        Some(fault) => Err(MeansFault::Image(fault)),
        None => Ok(blocks),
    }
}
