ghost use Rattle.std.specs.Prelude.{◌≡◌, ◌≢◌, ℕ, ◌+◌, ◌-◌, ◌*◌, ◌/◌, ◌<◌, ◌≤◌, length, slice_index};
ghost use Rattle.pm_layout.specs.Layout.{lane_place, zone_place, chunk_place, pool_size};
ghost use Rattle.pm_layout.specs.Sizes.{class_of};
ghost use Rattle.pm_pool.specs.Created.{root_block, root_offset, zone_word};

use pm_layout::{Class, LINE_BYTES, SIZE_AT, Shape, WORD_BYTES, block_at, class_of, descriptor_of};
use pm_raw::RawImage;

/// The generation that a new lane has.
const FIRST_GENERATION: u64 = 1;

/// A run's bitmap in which the first block alone is taken.
const FIRST_BLOCK: u64 = 1;

/// Copies the header page to the image's front.
pub fn put_header_page(image: &mut RawImage, page: &[u64])
    requires page { length page.now ≡ 512 }
    requires room { 512 ≤ length image.old }
    ensures long { length image.new ≡ length image.old }
    ensures page { (i : ℕ) → i < 512 → slice_index image.new i ≡ slice_index page.now i }
    ensures others { (i : ℕ) → 512 ≤ i → slice_index image.new i ≡ slice_index image.old i }
{
    for (i, word) in page.iter().enumerate() {
        image.set(i as u64, *word);
    }
}

/// Starts each lane's generation.
pub fn put_generations(image: &mut RawImage, shape: Shape)
    requires { length image.old ≡ pool_size shape.lanes shape.zones / 8 }
    ensures long { length image.new ≡ length image.old }
    ensures generations { (lane : ℕ) → lane < shape.lanes → slice_index image.new (lane_place lane / 8) ≡ 1 }
    ensures others { (i : ℕ) → ((lane : ℕ) → lane < shape.lanes → i ≢ lane_place lane / 8) → slice_index image.new i ≡ slice_index image.old i }
{
    for lane in 0..shape.lanes {
        image.set(shape.lane_at(lane) / WORD_BYTES, FIRST_GENERATION);
    }
}

/// Makes the root's block, of `root` bytes, in the first chunk of zones that are all zero; none where `root` is 0.
pub fn put_root(image: &mut RawImage, shape: Shape, root: u64)
    requires size { root ≤ 262080 }
    requires room { length image.old ≡ pool_size shape.lanes shape.zones / 8 }
    requires zero { (i : ℕ) → zone_place shape.lanes 0 ≤ 8 * i → slice_index image.old i ≡ 0 }
    ensures long { length image.new ≡ length image.old }
    ensures before { (i : ℕ) → 8 * i < zone_place shape.lanes 0 → slice_index image.new i ≡ slice_index image.old i }
    ensures zones { (i : ℕ) → zone_place shape.lanes 0 ≤ 8 * i → slice_index image.new i ≡ zone_word root (8 * i - zone_place shape.lanes 0) }
{
    if root == 0 {
        return;
    }
    let class = class_of(root);
    image.set(shape.zone_at(0) / WORD_BYTES, descriptor_of(class));
    if let Class::Lines(_) = class {
        image.set(shape.chunk_at(0, 0) / WORD_BYTES, FIRST_BLOCK);
    }
    image.set(root_block(shape, root) / WORD_BYTES + SIZE_AT, root);
}

/// The root's offset; 0 for no root.
pub fn root_offset(shape: Shape, root: u64) -> u64
    requires { root ≤ 262080 }
    ensures { result ≡ root_offset shape.lanes root }
{
    if root == 0 {
        return 0;
    }
    root_block(shape, root) + LINE_BYTES
}

/// The place of the root's block.
fn root_block(shape: Shape, root: u64) -> u64
    requires { root ≤ 262080 }
    ensures { result ≡ root_block shape.lanes (class_of root) }
{
    let chunk = shape.chunk_at(0, 0);
    match class_of(root) {
        Class::Lines(lines) => block_at(chunk, lines, 0),
        Class::Chunks(_) => chunk,
    }
}
