ghost use Rattle.std.specs.Prelude.{◌≡◌, IfOk, slice_set};
ghost use Rattle.pm_words.specs.Words.{bytes_of};
ghost use Rattle.pm_vectors.specs.Damages.{damaged, demo_pool, edited};

use crate::damage::{Damage, Lanes};
use pm_layout::{Shape, WORD_BYTES};
use pm_pool::create;
use pm_raw::RawImage;
use pm_words::bytes_of;
use std::alloc::{AllocError, Global};

/// The id, the layout name and the bytes of the root of the pools that are damaged.
const ID: u64 = 7;

const LAYOUT: &str = "demo";

const ROOT: u64 = 64;

/// The bytes that a damage leaves of a new pool.
///
/// # Errors
///
/// There was no memory; nothing is left behind.
pub fn damaged_pool(alloc: Global, damage: &Damage) -> Result<Vec<u8>, AllocError>
    ensures { IfOk result (λ bytes.
        bytes.items ≡ damaged damage.now.lanes damage.now.edits.now damage.now.bytes) }
{
    let mut image = demo_pool(alloc, damage.lanes)?;
    edit(&mut image, damage.edits);
    let words = image.words(0, image.len());
    let mut bytes = vec![in alloc; 0; words.len() * WORD_BYTES as usize]?;
    bytes_of(words, &mut bytes);
    bytes.truncate(damage.bytes);
    Ok(bytes)
}

/// Writes these words over the image's; an edit past its end changes nothing.
#[tactic(auto, using(std::proofs::lemmas::List::drop_more))]
fn edit(image: &mut RawImage, edits: &[(u64, u64)])
    ensures { image.new ≡ edited image.old edits.now }
{
    for edit in edits {
        put(image, edit.0, edit.1);
    }
}

/// Writes one word; past the image's end nothing changes.
fn put(image: &mut RawImage, word: u64, value: u64)
    ensures { image.new ≡ slice_set image.old word value }
{
    if word < image.len() {
        image.set(word, value);
    }
}

/// A new pool of so many lanes with one zone.
fn demo_pool(alloc: Global, lanes: Lanes) -> Result<RawImage, AllocError>
    ensures { IfOk result (λ image. image ≡ demo_pool lanes) }
{
    let Ok(shape) = Shape::new(lanes.count(), 1) else {
        return Err(AllocError);
    };
    match create(alloc, shape, ID, LAYOUT, ROOT) {
        Ok(image) => Ok(image),
        // The values are in range, so there was no memory.
        Err(_) => Err(AllocError),
    }
}
