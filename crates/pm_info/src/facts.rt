ghost use Rattle.std.specs.Prelude.{◌≡◌, ◌≤◌, IfErr, IfOk, IsErrOf};
ghost use Rattle.pm_shelf.specs.Outside.{Rose};
ghost use Rattle.pm_image.specs.Means.{IsImageFault, IsMeaning};
ghost use Rattle.pm_image.specs.Steps.{IfImage};
ghost use Rattle.pm_info.specs.Facts.{IsInfoOf, DidPut, info_text};

use crate::fault::TextFault;
use crate::lines::{push_count_lines, push_object_lines, push_pool_lines};
use pm_image::{MeansFault, means};
use pm_objects::PoolView;
use pm_raw::RawImage;
use pm_shelf::Sink;
use pm_text::put_lines;
use std::alloc::{AllocError, Global};

/// Puts the text of the image's facts into the sink, one put for each line. All memory but the sink's own is taken before the
/// first put.
///
/// # Errors
///
/// The image's first fault, where nothing is put; `Failed` where the sink failed, which then has a front of the text; `Memory`
/// where there was no memory, and the sink has some whole lines or nothing.
pub fn info<K: Sink>(alloc: Global, image: &RawImage, out: &mut K) -> Result<(), TextFault>
    ensures put { DidPut image.now (K.told out.old) (K.told out.new) result }
    ensures failed { IsErrOf result TextFault.Failed → Rose (K.faults out.old) (K.faults out.new) }
    ensures count { K.faults out.old ≤ K.faults out.new }
{
    let text = match info_text(alloc, image) {
        Ok(text) => text,
        Err(fault) => return Err(TextFault::from(fault)),
    };
    put_lines(&text, out)?;
    Ok(())
}

/// The text of the image's facts, each line with its line feed.
///
/// # Errors
///
/// The image's first fault, or want of memory: docs/FORMAT.md, "Faults".
pub fn info_text(alloc: Global, image: &RawImage) -> Result<Vec<u8>, MeansFault>
    ensures text { IfOk result (λ text. IsInfoOf image.now text.items) }
    ensures fault { IfErr result (λ e. IfImage e (IsImageFault image.now)) }
{
    let pool = means(alloc, image)?;
    let text = text_of(alloc, image, &pool)?;
    Ok(text)
}

/// The text of an image that means this pool.
fn text_of(alloc: Global, image: &RawImage, pool: &PoolView) -> Result<Vec<u8>, AllocError>
    requires { IsMeaning image.now pool.now }
    ensures { IfOk result (λ text. text.items ≡ info_text image.now pool.now) }
{
    let mut out = Vec::new(alloc);
    push_pool_lines(alloc, &mut out, image, pool)?;
    push_object_lines(alloc, &mut out, pool)?;
    push_count_lines(alloc, &mut out, image, pool)?;
    Ok(out)
}
