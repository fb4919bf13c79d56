ghost use Rattle.std.specs.Prelude.{◌≡◌, ◌↔◌, ℕ, List, IfOk, IsTrue, OnErr};
ghost use Rattle.pm_objects.specs.declared.pool.PoolView.{PoolView};
ghost use Rattle.pm_image.specs.declared.fault.ImageFault.{ImageFault};
ghost use Rattle.pm_image.specs.Means.{IsImageFault, IsMeaning};
ghost use Rattle.pm_check.specs.Verdicts.{DidCheck, IsMended, IsOfOnePair};

use crate::repair::with_good_pair;
use pm_header::HeaderFault;
use pm_image::{ImageFault, MeansFault, means};
use pm_raw::RawImage;
use std::alloc::{AllocError, Global};

/// What a check finds.
#[derive(Clone, Copy, Debug, PartialEq, Eq)]
pub enum Verdict {
    /// The image means a pool.
    Consistent,
    /// This is the image's first fault.
    Fault(ImageFault),
    /// This was the image's first fault, a damaged pair of the header. The good pair was written over it, and the image means a
    /// pool now.
    Mended(ImageFault),
}

/// Checks the image of a pool, and mends its header where `repair` is true, one pair of the header is good, and the image has no
/// other fault. The image is changed where the verdict is `Mended`, and there alone.
///
/// # Errors
///
/// There was no memory; the image is as it was.
pub fn check(alloc: Global, image: &mut RawImage, repair: bool) -> Result<Verdict, AllocError>
    ensures verdict { IfOk result (DidCheck image.old image.new repair) }
    ensures unchanged { OnErr result (image.new ≡ image.old) }

    // Each image has one verdict.
    ensures consistent { (pool : PoolView) → IsMeaning image.old pool →
        IfOk result (λ told. told ≡ Verdict.Consistent) }
    ensures mended { (found : ImageFault) (new : List ℕ) → IsTrue repair →
        IsMended image.old found new → IfOk result (λ told. told ≡ Verdict.Mended found) }
    ensures fault { (found : ImageFault) → IsImageFault image.old found →
        ((new : List ℕ) → IsTrue repair → ¬ IsMended image.old found new) →
        IfOk result (λ told. told ≡ Verdict.Fault found) }
{
    judge(alloc, image, repair)
}

/// The same without what follows from the verdict.
fn judge(alloc: Global, image: &mut RawImage, repair: bool) -> Result<Verdict, AllocError>
    ensures verdict { IfOk result (DidCheck image.old image.new repair) }
    ensures unchanged { OnErr result (image.new ≡ image.old) }
{
    let found = match means(alloc, image) {
        Ok(_) => return Ok(Verdict::Consistent),
        Err(MeansFault::Image(found)) => found,
        Err(MeansFault::Memory) => return Err(AllocError),
    };
    if !repair || !is_of_one_pair(found) {
        return Ok(Verdict::Fault(found));
    }
    let mended = with_good_pair(alloc, image)?;
    match means(alloc, &mended) {
        Ok(_) => {
            *image = mended;
            Ok(Verdict::Mended(found))
        }
        Err(MeansFault::Image(_)) => Ok(Verdict::Fault(found)),
        Err(MeansFault::Memory) => Err(AllocError),
    }
}

/// Whether the fault is that of one pair of the header alone.
fn is_of_one_pair(found: ImageFault) -> bool
    ensures { IsTrue result ↔ IsOfOnePair found }
{
    match found {
        ImageFault::Header(HeaderFault::HeaderMain | HeaderFault::HeaderCopy) => true,
        _ => false,
    }
}
