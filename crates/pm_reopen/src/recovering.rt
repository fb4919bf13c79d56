//! Recovery as a whole, or stopped in itself.

ghost use Rattle.std.specs.Prelude.{◌≡◌, ℕ, ◌%◌, length, IfErr, IfOk, IsErrAnd, OnErr, OnOk};
ghost use Rattle.pm_objects.specs.declared.pool.PoolView.{PoolView};
ghost use Rattle.pm_image.specs.declared.fault.ImageFault.{ImageFault};
ghost use Rattle.pm_image.specs.Means.{IsImageFault, IsMeaning};
ghost use Rattle.pm_recover.specs.Answers.{IfImage};
ghost use Rattle.pm_recover.specs.Recovery.{HasMeaning, HasNoStrayRecord, IsRecovered};
ghost use Rattle.pm_recover.specs.Steps.{HasSoundLogs};
ghost use Rattle.pm_reopen.specs.Ends.{end_of};
ghost use Rattle.pm_reopen.specs.Plan.{plan};
ghost use Rattle.pm_reopen.specs.Premise.{HasNoTornClearing, HasTargets, HasWords, IsRecoverable};
ghost use Rattle.pm_reopen.specs.Running.{IsLeft, words_left};
ghost use Rattle.pm_reopen.specs.Steps.{Leaves};

use crate::end::RecoverEnd;
use crate::lane::recover_lanes;
use pm_image::{MeansFault, means};
use pm_memory::{LaneMem, SoloMem, Stopped};
use pm_raw::RawImage;
use pm_recover::RecoverFault;
use std::alloc::{AllocError, Global};

/// Recovers the image of a pool, as its opening does: the whole plan of memory calls is made on its
/// words (docs/FORMAT.md, "Recovery"). The image means what it meant, and has no stray record. The
/// answer is how many calls were made. An error is the image's first fault, or want of memory; the
/// image is then as it was, as it is written last of all.
pub fn recover(alloc: Global, image: &mut RawImage) -> Result<u64, RecoverFault>
    ensures done { OnOk result (HasMeaning image.old) }
    ensures calls { IfOk result (λ calls. (pool : PoolView) → IsMeaning image.old pool → calls ≡ length (plan image.old pool.lanes)) }
    ensures made { OnOk result ((pool : PoolView) → IsMeaning image.old pool → image.new ≡ words_left image.old pool.lanes) }
    ensures recovered { OnOk result ((pool : PoolView) → IsMeaning image.old pool → IsRecovered image.old image.new pool.lanes) }
    ensures clean { OnOk result ((pool : PoolView) → IsMeaning image.old pool → HasNoStrayRecord image.new pool.lanes) }
    ensures again { OnOk result ((pool : PoolView) → IsMeaning image.old pool → IsRecoverable image.new pool) }
    ensures as_long { OnOk result (length image.new ≡ length image.old) }
    ensures unchanged { OnErr result (image.new ≡ image.old) }
    ensures fault { IfErr result (λ e. IfImage e (IsImageFault image.old)) }
    ensures refused { (found : ImageFault) → IsImageFault image.old found → IsErrAnd result (λ e. IfImage e (λ told. told ≡ found)) }
{
    let end = run(alloc, image, None, 0)?;
    Ok(end.calls())
}

/// Recovers the image with at most `stop` counted memory calls. Where it needs more, the image
/// becomes what a power failure then leaves, which keeps as many of the undrained changes as `keep`
/// says: 0 none, 1 all, else by numbers that follow it. It means what it meant, and can be recovered
/// again, if no record that was cleared in part is whole by chance. An error is the image's first
/// fault, or want of memory; the image is then as it was.
pub fn recover_stop(
    alloc: Global,
    image: &mut RawImage,
    stop: u64,
    keep: u64,
) -> Result<RecoverEnd, RecoverFault>
    ensures done { OnOk result (HasMeaning image.old) }
    ensures ends { IfOk result (λ end. (pool : PoolView) → IsMeaning image.old pool → end ≡ end_of (length (plan image.old pool.lanes)) stop) }
    ensures left { OnOk result ((pool : PoolView) → IsMeaning image.old pool → IsLeft image.old pool.lanes stop keep image.new) }
    ensures whole { IfOk result (λ end. (pool : PoolView) (calls : ℕ) → IsMeaning image.old pool → end ≡ RecoverEnd.Whole calls
        → IsRecovered image.old image.new pool.lanes × IsRecoverable image.new pool) }
    ensures again { OnOk result ((pool : PoolView) → IsMeaning image.old pool → HasNoTornClearing image.old pool.lanes → IsRecoverable image.new pool) }
    ensures as_long { OnOk result (length image.new ≡ length image.old) }
    ensures unchanged { OnErr result (image.new ≡ image.old) }
    ensures fault { IfErr result (λ e. IfImage e (IsImageFault image.old)) }
    ensures refused { (found : ImageFault) → IsImageFault image.old found → IsErrAnd result (λ e. IfImage e (λ told. told ≡ found)) }
{
    Ok(run(alloc, image, Some(stop), keep)?)
}

/// Recovers the image, as far as the stop number lets it.
fn run(
    alloc: Global,
    image: &mut RawImage,
    stop: Option<u64>,
    keep: u64,
) -> Result<RecoverEnd, RecoverFault>
    ensures done { OnOk result (HasMeaning image.old) }
    ensures leaves { IfOk result (λ end. (pool : PoolView) → IsMeaning image.old pool → Leaves image.old pool.lanes stop keep end image.new) }
    ensures words { OnOk result (HasWords image.old) }
    ensures unchanged { OnErr result (image.new ≡ image.old) }
    ensures fault { IfErr result (λ e. IfImage e (IsImageFault image.old)) }
    ensures refused { (found : ImageFault) → IsImageFault image.old found → IsErrAnd result (λ e. IfImage e (λ told. told ≡ found)) }
{
    let lanes = sound_lanes(alloc, image)?;
    let words = copied(alloc, image)?;
    let mut mem = SoloMem::new(alloc, words, stop)?;
    let ran = recover_lanes(image, &mut mem, lanes);
    let left = mem.survive(alloc, keep)?;
    *image = RawImage::from_words(alloc, &left)?;
    match ran {
        Ok(()) => Ok(RecoverEnd::Whole(mem.calls())),
        Err(Stopped) => Ok(RecoverEnd::Stopped(mem.calls())),
    }
}

/// The image's words, each of 64 bits.
fn copied(alloc: Global, image: &RawImage) -> Result<Vec<u64>, AllocError>
    ensures same { IfOk result (λ words. words.items ≡ image.now) }
    ensures words { OnOk result (HasWords image.now) }
{
    let mut words = Vec::with_capacity(alloc, image.len() as usize)?;
    for i in 0..image.len() {
        words.push(image.word(i))?;
    }
    Ok(words)
}

/// How many lanes the image has, if it has no fault.
fn sound_lanes(alloc: Global, image: &RawImage) -> Result<u64, RecoverFault>
    ensures done { OnOk result (HasMeaning image.now) }
    ensures lanes { IfOk result (λ lanes. (pool : PoolView) → IsMeaning image.now pool → pool.lanes ≡ lanes) }
    ensures sound { IfOk result (HasSoundLogs image.now) }
    ensures targets { IfOk result (HasTargets image.now) }
    ensures lines { OnOk result (length image.now % 8 ≡ 0) }
    ensures fault { IfErr result (λ e. IfImage e (IsImageFault image.now)) }
    ensures refused { (found : ImageFault) → IsImageFault image.now found → IsErrAnd result (λ e. IfImage e (λ told. told ≡ found)) }
{
    match means(alloc, image) {
        Ok(pool) => Ok(pool.lanes),
        Err(MeansFault::Image(found)) => Err(RecoverFault::Image(found)),
        Err(MeansFault::Memory) => Err(RecoverFault::Memory(AllocError)),
    }
}
