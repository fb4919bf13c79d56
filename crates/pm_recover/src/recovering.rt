//! Recovery as a whole.

ghost use Rattle.std.specs.Prelude.{◌≡◌, ◌⊎◌, ℕ, ◌<◌, IfErr, IfOk, IsErrAnd, OnErr, OnOk};
ghost use Rattle.pm_objects.specs.declared.pool.PoolView.{PoolView};
ghost use Rattle.pm_image.specs.declared.fault.ImageFault.{ImageFault};
ghost use Rattle.std.specs.List.{flat_map, range_with_len};
ghost use Rattle.pm_image.specs.Logs.{entries, seal_word};
ghost use Rattle.pm_image.specs.Means.{IsImageFault, IsMeaning};
ghost use Rattle.pm_recover.specs.declared.fault.RecoverFault.TheVariants.{Image, Memory};
ghost use Rattle.pm_recover.specs.Recovery.{HasMeaning, IsRecovered};
ghost use Rattle.pm_recover.specs.Answers.{IfImage};
ghost use Rattle.pm_recover.specs.Steps.{HasApartLogs, HasSoundLogs};

use crate::applying::apply_all;
use crate::clearing::clear_strays;
use crate::fault::RecoverFault;
use crate::restoring::restore_all;
use crate::settling::settle_lanes;
use pm_image::{MeansFault, means, sealed_entries};
use pm_raw::RawImage;
use pm_record::Redo;
use std::alloc::{AllocError, Global};

/// Recovers the image of a pool, as its opening does: the words that valid undo records have are put back, the entries of sealed
/// lanes are applied, each sealed lane takes its last entry's generation and is sealed no more, and each other lane with such a
/// record, or with a torn slot, goes on to its next generation; and a record of a lane's generation from then on, or of one to come, is cleared
/// (docs/FORMAT.md, "Recovery"). An error is the image's first
/// fault, or want of memory; all memory is taken before the first word is written, so the image is then as it was.
pub fn recover(alloc: Global, image: &mut RawImage) -> Result<(), RecoverFault>
    ensures done { OnOk result (HasMeaning image.old) }
    ensures recovered { OnOk result ((pool : PoolView) → IsMeaning image.old pool → IsRecovered image.old image.new pool.lanes) }
    ensures seals { OnOk result ((pool : PoolView) (lane : ℕ) → IsMeaning image.old pool → lane < pool.lanes → seal_word image.new lane ≡ 0) }
    ensures meaning { OnOk result ((pool : PoolView) → IsMeaning image.old pool → IsMeaning image.new pool) }
    ensures unchanged { OnErr result (image.new ≡ image.old) }
    ensures fault { IfErr result (λ e. IfImage e (IsImageFault image.old)) }
    ensures refused { (found : ImageFault) → IsImageFault image.old found → IsErrAnd result (λ e. IfImage e (λ told. told ≡ found)) }
{
    let lanes = sound_lanes(alloc, image)?;
    let entries = sealed_entries(alloc, image, lanes)?;
    recover_lanes(image, lanes, &entries);
    Ok(())
}

/// How many lanes the image has, if it has no fault.
fn sound_lanes(alloc: Global, image: &RawImage) -> Result<u64, RecoverFault>
    ensures done { OnOk result (HasMeaning image.now) }
    ensures lanes { IfOk result (λ lanes. (pool : PoolView) → IsMeaning image.now pool → pool.lanes ≡ lanes) }
    ensures sound { IfOk result (HasSoundLogs image.now) }
    ensures apart { IfOk result (HasApartLogs image.now) }
    ensures fault { IfErr result (λ e. IfImage e (IsImageFault image.now)) }
    ensures refused { (found : ImageFault) → IsImageFault image.now found → IsErrAnd result (λ e. IfImage e (λ told. told ≡ found)) }
{
    match means(alloc, image) {
        Ok(pool) => Ok(pool.lanes),
        Err(MeansFault::Image(found)) => Err(RecoverFault::Image(found)),
        Err(MeansFault::Memory) => Err(RecoverFault::Memory(AllocError)),
    }
}

/// Restores what the records of so many lanes have, applies their entries, which these are, ends their logs, and clears stray records.
fn recover_lanes(image: &mut RawImage, lanes: u64, found: &[Redo])
    requires sound { HasSoundLogs image.old lanes }
    requires apart { HasApartLogs image.old lanes }
    requires entries { found.now ≡ flat_map (entries image.old) (range_with_len 0 lanes) }
    ensures { IsRecovered image.old image.new lanes }
{
    restore_all(image, lanes);
    apply_all(image, lanes, found);
    settle_lanes(image, lanes);
    clear_strays(image, lanes);
}
