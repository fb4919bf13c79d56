//! The opening of a pool: what its image means, its layout name, and recovery.

ghost use Rattle.std.specs.Prelude.{◌≡◌, ◌≤◌, ℕ, List, IfErr, IfOk, OnOk};
ghost use Rattle.pm_image.specs.Means.{IsMeaning};
ghost use Rattle.pm_objects.specs.declared.pool.PoolView.{PoolView};
ghost use Rattle.pm_recover.specs.Recovery.{IsRecovered};
ghost use Rattle.solo_exec.specs.Opening.{IsOpenCause, lanes_kept};

use crate::outcome::OpenFault;
use pm_image::{MeansFault, means};
use pm_objects::PoolView;
use pm_raw::RawImage;
use pm_recover::{RecoverFault, recover};
use std::alloc::{AllocError, Global};

/// The lanes that run: one alone.
const LANES_KEPT: u64 = 1;

/// Opens the image's pool for so many lanes, if it has this layout name: the image is recovered then, and else as it was.
pub(crate) fn open(
    alloc: Global,
    image: &mut RawImage,
    layout: &str,
    lanes: u64,
) -> Result<PoolView, OpenFault>
    ensures means { IfOk result (IsMeaning image.old) }
    ensures named { IfOk result (λ pool. pool.name ≡ layout.now) }
    ensures few { OnOk result (lanes ≤ lanes_kept) }
    ensures recovered { IfOk result (λ pool. IsRecovered image.old image.new pool.lanes) }
    ensures cause { IfErr result (IsOpenCause image.old layout.now lanes) }
{
    let pool = meaning(alloc, image)?;
    let named = of_layout(pool, layout)?;
    check_lanes(lanes)?;
    recover_image(alloc, image)?;
    Ok(named)
}

/// What the image means.
fn meaning(alloc: Global, image: &RawImage) -> Result<PoolView, OpenFault>
    ensures means { IfOk result (IsMeaning image.now) }
    ensures cause { IfErr result (λ e. (layout : List ℕ) (lanes : ℕ) → IsOpenCause image.now layout lanes e) }
{
    match means(alloc, image) {
        Ok(pool) => Ok(pool),
        Err(MeansFault::Image(found)) => Err(OpenFault::Image(found)),
        Err(MeansFault::Memory) => Err(OpenFault::Memory(AllocError)),
    }
}

/// The pool, if it has this layout name.
fn of_layout(pool: PoolView, layout: &str) -> Result<PoolView, OpenFault>
    ensures same { IfOk result (λ named. named ≡ pool) }
    ensures named { OnOk result (pool.name ≡ layout.now) }
    ensures cause { IfErr result (λ e. (image : List ℕ) (lanes : ℕ) → IsMeaning image pool → IsOpenCause image layout.now lanes e) }
{
    if pool.name.as_slice() == layout.as_bytes() {
        Ok(pool)
    } else {
        Err(OpenFault::Layout(pool.name))
    }
}

/// Whether so many lanes may run.
fn check_lanes(lanes: u64) -> Result<(), OpenFault>
    ensures few { OnOk result (lanes ≤ lanes_kept) }
    ensures cause { IfErr result (λ e. (image layout : List ℕ) (pool : PoolView) → IsMeaning image pool → pool.name ≡ layout → IsOpenCause image layout lanes e) }
{
    if lanes <= LANES_KEPT {
        Ok(())
    } else {
        Err(OpenFault::Lanes {
            asked: lanes,
            kept: LANES_KEPT,
        })
    }
}

/// Recovers the image.
fn recover_image(alloc: Global, image: &mut RawImage) -> Result<(), OpenFault>
    ensures recovered { OnOk result ((pool : PoolView) → IsMeaning image.old pool → IsRecovered image.old image.new pool.lanes) }
    ensures cause { IfErr result (λ e. (layout : List ℕ) (lanes : ℕ) → IsOpenCause image.old layout lanes e) }
{
    match recover(alloc, image) {
        Ok(()) => Ok(()),
        Err(RecoverFault::Image(found)) => Err(OpenFault::Image(found)),
        Err(RecoverFault::Memory(error)) => Err(OpenFault::Memory(error)),
    }
}
