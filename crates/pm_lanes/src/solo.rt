ghost use Rattle.std.specs.Prelude.{◌≡◌, ◌≤◌, ◌-◌, ◌++◌, IfErr, IfOk, length, replicate};
ghost use Rattle.pm_lanes.specs.declared.fault.OpenFault.{OpenFault};
ghost use Rattle.pm_lanes.specs.Opens.{IsOpenCause, IsOpened, IsRefusedFor, StandsOpened};

use crate::fault::OpenFault;
use crate::opening::open_in_place;
use pm_layout::{MAX_ZONES, Shape};
use pm_memory::SoloMem;
use pm_objects::Stops;
use pm_raw::RawImage;
use pm_shared::Beginning;
use pm_world::SoloLane;
use std::alloc::{AllocError, Global};

/// Opens a pool for lane 0 with no other lane beside it, over a memory of its own: its image is
/// recovered, and the lane is that of the recovered words before its first call, with the pool's
/// shape and id. It stops after `stop` counted calls, if there is a number. A copy of the image is
/// recovered, so that no word of it changes where it comes back.
///
/// # Errors
///
/// The first of these, with the image as it was.
///
/// - `Memory`: there is no memory for the words; also where the opening needs more as it goes on.
/// - `Image`: the image has this fault (docs/FORMAT.md, "Faults").
/// - `Layout`: the pool has another layout name.
pub fn open_solo<'a>(
    alloc: Global,
    image: RawImage,
    layout: &'a str,
    stop: Option<u64>,
) -> Result<(SoloLane, Shape, u64), (RawImage, OpenFault<'a>)>
    ensures opened { IfOk result (λ made. IsOpened image layout.now made.0.words made.1 made.2) }
    ensures stands { IfOk result (λ made. StandsOpened made.0 made.1 made.2 stop) }
    ensures unchanged { IfErr result (λ e. e.0 ≡ image) }
    ensures cause { IfErr result (λ e. IsOpenCause image layout.now 1 e.1) }
    ensures refused { (fault : OpenFault) → IsOpenCause image layout.now 1 fault
        → IsRefusedFor fault result }
{
    let Ok(copy) = image.copy(alloc) else {
        return Err((image, OpenFault::Memory));
    };
    match begin_solo(alloc, copy, layout, stop) {
        Ok(made) => Ok(made),
        Err(fault) => Err((image, fault)),
    }
}

/// Lane 0 of the pool of this image, with the pool's shape and id.
fn begin_solo<'a>(
    alloc: Global,
    image: RawImage,
    layout: &'a str,
    stop: Option<u64>,
) -> Result<(SoloLane, Shape, u64), OpenFault<'a>>
    ensures opened { IfOk result
        (λ made. IsOpened image layout.now made.0.words made.1 made.2) }
    ensures stands { IfOk result (λ made. StandsOpened made.0 made.1 made.2 stop) }
    ensures cause { IfErr result (IsOpenCause image layout.now 1) }
{
    let beginning = open_in_place(alloc, image, layout, 1, Stops::none())?;
    let Beginning {
        shape,
        pool,
        lanes: _,
        stops: _,
        words,
        runs,
        zones,
    } = beginning;
    let zones = all_zones(alloc, &zones)?;
    let memory = SoloMem::new(alloc, words, stop)?.with_occupancy(runs, zones);
    Ok((SoloLane::new(memory), shape, pool))
}

/// The occupancy words of zones, and 0 for each zone that the pool does not have.
fn all_zones(alloc: Global, zones: &[u64]) -> Result<Vec<u64>, AllocError>
    requires { length zones.now ≤ 32 }
    ensures { IfOk result (λ all. all.items ≡ zones.now ++ replicate (32 - length zones.now) 0) }
{
    let others = vec![in alloc; 0; MAX_ZONES as usize - zones.len()]?;
    let mut all = Vec::from_slice(alloc, zones)?;
    all.extend_from_slice(&others)?;
    Ok(all)
}
