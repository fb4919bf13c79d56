//! New pools with a root, opened for a single lane, and for two.

ghost use Rattle.std.specs.Prelude.{◌≡◌, ◌≤◌, IfOk};
ghost use Rattle.pm_call.specs.Standing.{Stands};
ghost use Rattle.pm_shared.specs.Openings.{CanBegin};
ghost use Rattle.pm_world.specs.SoloLanes.{StandsAs};

use pm_lanes::{open, open_solo};
use pm_layout::Shape;
use pm_objects::{Oid, Stops};
use pm_pool::{create, root_offset};
use pm_raw::RawImage;
use pm_shared::Beginning;
use pm_world::{Lane, SoloLane};
use std::alloc::Global;
use std::test::Fail;

/// The id of each pool, and its layout name.
const POOL: u64 = 7;

const LAYOUT: &str = "walk";

/// A new pool of so many lanes and one zone, with a root of so many bytes.
fn image(alloc: Global, lanes: u64, root: u64) -> Result<RawImage, Fail> {
    Ok(create(alloc, Shape::new(lanes, 1)?, POOL, LAYOUT, root)?)
}

/// The root's id in a pool of so many lanes and one zone: a root of so many bytes, at most 4032.
pub fn root_id(lanes: u64, root: u64) -> Result<Oid, Fail>
    requires { root ≤ 4032 }
{
    let off = root_offset(Shape::new(lanes, 1)?, root);
    Ok(Oid { pool: POOL, off })
}

/// Lane 0 of a new pool, with no other lane beside it, before its first call.
pub fn single_lane(alloc: Global, root: u64) -> Result<Lane<SoloLane>, Fail>
    ensures { IfOk result (λ lane. Stands StandsAs lane) }
{
    let image = image(alloc, 1, root)?;
    let Ok((memory, shape, pool)) = open_solo(alloc, image, LAYOUT, None) else {
        return Err(Fail::from("a pool that opens"));
    };
    Ok(Lane::new(alloc, memory, pool, shape)?)
}

/// What both lanes of a new pool of two begin on.
pub fn two_lanes(alloc: Global, root: u64) -> Result<Beginning, Fail>
    ensures begins { IfOk result CanBegin }
    ensures lanes { IfOk result (λ beginning. beginning.lanes ≡ 2) }
{
    let image = image(alloc, 2, root)?;
    match open(alloc, image, LAYOUT, 2, Stops::none()) {
        Ok(beginning) => Ok(beginning),
        Err(_) => Err(Fail::from("a pool that opens")),
    }
}
