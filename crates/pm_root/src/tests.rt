ghost use Rattle.std.specs.Prelude.{◌≡◌, IfOk, false};
ghost use Rattle.pm_call.specs.Standing.{Stands};
ghost use Rattle.pm_world.specs.SoloLanes.{StandsAs};

use super::*;
use pm_lanes::open_solo;
use pm_layout::Shape;
use pm_objects::{Oid, Refusal};
use pm_pool::{create, root_offset};
use pm_world::{Lane, LawfulMem, SoloLane};
use std::alloc::Global;
use std::sync::Wait;
use std::test::Fail;

/// The id of each pool, and its layout name.
const POOL: u64 = 7;

const LAYOUT: &str = "root";

/// The shape of each pool: one lane, and one zone.
fn shape() -> Result<Shape, Fail> {
    Ok(Shape::new(1, 1)?)
}

/// Lane 0 of a new pool of one lane, before its first call: with a root of so many bytes, or none
/// where that is 0.
fn single_lane(alloc: Global, root: u64) -> Result<Lane<SoloLane>, Fail>
    ensures { IfOk result (λ lane. Stands StandsAs lane) }
{
    let image = create(alloc, shape()?, POOL, LAYOUT, root)?;
    let Ok((memory, shape, pool)) = open_solo(alloc, image, LAYOUT, None) else {
        return Err(Fail::from("a pool that opens"));
    };
    Ok(Lane::new(alloc, memory, pool, shape)?)
}

/// A look at the root's id, as a step of a lane that stands.
#[tactic(auto, using(crate::proofs::RootLooks::root_id_stands, pm_call::proofs::Standing::stands_between))]
fn look<M: LawfulMem, R: Wait>(rt: &R, lane: &mut Lane<M>) -> Result<Oid, Refusal>
    requires { Stands M.at lane.old }
    ensures { Stands M.at lane.new }
{
    root_id(rt, lane)
}

/// A look in a transaction, or by a lane that stopped.
fn look_late<M: LawfulMem, R: Wait>(rt: &R, lane: &mut Lane<M>) -> Result<Oid, Refusal>
    requires { lane.old.stopped ≡ false → lane.old.level ≡ 1 }
{
    root_id(rt, lane)
}

/// The root is found, and found again; no lock is left.
#[test]
fn roots_are_found(rt: HostRuntime) -> Result<(), Fail> {
    let mut lane = single_lane(rt.alloc(), 64)?;
    let id = Oid {
        pool: POOL,
        off: root_offset(shape()?, 64),
    };
    assert_eq!(rt; look(&rt, &mut lane), Ok(id));
    assert!(rt; lane.idle());
    assert_eq!(rt; look(&rt, &mut lane), Ok(id));
    assert!(rt; lane.idle());
    Ok(())
}

/// A pool without a root has the null id.
#[test]
fn no_root_is_null(rt: HostRuntime) -> Result<(), Fail> {
    let mut lane = single_lane(rt.alloc(), 0)?;
    assert_eq!(rt; look(&rt, &mut lane), Ok(Oid::NULL));
    Ok(())
}

/// In a transaction, and once the lane stopped, nothing is done.
#[test]
fn late_looks_are_refused(rt: HostRuntime) -> Result<(), Fail> {
    let mut lane = single_lane(rt.alloc(), 64)?;
    lane.level = 1;
    assert_eq!(rt; look_late(&rt, &mut lane), Err(Refusal::InTx));
    lane.stopped = true;
    assert_eq!(rt; look_late(&rt, &mut lane), Err(Refusal::Stopped));
    Ok(())
}
