//! Walks of two lanes of one pool, over the words that they share.

ghost use Rattle.std.specs.Prelude.{◌≡◌, ℕ, ◌<◌, IfOk, []};
ghost use Rattle.pm_call.specs.Standing.{Stands};
ghost use Rattle.pm_shared.specs.Openings.{idle_view, pool_of};
ghost use Rattle.pm_shared.specs.Seats.{IsSeen};
ghost use Rattle.pm_shared.specs.declared.rule.Beginning as shared;

use crate::pools::{root_id, two_lanes};
use crate::walks;
use pm_layout::Shape;
use pm_shared::{PoolSeat, SharedLane, SharedMem, TableName};
use pm_world::Lane;
use std::alloc::Global;
use std::marker::Brand;
use std::process::Abort;
use std::sync::Wait;
use std::test::Fail;

/// The root's bytes.
const ROOT: u64 = 64;

/// The lane over a memory of which nothing was asked.
fn lane_of<'a, N: TableName>(
    alloc: Global,
    memory: SharedLane<'a, N>,
    pool: u64,
    shape: Shape,
) -> Result<Lane<SharedLane<'a, N>>, Fail>
    requires { (b : shared.Beginning) × (lane : ℕ) × IsSeen memory (idle_view b lane)
        × (b.pool ≡ pool) × (b.shape ≡ shape) × (lane < shape.lanes) }
    ensures { IfOk result (λ made. Stands IsSeen made) }
{
    Ok(Lane::new(alloc, memory, pool, shape)?)
}

/// Both lanes of the pool, before their first calls, walk together.
fn busy<N: TableName, R: Abort + Wait>(
    rt: &R,
    alloc: Global,
    memory: SharedMem,
    seat: PoolSeat,
    pool: u64,
    shape: Shape,
) -> Result<(), Fail>
    requires name { memory.table.shared.table_id ≡ N.table }
    requires table { seat.table_id ≡ N.table }
    requires lanes { memory.table.shared.key.lanes ≡ 2 }
    requires shape { memory.table.shared.key.shape ≡ shape }
    requires id { memory.table.shared.key.pool ≡ pool }
    requires seat { seat.me ≡ pool_of memory.table.shared.key 0 [] }
{
    let mut seat = seat;
    let first = memory.split::<N>(alloc, &mut seat, 0)?;
    let second = memory.split::<N>(alloc, &mut seat, 1)?;
    let mut first = lane_of(alloc, first, pool, shape)?;
    let mut second = lane_of(alloc, second, pool, shape)?;
    walks::busy(rt, &mut first, &mut second, root_id(2, ROOT)?)
}

#[test]
fn a_lock_of_another_lane_is_busy(rt: HostRuntime) -> Result<(), Fail> {
    let beginning = two_lanes(rt.alloc(), ROOT)?;
    let pool = beginning.pool;
    let shape = beginning.shape;
    let (memory, seat) = SharedMem::new(rt.alloc(), beginning)?;
    busy::<Brand, _>(&rt, rt.alloc(), memory, seat, pool, shape)
}
