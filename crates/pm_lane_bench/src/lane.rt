ghost use Rattle.std.specs.Prelude.{◌≡◌, [], true, false, OnOk};
ghost use Rattle.std.specs.Bool.{OnTrue};
ghost use Rattle.pm_view.specs.View.{View};
ghost use Rattle.pm_lane_bench.specs.Lanes.{CanReserve, Fills, IsUnasked, with_chunk};
ghost use Rattle.pm_shared.specs.Openings.{pool_of};
ghost use Rattle.pm_shared.specs.TestLanes.{Rests};

use crate::kind::LaneStep;
use crate::ors::ors;
use crate::pool::{POOL, beginning};
use crate::{Failure, ROUND};
use pm_layout::Shape;
use pm_memory::{LaneMem, LaneSync, Stopped};
use pm_shared::{PoolSeat, SharedLane, SharedMem, TableName};
use pm_view::Occ;
use pm_world::{Lane, LawfulMem};
use std::marker::Brand;
use std::time::Duration;

/// The line whose lock is taken.
const LOCKED: u64 = 100;

/// The second line of the pool's first chunk.
const LINE: u64 = 385;

/// The first word of that line.
pub const WORD: u64 = 3080;

/// Makes the rounds on the pool's first lane. Where the steps are timed apart from what a lane does
/// besides, it tells how long they took.
pub fn on_lane(rt: &HostRuntime, rounds: u64, step: LaneStep) -> Result<Option<Duration>, Failure> {
    let beginning = beginning(rt.alloc())?;
    let shape = beginning.shape;
    let (memory, pool) = SharedMem::new(rt.alloc(), beginning)?;
    on_first::<Brand>(rt, &memory, pool, shape, rounds, step)
}

fn on_first<N: TableName>(
    rt: &HostRuntime,
    memory: &SharedMem,
    pool: PoolSeat,
    shape: Shape,
    rounds: u64,
    step: LaneStep,
) -> Result<Option<Duration>, Failure>
    requires name { memory.now.table.shared.table_id ≡ N.table }
    requires table { pool.table_id ≡ N.table }
    requires lanes { (memory.now.table.shared.key.lanes ≡ 2) × (memory.now.table.shared.key.shape.lanes ≡ 2) }
    requires id { memory.now.table.shared.key.pool ≡ 7 }
    requires shape { memory.now.table.shared.key.shape ≡ shape }
    requires pool { pool.me ≡ pool_of memory.now.table.shared.key 0 [] }
{
    let mut pool = pool;
    let mut lane = memory.split::<N>(rt.alloc(), &mut pool, 0)?;
    match step {
        LaneStep::Store => {
            stores(&mut lane, rounds)?;
            Ok(None)
        }
        LaneStep::Or => {
            let mut lane = Lane::new(rt.alloc(), lane, POOL, shape)?;
            Ok(Some(ors(rt, &mut lane, rounds)?))
        }
        LaneStep::Lock => {
            locks(&mut lane, rounds)?;
            Ok(None)
        }
    }
}

/// Takes the lock and gives it back in each step.
fn locks<N: TableName>(lane: &mut SharedLane<'_, N>, rounds: u64) -> Result<(), Failure>
    requires { Rests lane.old false }
{
    for _ in 0..rounds {
        lock_round(lane)?;
    }
    Ok(())
}

fn lock_round<N: TableName>(lane: &mut SharedLane<'_, N>) -> Result<(), Failure>
    requires { Rests lane.old false }
    ensures { OnOk result (Rests lane.new false) }
{
    for _ in 0..ROUND {
        if !lane.take_write(LOCKED) {
            return Err(Failure);
        }
        lane.give(LOCKED);
    }
    Ok(())
}

/// Stores the word in each step.
fn stores<N: TableName>(lane: &mut SharedLane<'_, N>, rounds: u64) -> Result<(), Failure>
    requires { IsUnasked lane.old }
{
    if !reserve(lane) {
        return Err(Failure);
    }
    for _ in 0..rounds {
        store_round(lane)?;
    }
    Ok(())
}

/// Reserves the pool's first chunk, and tells whether it did.
pub fn reserve<M: LawfulMem>(mem: &mut M) -> bool
    requires { (v : View) × M.at mem.old v × CanReserve v }
    ensures { OnTrue result
        ((v : View) → M.at mem.old v → CanReserve v → M.at mem.new (with_chunk v)) }
{
    if mem.zone_try(0) {
        mem.occupy(Occ::Zone(0), 1)
    } else {
        false
    }
}

fn store_round<N: TableName>(lane: &mut SharedLane<'_, N>) -> Result<(), Stopped>
    requires { Fills lane.old 0 }
    ensures { OnOk result (Fills lane.new 0) }
{
    for value in 0..ROUND {
        lane.store(WORD, value)?;
    }
    lane.flush(LINE)?;
    lane.drain()?;
    Ok(())
}
