ghost use Rattle.std.specs.Prelude.{◌≡◌, ◌≤◌, [], IfOk};
ghost use Rattle.pm_shared.specs.Openings.{CanBegin, pool_of};
ghost use Rattle.pm_call.specs.Standing.{Stands};

use crate::Failure;
use crate::asked::Asked;
use crate::counters::{Left, ROOT, counters};
use crate::draws::Draws;
use crate::transfers::transfers;
use pm_lanes::open;
use pm_layout::Shape;
use pm_objects::{Oid, Stops};
use pm_pool::{create, root_offset};
use pm_shared::{Beginning, PoolSeat, SharedMem, TableName};
use pm_world::{Lane, LawfulMem};
use std::alloc::Global;
use std::marker::Brand;
use std::sync::Wait;
use std::time::{CpuClock, Duration};

/// The pool's id.
const POOL: u64 = 1;

/// Its layout name.
const LAYOUT: &str = "bench";

/// What transfers left, and the processor time that they took.
#[derive(Drop)]
pub struct Made {
    pub left: Left,
    pub took: Duration,
}

/// What lanes begin on in a new pool of this shape, with a root whose counters are 0. All of its
/// lanes may run.
fn beginning(alloc: Global, shape: Shape) -> Result<Beginning, Failure>
    ensures { IfOk result CanBegin }
{
    let image = create(alloc, shape, POOL, LAYOUT, ROOT)?;
    match open(alloc, image, LAYOUT, shape.lanes, Stops::none()) {
        Ok(beginning) => Ok(beginning),
        Err(_) => Err(Failure),
    }
}

/// Makes the transfers on the first lane of a new pool.
pub fn on_pool<W: Wait>(rt: &HostRuntime, wait: &W, asked: &Asked) -> Result<Made, Failure> {
    let beginning = beginning(rt.alloc(), asked.shape)?;
    let shape = beginning.shape;
    let id = beginning.pool;
    let (memory, pool) = SharedMem::new(rt.alloc(), beginning)?;
    on_first::<Brand, W>(rt, wait, &memory, pool, shape, id, asked)
}

/// Makes the transfers on the first lane of a pool of this shape and id.
fn on_first<N: TableName, W: Wait>(
    rt: &HostRuntime,
    wait: &W,
    memory: &SharedMem,
    pool: PoolSeat,
    shape: Shape,
    id: u64,
    asked: &Asked,
) -> Result<Made, Failure>
    requires name { memory.now.table.shared.table_id ≡ N.table }
    requires table { pool.table_id ≡ N.table }
    requires lanes { 1 ≤ memory.now.table.shared.key.lanes }
    requires shape { memory.now.table.shared.key.shape ≡ shape }
    requires id { memory.now.table.shared.key.pool ≡ id }
    requires pool { pool.me ≡ pool_of memory.now.table.shared.key 0 [] }
{
    let mut pool = pool;
    let lane = memory.split::<N>(rt.alloc(), &mut pool, 0)?;
    let mut lane = Lane::new(rt.alloc(), lane, id, shape)?;
    let root = Oid {
        pool: id,
        off: root_offset(shape, ROOT),
    };
    on_lane(rt, wait, &mut lane, root, asked)
}

/// Makes the transfers on a lane, and looks at what they left.
fn on_lane<M: LawfulMem, W: Wait>(
    rt: &HostRuntime,
    wait: &W,
    lane: &mut Lane<M>,
    root: Oid,
    asked: &Asked,
) -> Result<Made, Failure>
    requires { Stands M.at lane.old }
    ensures { Stands M.at lane.new }
{
    let before = rt.process_cpu_time()?;
    transfers(wait, lane, root, Draws::new(asked.seed), asked.count)?;
    let after = rt.process_cpu_time()?;
    let left = counters(wait, lane, root)?;
    let took = after.checked_sub(before).ok_or(Failure)?;
    Ok(Made { left, took })
}
