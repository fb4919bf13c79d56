ghost use Rattle.std.specs.Prelude.{◌≡◌, ◌+◌, ◌<◌, ◌≤◌, [], length, map, All, IfOk, vec_len, vec_capacity};
ghost use Rattle.std.specs.Result.{OnOk};
ghost use Rattle.pm_run.specs.Jobs.{AllRan, AreReady, CameBack, CanJoin, CanRun, items_of};
ghost use Rattle.pm_run.specs.NewLanes.{IsNew};
ghost use Rattle.pm_run.specs.Runs.{HaveRun};
ghost use Rattle.pm_shared.specs.Openings.{CanBegin, pool_of, pool_with};
ghost use Rattle.pm_shared.specs.Seats.{IsSeen};

use crate::Work;
use crate::fates::crash_judged;
use crate::job::{Job, run_jobs};
use pm_lanes::closed_pools_mean_their_histories;
use pm_layout::Shape;
use pm_shared::{Beginning, PoolSeat, SharedLane, SharedMem, TableName};
use pm_view::Change;
use pm_world::Lane;
use std::alloc::{AllocError, Global};
use std::marker::Brand;
use std::sync::Wait;
use std::thread::Threads;

/// The image that lanes left, and the works as they ran.
#[derive(Drop)]
pub struct Ran<W> {
    pub image: Vec<u64>,
    pub works: Vec<W>,
    /// Of each lane, whether the image keeps the call that the lane has open: a call that has its
    /// number and is not answered. Of a lane without such a call it says nothing.
    pub kept: Vec<bool>,
}

/// The memory that lanes share, with the pool's id and shape.
#[derive(Drop)]
struct Pool {
    memory: SharedMem,
    id: u64,
    shape: Shape,
    ghost named: { memory.table.shared.key.pool ≡ id },
    ghost shaped: { memory.table.shared.key.shape ≡ shape },
}

/// Hands the next lane out, before its first call.
fn next_lane<'a, N: TableName>(
    alloc: Global,
    pool: &'a Pool,
    seat: &mut PoolSeat,
    number: u64,
) -> Result<Lane<SharedLane<'a, N>>, AllocError>
    requires name { pool.now.memory.table.shared.table_id ≡ N.table }
    requires table { seat.old.table_id ≡ N.table }
    requires number { number < pool.now.memory.table.shared.key.lanes }
    requires seat { seat.old.me ≡ pool_of pool.now.memory.table.shared.key number [] }
    ensures table { seat.new.table_id ≡ seat.old.table_id }
    ensures seat { OnOk result
        (seat.new.me ≡ pool_of pool.entry.now.memory.table.shared.key (number + 1) []) }
    ensures lane { IfOk result (λ lane. IsNew IsSeen lane number) }
{
    let memory = pool.memory.split::<N>(alloc, seat, number)?;
    Ok(Lane::new(alloc, memory, pool.id, pool.shape)?)
}

/// Hands all lanes out, each with its work.
fn hand_out<'a, N: TableName, W: Drop>(
    alloc: Global,
    pool: &'a Pool,
    seat: &mut PoolSeat,
    works: Vec<W>,
) -> Result<Vec<Job<'a, N, W>>, AllocError>
    requires name { pool.now.memory.table.shared.table_id ≡ N.table }
    requires table { seat.old.table_id ≡ N.table }
    requires works { length works.items ≡ pool.now.memory.table.shared.key.lanes }
    requires seat { seat.old.me ≡ pool_of pool.now.memory.table.shared.key 0 [] }
    ensures table { seat.new.table_id ≡ seat.old.table_id }
    ensures seat { OnOk result
        (seat.new.me ≡ pool_of pool.entry.now.memory.table.shared.key (length works.items) []) }
    ensures jobs { IfOk result (λ jobs. AreReady works.items jobs.items) }
{
    let mut jobs = Vec::with_capacity(alloc, works.len())?;
    for work in works {
        let number = jobs.len() as u64;
        let lane = next_lane::<N>(alloc, pool, seat, number)?;
        jobs.push(Job { number, lane, work })?;
    }
    Ok(jobs)
}

/// Runs the works, each in a thread of its own.
fn run_all<'a, N: TableName + Send + Sync, W: Work + Send, R: Threads + Wait + Sync>(
    rt: &R,
    jobs: &mut Vec<Job<'a, N, W>>,
)
    requires some { 0 < length jobs.old.items }
    requires ready { All (CanRun W.can) jobs.old.items }
    ensures count { length jobs.new.items ≡ length jobs.old.items }
    ensures ran { AllRan W.left jobs.old.items jobs.new.items }
{
    run_jobs(rt, jobs.as_mut_slice());
}

/// Gives the lanes back to the pool, lane by lane, and what each has undrained and its work to the
/// caller.
fn take_back<'a, N: TableName, W: Work + Drop>(
    seat: &mut PoolSeat,
    jobs: Vec<Job<'a, N, W>>,
    undrained: &mut Vec<Vec<Change>>,
    works: &mut Vec<W>,
)
    requires table { seat.old.table_id ≡ N.table }
    requires seat { seat.old.me ≡ pool_with [] }
    requires jobs { CanJoin W.left jobs.items }
    requires none { (undrained.old.items ≡ []) × (works.old.items ≡ []) }
    requires room { (length jobs.items ≤ vec_capacity undrained.old) × (length jobs.items ≤ vec_capacity works.old) }
    ensures table { seat.new.table_id ≡ seat.old.table_id }
    ensures count { length works.new.items ≡ length jobs.entry.items }
    ensures back { CameBack W.left jobs.entry.items seat.new.me
        (map items_of undrained.new.items) works.new.items }
{
    for job in jobs {
        let Job {
            number: _,
            lane,
            work,
        } = job;
        let Lane { memory, .. } = lane;
        let changes = memory.join(seat);
        undrained.push_reserved(changes);
        works.push_reserved(work);
    }
}

/// Runs the works on the lanes of this pool, of which none was handed out yet.
fn run_on<N: TableName + Send + Sync, R: Threads + Wait + Sync, W: Work + Send + Drop>(
    rt: &R,
    alloc: Global,
    pool: Pool,
    seat: PoolSeat,
    works: Vec<W>,
    keep: u64,
) -> Result<Ran<W>, AllocError>
    requires name { pool.memory.table.shared.table_id ≡ N.table }
    requires table { seat.table_id ≡ N.table }
    requires begins { CanBegin pool.memory.table.shared.key }
    requires works { length works.items ≡ pool.memory.table.shared.key.lanes }
    requires can { All W.can works.items }
    requires seat { seat.me ≡ pool_of pool.memory.table.shared.key 0 [] }
    ensures { IfOk result (λ ran. HaveRun W.left pool.memory.table.shared.key keep works.items
        ran.works.items ran.image.items ran.kept.items) }
{
    let mut seat = seat;
    let mut undrained = Vec::with_capacity(alloc, works.len())?;
    let mut done = Vec::with_capacity(alloc, works.len())?;
    let mut logs = Vec::with_capacity(alloc, works.len())?;
    let mut kept = Vec::with_capacity(alloc, works.len())?;
    let mut jobs = hand_out::<N, W>(alloc, &pool, &mut seat, works)?;
    run_all(rt, &mut jobs);
    take_back(&mut seat, jobs, &mut undrained, &mut done);
    closed_pools_mean_their_histories();
    let Pool {
        memory,
        id: _,
        shape,
    } = pool;
    let words = memory.close(seat);
    let image = crash_judged(
        words,
        undrained.as_slice(),
        shape,
        keep,
        &mut logs,
        &mut kept,
    );
    Ok(Ran {
        image,
        works: done,
        kept,
    })
}

/// Runs the works on the lanes of a pool, work k on lane k, each in a thread of its own, and gives
/// the image that the lanes leave where power fails at the end: of each lane's undrained changes as
/// many are kept as `keep` says (docs/FORMAT.md, "Keep"). Of each lane it tells whether the image
/// keeps the call that the lane has open. All memory is taken before the first work runs. Where no
/// thread can be made works run one after another.
///
/// # Errors
///
/// `AllocError`: there is no memory for the lanes; no work ran.
pub fn run_lanes<R: Threads + Wait + Sync, W: Work + Send + Drop>(
    rt: &R,
    alloc: Global,
    beginning: Beginning,
    works: Vec<W>,
    keep: u64,
) -> Result<Ran<W>, AllocError>
    requires begins { CanBegin beginning }
    requires works { length works.items ≡ beginning.lanes }
    requires can { All W.can works.items }
    ensures { IfOk result
        (λ ran. HaveRun W.left beginning keep works.items ran.works.items ran.image.items
        ran.kept.items) }
{
    let id = beginning.pool;
    let shape = beginning.shape;
    let (memory, seat) = SharedMem::new(alloc, beginning)?;
    let pool = Pool { memory, id, shape };
    run_on::<Brand, R, W>(rt, alloc, pool, seat, works, keep)
}
