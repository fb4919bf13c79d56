ghost use Rattle.std.specs.Prelude.{◌≡◌, true, false, [], IfOk};
ghost use Rattle.pm_shared.specs.Bare.{BeginsBare};
ghost use Rattle.pm_shared.specs.Openings.{pool_of};
ghost use Rattle.pm_shared.specs.TestLanes.{Rests};

use super::*;
use pm_layout::Shape;
use pm_memory::LaneSync;
use pm_objects::Stops;
use pm_world::{Lane, bare_words};
use std::alloc::Global;
use std::marker::Brand;
use std::sync::Wait;
use std::sync::atomic::{AtomicU64, Ordering};
use std::test::Fail;
use std::thread;
use std::thread::{Threads, join};

/// The line whose lock the lanes take.
const LINE: u64 = 100;

/// What lanes begin on in a pool of two lanes and one zone that has no object.
fn beginning(alloc: Global) -> Result<Beginning, Fail>
    ensures { IfOk result (λ b. BeginsBare b × (b.lanes ≡ 2)) }
{
    let shape = Shape::new(2, 1)?;
    let words = bare_words(alloc, shape)?;
    Ok(Beginning {
        shape,
        pool: 7,
        lanes: 2,
        stops: Stops::none(),
        words,
        runs: vec![in alloc; u64::MAX; 70]?,
        zones: vec![in alloc; 0; 1]?,
    })
}

/// Waits for the line's lock.
fn lock<N: TableName, R: Wait>(rt: &R, lane: &mut SharedLane<'_, N>)
    requires { Rests lane.old false }
    ensures { Rests lane.new true }
{
    for _ in rt.forever() {
        if lane.take_write(LINE) {
            return;
        }
        thread::yield_now();
    }
    unreachable!();
}

/// Adds 1 to the word under the line's lock, by a load and a store.
fn add_under_lock<N: TableName, R: Wait>(rt: &R, lane: &mut SharedLane<'_, N>, word: &AtomicU64)
    requires { Rests lane.old false }
    ensures { Rests lane.new false }
{
    lock(rt, lane);
    let found = word.load(Ordering::SeqCst);
    word.store(found.wrapping_add(1), Ordering::SeqCst);
    lane.give(LINE);
}

/// Adds 1 to the word 10,000 times.
fn work<'a, N: TableName, R: Wait>(
    rt: &R,
    lane: SharedLane<'a, N>,
    word: &AtomicU64,
) -> SharedLane<'a, N>
    requires { Rests lane false }
    ensures { Rests result false }
{
    let mut lane = lane;
    for _ in 0..10_000 {
        add_under_lock(rt, &mut lane, word);
    }
    lane
}

/// Both lanes add to the word, in threads of their own.
fn both<'a, N: TableName + Send + Sync, R: Threads + Wait + Sync>(
    rt: &R,
    first: SharedLane<'a, N>,
    second: SharedLane<'a, N>,
    word: &AtomicU64,
) -> (SharedLane<'a, N>, SharedLane<'a, N>)
    requires first { Rests first false }
    requires second { Rests second false }
    ensures first { Rests result.0 false }
    ensures second { Rests result.1 false }
{
    join(
        rt,
        || -> SharedLane<'_, N>
            requires { Rests first false }
            ensures { Rests result false }
        { work(rt, first, word) },
        || -> SharedLane<'_, N>
            requires { Rests second false }
            ensures { Rests result false }
        { work(rt, second, word) },
    )
}

/// Two lanes of the memory add to the word; and the pool's words then.
fn run<N: TableName + Send + Sync, R: Threads + Wait + Sync>(
    rt: &R,
    alloc: Global,
    memory: SharedMem,
    pool: PoolSeat,
    word: &AtomicU64,
) -> Result<Vec<u64>, Fail>
    requires name { memory.table.shared.table_id ≡ N.table }
    requires table { pool.table_id ≡ N.table }
    requires lanes { memory.table.shared.key.lanes ≡ 2 }
    requires pool { pool.me ≡ pool_of memory.table.shared.key 0 [] }
{
    let mut pool = pool;
    let first = memory.split::<N>(alloc, &mut pool, 0)?;
    let second = memory.split::<N>(alloc, &mut pool, 1)?;
    let (first, second) = both(rt, first, second, word);
    drop(first.join(&mut pool));
    drop(second.join(&mut pool));
    Ok(memory.close(pool))
}

/// Each addition under the lock is there at the end, and the pool's words are as they were.
#[test]
fn two_lanes_take_turns(rt: HostRuntime) -> Result<(), Fail> {
    let word = AtomicU64::new(0);
    let (memory, pool) = SharedMem::new(rt.alloc(), beginning(rt.alloc())?)?;
    let words = run::<Brand, _>(&rt, rt.alloc(), memory, pool, &word)?;
    assert_eq!(rt; word.load(Ordering::SeqCst), 20_000);
    assert_eq!(rt; words.len(), 35840);
    let mut stray = false;
    for (at, word) in words.iter().enumerate() {
        if at != 512 && at != 1536 && *word != 0 {
            stray = true;
        }
    }
    assert!(rt; !stray);
    Ok(())
}

/// The generation that the pool's first lane finds before its first call.
fn first_generation<N: TableName>(
    alloc: Global,
    memory: SharedMem,
    pool: PoolSeat,
) -> Result<u64, Fail>
    requires name { memory.table.shared.table_id ≡ N.table }
    requires table { pool.table_id ≡ N.table }
    requires lanes { memory.table.shared.key.lanes ≡ 2 }
    requires pool { pool.me ≡ pool_of memory.table.shared.key 0 [] }
{
    let mut pool = pool;
    let seat = memory.split::<N>(alloc, &mut pool, 0)?;
    let lane = Lane::new(alloc, seat, 7, memory.shape)?;
    Ok(lane.log.generation)
}

/// A lane over a seat looks at its generation and its seal before its first call.
#[test]
fn a_lane_begins(rt: HostRuntime) -> Result<(), Fail> {
    let (memory, pool) = SharedMem::new(rt.alloc(), beginning(rt.alloc())?)?;
    let generation = first_generation::<Brand>(rt.alloc(), memory, pool)?;
    assert_eq!(rt; generation, 1);
    Ok(())
}

/// A run takes its allocated blocks and the bits past its blocks, and the zone's bit of its chunk; a
/// huge block takes the bits of its chunks; a free chunk takes its page.
#[test]
fn a_run_and_a_huge_block_are_taken(rt: HostRuntime) -> Result<(), Fail> {
    let mut words = vec![in rt.alloc(); 0; 34_816]?;
    words[1536] = 513;
    words[2048] = 1_073_741_825;
    words[1541] = 770;
    let occupancy = Occupancy::of_words(rt.alloc(), Shape::new(1, 1)?, &words)?;
    assert_eq!(rt; occupancy.runs.len(), 68);
    assert_eq!(rt; occupancy.runs.get(4).copied(), Some(0xFFFF_FFFF_C000_0001));
    for page in 5..68 {
        assert_eq!(rt;
            occupancy.runs.get(page).copied(),
            Some(u64::MAX),
            "page {page}"
        );
    }
    assert_eq!(rt; occupancy.zones.len(), 1);
    assert_eq!(rt; occupancy.zones.first().copied(), Some(0xE1));
    Ok(())
}
