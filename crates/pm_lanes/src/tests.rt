//! Pools that were created are opened, or refused.

ghost use Rattle.std.specs.Prelude.{◌≡◌, []};
ghost use Rattle.pm_shared.specs.Openings.{pool_of};

use super::*;
use pm_layout::{ROOT_WORD, Shape};
use pm_objects::Stops;
use pm_pool::create;
use pm_raw::RawImage;
use pm_shared::{PoolSeat, SharedMem, TableName};
use pm_world::Lane;
use std::alloc::Global;
use std::marker::Brand;
use std::test::Fail;

/// The first word of lane 0's first undo slot.
const SLOT_WORD: u64 = 648;

/// A new pool of two lanes and one zone with a root of 64 bytes, whose word with this number then
/// becomes this value.
fn pool(alloc: Global, word: u64, value: u64) -> Result<RawImage, Fail> {
    let mut image = create(alloc, Shape::new(2, 1)?, 7, "demo", 64)?;
    if word < image.len() {
        image.set(word, value);
    }
    Ok(image)
}

/// A pool is opened for one lane and for two. Its first undo slot is torn, so that recovery raises
/// lane 0's generation; its first chunk is a run with the root's block.
#[test]
fn a_new_pool_is_opened(rt: HostRuntime) -> Result<(), Fail> {
    for lanes in 1..=2 {
        let image = pool(rt.alloc(), SLOT_WORD, 5)?;
        let Ok(beginning) = open(rt.alloc(), image, "demo", lanes, Stops::none()) else {
            return Err(Fail::from("an opened pool"));
        };
        assert_eq!(rt; beginning.lanes, lanes);
        assert_eq!(rt; beginning.shape, Shape::new(2, 1)?);
        assert_eq!(rt; beginning.pool, 7);
        assert_eq!(rt; beginning.words.len(), 35_840);
        assert_eq!(rt; beginning.words.get(64).copied(), Some(24_704));
        assert_eq!(rt; beginning.words.get(512).copied(), Some(2));
        assert_eq!(rt; beginning.words.get(1536).copied(), Some(1));
        assert_eq!(rt; beginning.runs.len(), 70);
        assert_eq!(rt; beginning.runs.get(6).copied(), Some(0xFFFF_FFFF_8000_0001));
        assert_eq!(rt; beginning.runs.get(7).copied(), Some(u64::MAX));
        assert_eq!(rt; beginning.zones.len(), 1);
        assert_eq!(rt; beginning.zones.first().copied(), Some(1));
    }
    Ok(())
}

/// The text of the fault with which the pool is not opened.
fn fault_text(
    alloc: Global,
    word: u64,
    value: u64,
    layout: &str,
    lanes: u64,
) -> Result<String, Fail> {
    let image = pool(alloc, word, value)?;
    match open(alloc, image, layout, lanes, Stops::none()) {
        Ok(_) => Err(Fail::from("a fault")),
        Err((_, fault)) => Ok(fault.to_string(alloc)?),
    }
}

/// The first fault that applies is told.
#[test]
fn faults_come_in_their_order(rt: HostRuntime) -> Result<(), Fail> {
    let text = fault_text(rt.alloc(), ROOT_WORD, 8, "tape", 0)?;
    assert_eq!(rt; text.as_str(), "Root 8");
    let text = fault_text(rt.alloc(), SLOT_WORD, 5, "tape", 0)?;
    assert_eq!(rt; text.as_str(), "Layout asked tape kept demo");
    let text = fault_text(rt.alloc(), SLOT_WORD, 5, "demo", 0)?;
    assert_eq!(rt; text.as_str(), "Lanes asked 0 kept 2");
    let text = fault_text(rt.alloc(), SLOT_WORD, 5, "demo", 3)?;
    assert_eq!(rt; text.as_str(), "Lanes asked 3 kept 2");
    Ok(())
}

/// The generations that two lanes of the pool find before their first calls.
fn generations<N: TableName>(
    alloc: Global,
    memory: SharedMem,
    pool: PoolSeat,
    shape: Shape,
) -> Result<[u64; 2], Fail>
    requires name { memory.table.shared.table_id ≡ N.table }
    requires table { pool.table_id ≡ N.table }
    requires lanes { memory.table.shared.key.lanes ≡ 2 }
    requires shape { memory.table.shared.key.shape ≡ shape }
    requires pool { pool.me ≡ pool_of memory.table.shared.key 0 [] }
{
    let mut pool = pool;
    let first = memory.split::<N>(alloc, &mut pool, 0)?;
    let second = memory.split::<N>(alloc, &mut pool, 1)?;
    let first = Lane::new(alloc, first, 7, shape)?;
    let second = Lane::new(alloc, second, 7, shape)?;
    Ok([first.log.generation, second.log.generation])
}

/// The lanes of a pool that was opened are handed out.
#[test]
fn lanes_begin(rt: HostRuntime) -> Result<(), Fail> {
    let image = pool(rt.alloc(), SLOT_WORD, 5)?;
    let Ok(beginning) = open(rt.alloc(), image, "demo", 2, Stops::none()) else {
        return Err(Fail::from("an opened pool"));
    };
    let shape = beginning.shape;
    let (memory, pool) = SharedMem::new(rt.alloc(), beginning)?;
    let found = generations::<Brand>(rt.alloc(), memory, pool, shape)?;
    assert_eq!(rt; found, [2, 1]);
    Ok(())
}

/// Lane 0 begins on a pool with no other lane beside it.
#[test]
fn a_single_lane_begins(rt: HostRuntime) -> Result<(), Fail> {
    let image = pool(rt.alloc(), SLOT_WORD, 5)?;
    let Ok((memory, shape, id)) = open_solo(rt.alloc(), image, "demo", Some(3)) else {
        return Err(Fail::from("an opened pool"));
    };
    assert_eq!(rt; id, 7);
    let lane = Lane::new(rt.alloc(), memory, id, shape)?;
    assert_eq!(rt; lane.log.generation, 2);
    Ok(())
}
