ghost use Rattle.std.specs.Prelude.{◌≡◌, IfOk, length, slice_index};
ghost use Rattle.solo_lock.specs.Tests.{Begins};

use super::*;
use pm_layout::Shape;
use pm_objects::{Oid, Refusal, Want};
use solo_memory::{LaneSync, SoloMem};
use solo_world::{HeldLock, Lane};
use std::alloc::{AllocError, Global};
use std::test::Fail;

/// So many times this word.
fn filled(alloc: Global, word: u64, count: usize) -> Result<Vec<u64>, AllocError>
    ensures { IfOk result (λ words. length words.items ≡ count) }
{
    vec![in alloc; word; count]
}

/// The words of a pool of one lane and one zone. Chunk 0 is a block of its own, from line 256 on, with an object of 100 bytes. Chunk 1 is a run
/// of blocks of two lines, of which the second is taken, at line 323: its object has 64 bytes, the most that fit.
fn pool_words(alloc: Global) -> Result<Vec<u64>, Fail>
    ensures length { IfOk result (λ words. length words.items ≡ 34816) }
    ensures generation { IfOk result (λ words. slice_index words.items 512 ≡ 0) }
{
    let mut words = filled(alloc, 0, 34_816)?;
    words[1_536] = 2 + 256;
    words[2_049] = 100;
    words[1_537] = 1 + 256 * 2;
    words[2_560] = 0b10;
    words[2_585] = 64;
    if words[512] != 0 {
        Err("a generation")?;
    }
    Ok(words)
}

/// A lane alone over such a pool, with id 7, whose call has begun.
fn begun_lane(alloc: Global) -> Result<Lane<SoloMem>, Fail>
    ensures { IfOk result (λ lane. Begins lane) }
{
    let words = pool_words(alloc)?;
    let runs = filled(alloc, 0, 68)?;
    let zones = filled(alloc, 0, 32)?;
    let opened = SoloMem::new(alloc, words, None)?;
    let mut memory = opened.with_occupancy(runs, zones);
    memory.number_seen();
    Ok(Lane::new(memory, 7, Shape::new(1, 1)?))
}

/// What a call wants of the object at an offset.
fn want(off: u64, write: bool) -> Want {
    Want {
        id: Oid { pool: 7, off },
        write,
    }
}

/// Takes the locks that the wants need, and looks for the objects under them: whether there is one under each.
fn hold(lane: &mut Lane<SoloMem>, wants: &[Want]) -> Result<bool, Refusal>
    requires { Begins lane.old }
{
    let plan = plan_locks(lane.pool, lane.shape, wants)?;
    if !take_all(lane, plan.as_slice()) {
        return Err(Refusal::Busy);
    }
    Ok(find_objects(lane, plan.as_slice()))
}

/// Takes the locks that the wants need, and gives them back: how many they were.
fn take_and_give_back(lane: &mut Lane<SoloMem>, wants: &[Want]) -> Result<usize, Refusal>
    requires { Begins lane.old }
{
    let plan = plan_locks(lane.pool, lane.shape, wants)?;
    if !take_all(lane, plan.as_slice()) {
        return Err(Refusal::Busy);
    }
    let held = lane.locks.len();
    give_back(lane);
    Ok(held)
}

/// Takes the lock of line 256, and gives it back: whether it was got.
fn take_and_give(lane: &mut Lane<SoloMem>) -> bool
    requires { Begins lane.old }
{
    let won = take_line(lane, 256, true);
    give_all(&mut lane.memory, lane.locks.as_slice());
    won
}

/// Offsets of objects are 64 bytes behind a chunk, or behind a block of a run.
#[test]
fn places_of_objects(rt: HostRuntime) -> Result<(), Fail> {
    let shape = Shape::new(1, 1)?;
    assert!(rt; can_begin(shape, 16_448));
    assert!(rt; can_begin(shape, 20_736));
    assert!(rt; !can_begin(shape, 16_456), "within a line");
    assert!(rt; !can_begin(shape, 16_576), "at the third line of a chunk");
    assert!(rt; !can_begin(shape, 282_688), "behind the zone");
    Ok(())
}

/// Two objects are wanted, one of them twice: their locks are taken in rising lines, and the one for writing, since it is wanted so once.
#[test]
fn objects_held(rt: HostRuntime) -> Result<(), Fail> {
    let mut lane = begun_lane(rt.alloc())?;
    let wants = [want(20_736, false), want(16_448, false), want(20_736, true)];
    assert_eq!(rt; hold(&mut lane, &wants), Ok(true));
    let huge = HeldLock {
        line: 256,
        write: false,
        block: Some(64),
    };
    let small = HeldLock {
        line: 323,
        write: true,
        block: Some(2),
    };
    assert_eq!(rt; lane.locks.as_slice(), [huge, small].as_slice());
    Ok(())
}

/// Of the run's blocks the first is free: nothing is under its lock. And line 258 of chunk 0 is no object's.
#[test]
fn no_objects(rt: HostRuntime) -> Result<(), Fail> {
    let mut lane = begun_lane(rt.alloc())?;
    assert_eq!(rt; hold(&mut lane, &[want(20_608, false)]), Ok(false));
    let mut other = begun_lane(rt.alloc())?;
    assert_eq!(rt;
        hold(&mut other, &[want(16_576, false)]),
        Err(Refusal::NoObject)
    );
    Ok(())
}

/// Locks that were taken are given back.
#[test]
fn locks_given_back(rt: HostRuntime) -> Result<(), Fail> {
    let mut lane = begun_lane(rt.alloc())?;
    let wants = [want(16_448, true), want(20_736, false)];
    assert_eq!(rt; take_and_give_back(&mut lane, &wants), Ok(2));
    assert_eq!(rt; lane.locks.len(), 0);
    let mut other = begun_lane(rt.alloc())?;
    assert!(rt; take_and_give(&mut other));
    Ok(())
}
