ghost use Rattle.std.specs.Prelude.{◌≡◌, ◌≤◌, Contains, IfOk, length, replicate};
ghost use Rattle.pm_layout.specs.Sizes.{classes};
ghost use Rattle.solo_blocks.specs.Tests.{IsAtWork};

use super::*;
use pm_image::Block;
use pm_layout::{MAX_SIZE, Shape, blocks_of};
use pm_objects::Refusal;
use solo_memory::{LaneSync, SoloMem, Stopped};
use solo_world::Lane;
use std::alloc::{AllocError, Global};
use std::test::Fail;

/// So many times this word.
fn filled(alloc: Global, word: u64, count: usize) -> Result<Vec<u64>, AllocError>
    ensures length { IfOk result (λ words. length words.items ≡ count) }
    ensures items { IfOk result (λ words. words.items ≡ replicate count word) }
{
    vec![in alloc; word; count]
}

/// A lane alone in a call, over an empty pool of one lane and one zone, whose zone has this occupancy word. No chunk is a run, so the bits of all of their
/// own words are set. The lane stops after so many counted calls.
fn lane_over(alloc: Global, taken: u64, stop: Option<u64>) -> Result<Lane<SoloMem>, Fail>
    ensures { IfOk result (λ lane. IsAtWork lane.memory lane.shape) }
{
    let words = filled(alloc, 0, 34_816)?;
    let runs = filled(alloc, u64::MAX, 68)?;
    let zones = filled(alloc, taken, 32)?;
    let opened = SoloMem::new(alloc, words, stop)?;
    let mut memory = opened.with_occupancy(runs, zones);
    memory.number_seen();
    Ok(Lane::new(memory, 7, Shape::new(1, 1)?))
}

/// Reserves a block of the class, of a lane that goes on.
fn reserve_class(lane: &mut Lane<SoloMem>, lines: u64) -> Result<Block, NoBlock>
    requires class { Contains classes lines }
    requires at_work { IsAtWork lane.old.memory lane.old.shape }
    ensures { IfOk result (λ _. IsAtWork lane.new.memory lane.new.shape) }
{
    reserve_small(lane, lines)
}

/// Reserves a block for an object of so many bytes, of a lane that goes on.
fn reserve_sized(lane: &mut Lane<SoloMem>, size: u64) -> Result<Block, NoBlock>
    requires size { size ≤ MAX_SIZE }
    requires at_work { IsAtWork lane.old.memory lane.old.shape }
    ensures { IfOk result (λ _. IsAtWork lane.new.memory lane.new.shape) }
{
    reserve(lane, size)
}

/// Makes a run of the class, of a lane that goes on.
fn make(lane: &mut Lane<SoloMem>, lines: u64) -> Result<Block, NoBlock>
    requires class { Contains classes lines }
    requires at_work { IsAtWork lane.old.memory lane.old.shape }
    ensures { IfOk result (λ _. IsAtWork lane.new.memory lane.new.shape) }
{
    new_run(lane, lines)
}

/// The zone's chunks begin at place 16,384, and each run's first block a line behind its chunk.
#[test]
fn least_free_chunk(rt: HostRuntime) -> Result<(), Fail> {
    for (taken, lines, place) in [(0, 2, 16_448), (0b1, 5, 20_544), (0b1011, 31, 24_640)] {
        assert!(rt; blocks_of(lines) > 0, "{lines} is a class");
        let mut lane = lane_over(rt.alloc(), taken, None)?;
        let first = Block { place, lines };
        assert_eq!(rt; new_run(&mut lane, lines), Ok(first), "{taken}");
    }
    Ok(())
}

/// Of the zone's chunks 0 is taken. The first block of a class is that of a new run, in chunk 1 or 2; the next of the class lies behind it in its run. A run
/// is made of chunk 3 though others of the class have blocks.
#[test]
fn blocks_in_turn(rt: HostRuntime) -> Result<(), Fail> {
    let mut lane = lane_over(rt.alloc(), 0b1, None)?;
    let first = reserve_class(&mut lane, 2)?;
    let other = reserve_class(&mut lane, 5)?;
    let second = reserve_class(&mut lane, 2)?;
    let third = make(&mut lane, 2)?;
    let places = [first.place, other.place, second.place, third.place];
    assert_eq!(rt; places, [20_544, 24_640, 20_672, 28_736]);
    Ok(())
}

/// Chunk 0 is taken. A small object has a block of a new run in chunk 1, and one of 200,000 bytes the 49 chunks behind that; then 13 are left, and one of
/// 70,000 bytes needs 18.
#[test]
fn sizes_in_turn(rt: HostRuntime) -> Result<(), Fail> {
    let mut lane = lane_over(rt.alloc(), 0b1, None)?;
    let small = reserve_sized(&mut lane, 64)?;
    let large = reserve_sized(&mut lane, 200_000)?;
    let places = [small.place, large.place];
    assert_eq!(rt; places, [20_544, 24_576]);
    let full = Err(NoBlock::Refused(Refusal::NoSpace));
    assert_eq!(rt; reserve(&mut lane, 70_000), full);
    Ok(())
}

/// No chunk is free; or the lane stops before its first store.
#[test]
fn no_block(rt: HostRuntime) -> Result<(), Fail> {
    let full = Err(NoBlock::Refused(Refusal::NoSpace));
    let mut lane = lane_over(rt.alloc(), u64::MAX, None)?;
    assert_eq!(rt; new_run(&mut lane, 2), full);
    let stopped = Err(NoBlock::Stopped(Stopped));
    let mut other = lane_over(rt.alloc(), 0, Some(0))?;
    assert_eq!(rt; new_run(&mut other, 2), stopped);
    Ok(())
}
