ghost use Rattle.std.specs.Prelude.{◌≡◌, ◌≤◌, IfOk, length, replicate};
ghost use Rattle.solo_chunks.specs.Tests.{Rests};

use super::*;
use pm_image::Block;
use pm_layout::Shape;
use pm_objects::Refusal;
use solo_memory::{LaneSync, SoloMem};
use solo_view::Occ;
use solo_world::Lane;
use std::alloc::{AllocError, Global};
use std::test::Fail;

/// So many times this word.
fn filled(alloc: Global, word: u64, count: usize) -> Result<Vec<u64>, AllocError>
    ensures length { IfOk result (λ words. length words.items ≡ count) }
    ensures items { IfOk result (λ words. words.items ≡ replicate count word) }
{
    vec![in alloc; word; count]
}

/// A lane alone, over an empty pool of one lane and one zone, whose zone has this occupancy word.
fn lane_over(alloc: Global, taken: u64) -> Result<Lane<SoloMem>, Fail>
    ensures { IfOk result (λ lane. Rests lane.memory lane.shape) }
{
    let words = filled(alloc, 0, 34_816)?;
    let runs = filled(alloc, 0, 68)?;
    let zones = filled(alloc, taken, 32)?;
    let opened = SoloMem::new(alloc, words, None)?;
    let memory = opened.with_occupancy(runs, zones);
    Ok(Lane::new(memory, 7, Shape::new(1, 1)?))
}

/// Reserves chunks, of a lane that goes on to rest.
fn reserve(lane: &mut Lane<SoloMem>, count: u64) -> Result<Block, Refusal>
    requires some { 1 ≤ count }
    requires most { count ≤ 64 }
    requires rests { Rests lane.old.memory lane.old.shape }
    ensures { Rests lane.new.memory lane.new.shape }
{
    reserve_chunks(lane, count)
}

/// Reserves chunks and gives them back.
fn reserve_and_give_back(lane: &mut Lane<SoloMem>, count: u64) -> Result<Block, Refusal>
    requires some { 1 ≤ count }
    requires most { count ≤ 64 }
    requires rests { Rests lane.old.memory lane.old.shape }
    ensures { Rests lane.new.memory lane.new.shape }
{
    let block = reserve_chunks(lane, count)?;
    give_back(lane, block);
    Ok(block)
}

/// Of the zone's chunks 0 and 2 are taken: two that lie one after another are free from 3 on, at place 28,672, one alone is at 20,480, and 62 are nowhere.
#[test]
fn least_free_chunks(rt: HostRuntime) -> Result<(), Fail> {
    let mut lane = lane_over(rt.alloc(), 0b101)?;
    let two = Block {
        place: 28_672,
        lines: 128,
    };
    assert_eq!(rt; reserve(&mut lane, 2), Ok(two));
    let one = Block {
        place: 20_480,
        lines: 64,
    };
    assert_eq!(rt; reserve(&mut lane, 1), Ok(one));
    let mut other = lane_over(rt.alloc(), 0b101)?;
    assert_eq!(rt; reserve(&mut other, 62), Err(Refusal::NoSpace));
    Ok(())
}

/// Chunk 0 is taken, and stays so: two are got from 1 on, and once they are given back they are got there again.
#[test]
fn given_back(rt: HostRuntime) -> Result<(), Fail> {
    let mut lane = lane_over(rt.alloc(), 0b001)?;
    let two = Block {
        place: 20_480,
        lines: 128,
    };
    assert_eq!(rt; reserve_and_give_back(&mut lane, 2), Ok(two));
    assert_eq!(rt; lane.memory.occupied(Occ::Zone(0)), 0b001);
    assert_eq!(rt; reserve(&mut lane, 2), Ok(two), "again");
    Ok(())
}

/// 49 chunks from place 16,384 on and the 15 behind them fill a zone.
#[test]
fn zone_filled_by_two_blocks(rt: HostRuntime) -> Result<(), Fail> {
    let mut lane = lane_over(rt.alloc(), 0)?;
    let most = Block {
        place: 16_384,
        lines: 3_136,
    };
    let rest = Block {
        place: 217_088,
        lines: 960,
    };
    assert_eq!(rt; reserve(&mut lane, 49), Ok(most));
    assert_eq!(rt; reserve(&mut lane, 16), Err(Refusal::NoSpace));
    assert_eq!(rt; reserve(&mut lane, 15), Ok(rest));
    assert_eq!(rt; reserve(&mut lane, 1), Err(Refusal::NoSpace));
    Ok(())
}

/// All 64 chunks of a zone are one block, and again once they are given back.
#[test]
fn zone_filled_by_one_block(rt: HostRuntime) -> Result<(), Fail> {
    let mut lane = lane_over(rt.alloc(), 0)?;
    let whole = Block {
        place: 16_384,
        lines: 4_096,
    };
    assert_eq!(rt; reserve_and_give_back(&mut lane, 64), Ok(whole));
    assert_eq!(rt; reserve(&mut lane, 64), Ok(whole), "again");
    assert_eq!(rt; reserve(&mut lane, 1), Err(Refusal::NoSpace));
    Ok(())
}
