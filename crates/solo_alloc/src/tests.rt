ghost use Rattle.std.specs.Prelude.{◌≡◌, ◌≤◌, IfOk, length, replicate};
ghost use Rattle.solo_alloc.specs.Tests.{IsAtWork};

use super::*;
use pm_image::Block;
use pm_layout::{MAX_SIZE, Shape};
use pm_objects::Refusal;
use solo_blocks::NoBlock;
use solo_memory::{LaneSync, SoloMem, Stopped};
use solo_world::Lane;
use std::alloc::{AllocError, Global};
use std::test::Fail;

/// So many times this word.
fn filled(alloc: Global, word: u64, count: usize) -> Result<Vec<u64>, AllocError>
    ensures length { IfOk result (λ words. length words.items ≡ count) }
    ensures items { IfOk result (λ words. words.items ≡ replicate count word) }
{
    vec![in alloc; word; count]
}

/// A lane alone in a call, over an empty pool of one lane and one zone, whose zone has this occupancy word. No chunk is a run, so the bits of all of their
/// own words are set. The lane stops after so many counted calls.
fn lane_over(alloc: Global, taken: u64, stop: Option<u64>) -> Result<Lane<SoloMem>, Fail>
    ensures { IfOk result (λ lane. IsAtWork lane.memory lane.shape) }
{
    let words = filled(alloc, 0, 34_816)?;
    let runs = filled(alloc, u64::MAX, 68)?;
    let zones = filled(alloc, taken, 32)?;
    let opened = SoloMem::new(alloc, words, stop)?;
    let mut memory = opened.with_occupancy(runs, zones);
    memory.number_seen();
    Ok(Lane::new(memory, 7, Shape::new(1, 1)?))
}

/// Makes an object, of a lane that goes on.
fn make(lane: &mut Lane<SoloMem>, size: u64, kind: u64) -> Result<Block, NoBlock>
    requires size { size ≤ MAX_SIZE }
    requires at_work { IsAtWork lane.old.memory lane.old.shape }
    ensures { IfOk result (λ _. IsAtWork lane.new.memory lane.new.shape) }
{
    new_object(lane, size, kind)
}

/// Chunk 0 is taken, and chunk 1 begins at place 20,480, so the first block of a run there at word 2568. Objects of 100 bytes have blocks of 24 words: the
/// second lies right behind the first. Each begins with its type and its size; all of it is in what a power failure leaves.
#[test]
fn two_objects(rt: HostRuntime) -> Result<(), Fail> {
    let mut lane = lane_over(rt.alloc(), 0b1, None)?;
    let first = make(&mut lane, 100, 9)?;
    let second = make(&mut lane, 90, 8)?;
    let places = [first.place, second.place];
    assert_eq!(rt; places, [20_544, 20_736]);
    let left = lane.memory.survive(rt.alloc(), 0)?;
    let words = [
        left.get(2568),
        left.get(2569),
        left.get(2570),
        left.get(2591),
        left.get(2592),
        left.get(2593),
        left.get(2594),
    ];
    assert_eq!(rt;
        words,
        [
            Some(&9),
            Some(&100),
            Some(&0),
            Some(&0),
            Some(&8),
            Some(&90),
            Some(&0)
        ]
    );
    Ok(())
}

/// An object of 200,000 bytes has the 49 chunks behind chunk 0; then 14 are left, and one of 70,000 bytes needs 18.
#[test]
fn large_object(rt: HostRuntime) -> Result<(), Fail> {
    let mut lane = lane_over(rt.alloc(), 0b1, None)?;
    let large = make(&mut lane, 200_000, 5)?;
    assert_eq!(rt; large.place, 20_480);
    let left = lane.memory.survive(rt.alloc(), 0)?;
    assert_eq!(rt;
        [left.get(2560), left.get(2561)],
        [Some(&5), Some(&200_000)]
    );
    let full = Err(NoBlock::Refused(Refusal::NoSpace));
    assert_eq!(rt; new_object(&mut lane, 70_000, 5), full);
    Ok(())
}

/// No chunk is free; or the lane stops as it makes a run, in six counted calls, or as it fills the block, in nineteen of a block of two lines.
#[test]
fn no_object(rt: HostRuntime) -> Result<(), Fail> {
    let full = Err(NoBlock::Refused(Refusal::NoSpace));
    let mut lane = lane_over(rt.alloc(), u64::MAX, None)?;
    assert_eq!(rt; new_object(&mut lane, 64, 1), full);
    for (stop, stopped) in [(0, true), (5, true), (6, true), (24, true), (25, false)] {
        let mut other = lane_over(rt.alloc(), 0, Some(stop))?;
        let made = new_object(&mut other, 64, 1);
        let is_stopped = made == Err(NoBlock::Stopped(Stopped));
        assert_eq!(rt; is_stopped, stopped, "{stop}");
    }
    Ok(())
}
