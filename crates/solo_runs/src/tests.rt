ghost use Rattle.std.specs.Prelude.{◌≡◌, ℕ, ◌≤◌, Contains, IfOk, length};
ghost use Rattle.pm_layout.specs.Sizes.{classes};
ghost use Rattle.solo_runs.specs.Tests.{HoldsAll, Rests};

use super::*;
use pm_image::Block;
use pm_layout::{Class, Shape, blocks_of, descriptor_of};
use solo_memory::SoloMem;
use solo_world::Lane;
use std::alloc::{AllocError, Global};
use std::test::Fail;

/// So many times this word.
fn filled(alloc: Global, word: u64, count: usize) -> Result<Vec<u64>, AllocError>
    ensures { IfOk result (λ words. length words.items ≡ count) }
{
    vec![in alloc; word; count]
}

/// The words of a pool of one lane and one zone, all of whose chunks are runs of the class: their descriptors stand from word 1,536 on.
fn words_of_runs(alloc: Global, class: u64) -> Result<Vec<u64>, AllocError>
    requires { class ≤ 31 }
    ensures { IfOk result (λ words. length words.items ≡ 34816) }
{
    let mut words = filled(alloc, 0, 34_816)?;
    for chunk in 0..64 {
        words[1_536 + chunk] = descriptor_of(Class::Lines(class));
    }
    Ok(words)
}

/// A lane alone over such a pool, with no block taken.
fn lane_over(alloc: Global, class: u64) -> Result<Lane<SoloMem>, Fail>
    requires { Contains classes class }
    ensures { IfOk result (λ lane. Rests lane.memory lane.shape) }
{
    let words = words_of_runs(alloc, class)?;
    let runs = filled(alloc, 0, 68)?;
    let zones = filled(alloc, u64::MAX, 32)?;
    let opened = SoloMem::new(alloc, words, None)?;
    let memory = opened.with_occupancy(runs, zones);
    Ok(Lane::new(memory, 7, Shape::new(1, 1)?))
}

/// Reserves blocks of the class until none is left, or there are more than the 1,984 that a zone has at most.
fn reserve_all(
    alloc: Global,
    lane: &mut Lane<SoloMem>,
    class: u64,
) -> Result<Vec<Block>, AllocError>
    requires class { Contains classes class }
    requires rests { Rests lane.old.memory lane.old.shape }
    ensures { IfOk result (λ blocks. HoldsAll lane.new.memory lane.new.shape class blocks.items) }
{
    let mut blocks = Vec::new(alloc);
    for _ in 0..1_985 {
        let Some(block) = reserve_small(lane, class) else {
            return Ok(blocks);
        };
        blocks.push(block)?;
    }
    Ok(blocks)
}

/// Gives back the blocks, and tells whether each of them began behind the one before. The first that does not is kept, and those behind it.
fn give_all_back(lane: &mut Lane<SoloMem>, blocks: &[Block]) -> bool
    requires { (class : ℕ) × HoldsAll lane.old.memory lane.old.shape class blocks.now }
    ensures { Rests lane.new.memory lane.new.shape }
{
    let mut last = 0;
    for block in blocks {
        if block.place <= last {
            return false;
        }
        last = block.place;
        give_back(lane, *block);
    }
    true
}

/// A zone of runs of a class has 64 times the blocks of one, which are got by rising place. Once all are given back the first is got again.
#[test]
fn all_blocks_of_a_zone(rt: HostRuntime) -> Result<(), Fail> {
    for (class, count) in [
        (2, 1_984),
        (3, 1_344),
        (4, 960),
        (5, 768),
        (7, 576),
        (9, 448),
        (15, 256),
        (31, 128),
    ] {
        assert!(rt; blocks_of(class) > 0, "{class} is a class");
        let mut lane = lane_over(rt.alloc(), class)?;
        let blocks = reserve_all(rt.alloc(), &mut lane, class)?;
        assert_eq!(rt; blocks.len(), count, "class {class}");
        assert!(rt; give_all_back(&mut lane, &blocks), "class {class}");
        let again = reserve_small(&mut lane, class);
        assert_eq!(rt; again, blocks.first().copied(), "class {class}");
    }
    Ok(())
}
