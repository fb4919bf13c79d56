//! The search for a free block, chunk by chunk in rising place: a descriptor is looked at, the occupancy word of a run of the class is read once, and
//! the bits that are clear there are tried in turn.

ghost use Rattle.std.specs.Prelude.{◌≡◌, ◌*◌, ◌<◌, Contains, IfSome, None, true, false};
ghost use Rattle.pm_layout.specs.Sizes.{blocks_of, classes};
ghost use Rattle.solo_view.specs.Founds.{IsAlone};
ghost use Rattle.solo_view.specs.View.{View};
ghost use Rattle.solo_runs.specs.Looking.{CanTry, HasGotIn, HasGotOf, HasLost, HasNoneBelow, HasNoneOf, HasWon, IsRunOf};
ghost use Rattle.solo_runs.specs.Runs.{HasFoundNone, HasGot, IsLeast, MaySearch};

use crate::places::{descriptor_at, run_place};
use pm_image::Block;
use pm_layout::{CHUNKS_PER_ZONE, Class, Shape, block_at, blocks_of, descriptor_of};
use solo_view::Occ;
use solo_world::{Lane, LawfulMem};

/// Tries to get a block of the run at a place, by its index, where its bit is clear in the run's occupancy word as it was found.
fn try_block<M: LawfulMem>(mem: &mut M, place: u64, found: u64, index: u64) -> bool
    requires index { index < 64 }
    requires may { (v : View) × (M.at mem.old v × CanTry v place found) }
    ensures won { result ≡ true → (v : View) → M.at mem.old v → CanTry v place found → HasWon (M.at mem.new) v place index }
    ensures lost { result ≡ false → (v : View) → M.at mem.old v → CanTry v place found → HasLost (M.at mem.new) v place index }
{
    found >> index & 1 == 0 && mem.occupy(Occ::Run(place), 1 << index)
}

/// Reserves the first block of a run of the class, by the run's chunk, that is seen free and is got.
fn reserve_in_run<M: LawfulMem>(mem: &mut M, shape: Shape, class: u64, chunk: u64) -> Option<Block>
    requires class { Contains classes class }
    requires inside { chunk < 64 * shape.zones }
    requires may { (v : View) × (M.at mem.old v × MaySearch v shape × IsRunOf v shape.lanes class chunk) }
    ensures got { IfSome result (λ block. (v : View) → M.at mem.old v → MaySearch v shape → IsRunOf v shape.lanes class chunk
        → HasGotIn (M.at mem.new) v shape.lanes class chunk block) }
    ensures none { result ≡ None → (v : View) → M.at mem.old v → MaySearch v shape → IsRunOf v shape.lanes class chunk
        → HasNoneBelow (M.at mem.new) v shape.lanes chunk (blocks_of class) }
{
    let place = run_place(shape, chunk);
    let found = mem.occupied(Occ::Run(place));
    for index in 0..blocks_of(class) {
        if try_block(mem, place, found, index) {
            return Some(Block {
                place: block_at(place, class, index),
                lines: class,
            });
        }
    }
    None
}

/// Reserves a block in the chunk, where that is a run of the class.
fn reserve_in_chunk<M: LawfulMem>(
    mem: &mut M,
    shape: Shape,
    class: u64,
    chunk: u64,
) -> Option<Block>
    requires class { Contains classes class }
    requires inside { chunk < 64 * shape.zones }
    requires may { (v : View) × (M.at mem.old v × MaySearch v shape) }
    ensures got { IfSome result (λ block. (v : View) → M.at mem.old v → MaySearch v shape → HasGotOf (M.at mem.new) v shape.lanes class chunk block) }
    ensures none { result ≡ None → (v : View) → M.at mem.old v → MaySearch v shape → HasNoneOf (M.at mem.new) v shape.lanes class chunk }
{
    let descriptor = mem.load(descriptor_at(shape, chunk));
    if descriptor != descriptor_of(Class::Lines(class)) {
        return None;
    }
    reserve_in_run(mem, shape, class, chunk)
}

/// Reserves a block of the class in the first chunk that has one.
fn reserve_first<M: LawfulMem>(mem: &mut M, shape: Shape, class: u64) -> Option<Block>
    requires class { Contains classes class }
    requires may { (v : View) × (M.at mem.old v × MaySearch v shape) }
    ensures got { IfSome result (λ block. (v : View) → M.at mem.old v → MaySearch v shape → HasGot (M.at mem.new) v block × (block.lines ≡ class)) }
    ensures none { result ≡ None → (v : View) → M.at mem.old v → MaySearch v shape → HasFoundNone (M.at mem.new) v class }
    ensures least { (v : View) → M.at mem.old v → MaySearch v shape → IsAlone v → IsLeast v class result }
{
    for chunk in 0..CHUNKS_PER_ZONE * shape.zones {
        if let Some(block) = reserve_in_chunk(mem, shape, class, chunk) {
            return Some(block);
        }
    }
    None
}

/// Reserves a block of the class, 2, 3, 4, 5, 7, 9, 15 or 31 lines, in the runs of the pool: the first that it sees free and gets. `None` says that it saw
/// each chunk of the pool not to be a run of the class, or each of the run's blocks taken. Where the lane is alone the block is the least of the class that
/// is free, and `None` says that none is. The lane may do so before its call draws its number. Nothing is waited for, no call is counted, and no word of
/// the pool is changed.
pub fn reserve_small<M: LawfulMem>(lane: &mut Lane<M>, class: u64) -> Option<Block>
    requires class { Contains classes class }
    requires may { (v : View) × (M.at lane.old.memory v × MaySearch v lane.old.shape) }
    ensures got { IfSome result (λ block. (v : View) → M.at lane.old.memory v → MaySearch v lane.old.shape → HasGot (M.at lane.new.memory) v block × (block.lines ≡ class)) }
    ensures none { result ≡ None → (v : View) → M.at lane.old.memory v → MaySearch v lane.old.shape → HasFoundNone (M.at lane.new.memory) v class }
    ensures least { (v : View) → M.at lane.old.memory v → MaySearch v lane.old.shape → IsAlone v → IsLeast v class result }
    ensures else_same { lane.new ≡ record lane.old { memory = lane.new.memory } }
{
    reserve_first(&mut lane.memory, lane.shape, class)
}
