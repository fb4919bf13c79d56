//! A block for an object of any size.

ghost use Rattle.std.specs.Prelude.{◌≡◌, ℕ, ◌≤◌, IfOk, IfErr};
ghost use Rattle.pm_layout.specs.Sizes.{class_of};
ghost use Rattle.pm_layout.specs.declared.class.Class.TheVariants.{Chunks};
ghost use Rattle.solo_view.specs.View.{View};
ghost use Rattle.solo_blocks.specs.AnyBlocks.{HasNoRoom, HasRoom};
ghost use Rattle.solo_blocks.specs.NewRuns.{MayGoOn, MayMakeRun};

use crate::making::NoBlock;
use crate::small::reserve_small;
use pm_image::Block;
use pm_layout::{Class, MAX_SIZE, class_of};
use solo_chunks::reserve_chunks;
use solo_world::{Lane, LawfulMem};

/// Reserves so many whole chunks, 1 to 64, that lie together in one zone: the least that are free.
fn reserve_whole<M: LawfulMem>(lane: &mut Lane<M>, chunks: u64) -> Result<Block, NoBlock>
    requires some { 1 ≤ chunks }
    requires most { chunks ≤ 64 }
    requires may { (v : View) × (M.at lane.old.memory v × MayMakeRun v lane.old.shape) }
    ensures got { IfOk result (λ block. (v : View) → M.at lane.old.memory v → MayMakeRun v lane.old.shape → HasRoom (M.at lane.new.memory) v (Chunks chunks) block) }
    ensures none { IfErr result (λ why. (v : View) → M.at lane.old.memory v → MayMakeRun v lane.old.shape → HasNoRoom (M.at lane.new.memory) v (Chunks chunks) why) }
    ensures next { (v : View) → M.at lane.old.memory v → MayMakeRun v lane.old.shape → MayGoOn (M.at lane.new.memory) lane.old.shape result }
    ensures else_same { lane.new ≡ record lane.old { memory = lane.new.memory } }
{
    Ok(reserve_chunks(lane, chunks)?)
}

/// Reserves a block that holds an object of so many bytes, 0 to `MAX_SIZE`: of the least class of runs that does, or else of the fewest whole chunks. The
/// block, by its place in bytes, is the least that is free, or, of a class of which none is, the first of a run that is made of the least free chunk. The
/// lane is alone, so far. `Refused(NoSpace)` says that none is free and no run can be made; it is refused for nothing else, and nothing is reserved then.
/// `Stopped` says that the lane came to its stop number as it made a run. Unless it stopped, the lane may reserve another.
pub fn reserve<M: LawfulMem>(lane: &mut Lane<M>, size: u64) -> Result<Block, NoBlock>
    requires size { size ≤ MAX_SIZE }
    requires may { (v : View) × (M.at lane.old.memory v × MayMakeRun v lane.old.shape) }
    ensures got { IfOk result (λ block. (v : View) → M.at lane.old.memory v → MayMakeRun v lane.old.shape → HasRoom (M.at lane.new.memory) v (class_of size) block) }
    ensures none { IfErr result (λ why. (v : View) → M.at lane.old.memory v → MayMakeRun v lane.old.shape → HasNoRoom (M.at lane.new.memory) v (class_of size) why) }
    ensures next { (v : View) → M.at lane.old.memory v → MayMakeRun v lane.old.shape → MayGoOn (M.at lane.new.memory) lane.old.shape result }
    ensures else_same { lane.new ≡ record lane.old { memory = lane.new.memory } }
{
    match class_of(size) {
        Class::Lines(lines) => reserve_small(lane, lines),
        Class::Chunks(chunks) => reserve_whole(lane, chunks),
    }
}
