//! A block of a class.

ghost use Rattle.std.specs.Prelude.{◌≡◌, Contains, IfOk, IfErr};
ghost use Rattle.pm_layout.specs.Sizes.{classes};
ghost use Rattle.solo_view.specs.View.{View};
ghost use Rattle.solo_blocks.specs.NewRuns.{MayGoOn, MayMakeRun};
ghost use Rattle.solo_blocks.specs.SmallBlocks.{HasBlock, HasNone};

use crate::making::{NoBlock, new_run};
use pm_image::Block;
use solo_world::{Lane, LawfulMem};

/// Reserves a block of a class, given by its lines: 2, 3, 4, 5, 7, 9, 15 or 31, of 64 bytes each. The block, by its place in bytes, is the least of the
/// class that is free in a run, or where none is the first of a run that is made of the least free chunk. The lane is alone, so far. An error comes only
/// where no block of the class is free; it is that of `new_run`, and leaves what that says. Unless it stopped, the lane may reserve another.
pub fn reserve_small<M: LawfulMem>(lane: &mut Lane<M>, lines: u64) -> Result<Block, NoBlock>
    requires class { Contains classes lines }
    requires may { (v : View) × (M.at lane.old.memory v × MayMakeRun v lane.old.shape) }
    ensures got { IfOk result (λ block. (v : View) → M.at lane.old.memory v → MayMakeRun v lane.old.shape → HasBlock (M.at lane.new.memory) v lines block) }
    ensures none { IfErr result (λ why. (v : View) → M.at lane.old.memory v → MayMakeRun v lane.old.shape → HasNone (M.at lane.new.memory) v lines why) }
    ensures next { (v : View) → M.at lane.old.memory v → MayMakeRun v lane.old.shape → MayGoOn (M.at lane.new.memory) lane.old.shape result }
    ensures else_same { lane.new ≡ record lane.old { memory = lane.new.memory } }
{
    match solo_runs::reserve_small(lane, lines) {
        Some(block) => Ok(block),
        None => new_run(lane, lines),
    }
}
