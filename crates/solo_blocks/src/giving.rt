//! A block of any size, given back.

ghost use Rattle.std.specs.Prelude.{◌≡◌};
ghost use Rattle.solo_memory.specs.Runs.{Made};
ghost use Rattle.solo_view.specs.View.{View};
ghost use Rattle.solo_world.specs.Lanes.{IsOfShape};
ghost use Rattle.solo_blocks.specs.Giving.{MayGiveBackBlock, vacates_block};

use pm_image::Block;
use pm_layout::LINES_PER_CHUNK;
use solo_world::{Lane, LawfulMem};

/// Gives back a block that the lane reserved, of whole chunks or of a run, by its place in bytes and its lines: the bits that it has in the occupancy words
/// are cleared, and no others. The lane may do so before its call draws its number, where nothing of the block is undrained or in its log. Nothing is waited
/// for, no call is counted, and no word of the pool is changed.
pub fn give_back<M: LawfulMem>(lane: &mut Lane<M>, block: Block)
    requires { (v : View) × (M.at lane.old.memory v × IsOfShape v lane.old.shape × MayGiveBackBlock v block) }
    ensures given { Made (M.at lane.old.memory) (M.at lane.new.memory) (vacates_block lane.old.shape.lanes block) }
    ensures else_same { lane.new ≡ record lane.old { memory = lane.new.memory } }
{
    if block.lines % LINES_PER_CHUNK == 0 {
        solo_chunks::give_back(lane, block);
    } else {
        solo_runs::give_back(lane, block);
    }
}
