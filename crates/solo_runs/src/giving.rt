//! Blocks of runs, given back.

ghost use Rattle.std.specs.Prelude.{◌≡◌, ℕ, ◌^◌, ◌<◌};
ghost use Rattle.pm_layout.specs.Sizes.{blocks_of};
ghost use Rattle.solo_memory.specs.Runs.{Made};
ghost use Rattle.solo_view.specs.Steps.Step.{Vacate};
ghost use Rattle.solo_view.specs.View.{View};
ghost use Rattle.solo_runs.specs.Runs.{MayGiveBack, run_block, run_of};

use pm_image::Block;
use pm_layout::{CHUNK_BYTES, LINE_BYTES};
use solo_view::Occ;
use solo_world::{Lane, LawfulMem};

/// Gives back a block of a run that the lane reserved: its bit of the run's occupancy word is cleared. Where the lane has the run's chunk, which it made
/// the run, it has the run's other blocks in place of the chunk from then on. The lane may do so before its call draws its number, where nothing of the
/// block is undrained or in its log, nor anything of such a chunk undrained. Nothing is waited for, no call is counted, and no word of the pool is
/// changed.
pub fn give_back<M: LawfulMem>(lane: &mut Lane<M>, block: Block)
    requires { (v : View) × (M.at lane.old.memory v × MayGiveBack v block) }
    ensures given { (chunk index : ℕ) → index < blocks_of block.lines → block ≡ run_block lane.old.shape.lanes chunk block.lines index
        → Made (M.at lane.old.memory) (M.at lane.new.memory) (Vacate (run_of lane.old.shape.lanes chunk) (2 ^ index)) }
    ensures else_same { lane.new ≡ record lane.old { memory = lane.new.memory } }
{
    let line = block.place % CHUNK_BYTES / LINE_BYTES;
    let index = (line - 1) / block.lines;
    lane.memory.vacate(
        Occ::Run(block.place - block.place % CHUNK_BYTES),
        1 << index,
    );
}
