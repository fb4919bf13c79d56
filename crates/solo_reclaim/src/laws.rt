//! Laws of what a lane keeps. No code runs.

ghost use Rattle.std.specs.Prelude.{◌↔◌, ℕ, ◌<◌, []};
ghost use Rattle.pm_layout.specs.Sizes.{blocks_of};
ghost use Rattle.solo_view.specs.View.{View};
ghost use Rattle.solo_view.specs.declared.occ.Occ.{Occ};
ghost use Rattle.solo_crash.specs.NewObjects.{block_of_chunks, block_of_run};
ghost use Rattle.solo_crash.specs.Taken.{IsBlockBit, IsChunkBit};
ghost use Rattle.solo_reclaim.specs.KeptBlocks.{IsBitOf};
ghost use Rattle.solo_reclaim.specs.Reclaims.{HasLeft, HasNothingLeft};

/// A law: the bit of a block of a run is that of its index in the run's occupancy word, and those of whole chunks are these chunks' in their zone's. No code
/// runs.
pub fn the_bits_of_a_block()
    ensures run { (lanes c lines index : ℕ) (at : Occ) (bit : ℕ) → index < blocks_of lines
        → IsBitOf lanes (block_of_run lanes c lines index) at bit ↔ IsBlockBit lanes c index at bit }
    ensures chunks { (lanes c count : ℕ) (at : Occ) (bit : ℕ) → IsBitOf lanes (block_of_chunks lanes c count) at bit ↔ IsChunkBit c count at bit }
{}

/// A law: a lane that reclaimed what it has, and keeps no block, has nothing left. No code runs.
pub fn a_lane_that_keeps_none_has_nothing_left()
    ensures { (w : View) → HasLeft [] w → HasNothingLeft w }
{}
