//! Chunks of a zone, given back.

ghost use Rattle.std.specs.Prelude.{◌≡◌, ℕ, ◌+◌, ◌≤◌};
ghost use Rattle.solo_memory.specs.Runs.{Made};
ghost use Rattle.solo_view.specs.Steps.Step.{Vacate};
ghost use Rattle.solo_view.specs.View.{View};
ghost use Rattle.solo_view.specs.declared.occ.Occ.TheVariants.{Zone};
ghost use Rattle.solo_world.specs.Lanes.{IsOfShape};
ghost use Rattle.solo_chunks.specs.Chunks.{MayGiveBack, chunk_bits, chunk_block};

use crate::bits::chunk_bits;
use pm_image::Block;
use pm_layout::{CHUNK_BYTES, LINES_PER_CHUNK, ZONE_BYTES};
use solo_view::Occ;
use solo_world::{Lane, LawfulMem};

/// Gives back a block of whole chunks that the lane reserved, none of which it made a run: their bits of the zone's occupancy word are cleared. The lane
/// may do so before its call draws its number, where nothing of the block is undrained or in its log. Nothing is waited for, no call is counted, and no
/// word of the pool is changed.
pub fn give_back<M: LawfulMem>(lane: &mut Lane<M>, block: Block)
    requires { (v : View) × (M.at lane.old.memory v × IsOfShape v lane.old.shape × MayGiveBack v block) }
    ensures given { (zone first count : ℕ) → 1 ≤ count → first + count ≤ 64 → block ≡ chunk_block lane.old.shape.lanes zone first count
        → Made (M.at lane.old.memory) (M.at lane.new.memory) (Vacate (Zone zone) (chunk_bits first count)) }
    ensures else_same { lane.new ≡ record lane.old { memory = lane.new.memory } }
{
    let in_zones = block.place - lane.shape.zone_at(0);
    let first = in_zones % ZONE_BYTES / CHUNK_BYTES - 1;
    let bits = chunk_bits(first, block.lines / LINES_PER_CHUNK);
    lane.memory.vacate(Occ::Zone(in_zones / ZONE_BYTES), bits);
}
