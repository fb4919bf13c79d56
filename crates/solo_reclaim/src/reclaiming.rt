//! The scan of a pool's chunks, zone by zone and by rising place in each: the bits of an occupancy word that no word of the pool says are taken are
//! cleared in one step.

ghost use Rattle.std.specs.Prelude.{◌≡◌, ℕ, ◌<◌, All};
ghost use Rattle.solo_view.specs.View.{View};
ghost use Rattle.solo_view.specs.declared.occ.Occ.TheVariants.{Run};
ghost use Rattle.solo_reclaim.specs.KeptBlocks.{Keeps};
ghost use Rattle.solo_reclaim.specs.Reclaims.{HasLeft, HasReclaimed, IsDescribed, IsLeft, IsTold, MayKeep, MayReclaim, zone_in};
ghost use Rattle.solo_view.specs.declared.occ.Occ.{Occ};

use crate::kept_bits::kept_bits;
use pm_image::Block;
use pm_layout::{CHUNKS_PER_ZONE, Shape, WORD_BYTES};
use solo_occupancy::{TakenChunks, is_run, taken_blocks};
use solo_view::Occ;
use solo_world::LawfulMem;

/// Clears the bits of an occupancy word that are neither of what is taken nor of a block that the lane keeps, if there are any.
fn vacate_rest<M: LawfulMem>(mem: &mut M, shape: Shape, kept: &[Block], at: Occ, taken: u64)
    requires { (v : View) × (M.at mem.old v × IsTold v shape kept.now at taken) }
    ensures { (v : View) → M.at mem.old v → IsTold v shape kept.now at taken
        → HasReclaimed (M.at mem.new) v (λ w. IsLeft kept.now w (λ other. other ≡ at)) }
{
    let found = mem.occupied(at);
    let rest = found & !(taken | kept_bits(kept, shape, at));
    if rest != 0 {
        mem.vacate(at, rest);
    }
}

/// Gives back the blocks of the chunk at this place that no word says are taken, but for those that the lane keeps, where the chunk is a run by its
/// descriptor.
fn reclaim_run<M: LawfulMem>(mem: &mut M, shape: Shape, kept: &[Block], place: u64, descriptor: u64)
    requires { (v : View) × (M.at mem.old v × IsDescribed v shape kept.now place descriptor) }
    ensures { (v : View) → M.at mem.old v → IsDescribed v shape kept.now place descriptor
        → HasReclaimed (M.at mem.new) v (λ w. IsLeft kept.now w (λ other. other ≡ Run place)) }
{
    if is_run(descriptor) {
        let bitmap = mem.load(place / WORD_BYTES);
        let taken = taken_blocks(descriptor, bitmap);
        vacate_rest(mem, shape, kept, Occ::Run(place), taken);
    }
}

/// Gives back the chunks of a zone that no word says are taken, and so the blocks of its runs, but for the blocks that the lane keeps.
fn reclaim_zone<M: LawfulMem>(mem: &mut M, shape: Shape, kept: &[Block], zone: u64)
    requires inside { zone < shape.zones }
    requires may { (v : View) × (M.at mem.old v × MayKeep v shape kept.now) }
    ensures { (v : View) → M.at mem.old v → MayKeep v shape kept.now
        → HasReclaimed (M.at mem.new) v (λ w. IsLeft kept.now w (λ at. zone_in w.lanes at ≡ zone)) }
{
    let descriptors = shape.zone_at(zone) / WORD_BYTES;
    let mut taken = TakenChunks::none();
    for chunk in 0..CHUNKS_PER_ZONE {
        let descriptor = mem.load(descriptors + chunk);
        taken = taken.with_next(chunk, descriptor);
        reclaim_run(mem, shape, kept, shape.chunk_at(zone, chunk), descriptor);
    }
    vacate_rest(mem, shape, kept, Occ::Zone(zone), taken.bits);
}

/// Gives back each block of a run and each chunk of a zone that the lane's occupancy words have and that no word of the pool says is taken, but for the
/// blocks that it keeps: what the lane reserved and did not publish, and what it freed. The blocks that it keeps, which it reserved, and which no word says
/// are taken, it has still. The lane is alone, behind its call's end: its log is empty, nothing is undrained, and it has given back its locks, since a load
/// would tell it of their blocks anew. Each descriptor of the pool is loaded, and of each run its bitmap; no bit is cleared of what is taken. Nothing is
/// waited for, no call is counted, and no word of the pool is changed. docs/FORMAT.md, "Volatile words".
pub fn reclaim<M: LawfulMem>(mem: &mut M, shape: Shape, kept: &[Block])
    requires { (v : View) × (M.at mem.old v × MayReclaim v shape × All (Keeps v) kept.now) }
    ensures { (v : View) → M.at mem.old v → MayReclaim v shape → All (Keeps v) kept.now → HasReclaimed (M.at mem.new) v (HasLeft kept.now) }
{
    for zone in 0..shape.zones {
        reclaim_zone(mem, shape, kept, zone);
    }
}
