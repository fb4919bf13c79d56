//! The search for free chunks, zone by zone and by rising place in each: under the zone's lock its occupancy word is read once, and where the bits of
//! such chunks are clear there they are tried in turn.

ghost use Rattle.std.specs.Prelude.{◌≡◌, ◌⊎◌, ℕ, ◌+◌, ◌-◌, ◌<◌, ◌≤◌, IfErr, IfSome, None, true, false};
ghost use Rattle.pm_objects.specs.declared.refusal.Refusal.TheVariants as refusal;
ghost use Rattle.solo_view.specs.Founds.{IsAlone};
ghost use Rattle.solo_view.specs.View.{View};
ghost use Rattle.solo_chunks.specs.Chunks.{IsLeast, MaySearch, ReserveEnds};
ghost use Rattle.solo_chunks.specs.Looking.{CanTry, HasGotIn, HasLost, HasNoneBelow, HasWon, HoldsZone, ZoneEnds};

use crate::bits::chunk_bits;
use pm_image::Block;
use pm_layout::{CHUNKS_PER_ZONE, LINES_PER_CHUNK, Shape};
use pm_objects::Refusal;
use solo_view::Occ;
use solo_world::{Lane, LawfulMem};

/// What the search came to in one zone.
#[derive(Clone, Copy, Debug, PartialEq, Eq)]
pub enum Sought {
    /// The chunks were got, from this one on, 0 for the zone's first.
    Got(u64),
    /// The zone has no such chunks.
    Full,
    /// The zone's lock is another lane's.
    Busy,
}

/// Tries to get chunks of the zone, where their bits are clear in the zone's occupancy word as it was found.
fn try_chunks<M: LawfulMem>(mem: &mut M, zone: u64, found: u64, first: u64, count: u64) -> bool
    requires some { 1 ≤ count }
    requires in_zone { first + count ≤ 64 }
    requires may { (v : View) × (M.at mem.old v × CanTry v zone found) }
    ensures won { result ≡ true → (v : View) → M.at mem.old v → CanTry v zone found → HasWon (M.at mem.new) v zone first count }
    ensures lost { result ≡ false → (v : View) → M.at mem.old v → CanTry v zone found → HasLost (M.at mem.new) v zone first count }
{
    let bits = chunk_bits(first, count);
    found & bits == 0 && mem.occupy(Occ::Zone(zone), bits)
}

/// Reserves the first such chunks of a zone that are seen free and are got: the first of them, 0 for the zone's first. The lane holds the zone's lock.
fn reserve_under_lock<M: LawfulMem>(mem: &mut M, zone: u64, count: u64) -> Option<u64>
    requires some { 1 ≤ count }
    requires most { count ≤ 64 }
    requires holds { (v : View) × (M.at mem.old v × HoldsZone v zone) }
    ensures got { IfSome result (λ first. (v : View) → M.at mem.old v → HoldsZone v zone → HasGotIn (M.at mem.new) v zone first count) }
    ensures none { result ≡ None → (v : View) → M.at mem.old v → HoldsZone v zone → HasNoneBelow (M.at mem.new) v zone count (65 - count) }
{
    let found = mem.occupied(Occ::Zone(zone));
    for first in 0..CHUNKS_PER_ZONE + 1 - count {
        if try_chunks(mem, zone, found, first, count) {
            return Some(first);
        }
    }
    None
}

/// Reserves chunks of a zone under its lock, which is tried once and given back.
fn reserve_in_zone<M: LawfulMem>(mem: &mut M, shape: Shape, zone: u64, count: u64) -> Sought
    requires some { 1 ≤ count }
    requires most { count ≤ 64 }
    requires inside { zone < shape.zones }
    requires may { (v : View) × (M.at mem.old v × MaySearch v shape) }
    ensures { (v : View) → M.at mem.old v → MaySearch v shape → ZoneEnds (M.at mem.new) v zone count result }
{
    if !mem.zone_try(zone) {
        return Sought::Busy;
    }
    let got = reserve_under_lock(mem, zone, count);
    mem.zone_give(zone);
    match got {
        Some(first) => Sought::Got(first),
        None => Sought::Full,
    }
}

/// Reserves chunks in the first zone that has them.
fn reserve_first<M: LawfulMem>(mem: &mut M, shape: Shape, count: u64) -> Result<Block, Refusal>
    requires some { 1 ≤ count }
    requires most { count ≤ 64 }
    requires may { (v : View) × (M.at mem.old v × MaySearch v shape) }
    ensures ends { (v : View) → M.at mem.old v → MaySearch v shape → ReserveEnds (M.at mem.new) v count result }
    ensures least { (v : View) → M.at mem.old v → MaySearch v shape → IsAlone v → IsLeast v count result }
    ensures causes { IfErr result (λ r. (r ≡ refusal.NoSpace) ⊎ (r ≡ refusal.Busy)) }
{
    for zone in 0..shape.zones {
        match reserve_in_zone(mem, shape, zone, count) {
            Sought::Got(first) => {
                return Ok(Block {
                    place: shape.chunk_at(zone, first),
                    lines: LINES_PER_CHUNK * count,
                });
            }
            Sought::Full => {}
            Sought::Busy => return Err(Refusal::Busy),
        }
    }
    Err(Refusal::NoSpace)
}

/// Reserves so many chunks, 1 to 64, that lie one after another in one zone: the first that it sees free and gets, each zone being looked at under its
/// lock. `NoSpace` says that of each zone, wherever so many chunks would begin, one of them was seen taken. `Busy` says that a zone's lock is another
/// lane's: it is tried once, not waited for. Where the lane is alone the chunks are the least that are free, `NoSpace` says that none are, and it is
/// never `Busy`. The lane may do so before its call draws its number, while it holds no zone's lock. Nothing is waited for, no call is counted, and no
/// word of the pool is changed.
pub fn reserve_chunks<M: LawfulMem>(lane: &mut Lane<M>, count: u64) -> Result<Block, Refusal>
    requires some { 1 ≤ count }
    requires most { count ≤ 64 }
    requires may { (v : View) × (M.at lane.old.memory v × MaySearch v lane.old.shape) }
    ensures ends { (v : View) → M.at lane.old.memory v → MaySearch v lane.old.shape → ReserveEnds (M.at lane.new.memory) v count result }
    ensures least { (v : View) → M.at lane.old.memory v → MaySearch v lane.old.shape → IsAlone v → IsLeast v count result }
    ensures causes { IfErr result (λ r. (r ≡ refusal.NoSpace) ⊎ (r ≡ refusal.Busy)) }
    ensures else_same { lane.new ≡ record lane.old { memory = lane.new.memory } }
{
    reserve_first(&mut lane.memory, lane.shape, count)
}
