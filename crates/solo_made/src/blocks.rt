//! The lists of a call.

ghost use Rattle.std.specs.Prelude.{◌≡◌, ℕ, ◌+◌, ◌*◌, ◌<◌, ◌≤◌, ◌==◌, ◌||◌, ◌++◌, [], ◌∷◌, All, List, length, map, filter, find, not, false, if◌then◌else◌, IfOk};
ghost use Rattle.std.specs.List.{AllZip, list_any};
ghost use Rattle.std.specs.Option.{option_map};
ghost use Rattle.solo_model.specs.Bytes.{is_among};
ghost use Rattle.solo_crash.specs.CallBlocks.{CallBlocks as Call, is_at, no_blocks, with_freed, with_made};
ghost use Rattle.solo_crash.specs.HeapChanges.{HeapChange, entry_of};
ghost use Rattle.solo_redo.specs.Entering.{IsOfWord, final_of};
ghost use Rattle.solo_made.specs.declared.objects.Freed.{Freed};
ghost use Rattle.solo_made.specs.declared.objects.Made.{Made};
ghost use Rattle.solo_made.specs.Made.{BlockLists, FitsPages, IsOffsetIn, ListsBlocks, begins_at, new_of};
ghost use Rattle.solo_made.specs.Entries.{AllocatesBlockOf, FreesBlockOf, IsBlockIn, block_freed, block_made, entries_of};

use crate::entries::{list_freed, list_made};
use crate::line_set::LineSet;
use crate::objects::{Freed, Made};
use arrayvec::ArrayVec;
use pm_layout::{PAGE_BYTES, Shape};
use solo_world::Lane;
use std::alloc::{AllocError, Global};
use std::marker::Model;

/// The objects that a call of a pool made, and those that it freed. Those that it made and freed again are a set of lines, since there may be any
/// number of them. Contracts see the lists and the set's words.
#[derive(Drop)]
pub struct CallBlocks {
    made: ArrayVec<Made, 63>,
    freed: ArrayVec<Freed, 63>,
    dropped: LineSet,
}

impl Model for CallBlocks {
    ghost use Rattle.std.specs.Prelude.{All, length};
    ghost use Rattle.solo_made.specs.Made.{BlockLists, FitsPages};

    ghost Value = { BlockLists };

    ghost view = { λ b. record { made = b.made.items; freed = b.freed.items; dropped = b.dropped } };

    ghost invariant = { λ b. All (FitsPages (length b.dropped)) b.made.items };
}

impl CallBlocks {
    /// The lists of a call that made and freed nothing, for a pool of this shape. The error says that memory is lacking.
    pub fn new(alloc: Global, shape: Shape) -> Result<CallBlocks, AllocError>
        ensures none { IfOk result (λ blocks. ListsBlocks blocks no_blocks) }
        ensures pages { IfOk result (λ blocks. length blocks.dropped ≡ 1 + 2 * shape.lanes + 65 * shape.zones) }
    {
        let pages = shape.size() / PAGE_BYTES;
        Ok(CallBlocks {
            made: ArrayVec::new(),
            freed: ArrayVec::new(),
            dropped: LineSet::new(alloc, pages as usize)?,
        })
    }

    /// The object at the offset, in bytes, if the call made it and has it.
    pub fn made_at(&self, off: u64) -> Option<Made>
        ensures { (call : Call) → ListsBlocks self.now call → option_map new_of result ≡ find (is_at off) call.made }
    {
        self.made
            .as_slice()
            .iter()
            .copied()
            .find(|made| made.off == off)
    }

    /// Whether the object at the offset, in bytes, is gone: the call found and freed it, or made it and freed it again.
    pub fn is_gone(&self, off: u64) -> bool
        ensures { (call : Call) → ListsBlocks self.now call → result ≡ (is_among call.freed off || list_any (is_at off) call.dropped) }
    {
        self.freed.as_slice().iter().any(|freed| freed.off == off) || self.dropped.contains(off)
    }

    /// Whether the call made the object at the offset, in bytes, and freed it again or not.
    pub fn is_new(&self, off: u64) -> bool
        ensures { (call : Call) → ListsBlocks self.now call → result ≡ (list_any (is_at off) call.made || list_any (is_at off) call.dropped) }
    {
        self.has_made(off) || self.dropped.contains(off)
    }

    /// Whether the call made the object at the offset, in bytes, and has it.
    fn has_made(&self, off: u64) -> bool
        ensures { result ≡ list_any (begins_at off) self.now.made }
    {
        self.made.as_slice().iter().any(|made| made.off == off)
    }

    /// The call made the object: it is listed behind the others.
    pub fn add_made(&mut self, made: Made)
        requires few { length self.old.made < 63 }
        requires fits { FitsPages (length self.old.dropped) made }
        ensures of_call { (call : Call) → ListsBlocks self.old call → ListsBlocks self.new (with_made (new_of made) call) }
        ensures listed { self.new ≡ record self.old { made = self.old.made ++ made ∷ [] } }
    {
        self.made.push(made);
    }

    /// The call freed the object at the offset, in bytes, whose block has so many lines of 64 bytes: one that it made is no more listed as such, any
    /// other is listed behind those that it found and freed.
    pub fn free(&mut self, off: u64, lines: u64)
        requires few { list_any (begins_at off) self.old.made ≡ false → length self.old.freed < 63 }
        ensures of_call { (call : Call) → ListsBlocks self.old call → ListsBlocks self.new (with_freed off call) }
        ensures made { self.new.made ≡ filter (λ (m : Made). not (begins_at off m)) self.old.made }
        ensures freed { self.new.freed ≡ (if list_any (begins_at off) self.old.made then self.old.freed else self.old.freed ++ record { off = off; lines = lines } ∷ []) }
        ensures pages { length self.new.dropped ≡ length self.old.dropped }
    {
        if self.has_made(off) {
            self.made.retain(|made| made.off != off);
            self.dropped.insert(off);
        } else {
            self.freed.push(Freed { off, lines });
        }
    }

    /// The call ended: nothing is listed.
    pub fn clear(&mut self)
        ensures none { ListsBlocks self.new no_blocks }
        ensures pages { length self.new.dropped ≡ length self.old.dropped }
    {
        self.made.clear();
        self.freed.clear();
        self.dropped.clear();
    }

    /// How many redo entries the call's objects have: one for each that it found and freed, and for each that it made and has.
    pub fn count(&self) -> usize
        ensures listed { result ≡ length self.now.freed + length self.now.made }
        ensures of_call { (call : Call) → ListsBlocks self.now call → result ≡ length call.freed + length call.made }
    {
        self.freed.len() + self.made.len()
    }

    /// Lists the entries behind those that the lane has: that of each object that the call found and freed, in order, then that of each that it made
    /// and has. The one that ends its generation still fits behind them.
    pub fn list_entries<M>(&self, lane: &mut Lane<M>)
        requires few { length lane.old.entries.items + (length self.now.freed + length self.now.made) ≤ 63 }
        requires freed { All (λ (f : Freed). IsBlockIn lane.old.shape.lanes lane.old.shape.zones (block_freed f)) self.now.freed }
        requires made { All (λ (m : Made). IsBlockIn lane.old.shape.lanes lane.old.shape.zones (block_made m)) self.now.made }
        ensures listed { lane.new.entries.items ≡ lane.old.entries.items ++ entries_of lane.old.shape.lanes self.now }
        ensures perform { (freed made : List HeapChange) → AllZip (FreesBlockOf lane.old.shape.lanes) freed self.now.freed → AllZip (AllocatesBlockOf lane.old.shape.lanes) made self.now.made
            → map final_of (entries_of lane.old.shape.lanes self.now) ≡ map (entry_of lane.old.shape.lanes) (freed ++ made) }
        ensures words { All IsOfWord (entries_of lane.old.shape.lanes self.now) }
        ensures else_same { lane.new ≡ record lane.old { entries = lane.new.entries } }
    {
        list_freed(lane, self.freed.as_slice());
        list_made(lane, self.made.as_slice());
    }
}
