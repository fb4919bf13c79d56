//! The redo entry of an object's block.

ghost use Rattle.std.specs.Prelude.{◌≡◌, ℕ, ◌+◌, ◌-◌, ◌*◌, ◌/◌, ◌%◌, ◌^◌, ◌<◌, ◌≤◌, ◌++◌, All, List, length, map};
ghost use Rattle.std.specs.List.{AllZip};
ghost use Rattle.pm_layout.specs.Sizes.{blocks_of};
ghost use Rattle.solo_view.specs.Blocks.{descriptor_word};
ghost use Rattle.solo_crash.specs.HeapChanges.{HeapChange, entry_of};
ghost use Rattle.solo_crash.specs.HeapChanges.HeapChange.{AllocatesChunks, AllocatesInRun, FreesChunks, FreesInRun};
ghost use Rattle.solo_crash.specs.NewObjects.{block_of_chunks, block_of_run};
ghost use Rattle.solo_redo.specs.Entering.{IsOfWord, final_of};
ghost use Rattle.solo_made.specs.declared.objects.Freed.{Freed};
ghost use Rattle.solo_made.specs.declared.objects.Made.{Made};
ghost use Rattle.solo_made.specs.Entries.{AllocatesBlockOf, FreesBlockOf, IsBlockIn, IsChunkPage, block_freed, block_made, entry_freeing, entry_making, index_of, line_of, page_of};

use crate::objects::{Freed, Made};
use pm_layout::{
    Class, LINE_BYTES, LINES_PER_CHUNK, PAGE_BYTES, Shape, WORD_BYTES, ZONE_BYTES, class_of,
    descriptor_of,
};
use pm_record::{Op, Redo};
use solo_world::Lane;

impl Made {
    /// The redo entry that allocates the object's block, in a pool of this shape: an OR of its bit of the run's bitmap, or a SET of the first
    /// chunk's descriptor.
    pub fn entry(self, shape: Shape) -> Redo
        requires size { self.size ≤ 262080 }
        requires block { IsBlockIn shape.lanes shape.zones (block_made self) }
        ensures value { result ≡ entry_making shape.lanes self }
        ensures word { IsOfWord result }
        ensures in_run { (chunk lines index kind : ℕ) (bytes : List ℕ) → index < blocks_of lines → block_of_run shape.lanes chunk lines index ≡ block_made self
            → final_of result ≡ entry_of shape.lanes (AllocatesInRun chunk lines index kind bytes) }
        ensures whole { (chunk chunks kind : ℕ) (bytes : List ℕ) → block_of_chunks shape.lanes chunk chunks ≡ block_made self
            → final_of result ≡ entry_of shape.lanes (AllocatesChunks chunk chunks kind bytes) }
    {
        match class_of(self.size) {
            Class::Lines(lines) => Redo {
                place: bitmap_place(self.off),
                op: Op::Or,
                value: block_bit(self.off, lines),
            },
            Class::Chunks(chunks) => Redo {
                place: descriptor_place(self.off, shape),
                op: Op::Set,
                value: descriptor_of(Class::Chunks(chunks)),
            },
        }
    }
}

impl Freed {
    /// The redo entry that frees the object's block, in a pool of this shape: an AND of all other bits of the run's bitmap, or a SET of the first
    /// chunk's descriptor to 0.
    pub fn entry(self, shape: Shape) -> Redo
        requires { IsBlockIn shape.lanes shape.zones (block_freed self) }
        ensures value { result ≡ entry_freeing shape.lanes self }
        ensures word { IsOfWord result }
        ensures in_run { (chunk lines index : ℕ) → index < blocks_of lines → block_of_run shape.lanes chunk lines index ≡ block_freed self
            → final_of result ≡ entry_of shape.lanes (FreesInRun chunk lines index) }
        ensures whole { (chunk chunks : ℕ) → block_of_chunks shape.lanes chunk chunks ≡ block_freed self
            → final_of result ≡ entry_of shape.lanes (FreesChunks chunk chunks) }
    {
        if self.lines < LINES_PER_CHUNK {
            Redo {
                place: bitmap_place(self.off),
                op: Op::And,
                value: !block_bit(self.off, self.lines),
            }
        } else {
            Redo {
                place: descriptor_place(self.off, shape),
                op: Op::Set,
                value: 0,
            }
        }
    }
}

/// Lists the entries that free the blocks of these objects, in their order, behind those that the lane has.
pub(crate) fn list_freed<M>(lane: &mut Lane<M>, freed: &[Freed])
    requires few { length lane.old.entries.items + length freed.now ≤ 63 }
    requires blocks { All (λ (f : Freed). IsBlockIn lane.old.shape.lanes lane.old.shape.zones (block_freed f)) freed.now }
    ensures listed { lane.new.entries.items ≡ lane.old.entries.items ++ map (entry_freeing lane.old.shape.lanes) freed.now }
    ensures perform { (changes : List HeapChange) → AllZip (FreesBlockOf lane.old.shape.lanes) changes freed.now
        → map final_of (map (entry_freeing lane.old.shape.lanes) freed.now) ≡ map (entry_of lane.old.shape.lanes) changes }
    ensures words { All IsOfWord (map (entry_freeing lane.old.shape.lanes) freed.now) }
    ensures else_same { lane.new ≡ record lane.old { entries = lane.new.entries } }
{
    for object in freed {
        lane.entries.push(object.entry(lane.shape));
    }
}

/// Lists the entries that allocate the blocks of these objects, in their order, behind those that the lane has.
pub(crate) fn list_made<M>(lane: &mut Lane<M>, made: &[Made])
    requires few { length lane.old.entries.items + length made.now ≤ 63 }
    requires sizes { All (λ (m : Made). m.size ≤ 262080) made.now }
    requires blocks { All (λ (m : Made). IsBlockIn lane.old.shape.lanes lane.old.shape.zones (block_made m)) made.now }
    ensures listed { lane.new.entries.items ≡ lane.old.entries.items ++ map (entry_making lane.old.shape.lanes) made.now }
    ensures perform { (changes : List HeapChange) → AllZip (AllocatesBlockOf lane.old.shape.lanes) changes made.now
        → map final_of (map (entry_making lane.old.shape.lanes) made.now) ≡ map (entry_of lane.old.shape.lanes) changes }
    ensures words { All IsOfWord (map (entry_making lane.old.shape.lanes) made.now) }
    ensures else_same { lane.new ≡ record lane.old { entries = lane.new.entries } }
{
    for object in made {
        lane.entries.push(object.entry(lane.shape));
    }
}

/// Where the bitmap of the run stands that has the object's block, in bytes: the chunk's first word.
fn bitmap_place(off: u64) -> u64
    requires { 64 ≤ off }
    ensures { result ≡ 4096 * page_of off }
{
    (off - LINE_BYTES) / PAGE_BYTES * PAGE_BYTES
}

/// The bit of the object's block, of so many lines, in the bitmap of its run.
fn block_bit(off: u64, lines: u64) -> u64
    requires behind { 64 ≤ off }
    requires some { 1 ≤ lines }
    requires begins { 1 ≤ line_of off }
    ensures { result ≡ 2 ^ index_of off lines }
{
    let line = (off - LINE_BYTES) / LINE_BYTES % LINES_PER_CHUNK;
    1 << (line - 1) / lines
}

/// Where the descriptor stands of the chunk in which the object's block begins, in bytes.
fn descriptor_place(off: u64, shape: Shape) -> u64
    requires behind { 64 ≤ off }
    requires chunk { IsChunkPage shape.lanes shape.zones (page_of off) }
    ensures { result ≡ 8 * descriptor_word shape.lanes (page_of off) }
{
    let behind_lanes = off - LINE_BYTES - shape.zone_at(0);
    let zone = behind_lanes / ZONE_BYTES;
    let chunk = behind_lanes % ZONE_BYTES / PAGE_BYTES - 1;
    shape.zone_at(zone) + WORD_BYTES * chunk
}
