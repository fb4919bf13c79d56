ghost use Rattle.std.specs.Prelude.{◌≡◌, ◌≢◌, ℕ, ◌+◌, ◌*◌, ◌%◌, ◌<◌, ◌≤◌, false, List, All, Contains, None, length, replicate};
ghost use Rattle.pm_header.specs.declared.header.Header.{Header};
ghost use Rattle.pm_words.specs.Words.{AreBytes};
ghost use Rattle.pm_layout.specs.Sizes.{descriptor_of};
ghost use Rattle.pm_layout.specs.declared.class.Class.TheVariants.{Lines};
ghost use Rattle.pm_objects.specs.Pool.{object_at};
ghost use Rattle.pm_objects.specs.declared.pool.Object.{Object};
ghost use Rattle.pm_objects.specs.declared.pool.PoolView.{PoolView};
ghost use Rattle.pm_image.specs.declared.block.Block.{Block};
ghost use Rattle.pm_image.specs.Blocks.{blocks, descriptor_word};
ghost use Rattle.pm_image.specs.Contents.{offset_in, size_in};
ghost use Rattle.pm_image.specs.HeapFaults.{heap_fault};
ghost use Rattle.solo_view.specs.declared.occ.Occ.TheVariants.{Zone};
ghost use Rattle.solo_view.specs.Occupancy.{is_in_block, is_taken};
ghost use Rattle.solo_crash.specs.Held.{HoldsPool};
ghost use Rattle.solo_crash.specs.HeapChanges.{run_at, CanChange, HeapChange, MayBeFreed};
ghost use Rattle.solo_model.specs.Bytes.{put_bytes};
ghost use Rattle.solo_model.specs.NewObjects.{pool_with, pool_without};
ghost use Rattle.solo_crash.specs.NewObjects.{block_of_chunks, block_of_run, unlinked, with_block, without_block, AreFreeChunks, FreesChunksBlock, FreesRunBlock, HasNewObject, IsFreeInRun, IsFreshBlock, MakesChunksObject, MakesObjectOfNewRun, MakesRunObject};
ghost use Rattle.solo_crash.specs.Writes.{IsWritten};
ghost use Rattle.solo_crash.specs.Publishing.{all_blocks_published, all_pool_published, published, AreInOrder, CanPublish, HaveTheirObjects, Published};

/// A law: a block that was filled for an object of some type and size has a new object of that type and of so many zeros. No code runs.
pub fn a_filled_block_has_a_new_object()
    ensures { (v : ℕ → ℕ) (block : Block) (kind size : ℕ) → IsFreshBlock v block kind size → HasNewObject v block kind (replicate size 0) }
{}

/// A law: bytes that are written inside a new object are its bytes from there on, and it is a new object still. No code runs.
pub fn a_write_in_a_new_object_stays()
    ensures { (w v : ℕ → ℕ) (block : Block) (kind at : ℕ) (bytes new : List ℕ) → block.place % 8 ≡ 0 → HasNewObject w block kind bytes
        → at + length new ≤ length bytes → AreBytes new → IsWritten w v (offset_in block + at) new → HasNewObject v block kind (put_bytes at new bytes) }
{}

/// A law: where a free block of a run is allocated, in which a new object stands, the pool has that object more, with its type and bytes as they
/// stand, at an offset where none was; and else the same blocks. No code runs.
pub fn a_new_block_holds_a_new_object()
    ensures pool { (w v : ℕ → ℕ) (lanes zones c lines index kind : ℕ) (bytes : List ℕ) (header : Header) (pool : PoolView)
        → HoldsPool w lanes zones header pool → MakesRunObject w v lanes zones c lines index kind bytes
        → HoldsPool v lanes zones header (pool_with (offset_in (block_of_run lanes c lines index)) (unlinked kind bytes) pool) }
    ensures blocks { (w v : ℕ → ℕ) (lanes zones c lines index kind : ℕ) (bytes : List ℕ)
        → heap_fault w lanes zones ≡ None → MakesRunObject w v lanes zones c lines index kind bytes
        → blocks v lanes zones ≡ with_block (block_of_run lanes c lines index) (blocks w lanes zones) }
    ensures new { (w v : ℕ → ℕ) (lanes zones c lines index kind : ℕ) (bytes : List ℕ) (header : Header) (pool : PoolView)
        → HoldsPool w lanes zones header pool → MakesRunObject w v lanes zones c lines index kind bytes
        → object_at pool.objects (offset_in (block_of_run lanes c lines index)) ≡ None }
    ensures sizes { (w v : ℕ → ℕ) (lanes zones c lines index kind : ℕ) (bytes : List ℕ) (other : Block)
        → heap_fault w lanes zones ≡ None → MakesRunObject w v lanes zones c lines index kind bytes → Contains (blocks w lanes zones) other
        → size_in v other ≡ size_in w other }
{}

/// A law: so it is where free chunks are made one block. No code runs.
pub fn new_chunks_hold_a_new_object()
    ensures pool { (w v : ℕ → ℕ) (lanes zones c chunks kind : ℕ) (bytes : List ℕ) (header : Header) (pool : PoolView)
        → HoldsPool w lanes zones header pool → MakesChunksObject w v lanes zones c chunks kind bytes
        → HoldsPool v lanes zones header (pool_with (offset_in (block_of_chunks lanes c chunks)) (unlinked kind bytes) pool) }
    ensures blocks { (w v : ℕ → ℕ) (lanes zones c chunks kind : ℕ) (bytes : List ℕ)
        → heap_fault w lanes zones ≡ None → MakesChunksObject w v lanes zones c chunks kind bytes
        → blocks v lanes zones ≡ with_block (block_of_chunks lanes c chunks) (blocks w lanes zones) }
    ensures new { (w v : ℕ → ℕ) (lanes zones c chunks kind : ℕ) (bytes : List ℕ) (header : Header) (pool : PoolView)
        → HoldsPool w lanes zones header pool → MakesChunksObject w v lanes zones c chunks kind bytes
        → object_at pool.objects (offset_in (block_of_chunks lanes c chunks)) ≡ None }
    ensures sizes { (w v : ℕ → ℕ) (lanes zones c chunks kind : ℕ) (bytes : List ℕ) (other : Block)
        → heap_fault w lanes zones ≡ None → MakesChunksObject w v lanes zones c chunks kind bytes → Contains (blocks w lanes zones) other
        → size_in v other ≡ size_in w other }
{}

/// A law: and where a free chunk is made a run with one block. No code runs.
pub fn a_new_run_holds_a_new_object()
    ensures pool { (w v : ℕ → ℕ) (lanes zones c lines index kind : ℕ) (bytes : List ℕ) (header : Header) (pool : PoolView)
        → HoldsPool w lanes zones header pool → MakesObjectOfNewRun w v lanes zones c lines index kind bytes
        → HoldsPool v lanes zones header (pool_with (offset_in (block_of_run lanes c lines index)) (unlinked kind bytes) pool) }
    ensures blocks { (w v : ℕ → ℕ) (lanes zones c lines index kind : ℕ) (bytes : List ℕ)
        → heap_fault w lanes zones ≡ None → MakesObjectOfNewRun w v lanes zones c lines index kind bytes
        → blocks v lanes zones ≡ with_block (block_of_run lanes c lines index) (blocks w lanes zones) }
    ensures new { (w v : ℕ → ℕ) (lanes zones c lines index kind : ℕ) (bytes : List ℕ) (header : Header) (pool : PoolView)
        → HoldsPool w lanes zones header pool → MakesObjectOfNewRun w v lanes zones c lines index kind bytes
        → object_at pool.objects (offset_in (block_of_run lanes c lines index)) ≡ None }
    ensures sizes { (w v : ℕ → ℕ) (lanes zones c lines index kind : ℕ) (bytes : List ℕ) (other : Block)
        → heap_fault w lanes zones ≡ None → MakesObjectOfNewRun w v lanes zones c lines index kind bytes → Contains (blocks w lanes zones) other
        → size_in v other ≡ size_in w other }
{}

/// A law: where a block of a run that is not the root's is freed, the pool is without its object, whatever the block's words are then; and
/// else the same blocks. No code runs.
pub fn a_freed_block_holds_none()
    ensures pool { (w v : ℕ → ℕ) (lanes zones c lines index : ℕ) (header : Header) (pool : PoolView)
        → HoldsPool w lanes zones header pool → FreesRunBlock w v lanes zones c lines index
        → HoldsPool v lanes zones header (pool_without (offset_in (block_of_run lanes c lines index)) pool) }
    ensures blocks { (w v : ℕ → ℕ) (lanes zones c lines index : ℕ)
        → heap_fault w lanes zones ≡ None → FreesRunBlock w v lanes zones c lines index
        → blocks v lanes zones ≡ without_block (block_of_run lanes c lines index).place (blocks w lanes zones) }
    ensures sizes { (w v : ℕ → ℕ) (lanes zones c lines index : ℕ) (other : Block)
        → heap_fault w lanes zones ≡ None → FreesRunBlock w v lanes zones c lines index → Contains (blocks v lanes zones) other
        → size_in v other ≡ size_in w other }
{}

/// A law: so it is where a block of whole chunks is freed. No code runs.
pub fn freed_chunks_hold_none()
    ensures pool { (w v : ℕ → ℕ) (lanes zones c chunks : ℕ) (header : Header) (pool : PoolView)
        → HoldsPool w lanes zones header pool → FreesChunksBlock w v lanes zones c chunks
        → HoldsPool v lanes zones header (pool_without (offset_in (block_of_chunks lanes c chunks)) pool) }
    ensures blocks { (w v : ℕ → ℕ) (lanes zones c chunks : ℕ)
        → heap_fault w lanes zones ≡ None → FreesChunksBlock w v lanes zones c chunks
        → blocks v lanes zones ≡ without_block (block_of_chunks lanes c chunks).place (blocks w lanes zones) }
    ensures sizes { (w v : ℕ → ℕ) (lanes zones c chunks : ℕ) (other : Block)
        → heap_fault w lanes zones ≡ None → FreesChunksBlock w v lanes zones c chunks → Contains (blocks v lanes zones) other
        → size_in v other ≡ size_in w other }
{}

/// A law: an entry each makes all that is published, in its order: actions, and then blocks that are allocated for new objects, and blocks that
/// are freed. Each may be made from the words before them all, and no two are of one block, nor of blocks that overlap. An action may write a new
/// object, which stands in its block once the actions are performed. The pool and its blocks are then those with all of it. No code runs.
pub fn entries_publish_all_at_once()
    ensures pool { (w : ℕ → ℕ) (lanes zones : ℕ) (header : Header) (pool : PoolView) (steps : List Published)
        → HoldsPool w lanes zones header pool → All (CanPublish w lanes zones) steps → AreInOrder lanes steps → HaveTheirObjects w lanes steps
        → HoldsPool (published lanes steps w) lanes zones header (all_pool_published lanes steps pool) }
    ensures blocks { (w : ℕ → ℕ) (lanes zones : ℕ) (header : Header) (pool : PoolView) (steps : List Published)
        → HoldsPool w lanes zones header pool → All (CanPublish w lanes zones) steps → AreInOrder lanes steps → HaveTheirObjects w lanes steps
        → blocks (published lanes steps w) lanes zones ≡ all_blocks_published lanes steps (blocks w lanes zones) }
{}

/// A law: a block of a run, and chunks of a zone, that are free by the rule of occupancy words are free to be allocated; each block of the heap
/// but the root's may be freed; and whatever is written in allocated blocks, a change that may be made still may. No code runs.
pub fn blocks_may_be_changed()
    ensures run { (w : ℕ → ℕ) (lanes zones c lines index : ℕ) → c < 64 * zones → w (descriptor_word lanes c) ≡ descriptor_of (Lines lines)
        → is_taken w lanes (run_at lanes c) index ≡ false → IsFreeInRun w lanes zones c lines index }
    ensures chunks { (w : ℕ → ℕ) (lanes zones zone first count : ℕ) → zone < zones → first < 64 → first + count ≤ 64
        → ((k : ℕ) → k < count → is_taken w lanes (Zone zone) (first + k) ≡ false) → AreFreeChunks w lanes zones (64 * zone + first) count }
    ensures freed { (w : ℕ → ℕ) (lanes zones : ℕ) (block : Block) → Contains (blocks w lanes zones) block → w 64 ≢ offset_in block
        → MayBeFreed w lanes zones block }
    ensures kept { (w v : ℕ → ℕ) (lanes zones : ℕ) (change : HeapChange)
        → CanChange w lanes zones change → ((i : ℕ) → is_in_block w lanes i ≡ false → v i ≡ w i) → CanChange v lanes zones change }
{}
