ghost use Rattle.std.specs.Prelude.{◌≡◌, ℕ, ◌+◌, ◌*◌, ◌^◌, ◌<◌, false, true, List, slice_index, None};
ghost use Rattle.pm_header.specs.declared.header.Header.{Header};
ghost use Rattle.pm_objects.specs.declared.pool.PoolView.{PoolView};
ghost use Rattle.pm_image.specs.Blocks.{blocks, descriptor_word};
ghost use Rattle.pm_image.specs.HeapFaults.{heap_fault};
ghost use Rattle.pm_image.specs.Reads.{AgreeOn, Reads};
ghost use Rattle.solo_view.specs.declared.occ.Occ.{Occ};
ghost use Rattle.solo_view.specs.declared.occ.Occ.TheVariants.{Zone};
ghost use Rattle.solo_view.specs.Blocks.{covers, describes, tells_nothing};
ghost use Rattle.solo_view.specs.Held.{is_reserved};
ghost use Rattle.solo_view.specs.Occupancy.{is_taken};
ghost use Rattle.solo_view.specs.View.{View};
ghost use Rattle.solo_world.specs.Heap.{AreNewRuns, BlocksFit, IsOcc, heap_words};
ghost use Rattle.solo_world.specs.Memory.{Memory};
ghost use Rattle.solo_world.specs.Memory.Location.{PoolWord};
ghost use Rattle.solo_world.specs.Opening.{Opening};
ghost use Rattle.solo_crash.specs.Held.{HoldsPool};
ghost use Rattle.solo_crash.specs.FreeWords.{HasDescriptor, IsFreeWord, MakesEmptyRun, MayHaveNewRuns};

/// A law: words hold the same pool as others that are theirs wherever the meaning reads, and have the same blocks. No code runs.
pub fn a_pool_is_held_by_what_is_read()
    ensures pool { (w v : ℕ → ℕ) (lanes zones : ℕ) (header : Header) (pool : PoolView)
        → HoldsPool w lanes zones header pool → AgreeOn (Reads w lanes zones) w v
        → HoldsPool v lanes zones header pool }
    ensures blocks { (w v : ℕ → ℕ) (lanes zones : ℕ)
        → AgreeOn (Reads w lanes zones) w v → blocks v lanes zones ≡ blocks w lanes zones }
{}

/// A law: no meaning reads a word of what a bit of an occupancy word is of, where that is free, but the descriptors of free chunks; nor one of
/// several that are, as those that a lane reserved. These are free by the opening's words, though a chunk that was free may be a run by now; and by
/// the words that tell of blocks now none is read that tells of no block. So whatever stands in free blocks and chunks, the pool is the same. No
/// code runs.
pub fn words_of_free_blocks_are_not_read()
    ensures bit { (w : ℕ → ℕ) (words : List ℕ) (lanes zones : ℕ) (at : Occ) (bit i : ℕ)
        → heap_fault w lanes zones ≡ None → IsOcc lanes zones at → HasDescriptor words w lanes at
        → is_taken w lanes at bit ≡ false → covers lanes words at (2 ^ bit) i ≡ true → describes lanes i ≡ false
        → ¬ Reads w lanes zones i }
    ensures free { (w : ℕ → ℕ) (lanes zones i : ℕ)
        → heap_fault w lanes zones ≡ None → IsFreeWord w lanes zones i → ¬ Reads w lanes zones i }
    ensures reserved { (o : Opening) (memory : Memory) (i : ℕ) (v : View) → v.lanes ≡ o.lanes
        → BlocksFit o (heap_words o memory) v → is_reserved v i ≡ true → describes o.lanes i ≡ false
        → IsFreeWord (slice_index o.words) o.lanes o.zones i }
    ensures unread { (o : Opening) (memory : Memory) (i : ℕ) (v : View) → v.lanes ≡ o.lanes → AreNewRuns o (λ w. memory (PoolWord w))
        → BlocksFit o (heap_words o memory) v → is_reserved v i ≡ true → tells_nothing v.lanes v.words i ≡ true
        → heap_fault (heap_words o memory) o.lanes o.zones ≡ None → ¬ Reads (heap_words o memory) o.lanes o.zones i }
    ensures pool { (w v : ℕ → ℕ) (lanes zones : ℕ) (header : Header) (pool : PoolView)
        → HoldsPool w lanes zones header pool → ((i : ℕ) → ¬ IsFreeWord w lanes zones i → v i ≡ w i)
        → HoldsPool v lanes zones header pool }
{}

/// A law: a free chunk that is made a run without blocks leaves the pool and its blocks as they were, whatever else stands in the chunk; and
/// so does such a run that is made a free chunk. No code runs.
pub fn a_run_without_blocks_holds_nothing()
    ensures made { (w v : ℕ → ℕ) (lanes zones zone chunk : ℕ) (header : Header) (pool : PoolView)
        → HoldsPool w lanes zones header pool → is_taken w lanes (Zone zone) chunk ≡ false → zone < zones → chunk < 64
        → MakesEmptyRun w v lanes (64 * zone + chunk) → HoldsPool v lanes zones header pool }
    ensures made_blocks { (w v : ℕ → ℕ) (lanes zones zone chunk : ℕ)
        → heap_fault w lanes zones ≡ None → is_taken w lanes (Zone zone) chunk ≡ false → zone < zones → chunk < 64
        → MakesEmptyRun w v lanes (64 * zone + chunk) → blocks v lanes zones ≡ blocks w lanes zones }
    ensures freed { (w v : ℕ → ℕ) (lanes zones zone chunk : ℕ) (header : Header) (pool : PoolView)
        → HoldsPool v lanes zones header pool → MakesEmptyRun w v lanes (64 * zone + chunk)
        → w (descriptor_word lanes (64 * zone + chunk)) ≡ 0 → HoldsPool w lanes zones header pool }
    ensures freed_blocks { (w v : ℕ → ℕ) (lanes zones zone chunk : ℕ)
        → heap_fault v lanes zones ≡ None → MakesEmptyRun w v lanes (64 * zone + chunk)
        → w (descriptor_word lanes (64 * zone + chunk)) ≡ 0 → blocks w lanes zones ≡ blocks v lanes zones }
{}

/// A law: where free chunks, however many, are made runs without blocks, or are not, the pool and its blocks are as they were; so it is whatever
/// stands in words that no meaning reads. No code runs.
pub fn new_runs_hold_nothing()
    ensures pool { (w v : ℕ → ℕ) (lanes zones : ℕ) (header : Header) (pool : PoolView)
        → HoldsPool w lanes zones header pool → MayHaveNewRuns w v lanes zones → HoldsPool v lanes zones header pool }
    ensures blocks { (w v : ℕ → ℕ) (lanes zones : ℕ)
        → heap_fault w lanes zones ≡ None → MayHaveNewRuns w v lanes zones → blocks v lanes zones ≡ blocks w lanes zones }
{}
