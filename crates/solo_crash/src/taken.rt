ghost use Rattle.std.specs.Prelude.{◌≡◌, ◌↔◌, ℕ, ◌<◌, true, All, List, None};
ghost use Rattle.pm_header.specs.declared.header.Header.{Header};
ghost use Rattle.pm_objects.specs.declared.pool.PoolView.{PoolView};
ghost use Rattle.pm_image.specs.HeapFaults.{heap_fault};
ghost use Rattle.solo_view.specs.declared.occ.Occ.{Occ};
ghost use Rattle.solo_view.specs.Occupancy.{is_taken};
ghost use Rattle.solo_world.specs.Heap.{IsOcc};
ghost use Rattle.solo_crash.specs.Held.{HoldsPool};
ghost use Rattle.solo_crash.specs.NewObjects.{FreesChunksBlock, FreesRunBlock, MakesChunksObject, MakesRunObject};
ghost use Rattle.solo_crash.specs.Publishing.{AreInOrder, CanPublish, HaveTheirObjects, Published, published};
ghost use Rattle.solo_crash.specs.Taken.{IsBlockBit, IsChunkBit, TakenBehindAll, TakesLess, TakesMore};

/// A law: what the pool's words say is taken follows the blocks. Where a block of a run, or whole chunks, become a new object's, their bits of
/// the occupancy words are taken besides; where they are freed these bits alone are taken no more. So it is, in turn, of all that is published at
/// once. No code runs.
pub fn what_is_taken_follows_the_blocks()
    ensures block { (w v : ℕ → ℕ) (lanes zones c lines index kind : ℕ) (bytes : List ℕ)
        → heap_fault w lanes zones ≡ None → MakesRunObject w v lanes zones c lines index kind bytes
        → TakesMore w v lanes zones (IsBlockBit lanes c index) }
    ensures chunks { (w v : ℕ → ℕ) (lanes zones c chunks kind : ℕ) (bytes : List ℕ)
        → heap_fault w lanes zones ≡ None → MakesChunksObject w v lanes zones c chunks kind bytes
        → TakesMore w v lanes zones (IsChunkBit c chunks) }
    ensures freed_block { (w v : ℕ → ℕ) (lanes zones c lines index : ℕ)
        → heap_fault w lanes zones ≡ None → FreesRunBlock w v lanes zones c lines index
        → TakesLess w v lanes zones (IsBlockBit lanes c index) }
    ensures freed_chunks { (w v : ℕ → ℕ) (lanes zones c chunks : ℕ)
        → heap_fault w lanes zones ≡ None → FreesChunksBlock w v lanes zones c chunks
        → TakesLess w v lanes zones (IsChunkBit c chunks) }
    ensures all { (w : ℕ → ℕ) (lanes zones : ℕ) (header : Header) (pool : PoolView) (steps : List Published) (at : Occ) (bit : ℕ)
        → HoldsPool w lanes zones header pool → All (CanPublish w lanes zones) steps → AreInOrder lanes steps → HaveTheirObjects w lanes steps
        → IsOcc lanes zones at → bit < 64
        → (is_taken (published lanes steps w) lanes at bit ≡ true) ↔ TakenBehindAll lanes steps at bit (is_taken w lanes at bit ≡ true) }
{}
