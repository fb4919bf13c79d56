ghost use Rattle.std.specs.Prelude.{◌≡◌, ◌<◌, ◌≤◌, ℕ, List, length, None};
ghost use Rattle.pm_objects.specs.Pool.{IsPool};
ghost use Rattle.pm_objects.specs.declared.pool.PoolView.{PoolView};
ghost use Rattle.pm_image.specs.declared.block.Block.{Block};
ghost use Rattle.pm_image.specs.declared.fault.ImageFault.{ImageFault};
ghost use Rattle.pm_image.specs.Logs.{recovered, recovered_at};
ghost use Rattle.pm_image.specs.Locality.{AgreeFor};
ghost use Rattle.pm_image.specs.HeapFaults.{heap_fault};
ghost use Rattle.pm_image.specs.Means.{IsImageFault, IsMeaning};
ghost use Rattle.pm_image.specs.Reads.{AgreeInMeaning, AgreeOn, IsHeapWord, MeansAsMuch, Reads, ReadsBlock, SameContents, SameHeap};

/// A law: a recovered word depends on that word of the image and on the lanes' areas alone. No code runs.
pub fn recovered_words_are_local()
    ensures { (one other : List ℕ) (lanes word : ℕ) → AgreeFor one other lanes word → recovered one lanes word ≡ recovered other lanes word }
{}

/// A law: the recovered word of a place in the image is what recovery gives for that word. No code runs.
pub fn recovered_words_in_place()
    ensures { (image : List ℕ) (lanes i : ℕ) → i < length image → recovered_at image lanes i ≡ recovered image lanes i }
{}

/// A law: what stands in a block depends on the words of its header line and of its bytes alone. No code runs.
pub fn contents_are_local()
    ensures { (w v : ℕ → ℕ) (block : Block) → AgreeOn (ReadsBlock w block) w v → SameContents w v block }
{}

/// A law: the blocks, the heap's fault and the pool depend on the words that the meaning reads alone. No code runs.
pub fn heaps_are_local()
    ensures { (w v : ℕ → ℕ) (lanes zones : ℕ) → AgreeOn (Reads w lanes zones) w v → SameHeap w v lanes zones }
{}

/// A law: two images of the same shape, with the same header pairs, no fault in their logs and the same recovered words where
/// the first one's meaning reads them, mean the same pool, or have the same first fault. No code runs.
pub fn meanings_are_local()
    ensures { (one other : List ℕ) (lanes zones : ℕ) → AgreeInMeaning one other lanes zones → MeansAsMuch one other }
{}

/// A law: where the heap has no fault, its meaning reads the root's word and words of the zones: none of a lane's area, and
/// none outside the pool. No code runs.
pub fn meanings_read_the_heap()
    ensures { (w : ℕ → ℕ) (lanes zones i : ℕ) → heap_fault w lanes zones ≡ None → Reads w lanes zones i → IsHeapWord lanes zones i }
{}

/// A law: where words agree with others on what these others' meaning reads, the others agree with them on what their own reads. No code
/// runs.
pub fn agreement_goes_back()
    ensures { (w v : ℕ → ℕ) (lanes zones : ℕ) → AgreeOn (Reads w lanes zones) w v → AgreeOn (Reads v lanes zones) v w }
{}

/// A law: an image has one meaning at most, and one fault at most, and not both. No code runs.
pub fn one_meaning_per_image()
    ensures pools { (image : List ℕ) (pool other : PoolView) → IsMeaning image pool → IsMeaning image other → pool ≡ other }
    ensures faults { (image : List ℕ) (found other : ImageFault) → IsImageFault image found → IsImageFault image other → found ≡ other }
    ensures not_both { (image : List ℕ) (pool : PoolView) (found : ImageFault) → IsMeaning image pool → ¬ IsImageFault image found }
{}

/// A law: what an image means is a pool: its objects are a finite map in rising offsets, no two blocks overlap, and the root is there. No
/// code runs.
pub fn meanings_are_pools()
    ensures { (image : List ℕ) (pool : PoolView) → IsMeaning image pool → IsPool pool }
{}
