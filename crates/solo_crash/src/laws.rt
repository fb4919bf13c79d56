ghost use Rattle.std.specs.Prelude.{◌≡◌, ◌≢◌, ◌↔◌, ℕ, ◌+◌, ◌*◌, ◌/◌, ◌%◌, ◌<◌, ◌≤◌, List, [], ◌∷◌, take, drop, map, length, slice_index, Contains, IsSome, None, Some};
ghost use Rattle.pm_header.specs.declared.header.Header.{Header};
ghost use Rattle.pm_words.specs.Words.{bytes_of};
ghost use Rattle.pm_objects.specs.Pool.{object_at};
ghost use Rattle.pm_objects.specs.declared.pool.Object.{Object};
ghost use Rattle.pm_objects.specs.declared.pool.PoolView.{PoolView};
ghost use Rattle.pm_image.specs.declared.block.Block.{Block};
ghost use Rattle.pm_image.specs.Blocks.{blocks, pool_words};
ghost use Rattle.pm_image.specs.Contents.{bytes_in, offset_in, size_in};
ghost use Rattle.pm_image.specs.HeapFaults.{heap_fault};
ghost use Rattle.pm_image.specs.Means.{IsMeaning};
ghost use Rattle.pm_image.specs.Reads.{IsHeapWord};
ghost use Rattle.solo_model.specs.Bytes.{bytes_at, covered_words, put_object};
ghost use Rattle.solo_view.specs.Blocks.{block_at};
ghost use Rattle.solo_crash.specs.Held.{HoldsPool, HoldsImage, IsBlockOf, IsObjectAt};
ghost use Rattle.solo_crash.specs.Lines.{AgreeAtLine};
ghost use Rattle.solo_crash.specs.Writes.{IsWritten, KeepsOthers, WritesObject, words_written};

/// A law: an image means a pool exactly where it has a header of its shape, no fault in its logs, and recovered words that hold the
/// pool. No code runs.
pub fn images_hold_their_pools()
    ensures meaning { (image : List ℕ) (pool : PoolView) (means : IsMeaning image pool)
        → HoldsImage image means.lanes means.zones means.header pool }
    ensures held { (image : List ℕ) (lanes zones : ℕ) (header : Header) (pool : PoolView)
        → HoldsImage image lanes zones header pool → IsMeaning image pool }
{}

/// A law: words hold the same pool as others that are theirs at the root's place and in the zones, whatever stands elsewhere. No code runs.
pub fn a_pool_is_held_by_heap_words()
    ensures { (w v : ℕ → ℕ) (lanes zones : ℕ) (header : Header) (pool : PoolView)
        → HoldsPool w lanes zones header pool → ((i : ℕ) → IsHeapWord lanes zones i → v i ≡ w i)
        → HoldsPool v lanes zones header pool }
{}

/// A law: words that differ only where one object has its bytes hold the same pool, but for the bytes of that object; and they have the
/// same blocks. No code runs.
pub fn an_object_has_words_of_its_own()
    ensures pool { (w v : ℕ → ℕ) (lanes zones : ℕ) (header : Header) (pool : PoolView) (block : Block)
        → HoldsPool w lanes zones header pool → Contains (blocks w lanes zones) block → KeepsOthers w v block
        → HoldsPool v lanes zones header (record pool { objects = put_object (offset_in block) 0 (bytes_in v block) pool.objects }) }
    ensures blocks { (w v : ℕ → ℕ) (lanes zones : ℕ) (block : Block)
        → heap_fault w lanes zones ≡ None → Contains (blocks w lanes zones) block → KeepsOthers w v block
        → blocks v lanes zones ≡ blocks w lanes zones }
    ensures sizes { (w v : ℕ → ℕ) (lanes zones : ℕ) (block other : Block)
        → heap_fault w lanes zones ≡ None → Contains (blocks w lanes zones) block → KeepsOthers w v block
        → Contains (blocks w lanes zones) other → size_in v other ≡ size_in w other }
{}

/// A law: the words after bytes are written are those of the function, so each write has its words, and no others. No code runs.
pub fn each_write_has_its_words()
    ensures written { (w : ℕ → ℕ) (place : ℕ) (bytes : List ℕ) → IsWritten w (words_written place bytes w) place bytes }
    ensures only { (w v : ℕ → ℕ) (place : ℕ) (bytes : List ℕ) → IsWritten w v place bytes
        → (i : ℕ) → v i ≡ words_written place bytes w i }
{}

/// A law: bytes that are written inside an object change those bytes of it, and nothing else of the pool. No code runs.
pub fn a_write_changes_one_object()
    ensures pool { (w v : ℕ → ℕ) (lanes zones at : ℕ) (header : Header) (pool : PoolView) (block : Block) (bytes : List ℕ)
        → HoldsPool w lanes zones header pool → WritesObject w v lanes zones block at bytes
        → HoldsPool v lanes zones header (record pool { objects = put_object (offset_in block) at bytes pool.objects }) }
    ensures others { (w v : ℕ → ℕ) (lanes zones at : ℕ) (block : Block) (bytes : List ℕ)
        → WritesObject w v lanes zones block at bytes → KeepsOthers w v block }
{}

/// A law: byte k of an object is byte k % 8 of the word that has it; and whoever reads the words that a range of an object covers finds the
/// range in their bytes. No code runs.
pub fn a_read_finds_the_bytes()
    ensures byte { (w : ℕ → ℕ) (lanes zones k : ℕ) (block : Block) → Contains (blocks w lanes zones) block → k < size_in w block
        → slice_index (bytes_in w block) k ≡ slice_index (bytes_of (w (block.place / 8 + 8 + k / 8) ∷ [])) (k % 8) }
    ensures range { (w : ℕ → ℕ) (lanes zones at len : ℕ) (block : Block) → Contains (blocks w lanes zones) block
        → at + len ≤ size_in w block
        → bytes_at at len (bytes_in w block) ≡ take len (drop (at % 8) (bytes_of (map w (covered_words (offset_in block + at) len)))) }
{}

/// A law: a word is among those that a range of bytes covers exactly where it has a byte of the range. No code runs.
pub fn covered_words_have_a_byte()
    ensures { (place len i : ℕ)
        → Contains (covered_words place len) i ↔ ((0 < len) × (8 * i < place + len) × (place < 8 * i + 8)) }
{}

/// A law: each block of the words has its object in the pool, and each object of the pool its block. No code runs.
pub fn a_block_is_an_object()
    ensures object { (w : ℕ → ℕ) (lanes zones : ℕ) (header : Header) (pool : PoolView) (block : Block)
        → HoldsPool w lanes zones header pool → Contains (blocks w lanes zones) block
        → IsObjectAt w lanes zones pool.objects block }
    ensures block { (w : ℕ → ℕ) (lanes zones off : ℕ) (header : Header) (pool : PoolView) (object : Object)
        → HoldsPool w lanes zones header pool → object_at pool.objects off ≡ Some object
        → IsBlockOf w lanes zones off object }
{}

/// A law: the pool's root is what the root's word says, none where that is 0, and an object is there. No code runs.
pub fn the_root_is_its_word()
    ensures none { (w : ℕ → ℕ) (lanes zones : ℕ) (header : Header) (pool : PoolView)
        → HoldsPool w lanes zones header pool → (pool.root ≡ None) ↔ (w 64 ≡ 0) }
    ensures some { (w : ℕ → ℕ) (lanes zones off : ℕ) (header : Header) (pool : PoolView)
        → HoldsPool w lanes zones header pool → (pool.root ≡ Some off) ↔ ((w 64 ≡ off) × (off ≢ 0)) }
    ensures there { (w : ℕ → ℕ) (lanes zones : ℕ) (header : Header) (pool : PoolView)
        → HoldsPool w lanes zones header pool → w 64 ≢ 0 → IsSome (object_at pool.objects (w 64)) }
{}

/// A law: what a lane finds to begin at a line of the pool is a block of the words, with those lines; and each block is found at its
/// line. So it is for the list of all words, which has none past the pool's end. No code runs.
pub fn a_lane_finds_the_blocks()
    ensures found { (words : List ℕ) (w : ℕ → ℕ) (lanes zones line lines : ℕ)
        → heap_fault w lanes zones ≡ None → AgreeAtLine words w lanes line
        → 8 * line < pool_words lanes zones → block_at lanes words line ≡ Some lines
        → Contains (blocks w lanes zones) (record { place = 64 * line; lines = lines }) }
    ensures there { (words : List ℕ) (w : ℕ → ℕ) (lanes zones line lines : ℕ)
        → heap_fault w lanes zones ≡ None → AgreeAtLine words w lanes line
        → Contains (blocks w lanes zones) (record { place = 64 * line; lines = lines })
        → block_at lanes words line ≡ Some lines }
    ensures whole { (words : List ℕ) (lanes zones line lines : ℕ)
        → heap_fault (slice_index words) lanes zones ≡ None → length words ≤ pool_words lanes zones
        → (block_at lanes words line ≡ Some lines)
        ↔ Contains (blocks (slice_index words) lanes zones) (record { place = 64 * line; lines = lines }) }
    ensures within { (words : List ℕ) (lanes zones line lines : ℕ)
        → length words ≤ pool_words lanes zones → block_at lanes words line ≡ Some lines
        → 8 * line < pool_words lanes zones }
{}
