ghost use Rattle.std.specs.Prelude.{◌≡◌, ℕ, ◌+◌, ◌*◌, ◌/◌, ◌^◌, ◌<◌, ◌⊎◌, ◌==◌, true, false, None, List, length, slice_index, slice_index_or, All, Any, Contains};
ghost use Rattle.std.specs.List.{list_any};
ghost use Rattle.std.specs.Int.{bit_at};
ghost use Rattle.pm_layout.specs.Chunks.{words_of};
ghost use Rattle.pm_view.specs.declared.change.Change.{Change};
ghost use Rattle.pm_view.specs.Changes.{IsFormed};
ghost use Rattle.pm_view.specs.declared.occ.Occ.TheVariants.{Run};
ghost use Rattle.pm_view.specs.Claims.{reads, holds};
ghost use Rattle.pm_view.specs.Counts.{HasRoom, FlushesSome, DropsSome};
ghost use Rattle.pm_view.specs.LockWords.{reader_bit};
ghost use Rattle.pm_view.specs.Steps.Step.{NumberSeen};
ghost use Rattle.pm_view.specs.View.{View, Constants, idle};
ghost use Rattle.pm_memory.specs.Changes.{changes_of, CanAdd, CanFlush, CanDrain};
ghost use Rattle.pm_memory.specs.Solo.{Solo, Sees, HasWord, opened, opened_with};
ghost use Rattle.pm_memory.specs.Survivors.{Survives, FoundBit, IsTakenFrom};

/// A law: the memory of a pool's words, before its first call, may be seen as the view of lane 0
/// of which nothing was asked, where one lane runs. So what `LaneMem` promises of each view is
/// said of some. No code runs.
pub fn opened_memory_is_seen()
    ensures given { (words runs zones : List ℕ) (fixed : Constants) (generation : ℕ)
        → fixed.lane ≡ 0 → fixed.lanes ≡ 1 → length words ≡ words_of fixed.shape
        → length runs ≡ length words / 512 → length zones ≡ 32
        → Sees (opened_with words fixed.stop runs zones) (idle fixed generation) }
    ensures clear { (words : List ℕ) (fixed : Constants) (generation : ℕ)
        → fixed.lane ≡ 0 → fixed.lanes ≡ 1 → length words ≡ words_of fixed.shape
        → Sees (opened words fixed.stop) (idle fixed generation) }
{}

/// A law of images, whatever the choice and however many lanes: each bit of a word is as it is, or
/// as one of the undrained changes of the word that are of the bit found it; a word that no lane
/// has an undrained change of is as it is. No code runs.
pub fn images_are_found()
    ensures bit { (words image : List ℕ) (lanes : List (List Change)) (w i : ℕ)
        → Survives words lanes image → All (All IsFormed) lanes → w < length words → i < 64
        → (bit_at (slice_index image w) i ≡ bit_at (slice_index words w) i)
        ⊎ Any (λ changes. FoundBit i (slice_index image w) (changes_of w changes)) lanes }
    ensures untouched { (words image : List ℕ) (lanes : List (List Change)) (w : ℕ)
        → Survives words lanes image
        → All (λ changes. length (changes_of w changes) ≡ 0) lanes → w < length words
        → slice_index image w ≡ slice_index words w }
{}

/// A law of images: each word is the present one with some of the lanes' undrained changes of it
/// taken back. No code runs.
pub fn survivors_lose_changes()
    ensures { (words image : List ℕ) (lanes : List (List Change)) (w : ℕ)
        → Survives words lanes image → w < length words
        → IsTakenFrom lanes w (slice_index words w) (slice_index image w) }
{}

/// A law: what a view allows of its own, the memory that is seen as it can do: words, lines, zones
/// and pages of the pool are there; room for a change, a flush and a drain that are not idle, and
/// locks that are free or read, are as the view says; and so is the counter that an open call saw
/// below the limit. No code runs.
pub fn seen_memory_can()
    ensures word { (m : Solo) (v : View) (w : ℕ)
        → Sees m v → w < words_of v.fixed.shape → w < length m.words }
    ensures room { (m : Solo) (v : View) → Sees m v → HasRoom v.changes → CanAdd m.changes }
    ensures flush { (m : Solo) (v : View) (line : ℕ)
        → Sees m v → FlushesSome line v.changes → CanFlush line m.changes }
    ensures drain { (m : Solo) (v : View) → Sees m v → DropsSome v.changes → CanDrain m.changes }
    ensures line { (m : Solo) (v : View) (line : ℕ)
        → Sees m v → line < words_of v.fixed.shape / 8 → line < length m.locks }
    ensures free { (m : Solo) (v : View) (line : ℕ)
        → Sees m v → line < words_of v.fixed.shape / 8 → holds v.claims line ≡ false
        → slice_index m.locks line ≡ 0 }
    ensures read { (m : Solo) (v : View) (line : ℕ)
        → Sees m v → line < words_of v.fixed.shape / 8 → reads v.claims line ≡ true
        → slice_index m.locks line ≡ reader_bit 0 }
    ensures zone { (m : Solo) (v : View) (zone : ℕ)
        → Sees m v → zone < 32 → list_any (λ other. other == zone) v.zones ≡ false
        → slice_index_or m.zone_locks zone false ≡ false }
    ensures page { (m : Solo) (v : View) (page : ℕ)
        → Sees m v → page < words_of v.fixed.shape / 512
        → HasWord m.runs m.zones (Run (4096 * page)) }
    ensures number { (m : Solo) (v : View) (n : ℕ)
        → Sees m v → v.number ≡ None → Contains v.seen (NumberSeen n) → n < 2 ^ 62
        → m.number < 2 ^ 62 + 32 }
{}
