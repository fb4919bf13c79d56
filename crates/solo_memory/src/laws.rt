ghost use Rattle.std.specs.Prelude.{◌≡◌, ℕ, ◌/◌, ◌^◌, ◌<◌, ◌≤◌, ◌⊎◌, Option, false, List, length, slice_index, All, Any};
ghost use Rattle.std.specs.Option.{ForSome};
ghost use Rattle.std.specs.Int.{bit_at};
ghost use Rattle.solo_view.specs.declared.change.Change.{Change};
ghost use Rattle.solo_view.specs.Changes.{IsFormed, changes_of};
ghost use Rattle.solo_view.specs.View.{View};
ghost use Rattle.solo_view.specs.Steps.Step.{TakeWrite, TakeRead, Raise, ZoneTry};
ghost use Rattle.solo_view.specs.Views.{after};
ghost use Rattle.solo_memory.specs.Solo.{Solo, Sees, opened, view_of};
ghost use Rattle.solo_memory.specs.Survivors.{Choice, IsImage};
ghost use Rattle.solo_view.specs.Survivors.{FoundBit};

/// A law: alone, a lane is refused no lock, since no memory of one lane may be seen as a view is after such a try. No code runs.
pub fn alone_no_lock_is_refused()
    ensures write { (m : Solo) (v : View) (line : ℕ) → Sees m (after v (TakeWrite line false)) → ⊥ }
    ensures read { (m : Solo) (v : View) (line : ℕ) → Sees m (after v (TakeRead line false)) → ⊥ }
    ensures raise { (m : Solo) (v : View) (line : ℕ) → Sees m (after v (Raise line false)) → ⊥ }
    ensures zone { (m : Solo) (v : View) (zone : ℕ) → Sees m (after v (ZoneTry zone false)) → ⊥ }
{}

/// A law: a memory that holds no lock, with all its occupancy words, and of which no number was drawn, may be seen, so that what `LaneMem` promises of each view is said of some. No code runs.
pub fn unlocked_memory_is_seen()
    ensures unlocked { (m : Solo)
        → length m.locks ≡ length m.words / 8 → All (λ word. word ≡ 0) m.locks → All (λ taken. taken ≡ false) m.zone_locks
        → m.calls < 2 ^ 64 → ForSome m.stop (λ stop. m.calls ≤ stop) → m.number ≡ 0
        → length m.runs ≡ length m.words / 512 → length m.zones ≡ 32 → length m.zone_locks ≡ 32
        → Sees m (view_of m) }
    ensures opened { (words : List ℕ) (stop : Option ℕ)
        → Sees (opened words stop) (view_of (opened words stop)) }
{}

/// A law of images, whatever the choice and however many lanes: each bit of a word is as it is, or as one of the undrained changes of the word
/// that are of the bit found it; a word that no lane has an undrained change of is as it is. No code runs.
pub fn images_are_found()
    ensures bit { (choice : Choice) (words image : List ℕ) (lanes : List (List Change)) (w i : ℕ)
        → IsImage choice words lanes image → All (All IsFormed) lanes → w < length words → i < 64
        → (bit_at (slice_index image w) i ≡ bit_at (slice_index words w) i)
        ⊎ Any (λ changes. FoundBit i (slice_index image w) (changes_of w changes)) lanes }
    ensures untouched { (choice : Choice) (words image : List ℕ) (lanes : List (List Change)) (w : ℕ)
        → IsImage choice words lanes image
        → All (λ changes. length (changes_of w changes) ≡ 0) lanes → w < length words
        → slice_index image w ≡ slice_index words w }
{}
