ghost use Rattle.std.specs.Prelude.{◌≡◌, ℕ, ◌^◌, ◌<◌, ◌≤◌, ◌==◌, ◌⊎◌, if◌then◌else◌, List, length, All, Some, slice_get};
ghost use Rattle.std.specs.Int.{bit_at};
ghost use Rattle.solo_view.specs.declared.change.Change.{Change};
ghost use Rattle.solo_view.specs.Bits.{all_bits};
ghost use Rattle.solo_view.specs.Changes.{IsFormed, store_change, or_change, and_change, taken_back, changes_of};
ghost use Rattle.solo_view.specs.Survivors.{survivor, FoundBit, FoundWord};

/// A law of single changes: what a call makes is formed, and taken back it gives the bits that it is of what it found there, and leaves
/// the others. No code runs.
pub fn changes_are_taken_back()
    ensures of_store { (w old x : ℕ) → old < 2 ^ 64 → x < 2 ^ 64 → IsFormed (store_change w old x) }
    ensures of_or { (w bits found : ℕ) → bits < 2 ^ 64 → IsFormed (or_change w bits found) }
    ensures of_and { (w bits found : ℕ) → IsFormed (and_change w bits found) }
    ensures bit { (c : Change) (word i : ℕ) → IsFormed c → i < 64
        → bit_at (taken_back c word) i
        ≡ (if bit_at c.mask i == 1 then bit_at c.old i else bit_at word i) }
    ensures whole { (c : Change) (word : ℕ) → c.mask ≡ all_bits → taken_back c word ≡ c.old }
{}

/// A law of what is left of a word: where all of a lane's changes of it are kept the word stays; else the first that is not kept, if it is of
/// all bits, gives what it found. So a word whose changes are all of all bits is as it is, or as one of them found it; and each bit is as
/// it is, or as one of the changes that are of the bit found it. No code runs.
pub fn survivors_are_found()
    ensures kept { (changes : List Change) (w kept x : ℕ)
        → length (changes_of w changes) ≤ kept → survivor kept changes w x ≡ x }
    ensures lost { (changes : List Change) (w kept x : ℕ) (c : Change)
        → slice_get (changes_of w changes) kept ≡ Some c → c.mask ≡ all_bits
        → survivor kept changes w x ≡ c.old }
    ensures whole { (changes : List Change) (w kept x : ℕ)
        → All (λ c. c.mask ≡ all_bits) (changes_of w changes)
        → (survivor kept changes w x ≡ x) ⊎ FoundWord (survivor kept changes w x) (changes_of w changes) }
    ensures bit { (changes : List Change) (w kept x i : ℕ) → All IsFormed changes → i < 64
        → (bit_at (survivor kept changes w x) i ≡ bit_at x i)
        ⊎ FoundBit i (survivor kept changes w x) (changes_of w changes) }
{}
