ghost use Rattle.std.specs.Prelude.{◌≡◌, ◌<◌, ◌%◌, ◌^◌, ℕ, List, length, IfSome, bit_and};
ghost use Rattle.pm_record.specs.Undo.{undo_words, undo_of};
ghost use Rattle.pm_record.specs.Redo.{redo_words, redo_of, redo_mask, applied};
ghost use Rattle.pm_record.specs.declared.undo.Undo.{Undo};
ghost use Rattle.pm_record.specs.declared.redo.Redo.{Redo};

/// What is spelled is found again, an entry applied twice is applied once, and entries with no common bit may come in
/// either order: laws over all records, entries and words. No code runs.
pub fn records_and_entries_agree()
    ensures undo_again { (u : Undo) → length u.old ≡ 4 → undo_of (undo_words u) ≡ Some u }
    ensures undo_spelled { (slot : List ℕ) → length slot ≡ 8 → IfSome (undo_of slot) (λ u. slot ≡ undo_words u) }
    ensures redo_again { (e : Redo) → e.place % 8 ≡ 0 → redo_of (redo_words e) ≡ Some e }
    ensures redo_spelled { (pair : List ℕ) → length pair ≡ 2 → IfSome (redo_of pair) (λ e. pair ≡ redo_words e) }
    ensures mask_fits { (e : Redo) → e.value < 2 ^ 64 → redo_mask e < 2 ^ 64 }
    ensures twice { (e : Redo) (word : ℕ) → applied e (applied e word) ≡ applied e word }
    ensures either_order { (a b : Redo) (word : ℕ) → a.value < 2 ^ 64 → b.value < 2 ^ 64 → word < 2 ^ 64
        → bit_and (redo_mask a) (redo_mask b) ≡ 0
        → applied a (applied b word) ≡ applied b (applied a word) }
{}
