ghost use Rattle.std.specs.Prelude.{◌≡◌, ℕ, ◌+◌, ◌*◌, ◌≤◌, List, [], Option, length};
ghost use Rattle.pm_objects.specs.declared.calls.Operation.{Operation};
ghost use Rattle.pm_objects.specs.declared.history.Value.{Value};
ghost use Rattle.pm_objects.specs.declared.ids.Oid.{Oid};
ghost use Rattle.pm_record.specs.declared.redo.Redo.{Redo};
ghost use Rattle.solo_undo.specs.Spans.{plan_of, words_in};
ghost use Rattle.solo_view.specs.Counts.{stores_among};
ghost use Rattle.solo_view.specs.View.{View};
ghost use Rattle.solo_world.specs.declared.lane.Span.{Span};
ghost use Rattle.solo_tx.specs.Ranges.{adds_range, reads_range, writes_range};
ghost use Rattle.solo_tx.specs.Sequences.{commits, gives_up, publishes, word_count};

/// A law: how many stores the calls of a transaction make, whatever the view. A range that is recorded makes eight for each of its records,
/// and has at most as many records as words; a write makes one for each word that it covers, and a read none; a commit makes one at most where
/// nothing was published; what publishes makes three for each of its entries and for the one that ends the generation, and two of the seal; and
/// a call that is given up one for each word of its records, and one. No code runs.
pub fn a_call_makes_few_stores()
    ensures adds { (spans : List Span) (id : Oid) (off len : ℕ) (v : View) → stores_among (adds_range spans id off len v) ≡ 8 * length (plan_of spans (id.off + off) len) }
    ensures records { (spans : List Span) (place len : ℕ) → length (plan_of spans place len) ≤ word_count place len }
    ensures writes { (id : Oid) (off : ℕ) (bytes : List ℕ) (v : View) → stores_among (writes_range id off bytes v) ≡ word_count (id.off + off) (length bytes) }
    ensures reads { (id : Oid) (off len : ℕ) (bytes : List ℕ) (v : View) → stores_among (reads_range id off len bytes v) ≡ 0 }
    ensures commits { (spans : List Span) (n : ℕ) (v : View) → stores_among (commits spans [] n v) ≤ 1 }
    ensures performs { (spans : List Span) (entries : List Redo) (n : ℕ) (v : View) → 1 ≤ length entries → stores_among (commits spans entries n v) ≡ 3 * (length entries + 1) + 2 }
    ensures publishes { (entries : List Redo) (operation : Operation) (n : ℕ) (v : View) → stores_among (publishes entries operation n v) ≡ 3 * (length entries + 1) + 2 }
    ensures gives_up { (spans : List Span) (operation : Operation) (reply : Option Value) (n : ℕ) (v : View)
        → stores_among (gives_up spans operation reply n v) ≤ length (words_in spans) + 1 }
{}
