ghost use Rattle.std.specs.Prelude.{◌≡◌, ℕ, ◌+◌, ◌≤◌, Bool, false, List, [], ◌∷◌, Option, length, map, take};
ghost use Rattle.solo_crash.specs.Alone.{raises};
ghost use Rattle.solo_crash.specs.Leading.{Leads};
ghost use Rattle.pm_image.specs.Logs.{generation_word};
ghost use Rattle.pm_objects.specs.declared.calls.Operation.{Operation};
ghost use Rattle.pm_objects.specs.declared.history.Value.{Value};
ghost use Rattle.pm_objects.specs.declared.ids.Oid.{Oid};
ghost use Rattle.pm_objects.specs.declared.refusal.Refusal.{Refusal};
ghost use Rattle.pm_record.specs.declared.redo.Redo.{Redo};
ghost use Rattle.solo_undo.specs.Working.{IsWorking};
ghost use Rattle.solo_view.specs.Steps.{Step};
ghost use Rattle.solo_view.specs.Steps.Step.{Tell};
ghost use Rattle.solo_view.specs.View.{View};
ghost use Rattle.solo_view.specs.Views.{after_all};
ghost use Rattle.solo_world.specs.Lanes.{span_of};
ghost use Rattle.solo_world.specs.Opening.{Opening};
ghost use Rattle.solo_world.specs.Records.{generation_of};
ghost use Rattle.solo_world.specs.Sequences.{Ready};
ghost use Rattle.solo_world.specs.declared.lane.HeldLock.{HeldLock};
ghost use Rattle.solo_world.specs.declared.lane.Span.{Span};
ghost use Rattle.solo_lock.specs.Leading.{DrawEnded};
ghost use Rattle.solo_lock.specs.Locking.{gives, takes};
ghost use Rattle.solo_tx.specs.Generations.{AppliesNone, CanPublish, IsCommitting, IsGivingUp, IsOfOpening, IsPublishing, is_ending};
ghost use Rattle.solo_tx.specs.Learning.{Looks};
ghost use Rattle.solo_tx.specs.Ranges.{CanWrite, adds_range, reads_range, writes_range};
ghost use Rattle.solo_tx.specs.Publishing.{MayPublish};
ghost use Rattle.solo_tx.specs.Sequences.{commits, ends_call, gives_up, publishes, starts};

/// A law: lane 0 stores no generation as it begins a call, takes a lock, tells an operation, looks at words, records, writes and reads
/// ranges, is refused its begin, and gives its locks back; and where some steps store none, their first ones don't. The loads of looks lead
/// from the one view to the other. No code runs.
pub fn a_generation_lasts_while_a_call_works()
    ensures starts { (v : View) (n : ℕ) → v.lane ≡ 0 → raises (starts n v) ≡ 0 }
    ensures takes { (line : ℕ) (write won : Bool) → raises (takes line write won ∷ []) ≡ 0 }
    ensures tells { (operation : Operation) (reply : Option Value) → raises (Tell operation reply ∷ []) ≡ 0 }
    ensures looks { (n : ℕ) (v w : View) → Looks n v w → (steps : List Step) × (Leads v steps w × (raises steps ≡ 0)) }
    ensures adds { (v : View) (spans : List Span) (id : Oid) (off len : ℕ) → v.lane ≡ 0 → raises (adds_range spans id off len v) ≡ 0 }
    ensures writes { (v : View) (id : Oid) (off : ℕ) (bytes : List ℕ) → v.lane ≡ 0 → IsWorking v → CanWrite v id off (length bytes)
        → raises (writes_range id off bytes v) ≡ 0 }
    ensures reads { (v : View) (id : Oid) (off len : ℕ) (bytes : List ℕ) → v.lane ≡ 0 → raises (reads_range id off len bytes v) ≡ 0 }
    ensures ends { (v : View) (operation : Operation) (reply : Option Value) (n : ℕ) → v.lane ≡ 0 → raises (ends_call operation reply n v) ≡ 0 }
    ensures gives { (v : View) (locks : List HeldLock) → v.lane ≡ 0 → raises (gives locks v) ≡ 0 }
    ensures first_ones { (steps : List Step) (k : ℕ) → raises steps ≡ 0 → raises (take k steps) ≡ 0 }
{}

/// A law: a commit of lane 0 stores its generation once at most, and only once the number is drawn: with each first part of its steps no
/// generation is stored and the call is open, or has drawn its number; or one is stored, the number is drawn, and the log ends, or no call is
/// open. Where it publishes, and of a call that publishes alone, that store applies the last of its entries. No code runs.
pub fn a_commit_ends_one_generation()
    ensures commits { (v : View) (spans : List Span) (entries : List Redo) (n k : ℕ)
        → v.lane ≡ 0 → IsWorking v → spans ≡ map span_of v.log.records → (1 ≤ length entries → CanPublish v entries)
        → IsCommitting v entries (raises (take k (commits spans entries n v))) (after_all v (take k (commits spans entries n v))) }
    ensures publishes { (v : View) (entries : List Redo) (operation : Operation) (n k : ℕ) → v.lane ≡ 0 → MayPublish v entries
        → IsPublishing (length entries) (raises (take k (publishes entries operation n v))) (after_all v (take k (publishes entries operation n v))) }
{}

/// A law: a call of lane 0 that is given up stores its generation once at most, and only before the number is drawn: with each first part of
/// its steps no generation is stored and the call is open with its records, or is over and had none; or one is stored and the log ends, or
/// is empty with the call open, or no call is open. No code runs.
pub fn a_call_given_up_ends_one_generation()
    ensures { (v : View) (spans : List Span) (operation : Operation) (reply : Option Value) (n k : ℕ)
        → v.lane ≡ 0 → IsWorking v → v.log.entries ≡ [] → spans ≡ map span_of v.log.records
        → IsGivingUp v (raises (take k (gives_up spans operation reply n v))) (after_all v (take k (gives_up spans operation reply n v))) }
{}

/// A law: steps that lane 0 may make, none of which applies an entry, raise its generation by one with each store of it, and with nothing
/// else; whatever is applied, steps without such a store keep it, and so do looks. No code runs.
pub fn a_generation_rises_with_its_stores()
    ensures steps { (v : View) (steps : List Step) (k : ℕ) → v.lane ≡ 0 → Ready v steps → AppliesNone v steps
        → generation_of (after_all v (take k steps)) ≡ generation_of v + raises (take k steps) }
    ensures all { (v : View) (steps : List Step) → v.lane ≡ 0 → Ready v steps → AppliesNone v steps
        → generation_of (after_all v steps) ≡ generation_of v + raises steps }
    ensures unraised { (v : View) (steps : List Step) → v.lane ≡ 0 → Ready v steps → raises steps ≡ 0
        → generation_of (after_all v steps) ≡ generation_of v }
    ensures looks { (n : ℕ) (v w : View) → Looks n v w → generation_of w ≡ generation_of v }
{}

/// A law: from a view of lane 0 that has the opening's generation still, its log and its records are of the opening's generation as long as
/// none is stored, and wherever a commit, a call that publishes or one that is given up stops. No code runs.
pub fn a_first_generation_is_the_openings()
    ensures unraised { (o : Opening) (v : View) (steps : List Step) (k : ℕ)
        → v.lane ≡ 0 → is_ending v.log.phase ≡ false → generation_of v ≡ generation_word o.words 0 → Ready v steps
        → raises (take k steps) ≡ 0 → IsOfOpening o (after_all v (take k steps)) }
    ensures looks { (o : Opening) (n : ℕ) (v w : View) → Looks n v w → is_ending v.log.phase ≡ false
        → generation_of v ≡ generation_word o.words 0 → IsOfOpening o w }
    ensures commits { (o : Opening) (v : View) (spans : List Span) (entries : List Redo) (n k : ℕ)
        → v.lane ≡ 0 → IsWorking v → spans ≡ map span_of v.log.records → (1 ≤ length entries → CanPublish v entries) → generation_of v ≡ generation_word o.words 0
        → Ready v (commits spans entries n v) → IsOfOpening o (after_all v (take k (commits spans entries n v))) }
    ensures publishes { (o : Opening) (v : View) (entries : List Redo) (operation : Operation) (n k : ℕ)
        → v.lane ≡ 0 → MayPublish v entries → generation_of v ≡ generation_word o.words 0
        → IsOfOpening o (after_all v (take k (publishes entries operation n v))) }
    ensures gives_up { (o : Opening) (v : View) (spans : List Span) (operation : Operation) (reply : Option Value) (n k : ℕ)
        → v.lane ≡ 0 → IsWorking v → v.log.entries ≡ [] → spans ≡ map span_of v.log.records → generation_of v ≡ generation_word o.words 0
        → Ready v (gives_up spans operation reply n v) → IsOfOpening o (after_all v (take k (gives_up spans operation reply n v))) }
{}

/// A law: steps that the lane may make, each draw that of an ended call, lead from the view before them to the view after, and so do the
/// first of them. No code runs.
pub fn steps_that_may_be_made_lead_on()
    ensures all { (v : View) (steps : List Step) → Ready v steps → DrawEnded v steps → Leads v steps (after_all v steps) }
    ensures first_ones { (v : View) (steps : List Step) (k : ℕ) → Ready v steps → DrawEnded v steps
        → Leads v (take k steps) (after_all v (take k steps)) }
{}
