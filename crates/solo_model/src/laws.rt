ghost use Rattle.std.specs.Prelude.{◌≡◌, ◌≢◌, ◌↔◌, ℕ, Bool, true, false, not, IsTrue, IsSome, List, [], filter, replicate, MatchOption, Some, None};
ghost use Rattle.std.specs.List.Sorted.{IsStrictlyIncreasing};
ghost use Rattle.pm_objects.specs.Pool.{object_at, IsPool, Objects, offsets};
ghost use Rattle.pm_objects.specs.declared.calls.Operation.{Operation};
ghost use Rattle.pm_objects.specs.declared.calls.Operation.TheVariants as operation;
ghost use Rattle.pm_objects.specs.declared.history.TxErr.TheVariants as error;
ghost use Rattle.pm_objects.specs.declared.history.Value.TheVariants.{Offset, Refused};
ghost use Rattle.pm_objects.specs.declared.pool.Object.{Object};
ghost use Rattle.pm_objects.specs.declared.refusal.Refusal.{Refusal};
ghost use Rattle.solo_model.specs.Places.{can_begin, CanBegin};
ghost use Rattle.solo_model.specs.NewObjects.{with_object, without_object};
ghost use Rattle.solo_model.specs.Transaction.{Transaction, is_gone, is_new, released};
ghost use Rattle.solo_model.specs.Checks.{seeks_block};
ghost use Rattle.solo_model.specs.Answers.{allocated, changes_nothing, is_known, Answers, IsNewPlace, StandsOnceDone};
ghost use Rattle.solo_model.specs.Step.{State, Act, Step, TransactionStep};
ghost use Rattle.solo_model.specs.Framed.{MayBeLeftOut, IsUnwritten};
ghost use Rattle.solo_model.specs.Names.{Name, content, IsMap, keeps_blocks, AllKeepBlocks, writes, touches, IsFramedCall, Apart, ApartFromAll, Replays};
ghost use Rattle.solo_model.specs.Shown.{error_of};
ghost use Rattle.solo_model.specs.Alone.{refusal_alone, answer_alone};

/// A law: a call that keeps every block changes only what it writes, and goes alike from each state that has the same where it touches it. Of a
/// call that allocates or frees no names say what it reads: a new block overlaps none of the pool, and what is freed is in no list. No code runs.
pub fn calls_have_parts()
    ensures { (act : Act) → keeps_blocks act ≡ true → IsFramedCall act }
{}

/// A law: two neighbours that are apart may change places, with all replies kept. Both keep every block, since only of such calls names say what
/// they read. No code runs.
pub fn apart_calls_change_places()
    ensures { (a b : Act) (s t u : State) → keeps_blocks a ≡ true → keeps_blocks b ≡ true → IsMap s → Apart a b
        → Step s a t → Step t b u → (m : State) × Step s b m × Step m a u }
{}

/// A law: a call that is apart from all later ones may come last. All keep every block, since only of such calls names say what they read. No
/// code runs.
pub fn apart_calls_come_last()
    ensures { (a : Act) (calls : List Act) (s t u : State) → keeps_blocks a ≡ true → AllKeepBlocks calls → IsMap s → ApartFromAll a calls
        → Step s a t → Replays t calls u
        → (m : State) × Replays s calls m × Step m a u }
{}

/// A law: a call that came last stands as well before all those from which it is apart. All keep every block, since only of such calls names say
/// what they read. No code runs.
pub fn late_calls_stand_earlier()
    ensures { (a : Act) (calls : List Act) (s m u : State) → keeps_blocks a ≡ true → AllKeepBlocks calls → IsMap s → ApartFromAll a calls
        → Replays s calls m → Step m a u
        → (t : State) × Step s a t × Replays t calls u }
{}

/// A law: calls that are apart from all later ones may be left out; what they don't write ends as before. All keep every block, since only of
/// such calls names say what they read. No code runs.
pub fn apart_calls_may_be_left_out()
    ensures { (left_out : Act → Bool) (calls : List Act) (s u : State) → AllKeepBlocks calls → IsMap s
        → MayBeLeftOut writes touches left_out calls → Replays s calls u
        → (m : State) × Replays s (filter (λ a. not (left_out a)) calls) m
        × ((n : Name) → IsUnwritten writes left_out calls n → content m n ≡ content u n) }
{}

/// A law: a call's replies fix the next state. No code runs.
pub fn replies_fix_the_next_state()
    ensures { (act : Act) (s t u : State) → Step s act t → Step s act u → t ≡ u }
{}

/// A law: a state is known by what it has under each name. No code runs.
pub fn states_are_known_by_names()
    ensures { (s t : State) → IsMap s → IsMap t → ((n : Name) → content s n ≡ content t n)
        → s ≡ t }
{}

/// A law: a call leaves a pool a pool. No code runs.
pub fn calls_keep_pools()
    ensures { (act : Act) (s t : State) → Step s act t → IsPool s.pool → IsPool t.pool }
{}

/// A law: a transaction's error is told by its operations, and a call that is told as an error changed no pool. No code runs.
pub fn aborted_calls_change_nothing()
    ensures error { (act : Act) (s t : State) → (step : TransactionStep s act t) → step.last.error ≡ error_of act.told }
    ensures unchanged { (act : Act) (s t : State) → Step s act t → error_of act.told ≢ error.None → t.pool ≡ s.pool }
{}

/// A law: what a lane answers that runs alone is an answer, where its refusal is one that leaves a trace, and what is reserved may stand once it is
/// published. An allocation and a reservation answer with any place where the object may stand, or are so refused. No code runs.
pub fn answers_alone_are_answers()
    ensures answers { (spent full : Bool) (tx : Transaction) (op : Operation) → IsTrue (is_known op) → seeks_block op ≡ false → StandsOnceDone tx op
        → MatchOption (refusal_alone spent full tx op) (Unit {0}) (λ r. changes_nothing r ≡ false)
        → Answers tx op (answer_alone spent full tx op) }
    ensures offset { (spent full : Bool) (tx : Transaction) (size kind off : ℕ)
        → refusal_alone spent full tx (operation.Alloc size kind) ≡ None → IsNewPlace tx size off
        → Answers tx (operation.Alloc size kind) (Some (Offset off)) }
    ensures refused { (spent full : Bool) (tx : Transaction) (size kind : ℕ) (r : Refusal)
        → refusal_alone spent full tx (operation.Alloc size kind) ≡ Some r → changes_nothing r ≡ false
        → Answers tx (operation.Alloc size kind) (Some (Refused r)) }
    ensures place { (spent full : Bool) (tx : Transaction) (size kind off : ℕ)
        → refusal_alone spent full tx (operation.Reserve size kind) ≡ None → IsNewPlace tx size off
        → Answers tx (operation.Reserve size kind) (Some (Offset off)) }
    ensures unreserved { (spent full : Bool) (tx : Transaction) (size kind : ℕ) (r : Refusal)
        → refusal_alone spent full tx (operation.Reserve size kind) ≡ Some r → changes_nothing r ≡ false
        → Answers tx (operation.Reserve size kind) (Some (Refused r)) }
{}

/// A law: a block can begin before an offset exactly where whole chunks or a block of a run can. No code runs.
pub fn blocks_begin_at_chunks_and_in_runs()
    ensures { (lanes zones off : ℕ) → (can_begin lanes zones off ≡ true) ↔ CanBegin lanes zones off }
{}

/// A law: objects with one more, where none was, have it at its offset, and objects without one have none there; at each other offset they have
/// what was there, and they are in rising offsets still. No code runs.
pub fn objects_are_told_by_their_offsets()
    ensures there { (objects : Objects) (off : ℕ) (object : Object) → object_at objects off ≡ None
        → object_at (with_object off object objects) off ≡ Some object }
    ensures others { (objects : Objects) (off other : ℕ) (object : Object) → other ≢ off
        → object_at (with_object off object objects) other ≡ object_at objects other }
    ensures rising { (objects : Objects) (off : ℕ) (object : Object) → IsStrictlyIncreasing (offsets objects) → object_at objects off ≡ None
        → IsStrictlyIncreasing (offsets (with_object off object objects)) }
    ensures gone { (objects : Objects) (off : ℕ)
        → object_at (without_object off objects) off ≡ None }
    ensures others_stay { (objects : Objects) (off other : ℕ) → other ≢ off
        → object_at (without_object off objects) other ≡ object_at objects other }
    ensures rising_still { (objects : Objects) (off : ℕ) → IsStrictlyIncreasing (offsets objects)
        → IsStrictlyIncreasing (offsets (without_object off objects)) }
{}

/// A law: a transaction's objects are told by what it made and freed. After an allocation a new object stands at its offset, of zeros and with no
/// members, and is new; after a free none stands there, and what stood there is gone. At each other offset all is as before. No code runs.
pub fn made_and_freed_objects_are_told()
    ensures made { (tx : Transaction) (off size kind : ℕ) → object_at tx.pool.objects off ≡ None
        → object_at (allocated off size kind tx).pool.objects off ≡ Some (record { kind = kind; bytes = replicate size 0; members = [] }) }
    ensures made_alone { (tx : Transaction) (off size kind other : ℕ) → other ≢ off
        → object_at (allocated off size kind tx).pool.objects other ≡ object_at tx.pool.objects other }
    ensures made_is_new { (tx : Transaction) (off size kind : ℕ) → is_new (allocated off size kind tx) off ≡ true }
    ensures others_as_new { (tx : Transaction) (off size kind other : ℕ) → other ≢ off
        → is_new (allocated off size kind tx) other ≡ is_new tx other }
    ensures all_as_gone { (tx : Transaction) (off size kind other : ℕ) → is_gone (allocated off size kind tx) other ≡ is_gone tx other }
    ensures freed { (tx : Transaction) (off : ℕ) → object_at (released off tx).pool.objects off ≡ None }
    ensures freed_alone { (tx : Transaction) (off other : ℕ) → other ≢ off
        → object_at (released off tx).pool.objects other ≡ object_at tx.pool.objects other }
    ensures freed_is_gone { (tx : Transaction) (off : ℕ) → IsSome (object_at tx.pool.objects off) → is_gone (released off tx) off ≡ true }
    ensures others_as_gone { (tx : Transaction) (off other : ℕ) → other ≢ off → is_gone (released off tx) other ≡ is_gone tx other }
    ensures others_still_new { (tx : Transaction) (off other : ℕ) → other ≢ off → is_new (released off tx) other ≡ is_new tx other }
{}
