ghost use Rattle.std.specs.Prelude.{◌≡◌, ◌≢◌, ℕ, ◌+◌, ◌*◌, ◌<◌, ◌≤◌, true, false, Bool, List, [], ◌∷◌, ◌++◌, map, None};
ghost use Rattle.std.specs.List.Sorted.{IsStrictlyIncreasing};
ghost use Rattle.pm_header.specs.declared.header.Header.{Header};
ghost use Rattle.pm_objects.specs.declared.calls.Operation.{Operation};
ghost use Rattle.pm_objects.specs.declared.calls.Operation.TheVariants.{Abort, Commit};
ghost use Rattle.pm_objects.specs.declared.calls.Want.{Want};
ghost use Rattle.pm_objects.specs.declared.history.TxErr.{TxErr};
ghost use Rattle.pm_objects.specs.declared.history.TxErr.TheVariants as error;
ghost use Rattle.pm_objects.specs.declared.ids.Oid.{Oid};
ghost use Rattle.pm_objects.specs.declared.pool.PoolView.{PoolView};
ghost use Rattle.pm_objects.specs.declared.refusal.Refusal.{Refusal};
ghost use Rattle.solo_model.specs.declared.stage.Stage.{Stage};
ghost use Rattle.solo_model.specs.declared.stage.Stage.TheVariants as stage;
ghost use Rattle.solo_model.specs.Transaction.{Lock, Transaction, is_working, locked_all, resting};
ghost use Rattle.solo_model.specs.Checks.{Range};
ghost use Rattle.solo_model.specs.Answers.{Told as Answered, error_for};
ghost use Rattle.solo_model.specs.Actions.{Action, Pending, with_actions};
ghost use Rattle.solo_model.specs.Step.{RunsFrom};
ghost use Rattle.solo_view.specs.View.{View};
ghost use Rattle.solo_world.specs.History.{made_final};
ghost use Rattle.solo_world.specs.Records.{difference_of};
ghost use Rattle.solo_crash.specs.CallChanges.{ChangesOf};
ghost use Rattle.solo_crash.specs.HeapChanges.{HeapChange};
ghost use Rattle.solo_crash.specs.Held.{HoldsPool};
ghost use Rattle.solo_crash.specs.Locks.{AreSameLocks};
ghost use Rattle.solo_crash.specs.OpenCall.{CommitsTo, HasMade, IsBefore, IsGivenUp, IsOpen, IsWholeCall, RunsTo, Turns, lock_wanted, made_words};
ghost use Rattle.solo_crash.specs.Pending.{published_in};
ghost use Rattle.solo_crash.specs.Publishing.{all_pool_published, Published};
ghost use Rattle.solo_crash.specs.Publishing.Published.{Changes, Performs};
ghost use Rattle.solo_crash.specs.Operations.{AddsRange, BeginsCall, BeginsLevel, CommitsCall, KeepsKnown, KeepsLog, KeepsWords, ReadsBytes, Refuses, RefusesCall, RefusesLevel, TakesBack, Tells, TellsNothing, WritesBytes};

/// A law: the words that a call makes of those before it are what its difference makes of them. No code runs.
pub fn a_call_makes_its_difference()
    ensures { (v : View) (w : ℕ → ℕ) (i : ℕ) → made_final (difference_of v) i (w i) ≡ made_words v w i }
{}

/// A law: a call that commits its outermost level, with an entry for each action that it published, is whole: a step of the plain model, to the
/// pool that its words hold. No code runs.
pub fn a_commit_is_a_step()
    ensures { (v next : View) → IsOpen v 1 stage.Work error.None → CommitsCall v next → IsWholeCall next }
{}

/// A law: bytes that a lane writes into words of an object that it holds and has recorded are the plain model's write. No code runs.
pub fn a_write_changes_the_call()
    ensures { (v next : View) (id : Oid) (off level : ℕ) (bytes : List ℕ) → 1 ≤ level
        → IsOpen v level stage.Work error.None → WritesBytes v next id off bytes → IsOpen next level stage.Work error.None }
{}

/// A law: what a lane sees of an object that it holds is what the plain model reads. No code runs.
pub fn a_read_tells_the_bytes()
    ensures { (v next : View) (id : Oid) (off len level : ℕ) → 1 ≤ level
        → IsOpen v level stage.Work error.None → ReadsBytes v next id off len → IsOpen next level stage.Work error.None }
{}

/// A law: what a transaction came to by some operations, where it works no longer, is where they run to. No code runs.
pub fn a_transaction_that_rests_has_run()
    ensures { (pool : PoolView) (actions : Pending) (told : List Answered) (last : Transaction) → RunsTo pool actions told last
        → is_working last.stage ≡ false → told ≢ [] → RunsFrom (resting pool actions) told last }
{}

/// A law: a lane that began a call, with the locks that it wanted, has it open at the first level. No code runs.
pub fn a_begin_opens()
    ensures { (v : View) (wants : List Want) → BeginsCall v wants → IsOpen v 1 stage.Work error.None }
{}

/// A law: a range whose new words a lane has recorded as they were is the plain model's, with as many records. No code runs.
pub fn a_record_keeps_the_call()
    ensures { (v next : View) (id : Oid) (off len level : ℕ) → 1 ≤ level
        → IsOpen v level stage.Work error.None → AddsRange v next id off len → IsOpen next level stage.Work error.None }
{}

/// A law: an operation on a range that a lane refuses for the first reason that it has is refused by the plain model so, and the call is
/// given up. No code runs.
pub fn a_refusal_gives_up()
    ensures { (v next : View) (op : Operation) (range : Range) (r : Refusal) (level : ℕ) → 1 ≤ level
        → IsOpen v level stage.Work error.None → Refuses v next op range r → IsGivenUp next (error.Refused r) }
{}

/// A law: an abort that is asked for gives up the call. No code runs.
pub fn an_abort_gives_up()
    ensures { (v next : View) (errnum level : ℕ) → 1 ≤ level → IsOpen v level stage.Work error.None
        → Tells v next (Abort errnum) None → TakesBack v next → IsGivenUp next (error_for errnum) }
{}

/// A law: a call that was given up is a step of the plain model that changes nothing. No code runs.
pub fn a_call_given_up_changes_nothing()
    ensures { (v : View) (e : TxErr) → IsGivenUp v e → (w : ℕ → ℕ) (header : Header) (pool : PoolView)
        → HoldsPool w v.lanes v.zones header pool → v.pool ≡ header.id → IsBefore v w
        → Turns v pool pool }
{}

/// A law: wants of rising offsets are each a lock of its own, in their order. No code runs.
pub fn rising_wants_are_locks()
    ensures { (wants : List Want) → IsStrictlyIncreasing (map (λ (want : Want). want.id.off) wants)
        → locked_all wants [] ≡ map lock_wanted wants }
{}

/// A law: a lane that began a further level, with the locks that it wanted, has the call open one level deeper. No code runs.
pub fn a_further_begin_opens()
    ensures { (v next : View) (wants : List Want) (level : ℕ) → 1 ≤ level → level < 64
        → IsOpen v level stage.Work error.None → BeginsLevel v next wants → IsOpen next (level + 1) stage.Work error.None }
{}

/// A law: the commit of an inner level leaves the call open one level less deep. No code runs.
pub fn an_inner_commit_keeps_the_call()
    ensures { (v next : View) (level : ℕ) → 1 ≤ level → IsOpen v (level + 1) stage.Work error.None
        → Tells v next Commit None → KeepsLog v next → KeepsWords v next → IsOpen next level stage.Work error.None }
{}

/// A law: a begin that a lane refuses, of a call or of a further level, is refused by the plain model for the same reason, and the call is
/// given up. No code runs.
pub fn a_refused_begin_gives_up()
    ensures call { (v : View) (wants : List Want) (r : Refusal) → RefusesCall v wants r → IsGivenUp v (error.Refused r) }
    ensures level { (v next : View) (level : ℕ) (wants : List Want) (r : Refusal) → 1 ≤ level
        → IsOpen v level stage.Work error.None → RefusesLevel v next level wants r → IsGivenUp next (error.Refused r) }
{}

/// A law: while nothing is told, recorded or changed but in the lane's own area, a call stays what it came to. A call that was given up does
/// while it is taken back. No code runs.
pub fn a_call_stays_while_nothing_is_told()
    ensures is_open { (v next : View) (level : ℕ) (at_stage : Stage) (e : TxErr) → IsOpen v level at_stage e
        → TellsNothing v next → KeepsLog v next → KeepsWords v next → IsOpen next level at_stage e }
    ensures whole { (v next : View) → IsWholeCall v
        → TellsNothing v next → KeepsLog v next → KeepsWords v next → IsWholeCall next }
    ensures given_up { (v next : View) (e : TxErr) → IsGivenUp v e
        → TellsNothing v next → TakesBack v next → IsGivenUp next e }
{}

/// A law: while nothing is told or recorded, and no word that the lane knew or recorded changed but in its own area, a call stays what it
/// came to. So it does while the lane looks at words for the first time. No code runs.
pub fn a_call_stays_while_its_lane_learns()
    ensures is_open { (v next : View) (level : ℕ) (at_stage : Stage) (e : TxErr) → IsOpen v level at_stage e
        → TellsNothing v next → KeepsLog v next → KeepsKnown v next → IsOpen next level at_stage e }
    ensures whole { (v next : View) → IsWholeCall v
        → TellsNothing v next → KeepsLog v next → KeepsKnown v next → IsWholeCall next }
    ensures given_up { (v next : View) (e : TxErr) → IsGivenUp v e
        → TellsNothing v next → KeepsLog v next → KeepsKnown v next → IsGivenUp next e }
{}

/// A law: which objects are locked, and by how many locks, does not depend on the order in which they are wanted: two neighbours may change
/// places, and the same wants over the same locks are the same. No code runs.
pub fn wants_may_change_places()
    ensures neighbours { (a b : Want) (wants : List Want) (locks : List Lock)
        → AreSameLocks (locked_all (a ∷ b ∷ wants) locks) (locked_all (b ∷ a ∷ wants) locks) }
    ensures alike { (wants : List Want) (locks others : List Lock) → AreSameLocks locks others
        → AreSameLocks (locked_all wants locks) (locked_all wants others) }
    ensures joined { (locks others more : List Lock) → AreSameLocks locks others → AreSameLocks others more
        → AreSameLocks locks more }
{}

/// A law: what a committed call publishes at once, its actions and then the changes of the heap that are its own, makes of the pool that its
/// words hold its transaction's copy with those actions performed. No code runs.
pub fn a_committed_pool_is_published()
    ensures { (v : View) (w : ℕ → ℕ) (header : Header) (pool : PoolView) (changes : List HeapChange) (to : CommitsTo v w header pool)
        → HasMade v → ChangesOf v v.lanes changes
        → all_pool_published v.lanes (map Performs (published_in v) ++ map Changes changes) to.base ≡ with_actions (published_in v) to.copy }
{}
