ghost use Rattle.std.specs.Prelude.{◌≡◌, ◌≢◌, ℕ, ◌+◌, ◌<◌, ◌≤◌, Contains, List, [], map, None, Some, Option, false, true};
ghost use Rattle.pm_header.specs.declared.header.Header.{Header};
ghost use Rattle.pm_objects.specs.declared.calls.Operation.{Operation};
ghost use Rattle.pm_objects.specs.declared.calls.Operation.TheVariants.{Abort, Commit, Free, Publish};
ghost use Rattle.pm_objects.specs.declared.calls.Want.{Want};
ghost use Rattle.pm_objects.specs.declared.history.TxErr.{TxErr};
ghost use Rattle.pm_objects.specs.declared.history.TxErr.TheVariants as error;
ghost use Rattle.pm_objects.specs.declared.history.Value.{Value};
ghost use Rattle.pm_objects.specs.declared.history.Value.TheVariants.{Refused};
ghost use Rattle.pm_objects.specs.declared.ids.Oid.{Oid};
ghost use Rattle.pm_objects.specs.declared.pool.PoolView.{PoolView};
ghost use Rattle.pm_objects.specs.declared.refusal.Refusal.{Refusal};
ghost use Rattle.pm_objects.specs.declared.refusal.Refusal.TheVariants as refusal;
ghost use Rattle.solo_model.specs.Answers.{error_for};
ghost use Rattle.solo_model.specs.Checks.{Range};
ghost use Rattle.solo_model.specs.declared.stage.Stage.{Stage};
ghost use Rattle.solo_model.specs.declared.stage.Stage.TheVariants as stage;
ghost use Rattle.solo_view.specs.View.{View};
ghost use Rattle.solo_world.specs.Records.{pool_entries};
ghost use Rattle.solo_crash.specs.CallBlocks.{IsOldIn, IsSameIn, MayPrecede, NewObject, blocks_in, is_freed_in, is_gone_in, is_new_in};
ghost use Rattle.solo_crash.specs.GivingUnused.{GivesUnused};
ghost use Rattle.solo_crash.specs.Held.{HoldsPool};
ghost use Rattle.solo_crash.specs.OnActions.{ChangesPending, IsPublishReasonIn, PublishesIn};
ghost use Rattle.solo_crash.specs.OpenCall.{IsBefore, IsCommitted, IsUnderWay, LieApart, MakesItsStep, Turns, WasAborted};
ghost use Rattle.solo_crash.specs.Operations.{AddsNewRange, AddsRange, AllocatesObject, BeginsCall, BeginsLevel, FreesFound, FreesMade, KeepsKnown, KeepsLog, KeepsWords, ReadsBytes, ReadsNewBytes, Refuses, RefusesAlloc, RefusesFree, RefusesGone, RefusesLevel, RefusesNewRange, TakesBack, Tells, TellsNothing, WritesBytes, WritesNewBytes};
ghost use Rattle.solo_crash.specs.Pending.{published_in};
ghost use Rattle.solo_crash.specs.Performing.{entry_for};
ghost use Rattle.solo_crash.specs.Reserved.{IsBorneOut};
ghost use Rattle.solo_crash.specs.Reserving.{HasReserved};

/// A law: a call under way, which may have made and freed objects, goes on with each operation on what it found and did not free, as the plain
/// model's transaction does: ranges recorded, written and read, further levels begun and ended, actions asked for. So it does where it publishes
/// all that is pending, with what is reserved as it stands: objects are freed and made, and words set, of what it made too. What it makes lies
/// apart from what a further level finds. No code runs.
pub fn a_call_under_way_goes_on()
    ensures begins { (v : View) (wants : List Want) → BeginsCall v wants → IsUnderWay v 1 stage.Work error.None }
    ensures records { (v next : View) (id : Oid) (off len level : ℕ) → 1 ≤ level
        → IsUnderWay v level stage.Work error.None → AddsRange v next id off len → IsOldIn v id.off → IsUnderWay next level stage.Work error.None }
    ensures writes { (v next : View) (id : Oid) (off level : ℕ) (bytes : List ℕ) → 1 ≤ level
        → IsUnderWay v level stage.Work error.None → WritesBytes v next id off bytes → IsOldIn v id.off → IsUnderWay next level stage.Work error.None }
    ensures reads { (v next : View) (id : Oid) (off len level : ℕ) → 1 ≤ level
        → IsUnderWay v level stage.Work error.None → ReadsBytes v next id off len → IsOldIn v id.off → IsUnderWay next level stage.Work error.None }
    ensures begins_further { (v next : View) (wants : List Want) (level : ℕ) → 1 ≤ level → level < 64
        → IsUnderWay v level stage.Work error.None → BeginsLevel v next wants → ((want : Want) → Contains wants want → IsOldIn v want.id.off) → LieApart next
        → IsUnderWay next (level + 1) stage.Work error.None }
    ensures ends_inner { (v next : View) (level : ℕ) → 1 ≤ level → IsUnderWay v (level + 1) stage.Work error.None
        → Tells v next Commit None → KeepsLog v next → KeepsWords v next → IsUnderWay next level stage.Work error.None }
    ensures pending { (v next : View) (op : Operation) (reply : Option Value) (level : ℕ) → 1 ≤ level
        → IsUnderWay v level stage.Work error.None → ChangesPending v next op reply → IsUnderWay next level stage.Work error.None }
    ensures publishes { (v next : View) (level : ℕ) → 1 ≤ level
        → IsUnderWay v level stage.Work error.None → HasReserved v → PublishesIn v next → IsUnderWay next level stage.Work error.None }
    ensures quietly { (v next : View) (level : ℕ) (at_stage : Stage) (e : TxErr) → IsUnderWay v level at_stage e
        → TellsNothing v next → KeepsLog v next → KeepsKnown v next → IsUnderWay next level at_stage e }
{}

/// A law: a call under way goes on with a new object, in a block that is nobody's, and with ranges of one that it made: they need no lock and
/// no record, and a write changes that object alone. No code runs.
pub fn a_call_under_way_makes_objects()
    ensures allocates { (v next : View) (n : NewObject) (level : ℕ) → 1 ≤ level
        → IsUnderWay v level stage.Work error.None → AllocatesObject v next n → IsUnderWay next level stage.Work error.None }
    ensures records { (v next : View) (id : Oid) (off len level : ℕ) → 1 ≤ level
        → IsUnderWay v level stage.Work error.None → AddsNewRange v next id off len → IsUnderWay next level stage.Work error.None }
    ensures writes { (v next : View) (id : Oid) (off level : ℕ) (bytes : List ℕ) → 1 ≤ level
        → IsUnderWay v level stage.Work error.None → WritesNewBytes v next id off bytes → IsUnderWay next level stage.Work error.None }
    ensures reads { (v next : View) (id : Oid) (off len level : ℕ) → 1 ≤ level
        → IsUnderWay v level stage.Work error.None → ReadsNewBytes v next id off len → IsUnderWay next level stage.Work error.None }
{}

/// A law: a call under way goes on where it frees an object: one that it found and holds for writing, and for which the log has room, or one
/// that it made, whose entry is taken back. The object is gone then, and what else there is stays. No code runs.
pub fn a_call_under_way_frees_objects()
    ensures found { (v next : View) (id : Oid) (level : ℕ) → 1 ≤ level
        → IsUnderWay v level stage.Work error.None → FreesFound v next id → IsUnderWay next level stage.Work error.None }
    ensures made { (v next : View) (id : Oid) (level : ℕ) → 1 ≤ level
        → IsUnderWay v level stage.Work error.None → FreesMade v next id → IsUnderWay next level stage.Work error.None }
    ensures is_gone { (v next : View) (id : Oid) → Tells v next (Free id) None → is_gone_in next id.off ≡ true }
    ensures others { (v next : View) (id : Oid) (off : ℕ) → Tells v next (Free id) None → off ≢ id.off → IsSameIn v next off }
{}

/// A law: where an operation of a call under way is refused for the first reason that the lane has, or an abort is asked for, the call is aborted
/// as the plain model's, and stays so while it is taken back. A range is of an object that the call did not make, nor free unless its lock is
/// missing; or of one that is gone, which the call has; or it passes the end of one that it made. No code runs.
pub fn a_call_under_way_is_aborted()
    ensures by_range { (v next : View) (op : Operation) (range : Range) (r : Refusal) (level : ℕ) → 1 ≤ level
        → IsUnderWay v level stage.Work error.None → Refuses v next op range r
        → (range.id.pool ≡ v.pool → is_new_in v range.id.off ≡ false) → (r ≢ refusal.NotLocked → is_freed_in v range.id.off ≡ false) → WasAborted next (error.Refused r) }
    ensures by_gone { (v next : View) (op : Operation) (range : Range) (level : ℕ) → 1 ≤ level
        → IsUnderWay v level stage.Work error.None → RefusesGone v next op range → WasAborted next (error.Refused refusal.NoObject) }
    ensures by_new_range { (v next : View) (op : Operation) (range : Range) (level : ℕ) → 1 ≤ level
        → IsUnderWay v level stage.Work error.None → RefusesNewRange v next op range → WasAborted next (error.Refused refusal.OutOfRange) }
    ensures by_begin { (v next : View) (level : ℕ) (wants : List Want) (r : Refusal) → 1 ≤ level
        → IsUnderWay v level stage.Work error.None → RefusesLevel v next level wants r
        → ((want : Want) → Contains wants want → IsOldIn v want.id.off) → WasAborted next (error.Refused r) }
    ensures by_publish { (v next : View) (r : Refusal) (level : ℕ) → 1 ≤ level
        → IsUnderWay v level stage.Work error.None → IsPublishReasonIn v r
        → Tells v next Publish (Some (Refused r)) → TakesBack v next → WasAborted next (error.Refused r) }
    ensures by_alloc { (v next : View) (size kind : ℕ) (r : Refusal) (level : ℕ) → 1 ≤ level
        → IsUnderWay v level stage.Work error.None → RefusesAlloc v next size kind r → WasAborted next (error.Refused r) }
    ensures by_free { (v next : View) (id : Oid) (r : Refusal) (level : ℕ) → 1 ≤ level
        → IsUnderWay v level stage.Work error.None → RefusesFree v next id r → WasAborted next (error.Refused r) }
    ensures asked { (v next : View) (errnum level : ℕ) → 1 ≤ level
        → IsUnderWay v level stage.Work error.None → Tells v next (Abort errnum) None → TakesBack v next → WasAborted next (error_for errnum) }
    ensures taken_back { (v next : View) (e : TxErr) → WasAborted v e → TellsNothing v next → TakesBack v next → WasAborted next e }
    ensures quietly { (v next : View) (e : TxErr) → WasAborted v e → TellsNothing v next → KeepsLog v next → KeepsKnown v next → WasAborted next e }
{}

/// A law: a call under way that commits its outermost level is committed, as the plain model's; and one that was aborted is a step of the plain
/// model that changes nothing, from each pool that may precede it. A committed call that has nothing that it made, freed nothing that it found, and
/// has an entry for each action that it published makes its step; and so does an aborted one with no record and no entry. No code runs.
pub fn a_call_under_way_ends()
    ensures committed { (v next : View) → IsUnderWay v 1 stage.Work error.None → Tells v next Commit None → next.log.records ≡ v.log.records → KeepsWords v next
        → IsCommitted next }
    ensures aborted { (v : View) (e : TxErr) → WasAborted v e → (w : ℕ → ℕ) (header : Header) (pool : PoolView)
        → HoldsPool w v.lanes v.zones header pool → v.pool ≡ header.id → IsBefore v w → MayPrecede pool v → Turns v pool pool }
    ensures makes_its_step { (v : View) → IsCommitted v → (blocks_in v).made ≡ [] → (blocks_in v).freed ≡ [] → pool_entries v ≡ map entry_for (published_in v)
        → MakesItsStep v }
    ensures aborted_makes_its_step { (v : View) (e : TxErr) → WasAborted v e → v.log.records ≡ [] → v.log.entries ≡ [] → MakesItsStep v }
{}

/// A law: where a lane gives back what it reserved and its call uses no more, and tells nothing, the call is under way as it was; what is reserved
/// stands, what the lane has bears out what the call told, and what may be before the call might be before. No code runs.
pub fn a_call_under_way_gives_back_what_it_leaves()
    ensures under_way { (v next : View) (level : ℕ) (at_stage : Stage) (e : TxErr) → GivesUnused v next → IsUnderWay v level at_stage e → IsUnderWay next level at_stage e }
    ensures reserved { (v next : View) → GivesUnused v next → HasReserved v → HasReserved next }
    ensures borne_out { (v next : View) → GivesUnused v next → IsBorneOut v → IsBorneOut next }
    ensures before { (v next : View) (w : ℕ → ℕ) → GivesUnused v next → IsBefore next w → IsBefore v w }
{}
