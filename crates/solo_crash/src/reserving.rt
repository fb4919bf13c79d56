ghost use Rattle.std.specs.Prelude.{◌≡◌, ℕ, ◌≤◌, List, [], None, Option};
ghost use Rattle.pm_objects.specs.declared.calls.Operation.{Operation};
ghost use Rattle.pm_objects.specs.declared.calls.Operation.TheVariants.{Publish};
ghost use Rattle.pm_objects.specs.declared.calls.Want.{Want};
ghost use Rattle.pm_objects.specs.declared.history.TxErr.TheVariants as error;
ghost use Rattle.pm_objects.specs.declared.history.Value.{Value};
ghost use Rattle.pm_objects.specs.declared.ids.Oid.{Oid};
ghost use Rattle.pm_objects.specs.declared.refusal.Refusal.{Refusal};
ghost use Rattle.solo_model.specs.declared.stage.Stage.TheVariants as stage;
ghost use Rattle.solo_view.specs.View.{View};
ghost use Rattle.solo_crash.specs.CallBlocks.{LeavesReserved, NewObject, blocks_behind, blocks_in, no_blocks};
ghost use Rattle.solo_crash.specs.OnActions.{ChangesPending};
ghost use Rattle.solo_crash.specs.OpenCall.{HasMade, IsUnderWay, IsWholeCall, MakesItsStep, RecordsUnder};
ghost use Rattle.solo_crash.specs.Operations.{AllocatesObject, BeginsCall, BeginsLevel, FreesFound, FreesMade, KeepsKnown, KeepsLane, RefusesLevel, TakesBack, Tells, TellsNothing, WritesBytes, WritesNewBytes};
ghost use Rattle.solo_crash.specs.Pending.{pending_in};
ghost use Rattle.solo_crash.specs.Reserving.{HasReserved, PutsOutside, RefusesPut, RefusesReserve, RefusesReserveOutside, ReservedLieApart, ReservesObject, ReservesOutside, RestsBehind, WritesReserved};

/// A law: a call under way goes on where it reserves an object, in a block that is nobody's, and where it writes bytes into what is reserved, be
/// it by a call before; and so it does where either is refused. What is reserved stands in its block then, with the bytes that it has so far, and
/// lies apart from what else the lane has. No code runs.
pub fn a_call_under_way_reserves_objects()
    ensures reserves { (v next : View) (n : NewObject) (level : ℕ) → 1 ≤ level
        → IsUnderWay v level stage.Work error.None → ReservesObject v next n → IsUnderWay next level stage.Work error.None }
    ensures keeps_reserved { (v next : View) (n : NewObject) → HasReserved v → ReservesObject v next n → HasReserved next }
    ensures refuses { (v next : View) (size kind : ℕ) (r : Refusal) (level : ℕ) → 1 ≤ level
        → IsUnderWay v level stage.Work error.None → RefusesReserve v next size kind r → IsUnderWay next level stage.Work error.None }
    ensures refused_keeps { (v next : View) (size kind : ℕ) (r : Refusal) → HasReserved v → RefusesReserve v next size kind r → HasReserved next }
    ensures writes { (v next : View) (id : Oid) (off level : ℕ) (bytes : List ℕ) → 1 ≤ level
        → IsUnderWay v level stage.Work error.None → HasReserved v → WritesReserved v next id off bytes → IsUnderWay next level stage.Work error.None }
    ensures writes_reserved { (v next : View) (id : Oid) (off : ℕ) (bytes : List ℕ) → HasReserved v → WritesReserved v next id off bytes → HasReserved next }
    ensures put_refused { (v next : View) (id : Oid) (off level : ℕ) (bytes : List ℕ) (r : Refusal) → 1 ≤ level
        → IsUnderWay v level stage.Work error.None → RefusesPut v next id off bytes r → IsUnderWay next level stage.Work error.None }
    ensures put_refused_keeps { (v next : View) (id : Oid) (off : ℕ) (bytes : List ℕ) (r : Refusal) → HasReserved v → RefusesPut v next id off bytes r
        → HasReserved next }
{}

/// A law: what a lane has reserved stands as it did behind each other operation of its call: behind one that leaves it and the call's blocks, as a
/// record, a read or a commit, and one on what is pending alone; behind writes, objects that are made and freed, and further levels; where the call
/// is given up and taken back; and where nothing is told. Behind a publish nothing is reserved. It stands between two calls too, and as the next
/// one begins. A level or a call that begins finds no block that overlaps it; of a found object that is freed, the block has a line. No code runs.
pub fn what_is_reserved_stays()
    ensures told { (v next : View) (op : Operation) (reply : Option Value) → HasReserved v → Tells v next op reply → KeepsKnown v next
        → LeavesReserved op reply (pending_in v) → blocks_behind op reply (pending_in v) (blocks_in v) ≡ blocks_in v → HasReserved next }
    ensures pending { (v next : View) (op : Operation) (reply : Option Value) → HasReserved v → ChangesPending v next op reply → HasReserved next }
    ensures publishes { (v next : View) → Tells v next Publish None → HasReserved next }
    ensures writes { (v next : View) (id : Oid) (off : ℕ) (bytes : List ℕ) → HasReserved v → RecordsUnder v → WritesBytes v next id off bytes
        → HasReserved next }
    ensures writes_new { (v next : View) (id : Oid) (off : ℕ) (bytes : List ℕ) → HasReserved v → HasMade v → WritesNewBytes v next id off bytes
        → HasReserved next }
    ensures allocates { (v next : View) (n : NewObject) → HasReserved v → AllocatesObject v next n → HasReserved next }
    ensures frees_found { (v next : View) (id : Oid) → HasReserved v → (frees : FreesFound v next id) → 1 ≤ frees.held.lines → HasReserved next }
    ensures frees_made { (v next : View) (id : Oid) → HasReserved v → FreesMade v next id → HasReserved next }
    ensures begins_further { (v next : View) (wants : List Want) → HasReserved v → BeginsLevel v next wants → ReservedLieApart next → HasReserved next }
    ensures gives_up { (v next : View) (op : Operation) (reply : Option Value) → HasReserved v → RecordsUnder v → Tells v next op reply → TakesBack v next
        → LeavesReserved op reply (pending_in v) → blocks_behind op reply (pending_in v) (blocks_in v) ≡ no_blocks → HasReserved next }
    ensures refuses_further { (v next : View) (level : ℕ) (wants : List Want) (r : Refusal) → HasReserved v → RecordsUnder v
        → RefusesLevel v next level wants r → ReservedLieApart next → HasReserved next }
    ensures taken_back { (v next : View) → HasReserved v → RecordsUnder v → TellsNothing v next → TakesBack v next → HasReserved next }
    ensures quietly { (v next : View) → HasReserved v → TellsNothing v next → KeepsKnown v next → HasReserved next }
    ensures rests { (v next : View) → HasReserved v → RestsBehind v next → HasReserved next }
    ensures begins { (v next : View) (wants : List Want) → v.call ≡ [] → HasReserved v → KeepsLane v next → KeepsKnown v next → BeginsCall next wants
        → ReservedLieApart next → HasReserved next }
{}

/// A law: outside of a transaction a reservation is a step of the plain model, from each pool that has room for its object; and so are one that is
/// refused, and bytes that are written into what is reserved, or refused, from any pool. No code runs.
pub fn a_call_outside_reserves()
    ensures reserves { (v : View) (n : NewObject) → ReservesOutside v n → MakesItsStep v }
    ensures refuses { (v : View) (size kind : ℕ) (r : Refusal) → RefusesReserveOutside v size kind r → IsWholeCall v }
    ensures writes { (v : View) (id : Oid) (off : ℕ) (bytes : List ℕ) (r : Option Refusal) → PutsOutside v id off bytes r → IsWholeCall v }
{}
