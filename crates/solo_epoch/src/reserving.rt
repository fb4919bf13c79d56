ghost use Rattle.std.specs.Prelude.{◌≡◌, ◌↔◌, ℕ, ◌+◌, ◌<◌, ◌≤◌, All, List, [], ◌∷◌, ◌++◌, length, None, Some};
ghost use Rattle.pm_header.specs.declared.header.Header.{Header};
ghost use Rattle.pm_objects.specs.declared.ids.Oid.{Oid};
ghost use Rattle.pm_objects.specs.declared.pool.PoolView.{PoolView};
ghost use Rattle.pm_objects.specs.declared.refusal.Refusal.{Refusal};
ghost use Rattle.pm_objects.specs.declared.refusal.Refusal.TheVariants as refusal;
ghost use Rattle.pm_layout.specs.Sizes.{blocks_of, class_of};
ghost use Rattle.pm_layout.specs.declared.shape.Shape.{Shape};
ghost use Rattle.pm_image.specs.declared.block.Block.{Block};
ghost use Rattle.solo_model.specs.Actions.{max_actions, pending_count};
ghost use Rattle.solo_view.specs.Founds.{IsAlone};
ghost use Rattle.solo_view.specs.Log.{no_log};
ghost use Rattle.solo_view.specs.Log.Phase.{Idle};
ghost use Rattle.solo_view.specs.Steps.{Step};
ghost use Rattle.solo_view.specs.Steps.Step.{Draw};
ghost use Rattle.solo_view.specs.View.{View};
ghost use Rattle.solo_view.specs.Views.{after};
ghost use Rattle.solo_world.specs.Lanes.{IsOfShape};
ghost use Rattle.solo_world.specs.Lawful.{Allowed, OnlyFilled, generation_limit};
ghost use Rattle.solo_world.specs.Opening.{Opening};
ghost use Rattle.solo_world.specs.Records.{generation_of};
ghost use Rattle.solo_crash.specs.Alone.{WorksAlone, standing};
ghost use Rattle.solo_crash.specs.CallBlocks.{NewObject, block_of, reserved_in};
ghost use Rattle.solo_crash.specs.HeldHistory.{IsEndedCall};
ghost use Rattle.solo_crash.specs.Pending.{pending_before, pending_in};
ghost use Rattle.solo_crash.specs.Reserved.{IsBorneOut, IsReservedFor, IsReservedInRun};
ghost use Rattle.solo_crash.specs.Reserving.{HasReserved, PutsOutside, RefusesPut, RefusesReserve, RefusesReserveOutside, ReservedLieApart, ReservesObject, ReservesOutside, RestsBehind, WritesReserved};
ghost use Rattle.solo_alloc.specs.NewObjects.{CanMakeObject};
ghost use Rattle.solo_blocks.specs.AnyBlocks.{HasNoRoom};
ghost use Rattle.solo_blocks.specs.declared.making.NoBlock.TheVariants as no_block;
ghost use Rattle.solo_reclaim.specs.KeptBlocks.{Keeps};
ghost use Rattle.solo_epoch.specs.Allocating.{HasSameDescriptors, IsCallAlone, IsCallAloneStill, MakesObject, object_in_block};
ghost use Rattle.solo_epoch.specs.Epochs.{ReservesNoRun};
ghost use Rattle.solo_epoch.specs.Reserving.{IsAloneBetween, IsAloneOutside, IsAloneOutsideStill, RestsWithReserved, with_next_call, with_object_reserved};

/// A law: where a lane works alone with a call under way, an object of 1 to 262080 bytes that it made is one that the call may tell as reserved, if one more
/// action may be pending. No word that the lane knew changed, and the object's block lies apart from what the call found, made and freed, and from what else
/// is reserved. What the lane has bears out what the call told then, the call goes on, and what is reserved stands with one more: docs/MODEL.md, "From call to
/// call". No code runs.
pub fn a_lane_alone_may_reserve_its_new_object()
    ensures reserves { (o : Opening) (header : Header) (pool : PoolView) (start v u : View) (steps : List Step) (shape : Shape) (level size kind : ℕ) (block : Block)
        → IsCallAlone o header pool start steps v shape level → MakesObject v u size kind block → 1 ≤ size → size ≤ 262080 → pending_count (pending_in v) < max_actions
        → ReservesObject v (with_object_reserved u (object_in_block block size kind)) (object_in_block block size kind) }
    ensures bears_out { (o : Opening) (header : Header) (pool : PoolView) (start v u : View) (steps : List Step) (shape : Shape) (level size kind : ℕ) (block : Block)
        → IsCallAlone o header pool start steps v shape level → MakesObject v u size kind block → IsBorneOut (with_object_reserved u (object_in_block block size kind)) }
    ensures goes_on { (o : Opening) (header : Header) (pool : PoolView) (start v u : View) (steps : List Step) (shape : Shape) (level size kind : ℕ) (block : Block) → 1 ≤ level
        → IsCallAlone o header pool start steps v shape level → MakesObject v u size kind block → 1 ≤ size → size ≤ 262080 → pending_count (pending_in v) < max_actions
        → IsCallAloneStill o header pool start steps (with_object_reserved u (object_in_block block size kind)) shape level }
    ensures stands { (o : Opening) (header : Header) (pool : PoolView) (start v u : View) (steps : List Step) (shape : Shape) (level size kind : ℕ) (block : Block)
        → IsCallAlone o header pool start steps v shape level → HasReserved v → MakesObject v u size kind block → 1 ≤ size → size ≤ 262080
        → pending_count (pending_in v) < max_actions → HasReserved (with_object_reserved u (object_in_block block size kind)) }
{}

/// A law: what is reserved of a lane that works alone, where it lies in what the lane reserved, overlaps no block that the lane found under a lock: so it is
/// asked as a level or a call begins. A block that it reserved in a run is one of those that the run has; so where bytes are written into what is reserved each
/// chunk is described as it was. No code runs.
pub fn what_a_lane_alone_reserved_lies_apart()
    ensures locks { (o : Opening) (header : Header) (pool : PoolView) (start v : View) (steps : List Step) → WorksAlone o header pool start steps v
        → All (IsReservedFor v) (reserved_in v) → ReservedLieApart v }
    ensures whole { (o : Opening) (header : Header) (pool : PoolView) (start v : View) (steps : List Step) → WorksAlone o header pool start steps v
        → (n : NewObject) (run : IsReservedInRun v n) → run.index < blocks_of run.lines }
    ensures described { (o : Opening) (header : Header) (pool : PoolView) (start v w : View) (steps : List Step) (id : Oid) (off : ℕ) (bytes : List ℕ)
        → WorksAlone o header pool start steps v → HasReserved v → All (IsReservedFor v) (reserved_in v) → WritesReserved v w id off bytes → HasSameDescriptors v w }
{}

/// A law: outside of a transaction a lane alone reserves an object that it made, where one more action may be pending: that is all of its call, a step of the
/// plain model from each pool that has room for the object, and what the lane has bears it out, so that the call has ended and may draw its number. What is
/// reserved stands with one more. Where it is refused, and nothing was reserved, what is reserved stands too. No code runs.
pub fn a_lane_alone_reserves_outside()
    ensures reserves { (o : Opening) (header : Header) (pool : PoolView) (start v u : View) (steps : List Step) (shape : Shape) (size kind : ℕ) (block : Block)
        → IsAloneBetween o header pool start steps v shape → MakesObject v u size kind block → 1 ≤ size → size ≤ 262080 → pending_count (pending_in v) < max_actions
        → ReservesOutside (with_object_reserved u (object_in_block block size kind)) (object_in_block block size kind) }
    ensures ends { (o : Opening) (header : Header) (pool : PoolView) (start v u : View) (steps : List Step) (shape : Shape) (size kind : ℕ) (block : Block)
        → IsAloneBetween o header pool start steps v shape → MakesObject v u size kind block → 1 ≤ size → size ≤ 262080 → pending_count (pending_in v) < max_actions
        → IsEndedCall (with_object_reserved u (object_in_block block size kind)) }
    ensures goes_on { (o : Opening) (header : Header) (pool : PoolView) (start v u : View) (steps : List Step) (shape : Shape) (size kind : ℕ) (block : Block)
        → IsAloneBetween o header pool start steps v shape → MakesObject v u size kind block → 1 ≤ size → size ≤ 262080 → pending_count (pending_in v) < max_actions
        → IsAloneOutsideStill o header pool start steps (with_object_reserved u (object_in_block block size kind)) shape }
    ensures refuses { (o : Opening) (header : Header) (pool : PoolView) (start v w : View) (steps : List Step) (shape : Shape) (size kind : ℕ) (r : Refusal)
        → IsAloneBetween o header pool start steps v shape → RefusesReserve v w size kind r → RefusesReserveOutside w size kind r }
    ensures refused { (o : Opening) (header : Header) (pool : PoolView) (start v w : View) (steps more : List Step) (shape : Shape) (size kind : ℕ) (r : Refusal)
        → IsAloneBetween o header pool start steps v shape → WorksAlone o header pool start more w → CanMakeObject w shape → w.reserved ≡ v.reserved → HasSameDescriptors v w
        → RefusesReserve v w size kind r → IsAloneOutside o header pool start more w shape }
{}

/// A law: outside of a transaction a lane alone writes bytes into what it has reserved, or refuses to: that is all of its call, a step of the plain model
/// from any pool. Where the lane has what it had reserved, that bears out the call, and what is reserved stands. No code runs.
pub fn a_lane_alone_writes_outside_what_it_reserved()
    ensures puts { (o : Opening) (header : Header) (pool : PoolView) (start v w : View) (steps : List Step) (shape : Shape) (id : Oid) (off : ℕ) (bytes : List ℕ)
        → IsAloneBetween o header pool start steps v shape → WritesReserved v w id off bytes → PutsOutside w id off bytes None }
    ensures goes_on { (o : Opening) (header : Header) (pool : PoolView) (start v w : View) (steps more : List Step) (shape : Shape) (id : Oid) (off : ℕ) (bytes : List ℕ)
        → IsAloneBetween o header pool start steps v shape → WorksAlone o header pool start more w → CanMakeObject w shape → w.reserved ≡ v.reserved
        → WritesReserved v w id off bytes → IsAloneOutside o header pool start more w shape }
    ensures refuses { (o : Opening) (header : Header) (pool : PoolView) (start v w : View) (steps : List Step) (shape : Shape) (id : Oid) (off : ℕ) (bytes : List ℕ) (r : Refusal)
        → IsAloneBetween o header pool start steps v shape → RefusesPut v w id off bytes r → PutsOutside w id off bytes (Some r) }
    ensures refused { (o : Opening) (header : Header) (pool : PoolView) (start v w : View) (steps more : List Step) (shape : Shape) (id : Oid) (off : ℕ) (bytes : List ℕ) (r : Refusal)
        → IsAloneBetween o header pool start steps v shape → WorksAlone o header pool start more w → CanMakeObject w shape → w.reserved ≡ v.reserved
        → RefusesPut v w id off bytes r → IsAloneOutside o header pool start more w shape }
{}

/// A law: a lane alone whose call outside of a transaction has ended rests with what it has reserved once that draws its number: in the world where it is, or
/// in one that begins there over the words as they stand. What the call left pending is pending then. The lane rests so with a call open that told nothing,
/// too, and where it has no call open and nothing reserved. And it is between two calls at any view behind a call where no word of what is reserved changed,
/// the lane may make an object, and it has each block still that is reserved, be it in a world that began since; that it has the block is what a reclaim that
/// keeps it leaves. No code runs.
pub fn a_lane_alone_rests_with_what_it_reserved()
    ensures draws { (o : Opening) (header : Header) (pool : PoolView) (start w : View) (steps : List Step) (shape : Shape) (n : ℕ)
        → IsAloneOutside o header pool start steps w shape → IsEndedCall w → Allowed w (Draw n) → n ≡ length w.entries + 1
        → RestsWithReserved o header pool start (steps ++ Draw n ∷ []) (after w (Draw n)) shape }
    ensures again { (o : Opening) (header : Header) (pool : PoolView) (start w : View) (steps : List Step) (shape : Shape) (n : ℕ)
        → IsAloneOutside o header pool start steps w shape → IsEndedCall w → Allowed w (Draw n) → n ≡ length w.entries + 1
        → RestsWithReserved (standing o (after w (Draw n))) header pool (after w (Draw n)) [] (after w (Draw n)) shape }
    ensures drawn { (w : View) (n : ℕ) → pending_before (after w (Draw n)) ≡ pending_in w }
    ensures untold { (o : Opening) (header : Header) (pool : PoolView) (start v : View) (steps : List Step) (shape : Shape)
        → IsAloneBetween o header pool start steps v shape → RestsWithReserved o header pool start steps v shape }
    ensures none { (o : Opening) (header : Header) (pool : PoolView) (start v : View) (steps : List Step) (shape : Shape)
        → WorksAlone o header pool start steps v → v.log ≡ no_log Idle → v.locks ≡ [] → v.zone_locks ≡ [] → IsAlone v → IsOfShape v shape → ReservesNoRun v.lanes v
        → (pending_before v).reserved ≡ [] → RestsWithReserved o header pool start steps v shape }
    ensures pending { (o : Opening) (header : Header) (pool : PoolView) (start v : View) (steps : List Step) (shape : Shape)
        → RestsWithReserved o header pool start steps v shape → generation_of v < generation_limit → pending_in (with_next_call v) ≡ pending_before v }
    ensures between { (o : Opening) (header : Header) (pool : PoolView) (start w next : View) (steps : List Step) (shape : Shape)
        → HasReserved w → RestsBehind w next → All (IsReservedFor next) (reserved_in w) → WorksAlone o header pool start steps next → CanMakeObject next shape
        → next.log.records ≡ [] → next.log.entries ≡ [] → next.locks ≡ [] → IsAloneBetween o header pool start steps next shape }
    ensures kept { (v : View) (n : NewObject) → Keeps v (block_of n) ↔ IsReservedFor v n }
{}

/// A law: where a lane alone made an object, the undrained words that it had filled are filled still, and nothing else is undrained; where nothing was, nothing
/// is. So it is where it looked for a block for an object, and there was none: no change is undrained then that was not. No code runs.
pub fn words_filled_stay_filled()
    ensures made { (o : Opening) (header : Header) (pool : PoolView) (start v u : View) (steps : List Step) (shape : Shape) (size kind : ℕ) (block : Block)
        → WorksAlone o header pool start steps v → CanMakeObject v shape → OnlyFilled v → MakesObject v u size kind block → OnlyFilled u }
    ensures drained { (v u : View) (shape : Shape) (size kind : ℕ) (block : Block) → CanMakeObject v shape → MakesObject v u size kind block → v.changes ≡ [] → u.changes ≡ [] }
    ensures refused { (v w : View) (shape : Shape) (size : ℕ) → CanMakeObject v shape → HasNoRoom (λ z. z ≡ w) v (class_of size) (no_block.Refused refusal.NoSpace)
        → OnlyFilled v → OnlyFilled w }
    ensures same { (v w : View) (shape : Shape) (size : ℕ) → CanMakeObject v shape → HasNoRoom (λ z. z ≡ w) v (class_of size) (no_block.Refused refusal.NoSpace)
        → w.changes ≡ v.changes }
{}
