//! Laws of what a lane has reserved and pending behind a transaction.

ghost use Rattle.std.specs.Prelude.{◌≡◌, ℕ, ◌<◌, All, Contains, List, [], None, Option, Some, map};
ghost use Rattle.pm_header.specs.declared.header.Header.{Header};
ghost use Rattle.pm_image.specs.declared.block.Block.{Block};
ghost use Rattle.pm_layout.specs.declared.shape.Shape.{Shape};
ghost use Rattle.pm_objects.specs.declared.calls.Operation.{Operation};
ghost use Rattle.pm_objects.specs.declared.calls.Operation.TheVariants.{Abort};
ghost use Rattle.pm_objects.specs.declared.calls.Want.{Want};
ghost use Rattle.pm_objects.specs.declared.history.Value.TheVariants.{Refused};
ghost use Rattle.pm_objects.specs.declared.pool.PoolView.{PoolView};
ghost use Rattle.pm_objects.specs.declared.refusal.Refusal.{Refusal};
ghost use Rattle.solo_view.specs.Founds.{IsAlone};
ghost use Rattle.solo_view.specs.Log.{no_log};
ghost use Rattle.solo_view.specs.Log.Phase.{Idle};
ghost use Rattle.solo_view.specs.Steps.{Step};
ghost use Rattle.solo_view.specs.View.{Lock, View};
ghost use Rattle.solo_view.specs.Views.{after_all};
ghost use Rattle.solo_world.specs.Opening.{Opening};
ghost use Rattle.solo_world.specs.Lanes.{IsOfShape};
ghost use Rattle.solo_world.specs.Lawful.{generation_limit};
ghost use Rattle.solo_world.specs.Records.{generation_of};
ghost use Rattle.solo_world.specs.declared.lane.HeldLock.{HeldLock};
ghost use Rattle.solo_world.specs.declared.lane.Lane.{Lane};
ghost use Rattle.solo_crash.specs.Alone.{Begins, BeginsAgain, WorksAlone, standing};
ghost use Rattle.solo_crash.specs.CallBlocks.{block_of, blocks_behind, blocks_in, no_blocks, reserved_in, reserved_object};
ghost use Rattle.solo_crash.specs.Pending.{pending_before, pending_in};
ghost use Rattle.solo_crash.specs.Reserving.{HasReserved};
ghost use Rattle.solo_lock.specs.Leading.{IsLed};
ghost use Rattle.solo_lock.specs.Resting.{IsFresh};
ghost use Rattle.solo_epoch.specs.Reserving.{RestsWithReserved};
ghost use Rattle.solo_reclaim.specs.KeptBlocks.{Keeps};
ghost use Rattle.solo_reclaim.specs.KnownTaken.{KnowsTaken};
ghost use Rattle.solo_made.specs.Made.{BlockLists};
ghost use Rattle.solo_tx.specs.Begins.{HasBegun, HasRefused};
ghost use Rattle.solo_tx.specs.Sequences.{gives_up};
ghost use Rattle.solo_transaction.specs.AtWork.{IsAtWorkWith, LiesInReserved};
ghost use Rattle.solo_transaction.specs.Committing.{HasCommitted, commits_with};
ghost use Rattle.solo_transaction.specs.Ending.{HasEndedWith};
ghost use Rattle.solo_transaction.specs.Published.{HasOwnCounts};
ghost use Rattle.solo_transaction.specs.Resting.{StandsAtRest};

use solo_world::LawfulMem;

/// A law: what a lane has reserved and pending stands as its transaction begins, where the lane works alone, and at rest behind that: where it was committed, where it is
/// given up, for a refusal that aborts it or for an abort, and where its begin was refused. So it does behind steps that lead on a lane that is alone, at rest still
/// with no lock more, without a counted call. No code runs.
pub fn what_is_reserved_stands_behind_a_transaction<M: LawfulMem>()
    ensures looked { (v w : View) → v.lane < v.lanes → IsFresh v → IsFresh w → IsAlone v → IsLed v w → w.entries ≡ v.entries → ((l : Lock) → Contains w.locks l → Contains v.locks l)
        → StandsAtRest v → StandsAtRest w }
    ensures begun { (o : Opening) (header : Header) (pool : PoolView) (v : View) (lane : Lane M) (wants : List Want) → Begins o header pool v → StandsAtRest v
        → (begun : HasBegun M.at lane v wants) → HasOwnCounts begun.view → HasReserved begun.view × All (LiesInReserved begun.view) (reserved_in begun.view) }
    ensures refused_begin { (o : Opening) (header : Header) (pool : PoolView) (start v : View) (steps : List Step) (shape : Shape) (lane : Lane M) (wants : List Want) (r : Refusal)
        → RestsWithReserved o header pool start steps v shape → generation_of v < generation_limit → StandsAtRest v → (was : HasRefused M.at lane v wants r) → HasOwnCounts was.view
        → StandsAtRest was.view }
    ensures committed { (o : Opening) (header : Header) (pool : PoolView) (start v : View) (steps : List Step) (lane new : Lane M) (blocks : BlockLists) → WorksAlone o header pool start steps v
        → IsAtWorkWith o M.at lane blocks v → lane.level ≡ 1 → HasCommitted M.at new v (commits_with lane blocks v.lanes new.last)
        → HasOwnCounts (after_all v (commits_with lane blocks v.lanes new.last v)) → StandsAtRest (after_all v (commits_with lane blocks v.lanes new.last v)) }
    ensures given_up { (o : Opening) (v : View) (lane : Lane M) (blocks : BlockLists) (op : Operation) (r : Refusal) (n : ℕ) → IsAtWorkWith o M.at lane blocks v
        → StandsAtRest (after_all v (gives_up lane.records.items op (Some (Refused r)) n v)) }
    ensures aborted { (o : Opening) (v : View) (lane : Lane M) (blocks : BlockLists) (errnum n : ℕ) → IsAtWorkWith o M.at lane blocks v
        → StandsAtRest (after_all v (gives_up lane.records.items (Abort errnum) None n v)) }
{}

/// A law: a lane alone that ended its transaction, and kept the blocks of what it had reserved and pending, which it may, rests with that, in a world that begins
/// there over the words as they stand. What stood at rest as the call was over stands so, and the same is pending. No code runs.
pub fn a_lane_alone_rests_behind_its_transaction<M: LawfulMem>()
    ensures keeps { (v : View) → StandsAtRest v → All (Keeps v) (map block_of (map reserved_object (pending_before v).reserved)) }
    ensures stands { (v : View) (lane : Lane M) (locks : List HeldLock) (kept : List Block) → StandsAtRest v → KnowsTaken v → IsAlone v → v.log ≡ no_log Idle
        → (ended : HasEndedWith M.at lane v locks kept) → kept ≡ map block_of (map reserved_object (pending_before v).reserved) → StandsAtRest ended.view }
    ensures pending { (v : View) (lane : Lane M) (locks : List HeldLock) (kept : List Block) → (ended : HasEndedWith M.at lane v locks kept) → pending_before ended.view ≡ pending_before v }
    ensures rests { (o : Opening) (header : Header) (pool : PoolView) (v : View) (lane : Lane M) (locks : List HeldLock) (kept : List Block) (shape : Shape) → StandsAtRest v → KnowsTaken v → IsAlone v
        → v.log ≡ no_log Idle → IsOfShape v shape → (ended : HasEndedWith M.at lane v locks kept) → kept ≡ map block_of (map reserved_object (pending_before v).reserved)
        → BeginsAgain (standing o ended.view) header pool ended.view → RestsWithReserved (standing o ended.view) header pool ended.view [] ended.view shape }
{}
