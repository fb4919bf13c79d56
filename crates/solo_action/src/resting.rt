//! A law of a lane that works alone, behind a call outside of a transaction that is told at once.

ghost use Rattle.std.specs.Prelude.{List, Option};
ghost use Rattle.solo_crash.specs.Pending.{pending_before};
ghost use Rattle.solo_epoch.specs.Reserving.{RestsWithReserved};
ghost use Rattle.pm_header.specs.declared.header.Header.{Header};
ghost use Rattle.pm_objects.specs.declared.calls.Operation.{Operation};
ghost use Rattle.pm_objects.specs.declared.history.Value.{Value};
ghost use Rattle.pm_objects.specs.declared.pool.PoolView.{PoolView};
ghost use Rattle.solo_transaction.specs.Published.{HasOwnCounts};
ghost use Rattle.solo_view.specs.Steps.{Step};
ghost use Rattle.solo_view.specs.View.{View};
ghost use Rattle.solo_world.specs.Opening.{Opening};
ghost use Rattle.solo_world.specs.declared.lane.Lane.{Lane};
ghost use Rattle.solo_action.specs.Outside.{IsToldOutside, LeavesOrRefuses, RestsAlone, RestsStill};

use solo_world::LawfulMem;

/// A law: behind a call outside of a transaction that is told without a counted call, and leaves what is reserved, gives it up or is refused, a lane alone
/// rests with what it has reserved, wherever it began: that stands, in the world that begins there, and it makes no object. No code runs.
pub fn a_lane_alone_rests_behind_its_call<M: LawfulMem>()
    ensures told { (o : Opening) (header : Header) (pool : PoolView) (start v : View) (steps : List Step) (lane new : Lane M) (op : Operation) (reply : Option Value)
        → RestsAlone M.at lane v → RestsWithReserved o header pool start steps v lane.shape → (was : IsToldOutside M.at new v op reply) → LeavesOrRefuses op reply (pending_before v)
        → HasOwnCounts was.view → RestsStill o header pool was.view lane.shape }
{}
