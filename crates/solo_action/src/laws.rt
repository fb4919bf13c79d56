//! Laws of publishes outside of a transaction, of a lane that works alone.

ghost use Rattle.std.specs.Prelude.{◌≤◌, ◌+◌, ◌++◌, List, length};
ghost use Rattle.solo_crash.specs.Alone.{BeginsAgain, WorksAlone, standing};
ghost use Rattle.solo_crash.specs.Pending.{sets_before};
ghost use Rattle.pm_header.specs.declared.header.Header.{Header};
ghost use Rattle.solo_made.specs.Made.{BlockLists};
ghost use Rattle.solo_model.specs.Actions.{Action};
ghost use Rattle.pm_objects.specs.declared.calls.Operation.TheVariants.{Publish};
ghost use Rattle.pm_objects.specs.declared.pool.PoolView.{PoolView};
ghost use Rattle.solo_pending.specs.declared.pending.PendingActions.{PendingActions};
ghost use Rattle.solo_transaction.specs.Published.{LogsCall};
ghost use Rattle.solo_view.specs.Steps.{Step};
ghost use Rattle.solo_view.specs.View.{View};
ghost use Rattle.solo_world.specs.Opening.{Opening};
ghost use Rattle.solo_world.specs.declared.lane.Lane.{Lane};
ghost use Rattle.solo_action.specs.Outside.{RestsStill};
ghost use Rattle.solo_action.specs.Publishing.{IsPublishedBy};
ghost use Rattle.solo_action.specs.PublishingAll.{HoldsAll, IsPublishedAll, IsStoppedPublishingAll, ListsPending, MayPublishPending, entries_pending};

use solo_world::LawfulMem;

/// A law: a lane that works alone, and whose call has begun and holds the objects of all that is pending, may enter the redo entries of the blocks of what is to be freed and
/// made; and once it lists them, a free or a reservation at least, its publish is a call that one log decides, so that the laws of such calls apply
/// (`a_call_told_by_its_log_is_published` of `solo_transaction`). No code runs.
pub fn a_lane_alone_publishes_all_at_once<M: LawfulMem>()
    ensures may { (o : Opening) (header : Header) (pool : PoolView) (start v : View) (steps : List Step) (lane : Lane M) (pending : PendingActions)
        → WorksAlone o header pool start steps v → HoldsAll o M.at lane pending v → MayPublishPending lane.locks.items v }
    ensures logs { (o : Opening) (header : Header) (pool : PoolView) (start v : View) (steps : List Step) (lane : Lane M) (pending : PendingActions) (blocks : BlockLists)
        → WorksAlone o header pool start steps v → HoldsAll o M.at lane pending v → ListsPending lane.locks.items v blocks → 1 ≤ length pending.frees.items + length pending.reserved.items
        → LogsCall o header pool start steps Publish (sets_before v) blocks v (entries_pending pending v.lanes blocks) }
{}

/// A law: wherever a lane worked alone at rest, and from there published words alone, or all that was pending with frees or reservations among it, it rests behind that, in the
/// world that begins there over the words as they stand: nothing is reserved any more, and it makes no object. From where it came to hold all, the publish of all is a call
/// that one log decides, whether it was done or the lane stopped in it, so that the laws of such calls apply. No code runs.
pub fn a_lane_alone_rests_behind_its_publish<M: LawfulMem>()
    ensures sets { (o : Opening) (header : Header) (pool : PoolView) (start v : View) (steps : List Step) (lane : Lane M) (actions : List Action)
        → WorksAlone o header pool start steps v → (was : IsPublishedBy M.at lane actions v) → RestsStill o header pool was.view lane.shape }
    ensures all { (o : Opening) (header : Header) (pool : PoolView) (start v : View) (steps : List Step) (lane : Lane M) (pending : PendingActions) (blocks : BlockLists)
        → WorksAlone o header pool start steps v → (was : IsPublishedAll M.at lane pending blocks v) → RestsStill o header pool was.done.ended.view lane.shape }
    ensures begins { (o : Opening) (header : Header) (pool : PoolView) (start v : View) (steps : List Step) (lane : Lane M) (pending : PendingActions) (blocks : BlockLists)
        → WorksAlone o header pool start steps v → (was : IsPublishedAll M.at lane pending blocks v) → BeginsAgain (standing o was.done.ended.view) header pool was.done.ended.view }
    ensures logs { (o : Opening) (header : Header) (pool : PoolView) (start v : View) (steps : List Step) (lane : Lane M) (pending : PendingActions) (blocks : BlockLists)
        → WorksAlone o header pool start steps v → (was : IsPublishedAll M.at lane pending blocks v)
        → LogsCall o header pool start (steps ++ was.led.steps) Publish (sets_before was.holding) blocks was.holding (entries_pending pending was.holding.lanes blocks) }
    ensures stops { (o : Opening) (header : Header) (pool : PoolView) (start v : View) (steps : List Step) (lane : Lane M) (pending : PendingActions) (blocks : BlockLists)
        → WorksAlone o header pool start steps v → (was : IsStoppedPublishingAll M.at lane pending blocks v)
        → LogsCall o header pool start (steps ++ was.led.steps) Publish (sets_before was.holding) blocks was.holding (entries_pending pending was.holding.lanes blocks) }
{}
