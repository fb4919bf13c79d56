ghost use Rattle.std.specs.Prelude.{◌≡◌, ℕ, ◌≤◌, List, All, Contains, Option};
ghost use Rattle.pm_header.specs.declared.header.Header.{Header};
ghost use Rattle.pm_objects.specs.declared.calls.Operation.{Operation};
ghost use Rattle.pm_objects.specs.declared.history.TxErr.TheVariants as error;
ghost use Rattle.pm_objects.specs.declared.history.Value.{Value};
ghost use Rattle.pm_objects.specs.declared.pool.PoolView.{PoolView};
ghost use Rattle.pm_objects.specs.declared.refusal.Refusal.{Refusal};
ghost use Rattle.pm_image.specs.declared.block.Block.{Block};
ghost use Rattle.pm_image.specs.Blocks.{blocks};
ghost use Rattle.pm_image.specs.Contents.{size_in};
ghost use Rattle.solo_model.specs.declared.stage.Stage.TheVariants as stage;
ghost use Rattle.solo_model.specs.Actions.{Action, only_sets, with_actions};
ghost use Rattle.solo_view.specs.View.{View};
ghost use Rattle.solo_crash.specs.Held.{HoldsPool};
ghost use Rattle.solo_crash.specs.OnActions.{ChangesPending, ChangesPendingOutside, PublishesAll, PublishesOutside, RefusesOutside};
ghost use Rattle.solo_crash.specs.OpenCall.{IsCommitted, IsOpen, IsWholeCall, MakesItsStep};
ghost use Rattle.solo_crash.specs.Pending.{pending_before, sets_before};
ghost use Rattle.solo_crash.specs.Performing.{CanPerform, performed};
ghost use Rattle.solo_crash.specs.Reserving.{HasReserved};

/// A law: from words that hold a pool, the entries that stand for actions, each of which lies in an object of the pool, make words that
/// hold the pool with these actions performed, in their order; blocks and sizes stay. No code runs.
pub fn entries_perform_actions()
    ensures pool { (w : ℕ → ℕ) (lanes zones : ℕ) (header : Header) (pool : PoolView) (actions : List Action)
        → HoldsPool w lanes zones header pool → All (CanPerform w lanes zones) actions
        → HoldsPool (performed actions w) lanes zones header (with_actions actions pool) }
    ensures blocks { (w : ℕ → ℕ) (lanes zones : ℕ) (header : Header) (pool : PoolView) (actions : List Action)
        → HoldsPool w lanes zones header pool → All (CanPerform w lanes zones) actions
        → blocks (performed actions w) lanes zones ≡ blocks w lanes zones }
    ensures sizes { (w : ℕ → ℕ) (lanes zones : ℕ) (header : Header) (pool : PoolView) (actions : List Action) (block : Block)
        → HoldsPool w lanes zones header pool → All (CanPerform w lanes zones) actions → Contains (blocks w lanes zones) block
        → size_in (performed actions w) block ≡ size_in w block }
{}

/// A law: a set-value or a cancel in a transaction, refused or not, is the plain model's, and leaves the call open. No code runs.
pub fn a_call_on_actions_keeps_the_call()
    ensures { (v next : View) (op : Operation) (reply : Option Value) (level : ℕ) → 1 ≤ level
        → IsOpen v level stage.Work error.None → ChangesPending v next op reply → IsOpen next level stage.Work error.None }
{}

/// A law: a set-value or a cancel outside of a transaction, refused or not, is a step of the plain model. No code runs.
pub fn a_call_on_actions_is_a_step()
    ensures { (v : View) (op : Operation) (reply : Option Value) → ChangesPendingOutside v op reply → IsWholeCall v }
{}

/// A law: outside of a transaction a publish of words alone, with an entry for each, is a step of the plain model, from any pool. A publish of all
/// that is pending, where what is reserved stands, is a committed call: its objects are freed and made, and its words set. No code runs.
pub fn a_publish_is_a_step()
    ensures sets { (v : View) → PublishesOutside v → IsWholeCall v }
    ensures all { (v next : View) → HasReserved v → PublishesAll v next → IsCommitted next }
{}

/// A law: a publish that is refused outside of a transaction is a step of the plain model that changes nothing, from each pool that agrees on the
/// root; and from any where words alone are pending. No code runs.
pub fn a_refused_publish_is_a_step()
    ensures steps { (v : View) (r : Refusal) → RefusesOutside v r → MakesItsStep v }
    ensures sets { (v : View) (r : Refusal) → RefusesOutside v r → pending_before v ≡ only_sets (sets_before v) → IsWholeCall v }
{}
