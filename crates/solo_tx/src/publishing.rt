ghost use Rattle.std.specs.Prelude.{◌≡◌, ◌⊎◌, ℕ, All, List, [], take, None, Some, OnErr, OnOk};
ghost use Rattle.pm_objects.specs.declared.calls.Operation.{Operation};
ghost use Rattle.pm_record.specs.declared.redo.Redo.{Redo};
ghost use Rattle.solo_redo.specs.Entering.{IsOfPool};
ghost use Rattle.solo_redo.specs.Sequences.{logs};
ghost use Rattle.solo_view.specs.View.{View};
ghost use Rattle.solo_view.specs.Views.{after_all};
ghost use Rattle.solo_world.specs.Sequences.{IsStopped, Ready, Runs};
ghost use Rattle.solo_lock.specs.Leading.{DrawEnded};
ghost use Rattle.solo_tx.specs.Ending.{IsDrawnBy, IsOver, IsUndrawn};
ghost use Rattle.solo_tx.specs.Publishing.{IsWholeOnceLogged, MayPublish, StopsPublished, published_view};
ghost use Rattle.solo_tx.specs.Sequences.{performs_logged, publishes};

use crate::ending::end_call;
use pm_objects::Operation;
use solo_memory::Stopped;
use solo_redo::{perform, write_log};
use solo_world::{Lane, LawfulMem};

/// Writes the log of the entries that the lane lists, tells the operation and draws the call's number, and performs the log: all of the words that
/// they set change at once, when the seal is drained. Makes exactly the memory calls of `publishes`, or the first of them up to the lane's stop.
pub fn publish_log<M: LawfulMem>(lane: &mut Lane<M>, operation: &Operation) -> Result<(), Stopped>
    requires may { (v : View) × (M.at lane.old.memory v × MayPublish v lane.old.entries.items) }
    ensures ran { Runs (M.at lane.old.memory) (M.at lane.new.memory) (publishes lane.old.entries.items operation.now lane.new.last) result }
    ensures none { OnOk result (lane.new.records.items ≡ []) }
    ensures unlisted { OnOk result (lane.new.entries.items ≡ []) }
    ensures drawn { OnOk result (lane.new.drawn ≡ Some lane.new.last) }
    ensures stops { OnErr result (((lane.new.drawn ≡ lane.old.drawn) × IsStopped (M.at lane.old.memory) (M.at lane.new.memory) (logs lane.old.entries.items))
        ⊎ ((lane.new.drawn ≡ Some lane.new.last) × StopsPublished (M.at lane.old.memory) (M.at lane.new.memory) lane.old.entries.items operation.now lane.new.last)) }
    ensures else_same { lane.new ≡ record lane.old { memory = lane.new.memory; records = lane.new.records; entries = lane.new.entries; drawn = lane.new.drawn; last = lane.new.last } }
{
    write_log(lane)?;
    end_call(lane, operation, None);
    perform(lane)
}

/// A law: a lane that may publish entries may make all of these calls, and then the call is over: it came to this operation, its entry is the last,
/// and what it drew is an ended call's where its entries are of words that it locked for writing, and the call is whole once they are logged and it is
/// told. Wherever the lane stops, as long as it logs them nothing is drawn, and behind the draw the call's entry is the last. No code runs.
pub fn a_log_may_be_published()
    ensures ended { (v : View) (entries : List Redo) (operation : Operation) (n : ℕ) → MayPublish v entries
        → Ready v (publishes entries operation n v) × IsOver v (after_all v (publishes entries operation n v)) n }
    ensures draws { (v : View) (entries : List Redo) (operation : Operation) (n : ℕ) → MayPublish v entries → All (IsOfPool v) entries → IsWholeOnceLogged v entries operation
        → DrawEnded v (publishes entries operation n v) }
    ensures last { (v : View) (entries : List Redo) (operation : Operation) (n : ℕ) → MayPublish v entries
        → IsDrawnBy v (after_all v (publishes entries operation n v)) operation None n }
    ensures logging { (v : View) (entries : List Redo) (k : ℕ) → MayPublish v entries → IsUndrawn v (after_all v (take k (logs entries v))) }
    ensures performing { (v : View) (entries : List Redo) (operation : Operation) (n k : ℕ) → MayPublish v entries
        → IsDrawnBy v (after_all (published_view v entries operation n) (take k (performs_logged entries (published_view v entries operation n)))) operation None n }
{}
