ghost use Rattle.std.specs.Prelude.{◌≡◌, ◌==◌, ◌+◌, ◌%◌, ◌≤◌, [], None, Err, true, false, All, IfErr, OnErr, OnOk, length, slice_index, take};
ghost use Rattle.std.specs.List.{Any, list_any};
ghost use Rattle.solo_crash.specs.CallBlocks.{FreeNoRoot};
ghost use Rattle.solo_crash.specs.OnActions.{CanSet, PassesObject};
ghost use Rattle.solo_crash.specs.Pending.{pending_before};
ghost use Rattle.solo_crash.specs.Reserved.{root_in};
ghost use Rattle.solo_model.specs.Actions.{wants_pending};
ghost use Rattle.pm_objects.specs.declared.ids.Oid.{Oid};
ghost use Rattle.pm_objects.specs.declared.refusal.Refusal.TheVariants as refusal;
ghost use Rattle.solo_pending.specs.Pending.{action_of};
ghost use Rattle.solo_pending.specs.declared.actions.SetAction.{SetAction};
ghost use Rattle.solo_undo.specs.Working.{IsWorking};
ghost use Rattle.solo_view.specs.Founds.{IsAlone};
ghost use Rattle.solo_view.specs.View.{View};
ghost use Rattle.solo_lock.specs.Begun.{IsBegun};
ghost use Rattle.solo_lock.specs.Plans.{IsPlan};
ghost use Rattle.solo_action.specs.Holding.{BeginsToPublish, GoesOnTo, HasLookedAgain, HoldsEach, HoldsObject, HoldsPending, IsHoldCause, RefusesToHold, SeeksObjects, named_in};

use crate::telling::end_outside;
use pm_layout::{LINE_BYTES, WORD_BYTES};
use pm_objects::{Oid, Operation, Refusal, Value, Want};
use solo_lock::{find_objects, give_back, plan_locks, take_all};
use solo_pending::{MAX_ACTIONS, PendingActions, SetAction};
use solo_transaction::ReservedMem;
use solo_world::{HeldLock, Lane, LawfulMem};

/// Words of a line.
const LINE_WORDS: u64 = 8;

/// The word of a pool that has its root's offset: 0 where there is no root.
const ROOT_WORD: u64 = 64;

/// What is wanted of an object that is to be freed or set: its lock, for writing.
fn want_of(id: Oid) -> Want
    ensures { result ≡ record { id = id; write = true } }
{
    Want { id, write: true }
}

/// What a publish of all that is pending wants, as the first so many of these: each object that is to be freed, and then that of each set-value, for writing.
fn wants_of(pending: &PendingActions) -> [Want; MAX_ACTIONS]
    requires few { length pending.now.frees.items + length pending.now.sets.items ≤ 63 }
    ensures { take (length pending.now.frees.items + length pending.now.sets.items) result ≡ wants_pending (named_in pending.now) }
{
    let frees = pending.frees.as_slice();
    let sets = pending.sets.as_slice();
    let mut wants = [want_of(Oid::NULL); MAX_ACTIONS];
    for i in 0..frees.len() {
        wants[i] = want_of(frees[i]);
    }
    for j in 0..sets.len() {
        wants[frees.len() + j] = want_of(sets[j].id);
    }
    wants
}

/// Whether the action ends where its object ends, or before. It looks at the object's size, which the lane knows.
fn ends_inside<M: LawfulMem>(mem: &mut M, action: SetAction) -> bool
    requires held { (v : View) × (M.at mem.old v × HoldsObject v action.id) }
    requires aligned { action.off % 8 ≡ 0 }
    ensures inside { result ≡ true → (v : View) → M.at mem.old v → HoldsObject v action.id → HasLookedAgain (M.at mem.new) v (λ w. CanSet w (action_of action)) }
    ensures past { result ≡ false → (v : View) → M.at mem.old v → HoldsObject v action.id → HasLookedAgain (M.at mem.new) v (λ w. PassesObject w (action_of action)) }
{
    let line = action.id.off / LINE_BYTES - 1;
    let size = mem.load(LINE_WORDS * line + 1);
    WORD_BYTES <= size && action.off <= size - WORD_BYTES
}

/// Whether each of the actions does.
fn check_ends<M: LawfulMem>(mem: &mut M, actions: &[SetAction]) -> bool
    requires held { (v : View) × (M.at mem.old v × HoldsEach v actions.now) }
    requires aligned { All (λ (a : SetAction). a.off % 8 ≡ 0) actions.now }
    ensures inside { result ≡ true → (v : View) → M.at mem.old v → HoldsEach v actions.now → HasLookedAgain (M.at mem.new) v (λ w. All (λ (a : SetAction). CanSet w (action_of a)) actions.now) }
    ensures past { result ≡ false → (v : View) → M.at mem.old v → HoldsEach v actions.now → HasLookedAgain (M.at mem.new) v (λ w. Any (λ (a : SetAction). PassesObject w (action_of a)) actions.now) }
{
    for action in actions {
        if !ends_inside(mem, *action) {
            return false;
        }
    }
    true
}

/// Whether one of these objects stands at the offset.
fn is_among(ids: &[Oid], off: u64) -> bool
    ensures { result ≡ list_any (λ (id : Oid). id.off == off) ids.now }
{
    ids.iter().any(|id| id.off == off)
}

/// Whether the pool's root is one of these objects, which are to be freed. It looks at the root's offset, if any are.
fn frees_root<M: LawfulMem>(mem: &mut M, frees: &[Oid]) -> bool
    requires alone { (v : View) × (M.at mem.old v × IsWorking v × IsAlone v) }
    ensures other { result ≡ false → (v : View) → M.at mem.old v → IsWorking v → IsAlone v → HasLookedAgain (M.at mem.new) v (λ w. FreeNoRoot (root_in (slice_index w.words)) frees.now) }
    ensures root { result ≡ true → (v : View) → M.at mem.old v → IsWorking v → IsAlone v → HasLookedAgain (M.at mem.new) v (λ w. Any (λ (id : Oid). slice_index w.words 64 ≡ id.off) frees.now) }
{
    if frees.is_empty() {
        return false;
    }
    let root = mem.load(ROOT_WORD);
    is_among(frees, root)
}

/// Takes the locks of the plan, each tried once, and looks for the objects under them, for the root among those that are to be freed, and then at the set-values' ends.
/// Where a lock is refused, the others are given back.
fn seek_objects<M: LawfulMem>(
    lane: &mut Lane<M>,
    plan: &[HeldLock],
    pending: &PendingActions,
) -> Result<(), Refusal>
    requires begun { (v : View) × (IsBegun M.at lane.old v × IsAlone v) }
    requires free { lane.old.locks.items ≡ [] }
    requires plan { IsPlan lane.old.pool lane.old.shape.lanes lane.old.shape.zones (wants_pending (named_in pending.now)) plan.now }
    requires aligned { All (λ (a : SetAction). a.off % 8 ≡ 0) pending.now.sets.items }
    ensures sought { (v : View) → IsBegun M.at lane.old v → IsAlone v → SeeksObjects M.at lane.new (named_in pending.now) v result }
    ensures causes { IfErr result IsHoldCause }
    ensures lane { lane.new ≡ record lane.old { memory = lane.new.memory; locks = lane.new.locks } }
{
    if !take_all(lane, plan) {
        give_back(lane);
        return Err(Refusal::Busy);
    }
    if !find_objects(lane, plan) {
        return Err(Refusal::NoObject);
    }
    if pending.late {
        return Err(Refusal::NoObject);
    }
    if frees_root(&mut lane.memory, pending.frees.as_slice()) {
        return Err(Refusal::RootKept);
    }
    if !check_ends(&mut lane.memory, pending.sets.as_slice()) {
        return Err(Refusal::OutOfRange);
    }
    Ok(())
}

/// Plans the locks of the objects that are named, and takes them.
fn seek_named<M: LawfulMem>(lane: &mut Lane<M>, pending: &PendingActions) -> Result<(), Refusal>
    requires begun { (v : View) × (IsBegun M.at lane.old v × IsAlone v) }
    requires free { lane.old.locks.items ≡ [] }
    requires few { length pending.now.frees.items + length pending.now.sets.items ≤ 63 }
    requires aligned { All (λ (a : SetAction). a.off % 8 ≡ 0) pending.now.sets.items }
    ensures sought { (v : View) → IsBegun M.at lane.old v → IsAlone v → SeeksObjects M.at lane.new (named_in pending.now) v result }
    ensures causes { IfErr result IsHoldCause }
    ensures lane { lane.new ≡ record lane.old { memory = lane.new.memory; locks = lane.new.locks } }
{
    let wants = wants_of(pending);
    let named = pending.frees.len() + pending.sets.len();
    match plan_locks(lane.pool, lane.shape, &wants[..named]) {
        Ok(plan) => seek_objects(lane, plan.as_slice(), pending),
        Err(refusal) => Err(refusal),
    }
}

/// Takes the objects that are named by what is pending, for a publish that has begun of a lane that is alone, each for writing: or refuses the publish. `Busy` where a lock is another
/// lane's: that is not told, and the lane is at rest. `NoObject` where something that is named is no object, or one was asked for late, of an object that was to be freed already;
/// else `RootKept` where one that is to be freed is the root, and else `OutOfRange` where a set-value passes the end of its object: the publish is told as refused, the call draws
/// its number, and the lane is at rest. What is reserved names no object.
pub fn hold_actions<M: ReservedMem>(
    lane: &mut Lane<M>,
    pending: &PendingActions,
) -> Result<(), Refusal>
    requires begun { (w : View) × BeginsToPublish M.at lane.old pending.now w }
    requires free { lane.old.locks.items ≡ [] }
    ensures held { OnOk result ((w : View) → BeginsToPublish M.at lane.old pending.now w → GoesOnTo M.at lane.new w (λ u. HoldsPending u (pending_before w))) }
    ensures refused { IfErr result (λ r. (w : View) → BeginsToPublish M.at lane.old pending.now w → RefusesToHold M.at lane.new (pending_before w) w r) }
    ensures causes { IfErr result IsHoldCause }
    ensures lane { OnOk result (lane.new ≡ record lane.old { memory = lane.new.memory; locks = lane.new.locks }) }
    ensures free { OnErr result (lane.new.locks.items ≡ []) }
    ensures busy_lane { result ≡ Err refusal.Busy → lane.new ≡ record lane.old { memory = lane.new.memory; locks = lane.new.locks } }
    ensures refused_lane { OnErr result (lane.new ≡ record lane.old { memory = lane.new.memory; locks = lane.new.locks; drawn = None; last = lane.new.last }) }
{
    let Err(refusal) = seek_named(lane, pending) else {
        return Ok(());
    };
    if refusal != Refusal::Busy {
        end_outside(lane, &Operation::Publish, Some(&Value::Refused(refusal)));
    }
    Err(refusal)
}
