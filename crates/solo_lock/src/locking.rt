ghost use Rattle.std.specs.Prelude.{◌≡◌, ◌<◌, ◌≤◌, [], false, length, map, true};
ghost use Rattle.std.specs.List.{AllByRecursion};
ghost use Rattle.solo_memory.specs.Runs.{Made};
ghost use Rattle.solo_view.specs.View.{View};
ghost use Rattle.solo_view.specs.Views.{after};
ghost use Rattle.solo_world.specs.Lanes.{lock_of};
ghost use Rattle.solo_world.specs.Sequences.{IsMade, IsReady};
ghost use Rattle.solo_lock.specs.Begun.{IsBegun, IsLaneBegun};
ghost use Rattle.solo_lock.specs.Locking.{HasNotTaken, HasTaken, HoldsUnfound, IsFreeLine, IsGivenBack, gives, takes};
ghost use Rattle.solo_lock.specs.Plans.{IsChunkLine, Rises, unfound};

use solo_world::{HeldLock, Lane, LawfulMem};

/// Tries a line's lock once.
fn try_line<M: LawfulMem>(lane: &mut Lane<M>, line: u64, write: bool) -> bool
    requires free { (v : View) × (IsBegun M.at lane.old v × IsFreeLine v line) }
    ensures made { Made (M.at lane.old.memory) (M.at lane.new.memory) (takes line write result) }
    ensures else_same { lane.new ≡ record lane.old { memory = lane.new.memory } }
{
    if write {
        lane.memory.take_write(line)
    } else {
        lane.memory.take_read(line)
    }
}

/// Tries the lock of a line once, for a call that has begun: whether the lane holds it now. No block was found under it yet.
pub fn take_line<M: LawfulMem>(lane: &mut Lane<M>, line: u64, write: bool) -> bool
    requires free { (v : View) × (IsBegun M.at lane.old v × IsFreeLine v line) }
    requires room { length lane.old.locks.items < 64 }
    ensures made { Made (M.at lane.old.memory) (M.at lane.new.memory) (takes line write result) }
    ensures taken { (v : View) → IsBegun M.at lane.old v → IsFreeLine v line → IsBegun M.at lane.new (after v (takes line write result)) }
    ensures else_same { lane.new ≡ record lane.old { memory = lane.new.memory; locks = lane.new.locks } }
{
    let won = try_line(lane, line, write);
    if won {
        lane.locks.push(HeldLock {
            line,
            write,
            block: None,
        });
    }
    won
}

/// Tries the locks of these lines, each once and in their order, until one is refused: whether the lane holds all of them now. Where it
/// does not, it holds those in front of the refused one.
pub fn take_all<M: LawfulMem>(lane: &mut Lane<M>, plan: &[HeldLock]) -> bool
    requires begun { IsLaneBegun M.at lane.old }
    requires free { lane.old.locks.items ≡ [] }
    requires few { length plan.now ≤ 64 }
    requires rises { Rises plan.now }
    requires chunks { AllByRecursion (IsChunkLine lane.old.shape.lanes lane.old.shape.zones) plan.now }
    ensures taken { result ≡ true → (v : View) → IsBegun M.at lane.old v → HasTaken M.at lane.new v (map lock_of (map unfound plan.now)) }
    ensures not_taken { result ≡ false → (v : View) → IsBegun M.at lane.old v → HasNotTaken M.at lane.new v }
    ensures else_same { lane.new ≡ record lane.old { memory = lane.new.memory; locks = lane.new.locks } }
{
    for held in plan {
        if !take_line(lane, held.line, held.write) {
            return false;
        }
    }
    true
}

/// Gives each lock back, in their order.
pub fn give_all<M: LawfulMem>(mem: &mut M, locks: &[HeldLock])
    requires { IsReady (M.at mem.old) (gives locks.now) }
    ensures { IsMade (M.at mem.old) (M.at mem.new) (gives locks.now) }
{
    for held in locks {
        mem.give(held.line);
    }
}

/// Gives each of the lane's locks back, under which no block was found: it holds none then, and rests.
pub fn give_back<M: LawfulMem>(lane: &mut Lane<M>)
    requires held { (v : View) × HoldsUnfound M.at lane.old v }
    ensures given { (v : View) → HoldsUnfound M.at lane.old v → IsGivenBack M.at lane.new v }
    ensures else_same { lane.new ≡ record lane.old { memory = lane.new.memory; locks = lane.new.locks } }
{
    give_all(&mut lane.memory, lane.locks.as_slice());
    lane.locks.clear();
}
