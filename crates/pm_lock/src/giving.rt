ghost use Rattle.pm_view.specs.View.{View};
ghost use Rattle.pm_view.specs.Views.{after_all};
ghost use Rattle.pm_lock.specs.Holding.{MayGiveAll};
ghost use Rattle.pm_lock.specs.Locking.{GivenBack, Stands};
ghost use Rattle.pm_lock.specs.Steps.{gives};

use pm_world::{HeldLock, Lane, LawfulMem};

/// Gives each of these locks back, in their order.
fn give_all<M: LawfulMem>(mem: &mut M, locks: &[HeldLock])
    requires { (v : View) × M.at mem.old v × MayGiveAll v locks.now }
    ensures { (v : View) → M.at mem.old v → MayGiveAll v locks.now → M.at mem.new (after_all v (gives locks.now)) }
{
    for held in locks {
        mem.give(held.line);
    }
}

/// Gives each of the lane's locks back, in the order in which it took them.
pub fn give_back<M: LawfulMem>(lane: &mut Lane<M>)
    requires { Stands M.at lane.old (λ v. MayGiveAll v lane.old.locks.items) }
    ensures { GivenBack M.at lane.old lane.new }
{
    give_all(&mut lane.memory, lane.locks.as_slice());
    lane.locks.clear();
}
