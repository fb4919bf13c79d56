//! A shelf in memory whose calls fail by plan.
ghost use Rattle.std.specs.Prelude.{◌≡◌, ◌↔◌, ℕ, ◌≤◌, List, [], None, IsTrue, OnOk, OnErr, IsErrOf, option_copied};
ghost use Rattle.pm_shelf.specs.Outside.{Rose, IsWhole, IsFront, IsMissing, IsThere, Adds, MayAddPart};
ghost use Rattle.pm_shelf.specs.Plan.{is_due, after_call};

use crate::call_plan::CallPlan;
use crate::{MapShelf, Shelf, ShelfFault};
use std::alloc::Global;

/// A `MapShelf` with a list of the calls that are to fail. Reads and writes are counted together,
/// from 0. A call that is to fail answers `Failed`, changes nothing and raises the count of faults
/// by one; no other call answers `Failed` or raises it. Both counts stand still at the largest
/// `u64`.
#[derive(Debug, Drop)]
pub struct FailingShelf {
    shelf: MapShelf,
    plan: CallPlan,
}

impl FailingShelf {
    ghost use Rattle.pm_shelf.specs.FailingShelf.{shelf_plan, failing_held_by};

    /// A shelf with no names, and the numbers of the calls that are to fail, in any order.
    pub fn new(alloc: Global, failing: Vec<u64>) -> Self
        ensures empty { (name : List ℕ) → failing_held_by result name ≡ None }
        ensures plan { shelf_plan result ≡
            record { failing = failing.items; calls = 0; faults = 0 } }
    {
        FailingShelf {
            shelf: MapShelf::new(alloc),
            plan: CallPlan::new(failing),
        }
    }

    /// The bytes of a name, or `None` where it is not there. This is not counted as a call.
    pub fn get(&self, name: &str) -> Option<&[u8]>
        ensures { option_copied result ≡ failing_held_by self.now name.now }
    {
        self.shelf.get(name)
    }

    /// How many calls failed.
    pub fn faults(&self) -> u64
        ensures { result ≡ (shelf_plan self.now).faults }
    {
        self.plan.faults()
    }
}

impl Shelf for FailingShelf {
    ghost use Rattle.pm_shelf.specs.FailingShelf.{shelf_plan, failing_content};

    ghost content = { failing_content };

    ghost faults = { λ shelf. (shelf_plan shelf).faults };

    /// As the trait says, and it fails exactly by plan.
    fn read(&mut self, name: &str, limit: u64, into: &mut Vec<u8>) -> Result<(), ShelfFault>
        requires { into.old.items ≡ [] }
        ensures content { failing_content self.new ≡ failing_content self.old }
        ensures whole { OnOk result
            (IsWhole (failing_content self.old) name.now limit into.new.items) }
        ensures too_long { IsErrOf result ShelfFault.TooLong →
            IsFront (failing_content self.old) name.now limit into.new.items }
        ensures missing { IsErrOf result ShelfFault.Missing →
            IsMissing (failing_content self.old) name.now }
        ensures never_exists { IsErrOf result ShelfFault.Exists → ⊥ }
        ensures failed { IsErrOf result ShelfFault.Failed →
            Rose (shelf_plan self.old).faults (shelf_plan self.new).faults }
        ensures count { (shelf_plan self.old).faults ≤ (shelf_plan self.new).faults }

        ensures by_plan { IsErrOf result ShelfFault.Failed ↔ IsTrue (is_due (shelf_plan self.old)) }
        ensures counted { shelf_plan self.new ≡ after_call (shelf_plan self.old) }
        ensures nothing_read { IsErrOf result ShelfFault.Failed → into.new.items ≡ [] }
    {
        if self.plan.count_call() {
            return Err(ShelfFault::Failed);
        }
        self.shelf.read(name, limit, into)
    }

    /// As the trait says, it fails exactly by plan, and each error leaves what the shelf holds.
    fn write(&mut self, name: &str, bytes: &[u8]) -> Result<(), ShelfFault>
        ensures added { OnOk result
            (Adds (failing_content self.old) (failing_content self.new) name.now bytes.now) }
        ensures exists { IsErrOf result ShelfFault.Exists →
            IsThere (failing_content self.old) name.now
            × (failing_content self.new ≡ failing_content self.old) }
        ensures failed { IsErrOf result ShelfFault.Failed →
            Rose (shelf_plan self.old).faults (shelf_plan self.new).faults }
        ensures part { OnErr result
            (MayAddPart (failing_content self.old) (failing_content self.new) name.now bytes.now) }
        ensures never_missing { IsErrOf result ShelfFault.Missing → ⊥ }
        ensures never_too_long { IsErrOf result ShelfFault.TooLong → ⊥ }
        ensures count { (shelf_plan self.old).faults ≤ (shelf_plan self.new).faults }

        ensures by_plan { IsErrOf result ShelfFault.Failed ↔ IsTrue (is_due (shelf_plan self.old)) }
        ensures counted { shelf_plan self.new ≡ after_call (shelf_plan self.old) }
        ensures kept { OnErr result (failing_content self.new ≡ failing_content self.old) }
    {
        if self.plan.count_call() {
            return Err(ShelfFault::Failed);
        }
        self.shelf.write(name, bytes)
    }
}
