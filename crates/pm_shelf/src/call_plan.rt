//! Which calls of a failing shelf or sink are to fail, and how many did.
ghost use Rattle.std.specs.Prelude.{◌≡◌, ◌≤◌};
ghost use Rattle.pm_shelf.specs.Plan.{Plan, is_due, after_call};

use std::marker::Model;

/// The numbers of the calls that are to fail, from 0, and the counts of calls and of failures,
/// which stand still at the largest `u64`.
#[derive(Debug, Drop)]
pub(crate) struct CallPlan {
    failing: Vec<u64>,
    calls: u64,
    faults: u64,
}

impl Model for CallPlan {
    ghost use Rattle.pm_shelf.specs.Plan.{Plan};

    ghost Value = { Plan };

    ghost view = { λ p. record { failing = p.failing.items; calls = p.calls; faults = p.faults } };
}

impl CallPlan {
    /// No call was made yet.
    pub(crate) fn new(failing: Vec<u64>) -> Self
        ensures { result ≡ record { failing = failing.items; calls = 0; faults = 0 } }
    {
        CallPlan {
            failing,
            calls: 0,
            faults: 0,
        }
    }

    /// How many calls failed.
    pub(crate) fn faults(&self) -> u64
        ensures { result ≡ self.now.faults }
    {
        self.faults
    }

    /// Counts a call, and tells whether it is to fail.
    pub(crate) fn count_call(&mut self) -> bool
        ensures due { result ≡ is_due self.old }
        ensures counted { self.new ≡ after_call self.old }
        ensures no_fewer { self.old.faults ≤ self.new.faults }
    {
        let is_due = self.failing.contains(&self.calls);
        self.calls = self.calls.saturating_add(1);
        if is_due {
            self.faults = self.faults.saturating_add(1);
        }
        is_due
    }
}
