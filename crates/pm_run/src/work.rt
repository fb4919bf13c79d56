ghost use Rattle.std.specs.Prelude.{◌≡◌, ℕ};
ghost use Rattle.pm_call.specs.Standing.{IsLaneStopped};
ghost use Rattle.pm_run.specs.NewLanes.{IsNew};
ghost use Rattle.pm_view.specs.View.{View};

use pm_world::{Lane, LawfulMem};
use std::sync::Wait;

/// What runs on a lane.
pub trait Work {
    /// What is asked of the work before it runs.
    ghost can: { Self → Type 0 };

    /// What is so of the work before it ran, of the work once it ran on a lane, and of the view in
    /// which it left the lane.
    ghost left: { Self → Self → View → Type 0 };

    /// Runs on a lane of which nothing was asked yet, up to the work's end or the lane's stop.
    fn run<M: LawfulMem, R: Wait>(&mut self, rt: &R, lane: &mut Lane<M>)
        requires work { can self.old }
        requires lane { (number : ℕ) × IsNew M.at lane.old number }
        ensures { (number : ℕ) → IsNew M.at lane.old number
            → (x : IsLaneStopped M.at lane.new) × (x.view.fixed.lane ≡ number)
            × left self.old self.new x.view };
}
