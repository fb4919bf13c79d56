ghost use Rattle.std.specs.Prelude.{ℕ};
ghost use Rattle.pm_memory.specs.Runs.{Made};
ghost use Rattle.pm_view.specs.Steps.Step.{Load};
ghost use Rattle.pm_world.specs.InWorld.{InWorld};
ghost use Rattle.pm_view.specs.Steps.{Step};
ghost use Rattle.pm_view.specs.View.{View};
ghost use Rattle.pm_world.specs.Lawful.{Allowed};
ghost use Rattle.pm_world.specs.Lent.{tells};

use crate::{LentOperation, LentValue};
use pm_memory::LaneSync;

/// A lane's memory that asks no more of a step than that it is lawful, and keeps its promises of
/// each lawful step. So whoever steps on one needs only that the lane's view allows the step.
pub trait LawfulMem: LaneSync {
    /// The word's value, as `load` tells it; and the lane's view is one of a world in which the word
    /// has that value.
    fn see(&mut self, word: u64) -> u64
        requires { (found : ℕ) → Self.can self.old (Load word found) }
        ensures made { Made Self.may (Self.at self.old) (Self.at self.new) (Load word result) }
        ensures world { (v : View) → Self.at self.old v → Self.may v (Load word result) → InWorld v word result };

    /// Adds an operation to the lane's open call, with the value that it gave or none: a load of
    /// word 0, which changes no word.
    fn tell(&mut self, operation: LentOperation<'_>, reply: Option<LentValue<'_>>)
        requires { Self.can self.old (tells operation reply) }
        ensures { Made Self.may (Self.at self.old) (Self.at self.new)
            (tells operation.entry reply.entry) };

    /// The memory takes each step that the lane's view allows.
    ghost meets: { (m : Self) (v : View) (s : Step) → Self.at m v → Allowed v s → Self.can m s };

    /// What the memory promises of a step, it promises for each view that allows the step.
    ghost grants: { (v : View) (s : Step) → Allowed v s → Self.may v s };
}
