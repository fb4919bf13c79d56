ghost use Rattle.pm_root.specs.Standing.{RootsTurn};

use pm_world::LawfulMem;

/// A law: a lane that stands with a history does so, with the same, after a look at the root's id,
/// whatever that returns. No code runs.
pub fn lanes_stand<M: LawfulMem>()
    ensures { RootsTurn M.at }
{}
