ghost use Rattle.pm_action.specs.Positions.{
  CancelsMove,
  FinishesStay,
  PublishesStay,
  SetsStay,
};
ghost use Rattle.pm_action.specs.Standing.{
  CancelsTurn,
  FinishedLanesHaveFacts,
  PublishesTurn,
  SetsTurn,
};

use pm_world::LawfulMem;

/// A law: a lane that stands with a history does so after each of these calls, inside a transaction
/// and outside, whatever the call returns; and what it returned turns the history. No code runs.
pub fn lanes_stand<M: LawfulMem>()
    ensures set_value { SetsTurn M.at }
    ensures cancel { CancelsTurn M.at }
    ensures publish { PublishesTurn M.at }
{}

/// A law: where a lane that stands with a history came to the end of its work, or stopped before, the
/// entries of its view have their facts, and are the calls of the history; and the lane's field says
/// which of them waits to be decided or applied, if one does. No code runs.
pub fn finished_lanes_have_facts<M: LawfulMem>()
    ensures { FinishedLanesHaveFacts M.at }
{}

/// A law: where each of these calls leaves the level, the stage and the error of a lane that stands
/// with a history, by what the call returned. They stay, but where a cancel in a transaction or a
/// publish outside comes to the lane's stop: then the lane says so, where it is. No code runs.
pub fn positions_follow<M: LawfulMem>()
    ensures set_value { SetsStay M.at }
    ensures cancel { CancelsMove M.at }
    ensures publish { PublishesStay M.at }
    ensures finish { FinishesStay M.at }
{}
