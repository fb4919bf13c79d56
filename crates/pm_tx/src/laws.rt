ghost use Rattle.pm_tx.specs.Positions.{
  AbortsMove,
  AddsMove,
  BeginsMove,
  CommitsMove,
  EndsMove,
  EndsReturnTheError,
  IncrementsMove,
  LocksMove,
  ProcessesMove,
  PublishesMove,
  ReadsMove,
  WritesMove,
};
ghost use Rattle.pm_tx.specs.Standing.{
  AbortsTurn,
  AddsTurn,
  BeginsTurn,
  CommitsTurn,
  EndsTurn,
  IncrementsTurn,
  LocksTurn,
  ProcessesTurn,
  PublishesTurn,
  ReadsTurn,
  WritesTurn,
};

use pm_world::LawfulMem;

/// A law: a lane that stands with a history does so after each of these calls, whatever the call
/// returns: it has stopped, and the entries of its history have their facts, or it is between two
/// calls, at work, or past the work of a level, as its fields say. What the call returned turns the
/// history: it told one more operation, with its reply; or it told its last one, and has the number
/// that the lane's field tells; or nothing was told. It is all that a caller of many calls has to
/// know of its lane. No code runs.
pub fn lanes_stand<M: LawfulMem>()
    ensures begin { BeginsTurn M.at }
    ensures lock { LocksTurn M.at }
    ensures add_range { AddsTurn M.at }
    ensures write { WritesTurn M.at }
    ensures read { ReadsTurn M.at }
    ensures increment { IncrementsTurn M.at }
    ensures publish { PublishesTurn M.at }
    ensures commit { CommitsTurn M.at }
    ensures process { ProcessesTurn M.at }
    ensures abort { AbortsTurn M.at }
    ensures end { EndsTurn M.at }
{}

/// A law: where each of these calls leaves the level, the stage and the error of a lane that stands
/// with a history, by what the call returned. A call that its stage refuses changes nothing. An
/// operation at work that is refused aborts the transaction, and a lane that comes to its stop says
/// so at its level. A begin opens a level at work. A commit or an abort leads the level past its
/// work. Its end returns the transaction's error, and leaves the level below, at work or aborted for
/// the same error, or none. No code runs.
pub fn positions_follow<M: LawfulMem>()
    ensures begin { BeginsMove M.at }
    ensures lock { LocksMove M.at }
    ensures add_range { AddsMove M.at }
    ensures write { WritesMove M.at }
    ensures read { ReadsMove M.at }
    ensures increment { IncrementsMove M.at }
    ensures publish { PublishesMove M.at }
    ensures commit { CommitsMove M.at }
    ensures process { ProcessesMove M.at }
    ensures abort { AbortsMove M.at }
    ensures end { EndsMove M.at }
    ensures error { EndsReturnTheError M.at }
{}
