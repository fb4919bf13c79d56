ghost use Rattle.pm_call.specs.Commits.{CommittedArePast, InnerLevelsMayBeCommitted, OutermostLevelsMayBeCommitted};
ghost use Rattle.pm_call.specs.GivenUp.{TransactionsMayBeGivenUp};
ghost use Rattle.pm_call.specs.Histories.{AddsTell, CancelsTell, CommitsTell, IncrementsTell, InnerCommitsTell, LogsTell, LoneCallsTell, PublishesTell, ReadsTell, RollbacksTell, WritesTell};
ghost use Rattle.pm_call.specs.Positions.{
  AbortedLanesMayEnd,
  CommittedLanesMayEnd,
  RestingLanesMayBegin,
  StoppedLanesAreRefused,
  WorkingLanesMayWork,
};
ghost use Rattle.pm_call.specs.Stages.{GivenUpArePast};
ghost use Rattle.pm_call.specs.Stores.{
  CountedCallsAreThree,
  DrainsAreFew,
  EntriesAreStored,
  FlushesAreFew,
  OverHasNoEntry,
  RecordsAreFew,
  RunsMakeFewStores,
  TableOfStores,
  WorkHasNoEntry,
};

use pm_world::LawfulMem;

/// A law: a lane at work may give its transaction up, for an operation that is refused or that aborts
/// it, whatever number it takes; the call is over then, and has the fact that it owes. No code runs.
pub fn transactions_may_be_given_up()
    ensures { TransactionsMayBeGivenUp }
{}

/// A law: a lane at work may commit an inner level, by telling it alone; the transaction is at work
/// then, one level less. No code runs.
pub fn inner_levels_may_be_committed()
    ensures { InnerLevelsMayBeCommitted }
{}

/// A law: a lane at work that knows each word that it published may commit its outermost level,
/// whatever number it takes, and whatever its steps find; the call is over then, and has the fact that
/// it owes. No code runs.
pub fn outermost_levels_may_be_committed()
    ensures { OutermostLevelsMayBeCommitted }
{}

/// A law: a lane whose call was given up, for an error, is past its work, so that its level may end.
/// No code runs.
pub fn calls_given_up_are_past_work<M: LawfulMem>()
    ensures { GivenUpArePast M.at }
{}

/// A law: a lane whose call was committed at its outermost level is past its work, so that its level
/// may end. No code runs.
pub fn committed_calls_are_past_work<M: LawfulMem>()
    ensures { CommittedArePast M.at }
{}

/// A law: what the plan of each operation makes of its lane's history. One that goes on tells the
/// operation alone, and leaves the calls that have their numbers; one that ends its call tells the
/// operation last, and the call has its number then. A lane that stops on the way of such a plan has
/// told the operation last where its call has a number, and else has no more calls than before. No
/// code runs.
pub fn operations_tell()
    ensures adds { AddsTell }
    ensures writes { WritesTell }
    ensures reads { ReadsTell }
    ensures increments { IncrementsTell }
    ensures cancels { CancelsTell }
    ensures inner_commits { InnerCommitsTell }
    ensures rollbacks { RollbacksTell }
    ensures commits { CommitsTell }
    ensures logs { LogsTell }
    ensures lone_calls { LoneCallsTell }
    ensures publishes { PublishesTell }
{}

/// A law: how many stores the plan of each operation makes at most, and of the operations of a run
/// their sum, also where the lane stops on the way: docs/FORMAT.md, "How many counted calls". Each
/// operation begins where no word of an entry is stored, as at work and between two calls. Of any
/// steps that a lane may make from where nothing is undrained, at most as many are flushes as are
/// stores, and at most as many are drains; these three are all counted calls. No code runs.
pub fn plans_make_few_stores()
    ensures table { TableOfStores }
    ensures at_work { WorkHasNoEntry }
    ensures over { OverHasNoEntry }
    ensures entries { EntriesAreStored }
    ensures records { RecordsAreFew }
    ensures runs { RunsMakeFewStores }
    ensures flushes { FlushesAreFew }
    ensures drains { DrainsAreFew }
    ensures calls { CountedCallsAreThree }
{}

/// A law: where a lane is in its transactions tells which calls its stage refuses. At work it refuses
/// no operation. Between two calls it refuses each operation of a transaction, for none is open, so
/// that the outermost level may begin. Past the work of a level, committed or aborted, the level may
/// end. After the lane's stop each call is refused. No code runs.
pub fn positions_tell_refusals<M: LawfulMem>()
    ensures working { WorkingLanesMayWork M.at }
    ensures resting { RestingLanesMayBegin M.at }
    ensures committed { CommittedLanesMayEnd M.at }
    ensures aborted { AbortedLanesMayEnd M.at }
    ensures stopped { StoppedLanesAreRefused M.at }
{}
