ghost use Rattle.pm_call.specs.Between.{LookedCallsMayOpen};
ghost use Rattle.pm_call.specs.LockRefusals.{
  DeepBeginsGiveUp,
  LockRefusals,
  RefusedLocksGiveUp,
  TriedLocksLeaveWork,
};
ghost use Rattle.pm_call.specs.LocksGot.{
  BusyLocksAreTried,
  GotLocksAreTaken,
  MissedLocksAreTried,
  RefusedRaisesAreTried,
};
ghost use Rattle.pm_call.specs.Locking.{
  CallsMayOpen,
  LanesAtWorkMayLock,
  LocksMayBeWanted,
  ObjectsMayBeLocked,
  OpenedLanesMayLock,
  TransactionsMayBegin,
};

use pm_world::LawfulMem;

/// A law: a lane that may lock may ask `pm_lock` for the locks of any objects that it wants. No
/// code runs.
pub fn locks_may_be_wanted()
    ensures { LocksMayBeWanted }
{}

/// A law: a lane at work that took the locks that are wanted, found an object under each, and
/// raised those that are to be written, may tell the operation, a lock or a begin of an inner
/// level; it is at work then, with the longer list of locks. No code runs.
pub fn objects_may_be_locked()
    ensures { ObjectsMayBeLocked }
{}

/// A law: the plain model's first refusal of a lock, or of a begin of an inner level, is that of
/// the first of these tests that applies: too many locks, an id without a place, a lock of
/// another lane, no object under a lock that was taken. No code runs.
pub fn refusals_of_locks_are_the_models()
    ensures { LockRefusals }
{}

/// A law: a lock, or a begin of an inner level, that is refused so gives the transaction up. No
/// code runs.
pub fn refused_locks_give_up()
    ensures { RefusedLocksGiveUp }
{}

/// A law: a lane that got some of the locks that are wanted, and looked under some of them,
/// before it is refused, is at work still with the list of locks that it had; so its transaction
/// may be given up. No code runs.
pub fn tried_locks_leave_work()
    ensures { TriedLocksLeaveWork }
{}

/// A law: what `pm_lock` promises of the locks that are wanted, got by tries or by waits, is what
/// these laws ask: of locks that have an object under each, of those under which one has none, of
/// those before a refused one, and of those before a raise that is refused. No code runs.
pub fn locks_are_got<M: LawfulMem>()
    ensures got { (memory : M) → GotLocksAreTaken (M.at memory) }
    ensures missed { (memory : M) → MissedLocksAreTried (M.at memory) }
    ensures busy { BusyLocksAreTried }
    ensures raise { (memory : M) → RefusedRaisesAreTried (M.at memory) }
{}

/// A law: a lane in whose open call nothing is told or recorded yet, and that holds no lock, may
/// take the locks that are wanted, and tell the begin of an outermost level; it is at work then.
/// No code runs.
pub fn transactions_may_begin()
    ensures { TransactionsMayBegin }
{}

/// A law: a lane between two calls opens its call as it sees a number that is not the last, and
/// may lock then; also where it looked before, and found none left. No code runs.
pub fn calls_may_open()
    ensures first { CallsMayOpen }
    ensures looked { LookedCallsMayOpen }
{}

/// A law: a lane at work may lock, and so may one whose call is open. No code runs.
pub fn lanes_at_work_may_lock()
    ensures at_work { LanesAtWorkMayLock }
    ensures opened { OpenedLanesMayLock }
{}

/// A law: a begin at the deepest level, 64, is refused, and gives the transaction up. No code
/// runs.
pub fn deep_begins_give_up()
    ensures { DeepBeginsGiveUp }
{}
