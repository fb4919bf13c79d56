ghost use Rattle.pm_crash.specs.Facts.{DrawsKeepFacts, HistoriesHaveFacts, HistoriesTriedLocks};
ghost use Rattle.pm_crash.specs.Facts.{HistoriesSawMisses, NoObjectsHaveCauses};
ghost use Rattle.pm_crash.specs.Facts.{EffectsAreFacts, EffectsAreSteps, QuietCallsAreSteps};
ghost use Rattle.pm_crash.specs.Missed.{RunsKeepClassesKnown};
ghost use Rattle.pm_crash.specs.Laws.{CallIsStep, EverySetMayBeKept, HistoryHolds};

/// A law: a call whose fact holds is a step of the plain model, from whatever pool the kept bits
/// before it hold, whichever calls are kept, the decided ones among them. No code runs.
pub fn a_call_is_a_step()
    ensures { CallIsStep }
{}

/// A law: where each call has its fact, the bits after each number hold the pool to which the kept
/// calls lead, one whole call after another; and beside the decided calls any set of those in
/// flight may be kept: of two both, one, or none. No code runs.
pub fn a_history_holds_its_replay()
    ensures replay { HistoryHolds }
    ensures sets { EverySetMayBeKept }
{}

/// A law: a call whose difference changes a heap, and whose blocks have the items to which the
/// model's call leads, is a step; and where it is so from all bits that may precede it, it has its
/// fact. A call that changes nothing is a step where the model's call leaves the pool as it is. No
/// code runs.
pub fn effects_are_facts()
    ensures steps { EffectsAreSteps }
    ensures facts { EffectsAreFacts }
    ensures quiet { QuietCallsAreSteps }
{}

/// A law: a lane whose call has its fact as it takes its number, and whose entries have theirs, has
/// entries that all have theirs then. Of a world where the entries of each lane have their facts, each
/// call of the history has its own; one whose last operation was told as `Busy` had tried a lock
/// that this operation wants, and the try was refused; and of one that was recorded as `NoObject` its
/// lane saw why. No code runs.
pub fn entries_have_facts()
    ensures draws { DrawsKeepFacts }
    ensures histories { HistoriesHaveFacts }
    ensures tried { HistoriesTriedLocks }
    ensures missed { HistoriesSawMisses }
{}

/// A law: in a history a call whose last operation was recorded as `NoObject` has its cause. An object
/// that this operation names is of another pool; or no object stood at its offset after some number,
/// not before the lane's last and below the call's own; or the call itself freed it; or the lane saw
/// a run of blocks without lines. Or the call published what asks something of an object that is to
/// be freed already. The classes of runs that a lane knew as it took a number it knows to the end of
/// every run of lawful steps. No code runs.
pub fn missing_objects_have_causes()
    ensures causes { NoObjectsHaveCauses }
    ensures classes { RunsKeepClassesKnown }
{}
