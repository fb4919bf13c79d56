ghost use Rattle.pm_view.specs.Steps.{Step};
ghost use Rattle.pm_crash.specs.Laws.{CallsSeeRoots, FootprintsBegin, KeepsFootprints, RunsKeepFootprints};

/// A law: whichever of the calls that are not decided are kept, the bits before each call of the
/// history are as its lane found them, no block of its own is allocated in them, and what it saw
/// of the root word under locks that it holds is so. It holds as a world opens, and every lawful
/// step and every run of them keeps it. No code runs.
pub fn footprints_stand()
    ensures begins { FootprintsBegin }
    ensures goes_on { (step : Step) → KeepsFootprints step }
    ensures runs { RunsKeepFootprints }
    ensures roots { CallsSeeRoots }
{}
