ghost use Rattle.pm_crash.specs.Answers.{KnownClassesHold, MissedIsGone, NoBlockNoObject, ImagesLackObject};
ghost use Rattle.pm_crash.specs.Answers.{CausesBearReports, FullZoneIsGot, RunsHaveCauses};
ghost use Rattle.pm_crash.specs.Answers.{LinesGetNone, OthersAreLines, OthersGetTheRest};
ghost use Rattle.pm_crash.specs.Answers.{LinesHaveCauses, FullRuns, ImagesHaveObject};

/// A law: a look that misses a block has its cause in the pools of the history: after the entries up
/// to some number, at least that of the lane's last entry and below the call's own, no object stands
/// at the block's offset, whichever undecided calls are kept, and so after those that an image does
/// not lose. Where a zone has no room for so many chunks, the lanes got at least as many of its chunks
/// as it had disjoint stretches of so many free ones at the opening. Each `Busy`, `NoObject` and full
/// zone of a run from an opening has its cause so. No code runs.
pub fn reports_have_causes()
    ensures classes { KnownClassesHold }
    ensures gone { MissedIsGone }
    ensures no_block { NoBlockNoObject }
    ensures images { ImagesLackObject }
    ensures zones { FullZoneIsGot }
    ensures causes { CausesBearReports }
    ensures runs { RunsHaveCauses }
{}

/// A law: where a script's line that got no chunk of a zone finds no room there for so many chunks
/// in a row, the other lines got at least as many chunks of it as it had disjoint stretches of so
/// many free ones at the opening: those of other lanes, and those of its own lane before. What they
/// got is the sum over them, however each lane's run is cut in lines. Where a lane finds the bit of
/// a run's block set, an object stands in the block, whichever undecided calls are kept, and so in
/// every image; or some lane reserved it, frees it, or makes the run. No code runs.
pub fn lines_without_room_have_causes()
    ensures none { LinesGetNone }
    ensures sums { OthersAreLines }
    ensures rest { OthersGetTheRest }
    ensures causes { LinesHaveCauses }
    ensures full_runs { FullRuns }
    ensures images { ImagesHaveObject }
{}
