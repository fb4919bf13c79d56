ghost use Rattle.pm_view.specs.Steps.{Step};
ghost use Rattle.pm_crash.specs.Fates.{AwaitsBegin, KeepsAwaits, RunsKeepAwaits};
ghost use Rattle.pm_crash.specs.Fates.{OpenIsJudged, OthersAreKept};

/// A law: where a lane stored its seal or its next generation and did not drain it, nothing else
/// of the lane is undrained. It holds as lanes begin, and every lawful step and every run of them
/// keeps it. No code runs.
pub fn awaited_stores_are_single()
    ensures begins { AwaitsBegin }
    ensures goes_on { (step : Step) → KeepsAwaits step }
    ensures runs { RunsKeepAwaits }
{}

/// A law: whether an image keeps the call that a lane has open is told from its seal and its
/// generation, in the image and as they would be if all that the lane has undrained were lost.
/// Each other call of the lane is kept by every image. No code runs.
pub fn open_calls_have_fates()
    ensures others { OthersAreKept }
    ensures open_call { OpenIsJudged }
{}
