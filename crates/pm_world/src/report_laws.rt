ghost use Rattle.pm_view.specs.Steps.{Step};
ghost use Rattle.pm_world.specs.Reports.{NumbersLast, StopIsShown, OccupancyIsExact};
ghost use Rattle.pm_world.specs.CauseLaws.{RefusalShowsLock, LoadShowsTaken, TakenIsSomeones};
ghost use Rattle.pm_world.specs.CauseLaws.{RefusalShowsTaken};
ghost use Rattle.pm_world.specs.CauseLaws.{CausesBegin, KeepsCauses, RunsKeepCauses};

/// A law: of every world, numbers do not run out, a stop word that is set shows a lane at its stop
/// number, and an occupancy bit is set exactly where its block is taken. No code runs.
pub fn worlds_bear_reports()
    ensures numbers { NumbersLast }
    ensures stop { StopIsShown }
    ensures occupancy { OccupancyIsExact }
{}

/// A law: in every world, a refused try of a line's lock shows that another lane holds it, and a
/// lane finds an occupancy bit set exactly where its block is taken: allocated, or some lane's own.
/// No code runs.
pub fn steps_show_causes()
    ensures lock { RefusalShowsLock }
    ensures occupancy { LoadShowsTaken }
    ensures taken { TakenIsSomeones }
    ensures bits { RefusalShowsTaken }
{}

/// A law: each `Busy`, each `NoObject` and each word of a zone without room that a lane's view keeps
/// has its cause, in terms of the commit numbers of the history. It holds as a world opens, every
/// lawful step of every lane keeps it, and so does every run of such steps. No code runs.
pub fn answers_have_causes()
    ensures begin { CausesBegin }
    ensures goes_on { (step : Step) → KeepsCauses step }
    ensures runs { RunsKeepCauses }
{}
