ghost use Rattle.pm_view.specs.Steps.{Step};
ghost use Rattle.pm_crash.specs.Described.{ClassesBegin, KeepsClasses, RunsKeepClasses};

/// A law: each descriptor in memory that tells of a run tells of one of some class. It holds as a
/// world opens, and every lawful step and every run of them keeps it. No code runs.
pub fn descriptors_have_classes()
    ensures begins { ClassesBegin }
    ensures goes_on { (step : Step) → KeepsClasses step }
    ensures runs { RunsKeepClasses }
{}
