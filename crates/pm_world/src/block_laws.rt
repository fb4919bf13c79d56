ghost use Rattle.pm_world.specs.BlockLines.{LinesApart, RunsStay, ClassesStay};

/// A law: in every world, two blocks that share a line are one, each of them allocated in the
/// settled words or some lane's own. No code runs.
pub fn blocks_share_no_line()
    ensures { LinesApart }
{}

/// A law: a run stays a run whatever step a lane makes, and its class stays at every lawful step.
/// No code runs.
pub fn a_run_stays_a_run()
    ensures run { RunsStay }
    ensures class { ClassesStay }
{}
