ghost use Rattle.std.specs.Prelude.{◌≡◌, ℕ, true, List};
ghost use Rattle.pm_world.specs.World.{Opening, Views, Past};
ghost use Rattle.pm_world.specs.Crash.{is_kept};
ghost use Rattle.pm_world.specs.Laws.{CrashLaw, CrashLogsLaw};

/// A law: of a world, every image that a power failure may leave, with no torn record, means what the calls do that it keeps:
/// recovered, each word of an object, each bitmap and each descriptor is as these calls make it, each run that it describes is
/// one or has no block, and the header page is as it was; and its logs have no fault. Every decided call is kept. No code runs.
pub fn crash_keeps_decided_calls()
    ensures means { CrashLaw }
    ensures logs { CrashLogsLaw }
    ensures decided { (o : Opening) (views : Views) (g : Past) (image : List ℕ) (n : ℕ)
        → g.decided n ≡ true → is_kept o views g image n ≡ true }
{}
