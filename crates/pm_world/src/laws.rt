ghost use Rattle.pm_view.specs.Steps.{Step};
ghost use Rattle.pm_world.specs.Laws.{Keeps, RightsApart};
ghost use Rattle.pm_world.specs.Runs.{RunsKeepWorlds};

/// A law: every lawful step of a lane, of each of the twenty kinds, keeps the world, whatever the other
/// lanes hold and whatever the call allocates, frees and publishes, and is answered as the lane's view
/// knows. No code runs.
pub fn lawful_steps_keep_the_world()
    ensures { (step : Step) → Keeps step }
{}

/// A law: every run of lawful steps, of any lanes, in whatever order they interleave and wherever it
/// ends, leads from a world to a world. No code runs.
pub fn runs_keep_worlds()
    ensures { RunsKeepWorlds }
{}

/// A law: no two lanes of a world own one bit. No code runs.
pub fn no_bit_is_owned_twice()
    ensures { RightsApart }
{}
