ghost use Rattle.pm_view.specs.Steps.{Step};
ghost use Rattle.pm_world.specs.SoloLanes.{OpenedStarts, OpenedStands, StandsAfter, StandingSurvives};
ghost use Rattle.pm_world.specs.SoloWorld.{CallsMove, CallsKeepWorlds, CallsKeepForms, SurvivorsAreTheWorlds};

/// A law: each call of one lane's memory is one step of lane 0 on the words that lanes share; of a
/// world whose words are the memory's, a call that lane 0's view allows leads to a world whose
/// words are the memory's after it, whatever other lanes hold. No code runs.
pub fn solo_calls_keep_worlds()
    ensures moves { (step : Step) → CallsMove step }
    ensures worlds { (step : Step) → CallsKeepWorlds step }
    ensures formed { (step : Step) → CallsKeepForms step }
{}

/// A law: what a power failure may leave of a memory's words, it may leave of the world whose
/// words they are, for any number of lanes: each image that survives in the memory survives in the
/// world. No code runs.
pub fn memory_survivors_survive_in_worlds()
    ensures { SurvivorsAreTheWorlds }
{}

/// A law: a memory before its first call is that of one lane before any step; where its words open
/// a world, the memory stands in that world, with lane 0 asked nothing and an empty history; so it
/// does after each call that lane 0's view allows; and what a power failure may leave of a memory
/// that stands in a world, it may leave of that world. No code runs.
pub fn solo_memory_stands_in_its_world()
    ensures starts { OpenedStarts }
    ensures opened { OpenedStands }
    ensures calls { (step : Step) → StandsAfter step }
    ensures survivors { StandingSurvives }
{}
