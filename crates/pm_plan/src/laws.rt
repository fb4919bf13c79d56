ghost use Rattle.pm_plan.specs.Plans.{HasMadeRoom, IsPersisted, Ready, makes_room, persists_all};
ghost use Rattle.pm_view.specs.View.{View};
ghost use Rattle.pm_view.specs.Views.{after_all};

/// A law: from each view all that is undrained may be flushed and drained, and nothing is undrained
/// then. No code runs.
pub fn all_may_be_persisted()
    ensures { (v : View) → Ready v (persists_all v) × IsPersisted v (after_all v (persists_all v)) }
{}

/// A law: from each view room may be made for one more change. No code runs.
pub fn room_may_be_made()
    ensures { (v : View) → Ready v (makes_room v) × HasMadeRoom v (after_all v (makes_room v)) }
{}
