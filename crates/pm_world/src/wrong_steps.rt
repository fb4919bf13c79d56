ghost use Rattle.pm_world.specs.WrongSteps.{NoUnloggedChange, NoHastySeal, NoHastyClear};
ghost use Rattle.pm_world.specs.WrongSteps.{NoHastyGive, NoHastyRelease, NoEnteredRelease};
ghost use Rattle.pm_world.specs.WrongSteps.{NoForeignRelease, NoForeignChunkRelease};
ghost use Rattle.pm_world.specs.WrongSteps.{NoToldRelease, NoPublishedRelease};
ghost use Rattle.pm_world.specs.WrongSteps.{StoresAreInPool, OccupancyStays};

/// A law: whatever a lane's view is, none of these steps is lawful. A user's word in a block that
/// is not the lane's own is changed before its record is drained. The seal is stored while
/// anything is undrained, or cleared before all entries are applied. A lock is given back, or a
/// block released, before the log is retired. A block is released that is not the lane's own, or
/// that an entry of the lane's log changes, or that a reply of a call without a number names, but for a reservation that the call cancelled,
/// or that such a call published. And occupancy words are changed by the two steps that take and
/// release their bits alone. No code runs.
pub fn wrong_steps_are_not_lawful()
    ensures unlogged_change { NoUnloggedChange }
    ensures hasty_seal { NoHastySeal }
    ensures hasty_clear { NoHastyClear }
    ensures hasty_give { NoHastyGive }
    ensures hasty_release { NoHastyRelease }
    ensures entered_release { NoEnteredRelease }
    ensures foreign_release { NoForeignRelease }
    ensures foreign_chunk_release { NoForeignChunkRelease }
    ensures told_release { NoToldRelease }
    ensures published_release { NoPublishedRelease }
    ensures stores_in_pool { StoresAreInPool }
    ensures occupancy_stays { OccupancyStays }
{}
