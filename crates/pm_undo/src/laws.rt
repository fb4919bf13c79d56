ghost use Rattle.std.specs.Prelude.{ℕ, List, ◌+◌, ◌≤◌};
ghost use Rattle.pm_plan.specs.Plans.{Ready};
ghost use Rattle.pm_view.specs.View.{View};
ghost use Rattle.pm_view.specs.Views.{after_all};
ghost use Rattle.pm_plan.specs.Plans.{stores_from};
ghost use Rattle.pm_undo.specs.Plans.{restores, retires, snapshots};
ghost use Rattle.pm_undo.specs.Ranges.{HoldingsStay, StaysBetween};
ghost use Rattle.pm_undo.specs.Ranges.{RangesAreRecorded, RangesMayBeSnapshot, RangesMayBeWritten};
ghost use Rattle.pm_undo.specs.Undoing.{needed};
ghost use Rattle.pm_undo.specs.Working.{CanRetire, CanSnapshot, CanWrite, HasSlots};
ghost use Rattle.pm_undo.specs.Working.{IsRestored, IsRetired, IsSnapshot, IsWorking, IsWritten};

use pm_world::LawfulMem;

/// A law: a lane at work that may record each of the records that a range needs, and has slots for
/// them, may make the snapshot's calls; its records stand then, and it is at work as it was. No
/// code runs.
pub fn snapshots_are_lawful()
    ensures { (v : View) (place len : ℕ)
        → CanSnapshot v (needed v place len) → HasSlots v (needed v place len)
        → Ready v (snapshots place len v)
        × IsSnapshot v (needed v place len) (after_all v (snapshots place len v)) }
{}

/// A law: after a snapshot every word of the range has a record. No code runs.
pub fn snapshots_record_their_range()
    ensures { RangesAreRecorded }
{}

/// A law: once a range is snapshot, and its words were looked at, they may be written. No code
/// runs.
pub fn snapshot_ranges_may_be_written()
    ensures { RangesMayBeWritten }
{}

/// A law: a lane at work may store words that have records and that it knows, and knows them as it
/// stored them then. No code runs.
pub fn recorded_words_may_be_written()
    ensures { (v : View) (word : ℕ) (values : List ℕ) → CanWrite v word values
        → Ready v (stores_from word values v)
        × IsWritten v word values (after_all v (stores_from word values v)) }
{}

/// A law: a lane at work may put back what it recorded, and every recorded word is restored then.
/// No code runs.
pub fn recorded_words_may_be_put_back()
    ensures { (v : View) → IsWorking v
        → Ready v (restores v) × IsRestored v (after_all v (restores v)) }
{}

/// A law: once its recorded words are put back, a lane may end its generation. No code runs.
pub fn restored_lanes_may_end_their_generation()
    ensures { (v w : View) → IsRestored v w → CanRetire w }
{}

/// A law: a lane with nothing undrained, whose call is aborted and restored or has its number and
/// no entries, may end its generation. No code runs.
pub fn generations_may_end()
    ensures { (v : View) → CanRetire v
        → Ready v (retires v) × IsRetired v (after_all v (retires v)) }
{}

/// A law: of an object that a lane at work found under its write lock, and whose size it knows, any
/// range may be snapshot once each of its words that has no record yet was looked at. No code runs.
pub fn ranges_of_held_objects_may_be_snapshot()
    ensures { RangesMayBeSnapshot }
{}

/// A law: what undo logging does leaves a lane its locks, the blocks that it found and its own, and
/// the objects whose sizes it knows. No code runs.
pub fn holdings_stay()
    ensures { HoldingsStay }
{}

/// A law: a lane between two operations, whose log moves to a view that differs in its claims,
/// changes, calls and log, is between two operations with that view. No code runs.
pub fn lanes_stay_between_operations<M: LawfulMem>()
    ensures { StaysBetween M.at }
{}
