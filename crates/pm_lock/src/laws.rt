ghost use Rattle.std.specs.Prelude.{◌≡◌, ℕ, Bool, List, Some};
ghost use Rattle.std.specs.List.{AllByRecursion};
ghost use Rattle.pm_view.specs.Steps.{Step};
ghost use Rattle.pm_view.specs.View.{View};
ghost use Rattle.pm_view.specs.Views.{after_all};
ghost use Rattle.pm_world.specs.declared.lane.HeldLock.{HeldLock};
ghost use Rattle.pm_lock.specs.Held.{HeldAreRaised, HeldBefore, HeldGrow, HeldMayBeGiven, HeldMayBeRaised, HeldStay, RaisedKeepBlocks, TakenKeepBlocks};
ghost use Rattle.pm_lock.specs.Holding.{IsGiven, IsHeldAs, IsTaken, Rises};
ghost use Rattle.pm_layout.specs.declared.shape.Shape.{Shape};
ghost use Rattle.pm_objects.specs.declared.ids.Oid.{Oid};
ghost use Rattle.pm_lock.specs.Acquiring.{WantedMayBeLocked};
ghost use Rattle.pm_lock.specs.ModelLocks.{PlansAreTheModels};
ghost use Rattle.pm_lock.specs.Objects.{IsHeader, LooksTell, MissesAreNew, SeenFits, line_of};
ghost use Rattle.pm_lock.specs.Plans.{planned};
ghost use Rattle.pm_lock.specs.Raising.{AreRaised, raises};
ghost use Rattle.pm_lock.specs.Steps.{AreWaits, gives, tries};

/// A law: where a lane may take some locks in rising place, and waited for each of them, or got each
/// at one try, it holds them, and its view is else as it was. No code runs.
pub fn locks_are_held_once_taken()
    ensures waited { (v : View) (locks : List HeldLock) (steps : List Step) → AreWaits locks steps → IsTaken v locks (after_all v steps) }
    ensures tried { (v : View) (locks : List HeldLock) → IsTaken v locks (after_all v (tries locks)) }
    ensures held { (v w : View) (locks : List HeldLock) → IsTaken v locks w → AllByRecursion (IsHeldAs w.claims) locks }
{}

/// A law: locks that were given back leave the view as it was, but for them. No code runs.
pub fn locks_may_be_given_back()
    ensures { (v : View) (locks : List HeldLock) → IsGiven v locks (after_all v (gives locks)) }
{}

/// A law: a plan of locks stays in rising place with one more. No code runs.
pub fn plans_rise()
    ensures { (line : ℕ) (write : Bool) (locks : List HeldLock) → Rises locks → Rises (planned line write locks) }
{}

/// A law: the line of an object's lock is of a chunk of the pool, and the object's first byte follows
/// it. No code runs.
pub fn objects_have_headers()
    ensures { (sh : Shape) (pool line : ℕ) (id : Oid) → line_of sh pool id ≡ Some line → IsHeader sh id line }
{}

/// A law: what a lane finds in a word, where its view is one of a world, fits what it knows of runs and
/// of the blocks that it has, whatever other lanes do. No code runs.
pub fn sights_fit()
    ensures { SeenFits }
{}

/// A law: a look that fits, under the lock of a line, leaves what the lane has and knows, and tells
/// whether an object stands at the line: it is found then, or each block that would begin there is
/// missed, or the chunk was told to be a run of blocks without lines. No code runs.
pub fn looks_tell()
    ensures { LooksTell }
{}

/// A law: a lane whose held lines are listed may take each of the locks that are wanted, in rising place,
/// and look under each once they are taken. No code runs.
pub fn wanted_locks_may_be_taken()
    ensures { WantedMayBeLocked }
{}

/// A law: the locks that are wanted are the plain model's, so they are too many, or of an id without a
/// place, exactly where it refuses them. No code runs.
pub fn plans_are_the_models()
    ensures { PlansAreTheModels }
{}

/// A law: where locks held for reading were raised, each at one try, the lane holds what it held, those
/// of lines that are to be written for writing, and its view is else as it was. No code runs.
pub fn raised_locks_are_held()
    ensures { (v : View) (writes : ℕ → Bool) (locks : List HeldLock) → AreRaised v writes locks (after_all v (raises writes locks)) }
{}

/// A law: the locks of a lane's list are of lines of the pool, no two of one line, and held, with those
/// that are wanted and taken, all or those before a refused one, after looks, and once they are raised,
/// as they may be; and once the call is over they may be given back. No code runs.
pub fn held_locks_stand()
    ensures grow { HeldGrow }
    ensures before { HeldBefore }
    ensures stay { HeldStay }
    ensures may_be_raised { HeldMayBeRaised }
    ensures are_raised { HeldAreRaised }
    ensures may_be_given { HeldMayBeGiven }
{}

/// A law: what a lane knows of blocks stays as it takes locks and raises them: those that it found are
/// sound, objects that stand do, and no block is missed. No code runs.
pub fn locks_keep_blocks()
    ensures taken { TakenKeepBlocks }
    ensures raised { RaisedKeepBlocks }
{}

/// A law: a block that a look missed is newly missed in its call, as the cause of `NoObject` asks. No
/// code runs.
pub fn misses_are_new()
    ensures { MissesAreNew }
{}
