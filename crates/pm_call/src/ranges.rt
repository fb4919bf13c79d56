ghost use Rattle.pm_call.specs.RangeLaws.{RangeRefusals, RangesAreLookedAt};

/// A law: the plain model's first refusal of an operation on a range of an object is that of the first
/// of these tests that applies: the object is not held so, the range passes its end, and the
/// operation's own. No code runs.
pub fn refusals_of_ranges_are_the_models()
    ensures { RangeRefusals }
{}

/// A law: a lane that knows the size of an object, or does not hold the object, looked at all that an
/// operation on a range of it asks for. No code runs.
pub fn ranges_are_looked_at()
    ensures { RangesAreLookedAt }
{}
