ghost use Rattle.pm_crash.specs.Torn.{NoRecordIsTorn};

/// A law: where none of the records that lanes are writing as the power fails has a torn match with
/// what its slot held before, no record is torn in an image that leaves each word of a slot as it is
/// in memory or as it was before. What is answered needs no premise: only records of adds that are
/// not answered are being written. No code runs.
pub fn no_record_is_torn()
    ensures { NoRecordIsTorn }
{}
