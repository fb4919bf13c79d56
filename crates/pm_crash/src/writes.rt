ghost use Rattle.pm_crash.specs.Edits.{BlocksAreEdits};
ghost use Rattle.pm_crash.specs.Writes.{ItemsAreTold, ReadsFindBytes, WritesPutBytes};

/// A law: items that stand in the allocated blocks, each in one, are the items of the pool that the
/// bits hold. No code runs.
pub fn items_are_told()
    ensures { ItemsAreTold }
{}

/// A law: a read of the words that a range covers finds the bytes of the object, and a difference
/// that writes bytes inside an object and leaves the heap as it is puts them into this object's
/// bytes, and into no other's. No code runs.
pub fn bytes_stand_in_words()
    ensures reads { ReadsFindBytes }
    ensures writes { WritesPutBytes }
{}

/// A law: the items after a difference are those before with the objects of freed blocks gone and
/// those of made blocks there, where every block that stays has its object as it stands then. No
/// code runs.
pub fn blocks_are_edits()
    ensures { BlocksAreEdits }
{}
