ghost use Rattle.pm_crash.specs.Freshness.{NumbersRise, RootIsFresh};

/// A law: a lane's numbers rise in its own order; and the root that a lane sees under the lock of
/// line 0 is that of the pool after the calls drawn so far, whichever of them are kept in the end.
/// No code runs.
pub fn histories_are_fresh()
    ensures numbers { NumbersRise }
    ensures root { RootIsFresh }
{}
