ghost use Rattle.std.specs.Prelude.{◌≡◌};

/// How a recovery ended that was not to make more than a number of calls.
#[derive(Clone, Copy, Debug, PartialEq, Eq)]
pub enum RecoverEnd {
    /// It needs more: it made so many calls, its stop number, and was cut off.
    Stopped(u64),
    /// It came to its end, with so many calls.
    Whole(u64),
}

impl RecoverEnd {
    ghost use Rattle.pm_reopen.specs.Ends.{calls_of};

    /// How many calls it made.
    pub fn calls(self) -> u64
        ensures { result ≡ calls_of self }
    {
        match self {
            RecoverEnd::Stopped(calls) | RecoverEnd::Whole(calls) => calls,
        }
    }
}
