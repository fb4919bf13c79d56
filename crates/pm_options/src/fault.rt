ghost use Rattle.std.specs.Prelude.{◌≡◌};
ghost use Rattle.pm_options.specs.declared.fault.OptionsFault.TheVariants.{Memory};

use std::alloc::{AllocError, AllocFailed};

/// Why words are no command.
#[derive(Drop)]
pub enum OptionsFault {
    /// Something is wrong with them, and this text says what.
    Usage(String),
    /// There was no memory.
    Memory,
}

impl From<AllocError> for OptionsFault {
    ghost from_gives = { λ _ fault. fault ≡ Memory };

    fn from(_: AllocError) -> Self {
        OptionsFault::Memory
    }
}

impl<T: Drop> From<AllocFailed<T>> for OptionsFault {
    ghost from_gives = { λ _ fault. fault ≡ Memory };

    fn from(_: AllocFailed<T>) -> Self {
        OptionsFault::Memory
    }
}
