ghost use Rattle.std.specs.Prelude.{◌≡◌};
ghost use Rattle.pm_recover.specs.declared.fault.RecoverFault.TheVariants.{Memory};

use pm_image::{ImageFault, MeansFault};
use std::alloc::AllocError;
use std::error::Error;
use std::fmt;

/// Why an image was not recovered. It is then as it was.
#[derive(Clone, Copy, Debug, PartialEq, Eq)]
pub enum RecoverFault {
    /// The image has this fault: docs/FORMAT.md, "Faults".
    Image(ImageFault),
    /// There was no memory.
    Memory(AllocError),
}

impl fmt::Display for RecoverFault {
    ghost use Rattle.std.specs.Prelude.{Some};
    ghost use Rattle.pm_recover.specs.Texts.{recover_fault_text};

    ghost output = { λ fault. Some (recover_fault_text fault) };

    fn fmt<W: fmt::Write>(&self, f: &mut fmt::Formatter<W>) -> fmt::Result {
        match self {
            RecoverFault::Image(found) => write!(f, "{found}"),
            RecoverFault::Memory(_) => write!(f, "{}", MeansFault::Memory),
        }
    }
}

impl Error for RecoverFault {}

impl From<AllocError> for RecoverFault {
    ghost from_gives = { λ e fault. fault ≡ Memory e };

    fn from(e: AllocError) -> Self {
        RecoverFault::Memory(e)
    }
}
