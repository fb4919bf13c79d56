ghost use Rattle.std.specs.Prelude.{◌≡◌};
ghost use Rattle.pm_lanes.specs.declared.fault.OpenFault.TheVariants.{Memory};

use pm_image::ImageFault;
use std::alloc::AllocError;
use thiserror::Error;

/// Why a pool is not opened: the first of these that applies. Nothing was changed.
#[derive(Debug, Drop, Error)]
pub enum OpenFault<'a> {
    /// The image has this fault: docs/FORMAT.md, "Faults".
    #[error("{0}")]
    Image(ImageFault),
    /// The pool has the layout name `kept`, and `asked` was asked for.
    #[error("Layout asked {asked} kept {kept}")]
    Layout { asked: &'a str, kept: String },
    /// No lane was asked for, or more than the pool has, which are `kept`.
    #[error("Lanes asked {asked} kept {kept}")]
    Lanes { asked: u64, kept: u64 },
    /// There is no memory.
    #[error("no memory")]
    Memory,
}

impl<'a> From<AllocError> for OpenFault<'a> {
    ghost from_gives = { λ _ fault. fault ≡ Memory };

    fn from(_: AllocError) -> Self {
        OpenFault::Memory
    }
}
