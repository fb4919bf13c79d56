ghost use Rattle.std.specs.Prelude.{◌≡◌};
ghost use Rattle.solo_exec.specs.declared.outcome.OpenFault.TheVariants.{Memory};

use pm_image::ImageFault;
use pm_objects::{Entry, Sequence};
use pm_text::LaneEnd;
use std::alloc::{AllocError, AllocFailed};

/// What a run came to.
#[derive(Drop)]
pub struct Outcome {
    /// The words of the image that is left.
    pub words: Vec<u64>,
    /// The calls that drew a number, in rising number.
    pub history: Vec<Entry>,
    /// The offsets that lines gave, each with its line's number, in the order in which they did: what their letters stand for. The history has
    /// them too, but for those of a call that drew no number.
    pub given: Vec<(u64, u64)>,
    /// How lane 0 ended.
    pub end: LaneEnd,
}

/// Why a pool was not opened. Nothing was changed.
#[derive(Drop)]
pub enum OpenFault {
    /// The image has this fault: docs/FORMAT.md, "Faults".
    Image(ImageFault),
    /// The pool has this layout name, and another was asked for.
    Layout(Sequence<u8>),
    /// The script is of so many lanes, and fewer run on the pool.
    Lanes { asked: u64, kept: u64 },
    /// There was no memory.
    Memory(AllocError),
}

impl From<AllocError> for OpenFault {
    ghost use Rattle.std.specs.Prelude.{alloc_error};

    ghost from_gives = { λ _ fault. fault ≡ Memory alloc_error };

    fn from(_: AllocError) -> Self {
        OpenFault::Memory(AllocError)
    }
}

impl<T: Drop> From<AllocFailed<T>> for OpenFault {
    ghost use Rattle.std.specs.Prelude.{alloc_error};

    ghost from_gives = { λ _ fault. fault ≡ Memory alloc_error };

    fn from(_: AllocFailed<T>) -> Self {
        OpenFault::Memory(AllocError)
    }
}
