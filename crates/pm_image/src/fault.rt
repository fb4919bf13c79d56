ghost use Rattle.std.specs.Prelude.{◌≡◌, Some, IfOk, string_bytes};
ghost use Rattle.pm_image.specs.Texts.{fault_text, means_fault_text};
ghost use Rattle.pm_image.specs.declared.fault.MeansFault.TheVariants.{Memory};

use pm_header::HeaderFault;
use std::alloc::{AllocError, AllocFailed, Global};
use std::error::Error;
use std::fmt;

/// What is wrong with an image: the first of these that applies, and of its kind the one with the least lane, entry, slot or
/// place. docs/FORMAT.md, "Faults", says exactly where each comes.
#[derive(Clone, Copy, Debug, PartialEq, Eq)]
pub enum ImageFault {
    /// So many bytes are the length of no pool.
    Size(u64),
    /// The header page is damaged.
    Header(HeaderFault),
    /// The header is not that of a pool of this length, or the pool's id is 0.
    Shape,
    /// The lane's generation or seal is out of range.
    Lane(u64),
    /// A sealed entry is none that a log has.
    Redo { lane: u64, entry: u64 },
    /// A valid undo record is none that a log has.
    Undo { lane: u64, slot: u64 },
    /// Two logs speak of the word at this place.
    Clash(u64),
    /// The chunk's descriptor is none of the table.
    Chunk { zone: u64, chunk: u64 },
    /// The run's bitmap has a bit past its blocks.
    Bitmap { zone: u64, chunk: u64 },
    /// The object with this offset has not its block's size.
    Block(u64),
    /// The links of the object with this offset do not lead where they should.
    Link(u64),
    /// The root's offset is that of no object.
    Root(u64),
}

impl fmt::Display for ImageFault {
    ghost output = { λ fault. Some (fault_text fault) };

    fn fmt<W: fmt::Write>(&self, f: &mut fmt::Formatter<W>) -> fmt::Result {
        match self {
            ImageFault::Size(bytes) => write!(f, "Size {bytes}"),
            ImageFault::Header(found) => write!(f, "{found}"),
            ImageFault::Shape => f.write_str("Shape"),
            ImageFault::Lane(lane) => write!(f, "Lane {lane}"),
            ImageFault::Redo { lane, entry } => write!(f, "Redo lane {lane} entry {entry}"),
            ImageFault::Undo { lane, slot } => write!(f, "Undo lane {lane} slot {slot}"),
            ImageFault::Clash(place) => write!(f, "Clash {place}"),
            ImageFault::Chunk { zone, chunk } => write!(f, "Chunk {zone} {chunk}"),
            ImageFault::Bitmap { zone, chunk } => write!(f, "Bitmap {zone} {chunk}"),
            ImageFault::Block(off) => write!(f, "Block {off}"),
            ImageFault::Link(off) => write!(f, "Link {off}"),
            ImageFault::Root(off) => write!(f, "Root {off}"),
        }
    }
}

impl Error for ImageFault {}

/// The fault as people read it: docs/FORMAT.md, "Faults".
pub fn text_of_fault(alloc: Global, fault: ImageFault) -> Result<String, AllocError>
    ensures { IfOk result (λ text. string_bytes text ≡ fault_text fault) }
{
    fault.to_string(alloc)
}

/// Why an image gave no pool.
#[derive(Clone, Copy, Debug, PartialEq, Eq)]
pub enum MeansFault {
    /// The image has this fault.
    Image(ImageFault),
    /// There was no memory.
    Memory,
}

impl fmt::Display for MeansFault {
    ghost output = { λ fault. Some (means_fault_text fault) };

    fn fmt<W: fmt::Write>(&self, f: &mut fmt::Formatter<W>) -> fmt::Result {
        match self {
            MeansFault::Image(found) => write!(f, "{found}"),
            MeansFault::Memory => f.write_str("no memory"),
        }
    }
}

impl Error for MeansFault {}

impl From<AllocError> for MeansFault {
    ghost from_gives = { λ _ fault. fault ≡ Memory };

    fn from(_: AllocError) -> Self {
        MeansFault::Memory
    }
}

impl<T: Drop> From<AllocFailed<T>> for MeansFault {
    ghost from_gives = { λ _ fault. fault ≡ Memory };

    fn from(_: AllocFailed<T>) -> Self {
        MeansFault::Memory
    }
}
