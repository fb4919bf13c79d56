ghost use Rattle.pm_info.specs.Facts.{text_fault, put_fault};
ghost use Rattle.std.specs.Prelude.{◌≡◌};

use pm_image::{ImageFault, MeansFault};
use pm_shelf::SinkFault;

/// Why an image's text was not put whole.
#[derive(Clone, Copy, Debug, PartialEq, Eq)]
pub enum TextFault {
    /// The image has this fault, and nothing was put.
    Image(ImageFault),
    /// The sink failed. It has a front of the text.
    Failed,
    /// There was no memory. The sink has some whole lines of the text, or nothing.
    Memory,
}

impl From<MeansFault> for TextFault {
    ghost from_gives = { λ fault told. told ≡ text_fault fault };

    fn from(fault: MeansFault) -> Self {
        match fault {
            MeansFault::Image(found) => TextFault::Image(found),
            MeansFault::Memory => TextFault::Memory,
        }
    }
}

impl From<SinkFault> for TextFault {
    ghost from_gives = { λ fault told. told ≡ put_fault fault };

    fn from(fault: SinkFault) -> Self {
        match fault {
            SinkFault::Failed => TextFault::Failed,
            SinkFault::Memory => TextFault::Memory,
        }
    }
}
