//! A stream of bytes that the program prints.
ghost use Rattle.std.specs.Prelude.{◌≡◌, ℕ, ◌≤◌, List, Option, Some, OnOk, IsErrOf};
ghost use Rattle.pm_shelf.specs.declared.sink.SinkFault.TheVariants.{Memory};
ghost use Rattle.pm_shelf.specs.Faults.{sink_fault_text};
ghost use Rattle.pm_shelf.specs.Outside.{Rose, gained, GainedPart};

use std::alloc::AllocError;
use std::error::Error;
use std::fmt;

/// Why a put gave up.
#[derive(Clone, Copy, Debug, PartialEq, Eq)]
pub enum SinkFault {
    /// The outside failed. A front of the bytes may have been put.
    Failed,
    /// There was no memory, and nothing was put.
    Memory,
}

impl fmt::Display for SinkFault {
    ghost output = { λ fault. Some (sink_fault_text fault) };

    fn fmt<W: fmt::Write>(&self, f: &mut fmt::Formatter<W>) -> fmt::Result {
        f.write_str(match self {
            SinkFault::Failed => "the output failed",
            SinkFault::Memory => "out of memory",
        })
    }
}

impl Error for SinkFault {}

impl From<AllocError> for SinkFault {
    ghost from_gives = { λ _ fault. fault ≡ Memory };

    fn from(_: AllocError) -> Self {
        SinkFault::Memory
    }
}

/// Takes the bytes that are printed, one put after another.
pub trait Sink {
    /// The bytes put so far, where the sink tells them.
    ghost told: { Self → Option (List ℕ) };

    /// How often the outside has failed.
    ghost faults: { Self → ℕ };

    /// Puts these bytes behind those before.
    fn put(&mut self, bytes: &[u8]) -> Result<(), SinkFault>
        ensures ok { OnOk result (told self.new ≡ gained (told self.old) bytes.now) }
        ensures failed { IsErrOf result SinkFault.Failed →
            Rose (faults self.old) (faults self.new) }
        ensures part { IsErrOf result SinkFault.Failed →
            GainedPart (told self.old) (told self.new) bytes.now }
        ensures memory { IsErrOf result SinkFault.Memory → told self.new ≡ told self.old }
        ensures count { faults self.old ≤ faults self.new };
}
