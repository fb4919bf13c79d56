//! Named byte strings outside of the program.
ghost use Rattle.std.specs.Prelude.{◌≡◌, ℕ, ◌≤◌, List, [], Option, Some, OnOk, OnErr, IsErrOf};
ghost use Rattle.pm_shelf.specs.declared.shelf.ShelfFault.TheVariants.{Memory};
ghost use Rattle.pm_shelf.specs.Faults.{shelf_fault_text};
ghost use Rattle.pm_shelf.specs.Outside.{Rose, IsWhole, IsFront, IsMissing, IsThere, Adds, MayAddPart};

use std::alloc::{AllocError, AllocFailed};
use std::error::Error;
use std::fmt;

/// Why a call of a shelf gave up.
#[derive(Clone, Copy, Debug, PartialEq, Eq)]
pub enum ShelfFault {
    /// The outside failed. A read leaves any bytes in its buffer, and a write may leave a front of
    /// its bytes under the name, if it was new.
    Failed,
    /// A read found no such name.
    Missing,
    /// A write found the name there, and changed nothing.
    Exists,
    /// A read found more bytes than its limit. The first of them, one more than the limit, are in
    /// its buffer.
    TooLong,
    /// There was no memory. It leaves what `Failed` leaves.
    Memory,
}

impl fmt::Display for ShelfFault {
    ghost output = { λ fault. Some (shelf_fault_text fault) };

    fn fmt<W: fmt::Write>(&self, f: &mut fmt::Formatter<W>) -> fmt::Result {
        f.write_str(match self {
            ShelfFault::Failed => "the shelf failed",
            ShelfFault::Missing => "there is no such name on the shelf",
            ShelfFault::Exists => "the name is on the shelf already",
            ShelfFault::TooLong => "there are more bytes than the limit",
            ShelfFault::Memory => "out of memory",
        })
    }
}

impl Error for ShelfFault {}

impl From<AllocError> for ShelfFault {
    ghost from_gives = { λ _ fault. fault ≡ Memory };

    fn from(_: AllocError) -> Self {
        ShelfFault::Memory
    }
}

impl<T: Drop> From<AllocFailed<T>> for ShelfFault {
    ghost from_gives = { λ _ fault. fault ≡ Memory };

    fn from(_: AllocFailed<T>) -> Self {
        ShelfFault::Memory
    }
}

/// Byte strings with names, each read whole and written once. A name is any text.
pub trait Shelf {
    /// What the shelf holds, where it tells: for each name, the bytes, or `None` where the name is
    /// not there.
    ghost content: { Self → Option (List ℕ → Option (List ℕ)) };

    /// How often the outside has failed.
    ghost faults: { Self → ℕ };

    /// Reads all bytes of a name into `into`, which is empty before, if there are at most `limit`
    /// bytes (0 and `u64::MAX` too).
    fn read(&mut self, name: &str, limit: u64, into: &mut Vec<u8>) -> Result<(), ShelfFault>
        requires { into.old.items ≡ [] }

        // No read changes the shelf, whatever it answers.
        ensures content { content self.new ≡ content self.old }
        ensures whole { OnOk result (IsWhole (content self.old) name.now limit into.new.items) }
        ensures too_long { IsErrOf result ShelfFault.TooLong →
            IsFront (content self.old) name.now limit into.new.items }
        ensures missing { IsErrOf result ShelfFault.Missing →
            IsMissing (content self.old) name.now }
        ensures never_exists { IsErrOf result ShelfFault.Exists → ⊥ }
        ensures failed { IsErrOf result ShelfFault.Failed →
            Rose (faults self.old) (faults self.new) }
        ensures count { faults self.old ≤ faults self.new };

    /// Adds a new name with these bytes.
    fn write(&mut self, name: &str, bytes: &[u8]) -> Result<(), ShelfFault>
        ensures added { OnOk result
            (Adds (content self.old) (content self.new) name.now bytes.now) }
        ensures exists { IsErrOf result ShelfFault.Exists →
            IsThere (content self.old) name.now × (content self.new ≡ content self.old) }
        ensures failed { IsErrOf result ShelfFault.Failed →
            Rose (faults self.old) (faults self.new) }

        // At each error, `Exists` too.
        ensures part { OnErr result
            (MayAddPart (content self.old) (content self.new) name.now bytes.now) }
        ensures never_missing { IsErrOf result ShelfFault.Missing → ⊥ }
        ensures never_too_long { IsErrOf result ShelfFault.TooLong → ⊥ }
        ensures count { faults self.old ≤ faults self.new };
}
