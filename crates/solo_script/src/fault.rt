ghost use Rattle.std.specs.Prelude.{◌≡◌, alloc_error};
ghost use Rattle.solo_script.specs.Reading.{fault_at};
ghost use Rattle.solo_script.specs.declared.fault.LineFault.TheVariants as line_fault;
ghost use Rattle.solo_script.specs.declared.fault.ScriptFault.TheVariants.{Memory};

use std::alloc::{AllocError, AllocFailed};
use thiserror::Error;

/// What is wrong with a line of a script, in the order in which one line is tried.
#[derive(Clone, Copy, Debug, PartialEq, Eq, Error)]
pub enum Why {
    /// A byte is not one of 0x20 to 0x7E.
    #[error("Text")]
    Text,
    /// The first word is none of a script's.
    #[error("Word")]
    Word,
    /// The first word takes another number of operands.
    #[error("Count")]
    Count,
    /// An operand is not the number that it is to be, or is out of its range.
    #[error("Number")]
    Number,
    /// An operand is not 1 to 4,096 bytes of two hexadecimal digits each.
    #[error("Hex")]
    Hex,
    /// An operand names no object, as by a letter that no line of the lane has bound, or is not the letter that it is to be.
    #[error("Letter")]
    Letter,
    /// A lane of 32 or more.
    #[error("LaneNumber")]
    LaneNumber,
    /// No lane was named before.
    #[error("NoLane")]
    NoLane,
    /// A begin while a transaction of the lane is open.
    #[error("Inside")]
    Inside,
    /// An add, a write, a read, an alloc, a free or a commit while no transaction of the lane is open.
    #[error("Outside")]
    Outside,
    /// The transaction that the line begins is never closed.
    #[error("Open")]
    Open,
}

/// The first bad line of a script.
#[derive(Clone, Copy, Debug, PartialEq, Eq, Error)]
#[error("bad script line {line} {why}")]
pub struct BadLine {
    /// The line's number, from 1 on.
    pub line: u64,
    pub why: Why,
}

/// Why a text gave no script.
#[derive(Clone, Copy, Debug, PartialEq, Eq, Error)]
pub enum ScriptFault {
    /// The text is no script: this is its first bad line.
    #[error("{0}")]
    Bad(BadLine),
    /// There was no memory.
    #[error("no memory")]
    Memory(AllocError),
}

impl From<AllocError> for ScriptFault {
    ghost from_gives = { λ _ fault. fault ≡ Memory alloc_error };

    fn from(error: AllocError) -> Self {
        ScriptFault::Memory(error)
    }
}

impl<T: Drop> From<AllocFailed<T>> for ScriptFault {
    ghost from_gives = { λ _ fault. fault ≡ Memory alloc_error };

    fn from(_: AllocFailed<T>) -> Self {
        ScriptFault::Memory(AllocError)
    }
}

/// Why a line says nothing.
#[derive(Clone, Copy, Debug, PartialEq, Eq)]
pub enum LineFault {
    Bad(Why),
    Memory(AllocError),
}

impl LineFault {
    /// The fault, where the line has this number.
    pub fn at(self, line: u64) -> ScriptFault
        ensures { result ≡ fault_at self line }
    {
        match self {
            LineFault::Bad(why) => ScriptFault::Bad(BadLine { line, why }),
            LineFault::Memory(error) => ScriptFault::Memory(error),
        }
    }
}

impl From<Why> for LineFault {
    ghost from_gives = { λ why fault. fault ≡ line_fault.Bad why };

    fn from(why: Why) -> Self {
        LineFault::Bad(why)
    }
}

impl From<AllocError> for LineFault {
    ghost from_gives = { λ _ fault. fault ≡ line_fault.Memory alloc_error };

    fn from(error: AllocError) -> Self {
        LineFault::Memory(error)
    }
}

impl<T: Drop> From<AllocFailed<T>> for LineFault {
    ghost from_gives = { λ _ fault. fault ≡ line_fault.Memory alloc_error };

    fn from(_: AllocFailed<T>) -> Self {
        LineFault::Memory(AllocError)
    }
}
