ghost use Rattle.std.specs.Prelude.{◌≡◌, Some, alloc_error};
ghost use Rattle.pm_script.specs.Reading.{fault_at};
ghost use Rattle.pm_script.specs.Texts.{bad_line_text, script_fault_text, why_text};
ghost use Rattle.pm_script.specs.declared.fault.LineFault.TheVariants as line_fault;
ghost use Rattle.pm_script.specs.declared.fault.ScriptFault.TheVariants.{Memory};

use std::alloc::{AllocError, AllocFailed};
use std::error::Error;
use std::fmt;

/// What is wrong with a line of a script, in the order in which one line is tried.
#[derive(Clone, Copy, Debug, PartialEq, Eq)]
pub enum Why {
    /// A byte is not one of 0x20 to 0x7E.
    Text,
    /// The first word is none of a script's.
    Word,
    /// The first word takes another number of operands.
    Count,
    /// An operand is not the number that it is to be, or is out of its range.
    Number,
    /// An operand is not 1 to 4,096 bytes of two hexadecimal digits each.
    Hex,
    /// An operand names no object, as by a letter that no line of the lane has bound, or is not the
    /// letter, `null`, `before` or `after` that it is to be.
    Letter,
    /// A lane of 32 or more.
    LaneNumber,
    /// No lane was named before.
    NoLane,
    /// An operation that stands outside of transactions alone, while one of the lane is open.
    Inside,
    /// An operation that stands in a transaction alone, while none of the lane is open.
    Outside,
    /// The line begins a transaction, and its outermost level is never closed.
    Open,
}

impl fmt::Display for Why {
    ghost output = { λ why. Some (why_text why) };

    fn fmt<W: fmt::Write>(&self, f: &mut fmt::Formatter<W>) -> fmt::Result {
        f.write_str(match self {
            Why::Text => "Text",
            Why::Word => "Word",
            Why::Count => "Count",
            Why::Number => "Number",
            Why::Hex => "Hex",
            Why::Letter => "Letter",
            Why::LaneNumber => "LaneNumber",
            Why::NoLane => "NoLane",
            Why::Inside => "Inside",
            Why::Outside => "Outside",
            Why::Open => "Open",
        })
    }
}

impl Error for Why {}

/// The first bad line of a script.
#[derive(Clone, Copy, Debug, PartialEq, Eq)]
pub struct BadLine {
    /// The line's number, from 1 on.
    pub line: u64,
    pub why: Why,
}

impl fmt::Display for BadLine {
    ghost output = { λ bad. Some (bad_line_text bad) };

    fn fmt<W: fmt::Write>(&self, f: &mut fmt::Formatter<W>) -> fmt::Result {
        let BadLine { line, why } = self;
        write!(f, "bad script line {line} {why}")
    }
}

impl Error for BadLine {}

/// Why a text gave no script.
#[derive(Clone, Copy, Debug, PartialEq, Eq)]
pub enum ScriptFault {
    /// The text is no script: this is its first bad line.
    Bad(BadLine),
    /// There was no memory.
    Memory(AllocError),
}

impl fmt::Display for ScriptFault {
    ghost output = { λ fault. Some (script_fault_text fault) };

    fn fmt<W: fmt::Write>(&self, f: &mut fmt::Formatter<W>) -> fmt::Result {
        match self {
            ScriptFault::Bad(bad) => write!(f, "{bad}"),
            ScriptFault::Memory(_) => f.write_str("no memory"),
        }
    }
}

impl Error for ScriptFault {}

impl From<AllocError> for ScriptFault {
    ghost from_gives = { λ _ fault. fault ≡ Memory alloc_error };

    fn from(error: AllocError) -> Self {
        ScriptFault::Memory(error)
    }
}

impl<T: Drop> From<AllocFailed<T>> for ScriptFault {
    ghost from_gives = { λ _ fault. fault ≡ Memory alloc_error };

    fn from(_: AllocFailed<T>) -> Self {
        ScriptFault::Memory(AllocError)
    }
}

/// Why a line says nothing.
#[derive(Clone, Copy, Debug, PartialEq, Eq)]
pub enum LineFault {
    Bad(Why),
    Memory(AllocError),
}

impl LineFault {
    /// The fault, where the line has this number.
    pub fn at(self, line: u64) -> ScriptFault
        ensures { result ≡ fault_at self line }
    {
        match self {
            LineFault::Bad(why) => ScriptFault::Bad(BadLine { line, why }),
            LineFault::Memory(error) => ScriptFault::Memory(error),
        }
    }
}

impl From<Why> for LineFault {
    ghost from_gives = { λ why fault. fault ≡ line_fault.Bad why };

    fn from(why: Why) -> Self {
        LineFault::Bad(why)
    }
}

impl From<AllocError> for LineFault {
    ghost from_gives = { λ _ fault. fault ≡ line_fault.Memory alloc_error };

    fn from(error: AllocError) -> Self {
        LineFault::Memory(error)
    }
}

impl<T: Drop> From<AllocFailed<T>> for LineFault {
    ghost from_gives = { λ _ fault. fault ≡ line_fault.Memory alloc_error };

    fn from(_: AllocFailed<T>) -> Self {
        LineFault::Memory(AllocError)
    }
}
