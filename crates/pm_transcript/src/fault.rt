//! What is wrong with a line of a transcript.
use std::alloc::AllocError;
use thiserror::Error;

/// Why a line is not done.
#[derive(Clone, Copy, Debug, PartialEq, Eq, Error)]
pub enum Fault {
    /// Its first word is none, or the words after it are too few or too many.
    #[error("no command, directive, comment or answer")]
    Form,
    /// A number is not decimal digits with a value below 2^64, or is 0 where the first is 1.
    #[error("a number is expected")]
    Number,
    /// Bytes are not two hexadecimal digits each.
    #[error("bytes are expected, two hexadecimal digits each")]
    Hex,
    /// There is no such file.
    #[error("there is no such file")]
    Missing,
    /// The bytes pass the end of the file.
    #[error("the file ends before")]
    End,
    /// The text ends in a script.
    #[error("the script has no END")]
    Open,
    /// There was no memory.
    #[error("no memory")]
    Memory,
}

impl From<AllocError> for Fault {
    fn from(_: AllocError) -> Self {
        Fault::Memory
    }
}
