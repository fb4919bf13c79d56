use crate::calls::Call;
use crate::refusal::Refusal;
use crate::sequence::Sequence;
use std::error::Error;
use std::fmt;

/// What an answered line gives.
#[derive(Drop)]
pub enum Value {
    /// The offset of an object; 0 for none.
    Offset(u64),
    /// A number: a size, a type number, a counter's new value.
    Number(u64),
    /// Bytes that were read.
    Bytes(Sequence<u8>),
    /// The offsets of a list's members, from the first on.
    Members(Sequence<u64>),
    /// A refusal that did not abort.
    Refused(Refusal),
}

/// What a call answered.
#[derive(Drop)]
pub struct Reply {
    /// The lines that gave a value, each with it, in order.
    pub values: Sequence<(u64, Value)>,
    /// The line that aborted the transaction; 0 where none did.
    pub at: u64,
}

/// The error of a transaction: pmemobj_tx_errno.
#[derive(Clone, Copy, Debug, PartialEq, Eq)]
pub enum TxErr {
    /// The transaction was not aborted.
    None,
    /// It was aborted with the number 0.
    Canceled,
    /// It was aborted with this number.
    User(u32),
    /// A refusal aborted it.
    Refused(Refusal),
}

impl fmt::Display for TxErr {
    ghost use Rattle.std.specs.Prelude.{Some};
    ghost use Rattle.pm_objects.specs.Texts.{error_text};

    ghost output = { λ error. Some (error_text error) };

    fn fmt<W: fmt::Write>(&self, f: &mut fmt::Formatter<W>) -> fmt::Result {
        match self {
            TxErr::None => f.write_str("no error"),
            TxErr::Canceled => f.write_str("ECANCELED"),
            TxErr::User(number) => write!(f, "{number}"),
            TxErr::Refused(refusal) => write!(f, "{refusal}"),
        }
    }
}

impl Error for TxErr {}

/// What became of a call that drew a number.
#[derive(Clone, Copy, Debug, PartialEq, Eq)]
pub enum Fate {
    /// It was answered, and is in the image.
    Done,
    /// It was not answered, and is in the image.
    Kept,
    /// It was not answered, and is not in the image.
    Lost,
    /// It was answered by an abort, and changed nothing.
    Aborted(TxErr),
    /// It was answered by a refusal, and changed nothing.
    Refused(Refusal),
}

/// One call of the history.
#[derive(Drop)]
pub struct Entry {
    /// The commit number, from 1 on.
    pub number: u64,
    pub call: Call,
    pub reply: Reply,
    pub fate: Fate,
}
