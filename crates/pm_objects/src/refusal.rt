ghost use Rattle.std.specs.Prelude.{◌≡◌};

use std::error::Error;
use std::fmt;

/// Why a call is refused: docs/MODEL.md, "Refusals".
#[derive(Clone, Copy, Debug, PartialEq, Eq)]
pub enum Refusal {
    /// The transaction is not in its working stage.
    NotWork,
    /// A call for outside was made inside a transaction.
    InTx,
    /// A call for inside was made outside a transaction.
    NoTx,
    /// The size is 0 or above 262,080.
    BadSize,
    /// No object is there.
    NoObject,
    /// The lane holds no lock that the access needs.
    NotLocked,
    /// The range passes the object's end.
    OutOfRange,
    /// A word to be written was not recorded.
    NotAdded,
    /// The undo log has no room for the records.
    LogFull,
    /// The redo log or the list of pending actions has no room.
    ActionsFull,
    /// No free block fits.
    NoSpace,
    /// The object is in a list, or has members.
    Listed,
    /// Another lane holds the lock.
    Busy,
    /// The lane's generation or the commit counter is at its end.
    Spent,
    /// The lane is at its stop number.
    Stopped,
    /// The object is not a member of the list.
    NotInList,
    /// The list has this many members, and the slice fewer places.
    Short(u64),
    /// The root is kept.
    RootKept,
    /// The transaction is nested 64 deep already.
    Deep,
    /// The lane would hold more than 64 locks.
    LocksFull,
    /// The offset is no multiple of 8.
    Unaligned,
    /// The id is none of the lane's reservations.
    NotReserved,
}

impl Refusal {
    ghost use Rattle.pm_objects.specs.Refusals.{refusal_number};

    /// The refusal's number, 1 to 22: its place in the list.
    pub fn number(self) -> u64
        ensures { result ≡ refusal_number self }
    {
        match self {
            Refusal::NotWork => 1,
            Refusal::InTx => 2,
            Refusal::NoTx => 3,
            Refusal::BadSize => 4,
            Refusal::NoObject => 5,
            Refusal::NotLocked => 6,
            Refusal::OutOfRange => 7,
            Refusal::NotAdded => 8,
            Refusal::LogFull => 9,
            Refusal::ActionsFull => 10,
            Refusal::NoSpace => 11,
            Refusal::Listed => 12,
            Refusal::Busy => 13,
            Refusal::Spent => 14,
            Refusal::Stopped => 15,
            Refusal::NotInList => 16,
            Refusal::Short(_) => 17,
            Refusal::RootKept => 18,
            Refusal::Deep => 19,
            Refusal::LocksFull => 20,
            Refusal::Unaligned => 21,
            Refusal::NotReserved => 22,
        }
    }
}

impl fmt::Display for Refusal {
    ghost use Rattle.std.specs.Prelude.{Some};
    ghost use Rattle.pm_objects.specs.Texts.{refusal_text};

    ghost output = { λ refusal. Some (refusal_text refusal) };

    fn fmt<W: fmt::Write>(&self, f: &mut fmt::Formatter<W>) -> fmt::Result {
        match self {
            Refusal::NotWork => f.write_str("NotWork"),
            Refusal::InTx => f.write_str("InTx"),
            Refusal::NoTx => f.write_str("NoTx"),
            Refusal::BadSize => f.write_str("BadSize"),
            Refusal::NoObject => f.write_str("NoObject"),
            Refusal::NotLocked => f.write_str("NotLocked"),
            Refusal::OutOfRange => f.write_str("OutOfRange"),
            Refusal::NotAdded => f.write_str("NotAdded"),
            Refusal::LogFull => f.write_str("LogFull"),
            Refusal::ActionsFull => f.write_str("ActionsFull"),
            Refusal::NoSpace => f.write_str("NoSpace"),
            Refusal::Listed => f.write_str("Listed"),
            Refusal::Busy => f.write_str("Busy"),
            Refusal::Spent => f.write_str("Spent"),
            Refusal::Stopped => f.write_str("Stopped"),
            Refusal::NotInList => f.write_str("NotInList"),
            Refusal::Short(members) => write!(f, "Short {members}"),
            Refusal::RootKept => f.write_str("RootKept"),
            Refusal::Deep => f.write_str("Deep"),
            Refusal::LocksFull => f.write_str("LocksFull"),
            Refusal::Unaligned => f.write_str("Unaligned"),
            Refusal::NotReserved => f.write_str("NotReserved"),
        }
    }
}

impl Error for Refusal {}
