use pm_objects::{Oid, Operation, Value, Want};

/// An operation as a lane tells it. A lane takes no memory, so the lists that its caller gave are
/// lent.
#[derive(Clone, Copy)]
pub enum LentOperation<'a> {
    /// Begins a level with these locks.
    Begin(&'a [Want]),
    /// Writes these bytes.
    Write { id: Oid, off: u64, bytes: &'a [u8] },
    /// Writes these bytes into a reservation.
    WriteReserved { id: Oid, off: u64, bytes: &'a [u8] },
    /// Any operation, with what it has.
    Whole(&'a Operation),
}

/// The value that an operation gave, as a lane tells it: its list is lent likewise.
#[derive(Clone, Copy)]
pub enum LentValue<'a> {
    /// Bytes that were read.
    Bytes(&'a [u8]),
    /// The offsets of a list's members.
    Members(&'a [u64]),
    /// Any value, with what it has.
    Whole(&'a Value),
}
