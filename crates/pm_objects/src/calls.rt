use crate::ids::Oid;
use crate::sequence::Sequence;

/// A lock that a transaction asks for: pmemobj_tx_begin(3).
#[derive(Clone, Copy, Debug, PartialEq, Eq)]
pub struct Want {
    pub id: Oid,
    /// For writing, or for reading alone.
    pub write: bool,
}

/// Where an atomic call puts an id: 16 bytes of an object, the pool's id and then the offset.
#[derive(Clone, Copy, Debug, PartialEq, Eq)]
pub struct Dest {
    pub id: Oid,
    /// The place in the object, in bytes: a multiple of 8.
    pub off: u64,
}

/// Where a list call puts an object: before or after a member, or at the head or the tail where `dest` is null.
#[derive(Clone, Copy, Debug, PartialEq, Eq)]
pub struct At {
    pub dest: Oid,
    pub before: bool,
}

/// One operation of a call, its operands being ids and numbers. Offsets, sizes and lengths are in bytes; `kind` is a type number.
#[derive(Drop)]
pub enum Operation {
    /// Opens a transaction, or a further level of it, with these locks.
    Begin(Sequence<Want>),
    /// Takes one more lock.
    Lock(Want),
    /// Records a range for an abort or a crash to restore.
    AddRange {
        id: Oid,
        off: u64,
        len: u64,
    },
    /// Writes bytes.
    Write {
        id: Oid,
        off: u64,
        bytes: Sequence<u8>,
    },
    /// Reads bytes.
    Read {
        id: Oid,
        off: u64,
        len: u64,
    },
    /// Adds to a number of eight bytes, modulo 2^64: one read and one write.
    Increment {
        id: Oid,
        off: u64,
        by: u64,
    },
    /// Makes a new zeroed object.
    Alloc {
        size: u64,
        kind: u64,
    },
    /// Drops an object.
    Free {
        id: Oid,
    },
    /// Performs the pending actions, or moves them into the transaction.
    Publish,
    /// Ends a level; at the outermost one the changes are final.
    Commit,
    /// Gives the whole transaction up.
    Abort {
        errnum: u32,
    },
    /// Reserves a new object for a later publish.
    Reserve {
        size: u64,
        kind: u64,
    },
    /// Writes bytes into a reservation.
    WriteReserved {
        id: Oid,
        off: u64,
        bytes: Sequence<u8>,
    },
    /// Frees an object at the next publish.
    DeferFree {
        id: Oid,
    },
    /// Sets a word of an object at the next publish.
    SetValue {
        id: Oid,
        off: u64,
        value: u64,
    },
    /// Gives the pending actions up.
    Cancel,
    /// Makes an object and puts its id into a destination.
    AllocTo {
        dest: Dest,
        size: u64,
        kind: u64,
    },
    /// Moves the object that a destination names to a new block of another size.
    ReallocAt {
        dest: Dest,
        size: u64,
        kind: u64,
    },
    /// Frees the object that a destination names, and clears it.
    FreeAt {
        dest: Dest,
    },
    /// Asks how many bytes fit into an object's block.
    UsableSize {
        id: Oid,
    },
    /// Asks for an object's type number.
    TypeNumber {
        id: Oid,
    },
    /// Puts an object into a list.
    Insert {
        head: Oid,
        at: At,
        id: Oid,
    },
    /// Makes an object and puts it into a list.
    InsertNew {
        head: Oid,
        at: At,
        size: u64,
        kind: u64,
    },
    /// Takes an object out of a list, and frees it if so asked.
    Remove {
        head: Oid,
        id: Oid,
        free: bool,
    },
    /// Moves an object from one list to another.
    MoveTo {
        head: Oid,
        new_head: Oid,
        at: At,
        id: Oid,
    },
    /// Asks for the members of a list.
    Members {
        head: Oid,
    },
    /// Makes the root, or grows it.
    Root {
        size: u64,
    },
    /// Asks for the root's size.
    RootSize,
}

/// One call of a lane: a whole transaction, or one call outside of one.
#[derive(Drop)]
pub struct Call {
    /// The lane, 0 to 31.
    pub lane: u64,
    /// The first line of the script that is the call's; 0 outside a script.
    pub first: u64,
    /// The last such line; 0 outside a script.
    pub last: u64,
    /// The offset that the word `root` stood for in the call's lines, 0 where there was none; nothing where no line has it.
    pub root: Option<u64>,
    /// What the call does, in order.
    pub operations: Sequence<Operation>,
}
