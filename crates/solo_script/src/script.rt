use pm_objects::Sequence;

/// An object that a line names.
#[derive(Clone, Copy, Debug, PartialEq, Eq)]
pub enum ScriptId {
    /// The pool's root.
    Root,
    /// The object at this offset in the pool, in bytes. Nothing is known of the offset.
    At(u64),
    /// `$x`: what the line with this number gave, the last of the lane before this one that binds x; null where it gave nothing.
    Bound(u64),
}

/// An object that a transaction locks.
#[derive(Clone, Copy, Debug, PartialEq, Eq)]
pub struct ScriptWant {
    pub id: ScriptId,
    /// Locked for writing, or else for reading.
    pub write: bool,
}

/// One operation of a script. Places and lengths are in bytes, places from the object's first byte on.
#[derive(Drop)]
pub enum ScriptOp {
    /// Opens a transaction with these locks, in the order in which the line has them.
    Begin {
        wants: Sequence<ScriptWant>,
    },
    /// Records a range for an abort or a crash to restore.
    Add {
        id: ScriptId,
        off: u64,
        len: u64,
    },
    /// Writes 1 to 4,096 bytes.
    Write {
        id: ScriptId,
        off: u64,
        bytes: Sequence<u8>,
    },
    /// Reads 1 to 4,096 bytes.
    Read {
        id: ScriptId,
        off: u64,
        len: u64,
    },
    /// Makes an object of so many bytes and of this type number. The letter is to stand for it: 0 for `a` to 25 for `z`. Nothing is known of the
    /// size. pmemobj_tx_alloc(3).
    Alloc {
        letter: u8,
        size: u64,
        kind: u64,
    },
    /// Frees an object. pmemobj_tx_free(3).
    Free {
        id: ScriptId,
    },
    /// Reserves an object of so many bytes and of this type number, and makes an action pending on the lane: the object is to be made. The letter
    /// is to stand for it: 0 for `a` to 25 for `z`. Nothing is known of the size. pmemobj_reserve(3).
    Reserve {
        letter: u8,
        size: u64,
        kind: u64,
    },
    /// Writes 1 to 4,096 bytes of an object that the lane has reserved: stores into what pmemobj_reserve(3) gave.
    WriteReserved {
        id: ScriptId,
        off: u64,
        bytes: Sequence<u8>,
    },
    /// Makes an action pending on the lane: the object is to be freed. pmemobj_defer_free(3).
    DeferFree {
        id: ScriptId,
    },
    /// Makes an action pending on the lane: eight bytes are to become this number. pmemobj_set_value(3).
    Set {
        id: ScriptId,
        off: u64,
        value: u64,
    },
    /// Performs the lane's pending actions, in a transaction with its commit. pmemobj_publish(3), pmemobj_tx_publish(3).
    Publish,
    /// Drops the lane's pending actions. pmemobj_cancel(3).
    Cancel,
    /// Ends the transaction; its changes are final.
    Commit,
}

/// A line of a script that is an operation.
#[derive(Drop)]
pub struct ScriptLine {
    /// The line's number, from 1 on; skipped lines count.
    pub line: u64,
    /// The lane whose operation it is, below the script's number of lanes.
    pub lane: u64,
    pub operation: ScriptOp,
}

/// A script: docs/COMMANDS.md, "Scripts".
#[derive(Drop)]
pub struct Script {
    /// The lines of the operations, in order.
    pub lines: Sequence<ScriptLine>,
    /// One more than the greatest lane that a line `lane` names: 1 to 32.
    pub lanes: u64,
}
