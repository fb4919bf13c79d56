ghost use Rattle.std.specs.Prelude.{◌≡◌};
ghost use Rattle.pm_script.specs.Operations.{closes, letter_bound, opens, place_of};

use pm_objects::Sequence;

/// An object that a line names.
#[derive(Clone, Copy, Debug, PartialEq, Eq)]
pub enum ScriptId {
    /// The pool's root.
    Root,
    /// The object at this offset in the pool, in bytes. Nothing is known of the offset.
    At(u64),
    /// `$x`: what the line with this number gave, the last of the lane before this one that binds x; null where it gave nothing.
    Bound(u64),
}

/// An object that a transaction locks.
#[derive(Clone, Copy, Debug, PartialEq, Eq)]
pub struct ScriptWant {
    pub id: ScriptId,
    /// Locked for writing, or else for reading.
    pub write: bool,
}

/// Where an atomic call puts an object's id: 16 bytes of an object.
#[derive(Clone, Copy, Debug, PartialEq, Eq)]
pub struct ScriptDest {
    pub id: ScriptId,
    /// The place in the object, in bytes. Nothing is known of it.
    pub off: u64,
}

/// Where a list call puts an object: before or after a member, or at the head or the tail where no
/// member is named.
#[derive(Clone, Copy, Debug, PartialEq, Eq)]
pub struct ScriptAt {
    /// Nothing where the line has `null`.
    pub dest: Option<ScriptId>,
    pub before: bool,
}

/// Where an operation may stand.
#[derive(Clone, Copy, Debug, PartialEq, Eq)]
pub enum Place {
    /// In a transaction and outside.
    Either,
    /// In a transaction of its lane alone.
    Inside,
    /// Outside of its lane's transactions alone.
    Outside,
}

/// One operation of a script. Places and lengths are in bytes, places from the object's first byte on.
#[derive(Drop)]
pub enum ScriptOp {
    /// Opens a transaction, or one more level of the open one, with these locks, in the order in
    /// which the line has them. pmemobj_tx_begin(3).
    Begin {
        wants: Sequence<ScriptWant>,
    },
    /// Takes one more lock. pmemobj_tx_lock(3).
    Lock {
        want: ScriptWant,
    },
    /// Records a range for an abort or a crash to restore.
    Add {
        id: ScriptId,
        off: u64,
        len: u64,
    },
    /// Writes 1 to 4,096 bytes.
    Write {
        id: ScriptId,
        off: u64,
        bytes: Sequence<u8>,
    },
    /// Reads 1 to 4,096 bytes.
    Read {
        id: ScriptId,
        off: u64,
        len: u64,
    },
    /// Adds to the number in eight bytes, the lowest byte first, modulo 2^64.
    Increment {
        id: ScriptId,
        off: u64,
        by: u64,
    },
    /// Makes an object of so many bytes and of this type number. The letter is to stand for it: 0 for `a` to 25 for `z`. Nothing is known of the
    /// size. pmemobj_tx_alloc(3).
    Alloc {
        letter: u8,
        size: u64,
        kind: u64,
    },
    /// Frees an object. pmemobj_tx_free(3).
    Free {
        id: ScriptId,
    },
    /// Reserves an object of so many bytes and of this type number, and makes an action pending on the lane: the object is to be made. The letter
    /// is to stand for it: 0 for `a` to 25 for `z`. Nothing is known of the size. pmemobj_reserve(3).
    Reserve {
        letter: u8,
        size: u64,
        kind: u64,
    },
    /// Writes 1 to 4,096 bytes of an object that the lane has reserved: stores into what pmemobj_reserve(3) gave.
    WriteReserved {
        id: ScriptId,
        off: u64,
        bytes: Sequence<u8>,
    },
    /// Makes an action pending on the lane: the object is to be freed. pmemobj_defer_free(3).
    DeferFree {
        id: ScriptId,
    },
    /// Makes an action pending on the lane: eight bytes are to become this number. pmemobj_set_value(3).
    Set {
        id: ScriptId,
        off: u64,
        value: u64,
    },
    /// Performs the lane's pending actions, in a transaction with its commit. pmemobj_publish(3), pmemobj_tx_publish(3).
    Publish,
    /// Drops the lane's pending actions. pmemobj_cancel(3).
    Cancel,
    /// Ends the innermost level; at the outermost one the changes are final. pmemobj_tx_commit(3),
    /// pmemobj_tx_end(3).
    Commit,
    /// Rolls the transaction back with this error number, and ends the innermost level.
    /// pmemobj_tx_abort(3), pmemobj_tx_end(3).
    Abort {
        errnum: u32,
    },
    /// Makes an object of so many bytes and of this type number, and puts its id into the
    /// destination. The letter is to stand for it: 0 for `a` to 25 for `z`. Nothing is known of the
    /// size. pmemobj_alloc(3).
    AllocTo {
        letter: u8,
        dest: ScriptDest,
        size: u64,
        kind: u64,
    },
    /// Moves the object that the destination names to a block for so many bytes, with this type
    /// number, and puts its id there. The letter is to stand for it: 0 for `a` to 25 for `z`.
    /// Nothing is known of the size. pmemobj_realloc(3).
    ReallocAt {
        letter: u8,
        dest: ScriptDest,
        size: u64,
        kind: u64,
    },
    /// Frees the object that the destination names, and makes the destination null.
    /// pmemobj_free(3).
    FreeAt {
        dest: ScriptDest,
    },
    /// Asks how many bytes fit into an object's block. pmemobj_alloc_usable_size(3).
    UsableSize {
        id: ScriptId,
    },
    /// Asks for an object's type number. pmemobj_type_num(3).
    TypeNumber {
        id: ScriptId,
    },
    /// Puts an object into the list of the head. pmemobj_list_insert(3).
    Insert {
        head: ScriptId,
        at: ScriptAt,
        id: ScriptId,
    },
    /// Makes an object of so many bytes and of this type number, and puts it into the list of the
    /// head. The letter is to stand for it: 0 for `a` to 25 for `z`. Nothing is known of the size.
    /// pmemobj_list_insert_new(3).
    InsertNew {
        letter: u8,
        head: ScriptId,
        at: ScriptAt,
        size: u64,
        kind: u64,
    },
    /// Takes an object out of the list of the head, and frees it if so asked.
    /// pmemobj_list_remove(3).
    Remove {
        head: ScriptId,
        id: ScriptId,
        free: bool,
    },
    /// Moves an object from the list of one head to that of another. pmemobj_list_move(3).
    MoveTo {
        head: ScriptId,
        new_head: ScriptId,
        at: ScriptAt,
        id: ScriptId,
    },
    /// Asks for the members of the list of the head. POBJ_LIST_FOREACH(3).
    Members {
        head: ScriptId,
    },
    /// Makes the root of so many bytes, or grows it to them. Nothing is known of the size.
    /// pmemobj_root(3).
    Root {
        size: u64,
    },
    /// Asks for the root's size. pmemobj_root_size(3).
    RootSize,
}

impl ScriptOp {
    /// Where the operation may stand.
    pub fn place(&self) -> Place
        ensures { result ≡ place_of self.now }
    {
        match self {
            ScriptOp::Begin { .. }
            | ScriptOp::Reserve { .. }
            | ScriptOp::WriteReserved { .. }
            | ScriptOp::DeferFree { .. }
            | ScriptOp::Set { .. }
            | ScriptOp::Publish
            | ScriptOp::Cancel => Place::Either,
            ScriptOp::Lock { .. }
            | ScriptOp::Add { .. }
            | ScriptOp::Write { .. }
            | ScriptOp::Read { .. }
            | ScriptOp::Increment { .. }
            | ScriptOp::Alloc { .. }
            | ScriptOp::Free { .. }
            | ScriptOp::Commit
            | ScriptOp::Abort { .. } => Place::Inside,
            ScriptOp::AllocTo { .. }
            | ScriptOp::ReallocAt { .. }
            | ScriptOp::FreeAt { .. }
            | ScriptOp::UsableSize { .. }
            | ScriptOp::TypeNumber { .. }
            | ScriptOp::Insert { .. }
            | ScriptOp::InsertNew { .. }
            | ScriptOp::Remove { .. }
            | ScriptOp::MoveTo { .. }
            | ScriptOp::Members { .. }
            | ScriptOp::Root { .. }
            | ScriptOp::RootSize => Place::Outside,
        }
    }

    /// Whether the operation opens a level of a transaction.
    pub fn opens(&self) -> bool
        ensures { result ≡ opens self.now }
    {
        matches!(self, ScriptOp::Begin { .. })
    }

    /// Whether the operation closes a level of a transaction.
    pub fn closes(&self) -> bool
        ensures { result ≡ closes self.now }
    {
        matches!(self, ScriptOp::Commit | ScriptOp::Abort { .. })
    }

    /// The letter that is to stand for the offset that the operation gives: 0 for `a` to 25 for
    /// `z`.
    pub fn letter(&self) -> Option<u8>
        ensures { result ≡ letter_bound self.now }
    {
        match self {
            ScriptOp::Alloc { letter, .. }
            | ScriptOp::Reserve { letter, .. }
            | ScriptOp::AllocTo { letter, .. }
            | ScriptOp::ReallocAt { letter, .. }
            | ScriptOp::InsertNew { letter, .. } => Some(*letter),
            _ => None,
        }
    }
}

/// A line of a script that is an operation.
#[derive(Drop)]
pub struct ScriptLine {
    /// The line's number, from 1 on; skipped lines count.
    pub line: u64,
    /// The lane whose operation it is, below the script's number of lanes.
    pub lane: u64,
    pub operation: ScriptOp,
}

/// A script: docs/COMMANDS.md, "Scripts".
#[derive(Drop)]
pub struct Script {
    /// The lines of the operations, in order.
    pub lines: Sequence<ScriptLine>,
    /// One more than the greatest lane that a line `lane` names: 1 to 32.
    pub lanes: u64,
}
