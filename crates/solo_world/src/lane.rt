ghost use Rattle.std.specs.Prelude.{◌≡◌, ℕ, ◌%◌, ◌^◌, ◌↔◌, IsTrue, []};
ghost use Rattle.pm_objects.specs.declared.history.TxErr.TheVariants as error;
ghost use Rattle.solo_view.specs.View.{View};
ghost use Rattle.solo_world.specs.Lanes.{IsIdle, IsOfShape, IsSeenAs};

use crate::LawfulMem;
use arrayvec::ArrayVec;
use pm_layout::Shape;
use pm_objects::TxErr;
use pm_record::Redo;

/// Locks of lines that a lane holds at most.
pub const MAX_LOCKS: usize = 64;

/// Undo records of a generation at most.
pub const MAX_RECORDS: usize = 64;

/// Redo entries of a call at most, that of its generation among them.
pub const MAX_ENTRIES: usize = 64;

/// A held lock of a line.
#[derive(Clone, Copy, Debug, PartialEq, Eq, Default, Drop)]
pub struct HeldLock {
    /// The line's number.
    pub line: u64,
    /// For writing, or for reading alone.
    pub write: bool,
    /// The lines of the block that was found to begin there; nothing where none was.
    pub block: Option<u64>,
}

/// The words of an undo record.
#[derive(Clone, Copy, Debug, PartialEq, Eq, Default, Drop)]
pub struct Span {
    /// The first word's number.
    pub word: u64,
    /// How many words, 1 to 4.
    pub count: u64,
}

/// The stage of a transaction: pmemobj_tx_stage.
#[derive(Clone, Copy, Debug, PartialEq, Eq)]
pub enum Stage {
    None,
    Work,
    OnCommit,
    OnAbort,
    Finally,
}

/// A lane: its memory and its fixed lists, which take no memory of their own.
#[derive(Drop)]
pub struct Lane<M> {
    pub memory: M,
    /// The pool's id, and its shape.
    pub pool: u64,
    pub shape: Shape,
    /// The locks that it holds, in the order in which it took them.
    pub locks: ArrayVec<HeldLock, 64>,
    /// The undo records of its generation, in the order of their slots.
    pub records: ArrayVec<Span, 64>,
    /// The redo entries of its call, in the order of their pairs.
    pub entries: ArrayVec<Redo, 64>,
    /// The transaction's level, 0 to 64, and its stage.
    pub level: u64,
    pub stage: Stage,
    /// Why the transaction was aborted, if it was: pmemobj_tx_errno.
    pub error: TxErr,
    /// The number that its open call drew, and the last number that any call of it drew; 0 for none.
    pub drawn: Option<u64>,
    pub last: u64,
    /// It answered that it stopped.
    pub stopped: bool,
}

impl<M: LawfulMem> Lane<M> {
    /// A lane over its memory of the pool with this id and shape, before its first call.
    pub fn new(memory: M, pool: u64, shape: Shape) -> Lane<M>
        ensures fits { (v : View) → M.at memory v → v.pool ≡ pool → IsOfShape v shape → v.locks ≡ [] → v.log.records ≡ [] → v.entries ≡ []
            → IsSeenAs M.at result v × IsIdle result }
        ensures unharmed { result.error ≡ error.None }
        ensures unentered { result.entries.items ≡ [] }
    {
        Lane {
            memory,
            pool,
            shape,
            locks: ArrayVec::new(),
            records: ArrayVec::new(),
            entries: ArrayVec::new(),
            level: 0,
            stage: Stage::None,
            error: TxErr::None,
            drawn: None,
            last: 0,
            stopped: false,
        }
    }

    /// Whether no call of it is open, it holds no lock, and it has not stopped.
    pub fn idle(&self) -> bool
        ensures { IsTrue result ↔ IsIdle self.now }
    {
        self.level == 0 && self.stage == Stage::None && self.drawn.is_none() && !self.stopped
    }

    /// The number of the last call that drew one; 0 for none.
    pub fn last_number(&self) -> u64
        ensures { result ≡ self.now.last }
    {
        self.last
    }

    /// The number of a call that drew one and is not answered.
    pub fn in_flight(&self) -> Option<u64>
        ensures { result ≡ self.now.drawn }
    {
        self.drawn
    }

    /// How many counted calls it made, modulo 2^64.
    pub fn calls(&self) -> u64
        ensures { (v : View) → M.at self.now.memory v → result ≡ v.calls % 2 ^ 64 }
    {
        self.memory.calls()
    }

    /// Whether it answered that it stopped.
    pub fn stopped(&self) -> bool
        ensures { result ≡ self.now.stopped }
    {
        self.stopped
    }
}
