ghost use Rattle.std.specs.Prelude.{◌≡◌, ℕ, ◌%◌, ◌/◌, ◌^◌, ◌↔◌, IsTrue, IfOk, [], length};
ghost use Rattle.pm_layout.specs.Chunks.{words_of};
ghost use Rattle.pm_view.specs.View.{View, Constants};
ghost use Rattle.pm_world.specs.OwnedBits.{none_owned};
ghost use Rattle.pm_world.specs.LaneFields.{IsIdle, IsUnused, Rests, fields_of, opened, unused};

use crate::{LawfulMem, OwnedBits};
use arrayvec::ArrayVec;
use pm_layout::{PAGE_BYTES, Shape};
use pm_model::Stage;
use pm_objects::{Oid, TxErr};
use pm_record::Redo;
use std::alloc::{AllocError, Global};

/// A held lock of a line.
#[derive(Clone, Copy, Debug, PartialEq, Eq, Default, Drop)]
pub struct HeldLock {
    /// The line's number.
    pub line: u64,
    /// For writing, or for reading alone.
    pub write: bool,
}

/// An undo record as its lane keeps it: consecutive words, as they were.
#[derive(Clone, Copy, Debug, PartialEq, Eq, Default, Drop)]
pub struct KeptRecord {
    /// The first word's number.
    pub word: u64,
    /// How many words, 1 to 4.
    pub count: u64,
    /// What they were; 0 past the count.
    pub old: [u64; 4],
}

/// What a lane keeps of its undo log, so that no call reads its slots.
#[derive(Drop)]
pub struct UndoLog {
    /// The generation of the records.
    pub generation: u64,
    /// The records of the generation, in the order of their slots.
    pub records: ArrayVec<KeptRecord, 64>,
}

/// An action that waits for a publish.
#[derive(Clone, Copy, Debug, PartialEq, Eq, Default, Drop)]
pub enum PendingAction {
    /// Nothing.
    #[default]
    None,
    /// A reservation of an object at this offset.
    Reserved { off: u64, size: u64, kind: u64 },
    /// A free.
    Freed(Oid),
    /// A value for a word of an object.
    Set { id: Oid, off: u64, value: u64 },
}

/// A lane: its memory and its lists, whose room is taken as it is made.
#[derive(Drop)]
pub struct Lane<M> {
    pub memory: M,
    /// The pool's id, and its shape.
    pub pool: u64,
    pub shape: Shape,
    /// The locks that it holds, in the order in which it took them; marks of new objects are none.
    pub locks: ArrayVec<HeldLock, 64>,
    /// Its undo log.
    pub log: UndoLog,
    /// The redo entries that its call is to log, in their order.
    pub entries: ArrayVec<Redo, 64>,
    /// Its pending actions, in order.
    pub pending: ArrayVec<PendingAction, 63>,
    /// The occupancy bits of blocks that it reserved, and that its call frees: what goes back.
    pub reserved: OwnedBits,
    pub freed: OwnedBits,
    /// The transaction's level, 0 to 64, and its stage.
    pub level: u64,
    pub stage: Stage,
    /// Why the transaction was aborted, if it was: pmemobj_tx_errno.
    pub error: TxErr,
    /// The number that its open call drew, and the last number that any call of it drew; 0 for
    /// none.
    pub drawn: Option<u64>,
    pub last: u64,
    /// It answered that it stopped.
    pub stopped: bool,
}

/// Looks at the lane's generation and its seal, and tells the generation.
fn look_at_log<M: LawfulMem>(memory: &mut M, shape: Shape) -> u64
    requires { (fixed : Constants) × (generation : ℕ) × IsUnused M.at memory.old shape fixed generation }
    ensures { (fixed : Constants) (generation : ℕ) → IsUnused M.at memory.old shape fixed generation
        → (result ≡ generation) × M.at memory.new (opened fixed generation) }
{
    let lane = memory.lane();
    let generation = memory.see(shape.word_of_generation(lane));
    memory.see(shape.word_of_seal(lane));
    generation
}

impl<M: LawfulMem + Drop> Lane<M> {
    /// A lane over its memory of the pool with this id and shape, before its first call: it looks
    /// at its generation and its seal, so that it knows both.
    pub fn new(alloc: Global, memory: M, pool: u64, shape: Shape) -> Result<Lane<M>, AllocError>
        requires { (fixed : Constants) × (generation : ℕ) × IsUnused M.at memory shape fixed generation }
        ensures unused { IfOk result (λ lane. (fixed : Constants) (generation : ℕ)
            → fixed.pool ≡ pool → IsUnused M.at memory shape fixed generation
            → Rests M.at lane (unused (opened fixed generation) (none_owned (words_of shape / 512)))) }
    {
        let pages = (shape.size() / PAGE_BYTES) as usize;
        let mut memory = memory;
        let generation = look_at_log(&mut memory, shape);
        Ok(Lane {
            memory,
            pool,
            shape,
            locks: ArrayVec::new(),
            log: UndoLog {
                generation,
                records: ArrayVec::new(),
            },
            entries: ArrayVec::new(),
            pending: ArrayVec::new(),
            reserved: OwnedBits::new(alloc, pages)?,
            freed: OwnedBits::new(alloc, pages)?,
            level: 0,
            stage: Stage::None,
            error: TxErr::None,
            drawn: None,
            last: 0,
            stopped: false,
        })
    }
}

impl<M: LawfulMem> Lane<M> {
    /// Whether no call of it is open, it holds no lock, and it has not stopped.
    pub fn idle(&self) -> bool
        ensures { IsTrue result ↔ IsIdle (fields_of self.now) }
    {
        self.level == 0
            && self.stage == Stage::None
            && self.locks.is_empty()
            && self.drawn.is_none()
            && !self.stopped
    }

    /// The number of the last call that drew one; 0 for none.
    pub fn last_number(&self) -> u64
        ensures { result ≡ (fields_of self.now).last }
    {
        self.last
    }

    /// The number of a call that drew one and is not answered.
    pub fn in_flight(&self) -> Option<u64>
        ensures { result ≡ (fields_of self.now).drawn }
    {
        self.drawn
    }

    /// How many counted calls it made, modulo 2^64.
    pub fn calls(&self) -> u64
        ensures { (v : View) → M.at self.now.memory v → result ≡ length v.calls % 2 ^ 64 }
    {
        self.memory.calls()
    }

    /// Whether it answered that it stopped.
    pub fn stopped(&self) -> bool
        ensures { result ≡ (fields_of self.now).stopped }
    {
        self.stopped
    }
}
