ghost use Rattle.std.specs.Prelude.{◌≡◌, ℕ, ◌+◌, ◌^◌, ◌<◌, ◌≤◌, List, [], ◌∷◌, ◌++◌, length, slice_index, replicate, All, IfOk};
ghost use Rattle.std.specs.Result.{OnOk, OnErr};
ghost use Rattle.std.specs.Mem.Slots.{slots_items, slots_len, IsFull};
ghost use mathlib.Core.Option.{some};
ghost use lib.ListN.{get_elem?};
ghost use Rattle.pm_memory.specs.Changes.{AreUndrained};
ghost use Rattle.pm_shared.specs.Closings.{Closes};
ghost use Rattle.pm_shared.specs.Openings.{CanBegin, idle_view, table_words, pool_with, pool_of, rest_of, handed_out, taken_back, no_one};
ghost use Rattle.pm_shared.specs.Seats.{IsSeen};
ghost use Rattle.pm_view.specs.Changes.{IsFormed};
ghost use Rattle.pm_view.specs.View.{View};

use crate::rule::{Beginning, Knows};
use crate::tally::Tally;
use crate::{SharedLane, SharedMem, TableName};
use atomic_table::{Closed, Join, Seat, Split, Table};
use pm_layout::LINE_WORDS;
use pm_view::Change;
use std::alloc::{AllocError, Global};
use std::marker::PhantomData;

/// The seat of the pool: it has the lanes that are to be handed out, in their order, and after them
/// those that came back.
pub type PoolSeat = Seat<u8, Knows>;

/// The pool's first lane is handed out.
pub struct HandsOut;

impl Split<Knows> for HandsOut {
    ghost left = { rest_of };

    ghost right = { handed_out };
}

/// A lane comes back to the pool.
pub struct TakesBack;

impl Join<Knows> for TakesBack {
    ghost both = { taken_back };

    ghost spent = { no_one };
}

/// Adds these words at the end.
fn add(all: &mut Vec<u64>, more: &[u64]) -> Result<(), AllocError>
    ensures { OnOk result (all.new.items ≡ all.old.items ++ more.now) }
{
    all.extend_from_slice(more)?;
    Ok(())
}

/// Adds so many zeros at the end.
fn add_zeros(all: &mut Vec<u64>, count: usize) -> Result<(), AllocError>
    requires { length all.old.items + count < 2 ^ 64 }
    ensures { OnOk result (all.new.items ≡ all.old.items ++ replicate count 0) }
{
    all.resize(all.len() + count, 0)?;
    Ok(())
}

impl Beginning {
    /// The words of the table, in a vector that has its whole room from the start: one that grows
    /// copies the pool.
    fn table_words(&self, alloc: Global) -> Result<Vec<u64>, AllocError>
        requires { CanBegin self.now }
        ensures { IfOk result (λ all. all.items ≡ table_words self.now) }
    {
        let lines = self.words.len() / LINE_WORDS as usize;
        let others = (self.shape.zones + 2 + self.shape.lanes) as usize;
        let pages = self.runs.len() + self.zones.len();
        let mut all = Vec::with_capacity(alloc, self.words.len() + lines + pages + others)?;
        add(&mut all, self.words.as_slice())?;
        add_zeros(&mut all, lines)?;
        add(&mut all, self.runs.as_slice())?;
        add(&mut all, self.zones.as_slice())?;
        add_zeros(&mut all, others)?;
        Ok(all)
    }
}

/// Copies the first words of a table that is closed.
fn copy(words: &mut Vec<u64>, closed: &Closed<u8, Global>)
    requires full { IsFull closed.now.words }
    requires fewer { length words.old.items ≤ slots_len closed.now.words }
    ensures length { length words.new.items ≡ length words.old.items }
    ensures each { (w : ℕ) → w < length words.old.items → get_elem? (slots_items closed.entry.now.words) w ≡ some (slice_index words.new.items w) }
{
    for word in 0..words.len() {
        words[word] = closed.word(word);
    }
}

impl SharedMem {
    /// The memory that lanes begin on, and the pool's seat, which has all of them. The words come
    /// back at the end in the room that they have.
    ///
    /// # Errors
    ///
    /// `AllocError`: there is no memory for the table's words.
    pub fn new(alloc: Global, beginning: Beginning) -> Result<(SharedMem, PoolSeat), AllocError>
        requires { CanBegin beginning }
        ensures key { IfOk result (λ made. made.0.table.shared.key ≡ beginning) }
        ensures table { IfOk result (λ made. made.1.table_id ≡ made.0.table.shared.table_id) }
        ensures pool { IfOk result (λ made. made.1.me ≡ pool_of beginning 0 []) }
    {
        let all = beginning.table_words(alloc)?;
        let (table, seat) = Table::of_words(alloc, all.as_slice(), &beginning)?;
        let Beginning {
            shape,
            pool: _,
            lanes: _,
            stops,
            words: room,
            runs: _,
            zones: _,
        } = beginning;
        let words = room.len() as u64;
        let memory = SharedMem {
            table,
            shape,
            words,
            room,
            stops,
        };
        Ok((memory, seat))
    }

    /// Hands the pool's first lane out, before its first call. It has the number `lane`, 0 for the
    /// first of all.
    ///
    /// # Errors
    ///
    /// `AllocError`: there is no memory for the lane's undrained changes; the pool has it still.
    pub fn split<'a, N: TableName>(
        &'a self,
        alloc: Global,
        pool: &mut PoolSeat,
        lane: u64,
    ) -> Result<SharedLane<'a, N>, AllocError>
        requires name { self.now.table.shared.table_id ≡ N.table }
        requires table { pool.old.table_id ≡ N.table }
        requires lane { lane < self.now.table.shared.key.lanes }
        requires pool { (back : List View) × (pool.old.me ≡ pool_of self.now.table.shared.key lane back) }
        ensures table { pool.new.table_id ≡ pool.old.table_id }
        ensures pool { OnOk result ((back : List View) → pool.old.me ≡ pool_of self.entry.now.table.shared.key lane back
            → pool.new.me ≡ pool_of self.entry.now.table.shared.key (lane + 1) back) }
        ensures kept { OnErr result (pool.new.me ≡ pool.old.me) }
        ensures lane { IfOk result (λ made. IsSeen made (idle_view self.entry.now.table.shared.key lane)) }
    {
        let tally = Tally::new(alloc, self.stops.of_lane(lane as usize))?;
        let seat = self.table.shared.split_seat::<HandsOut>(pool);
        Ok(SharedLane {
            seat,
            memory: self,
            lane,
            tally,
            of: PhantomData,
        })
    }

    /// The words that the lanes leave, once all seats are gone; the pool's seat says what is known of
    /// the lanes that came back.
    pub fn close(self, pool: PoolSeat) -> Vec<u64>
        requires { pool.table_id ≡ self.table.shared.table_id }
        ensures { (back : List View) → pool.me ≡ pool_with back → Closes self.table.shared.key back result.items }
    {
        let SharedMem {
            table,
            shape: _,
            words: _,
            room: mut words,
            stops: _,
        } = self;
        let closed = table.close_with(pool);
        copy(&mut words, &closed);
        closed.free();
        words
    }
}

impl<'a, N: TableName> SharedLane<'a, N> {
    /// Gives the lane back to the pool, and its undrained changes, the oldest first, to the caller.
    pub fn join(self, pool: &mut PoolSeat) -> Vec<Change>
        requires table { pool.old.table_id ≡ N.table }
        requires pool { (back : List View) × (pool.old.me ≡ pool_with back) }
        requires lane { (v : View) × IsSeen self v }
        ensures table { pool.new.table_id ≡ pool.old.table_id }
        ensures pool { (back : List View) (v : View) → pool.old.me ≡ pool_with back → IsSeen self.entry v → pool.new.me ≡ pool_with (back ++ v ∷ []) }
        ensures changes { (v : View) → IsSeen self.entry v → AreUndrained result.items v.changes }
        ensures formed { All IsFormed result.items }
    {
        let SharedLane {
            seat,
            memory,
            lane: _,
            tally,
            of: _,
        } = self;
        memory.table.shared.join_seat::<TakesBack>(pool, seat);
        tally.into_changes()
    }
}
