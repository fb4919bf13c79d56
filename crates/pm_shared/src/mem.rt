ghost use Rattle.std.specs.Prelude.{◌≡◌, ◌<◌, ◌≤◌, length, bit_and, bit_or, ◌+◌, ◌%◌, ◌^◌, ◌==◌};
ghost use mathlib.Core.Option.{none};
ghost use prog.Atomic.{either};
ghost use Rattle.atomic_table.specs.Table.{step};
ghost use Rattle.pm_layout.specs.Chunks.{words_of};
ghost use Rattle.pm_shared.specs.Placing.{table_size};
ghost use Rattle.pm_shared.specs.TableRule.{TableAllows};

use crate::rule::{Beginning, Knows, WorldRule};
use atomic_table::{Play, Seat, Table};
use pm_layout::Shape;
use pm_objects::Stops;
use std::alloc::Global;

/// A seat of the table: what its lane knows, and nothing when a program runs.
pub type LaneSeat = Seat<u8, Knows>;

/// The words that all lanes of a pool share, as the words of one table of atomic words. Each call
/// is one atomic step of a lane's seat; the caller picks what the step is to the lane.
#[derive(Drop)]
pub struct SharedMem {
    pub(crate) table: Table<u8, Knows, Beginning, WorldRule, Global>,
    pub(crate) shape: Shape,
    pub(crate) words: u64,
    pub(crate) room: Vec<u64>,
    pub(crate) stops: Stops,
    ghost sized: { table.shared.table_id.words ≡ table_size shape },
    ghost slotless: { table.shared.table_id.slots ≡ 0 },
    ghost shaped: { table.shared.key.shape ≡ shape },
    ghost counted: { words ≡ words_of shape },
    ghost roomy: { length room.items ≡ words_of shape },
    ghost stopping: { stops ≡ table.shared.key.stops },
    ghost lanes_in: { table.shared.key.lanes ≤ shape.lanes },
}

impl SharedMem {
    /// The word's value.
    pub fn load<M: Play<u8, Knows>>(&self, seat: &mut LaneSeat, word: usize) -> u64
        requires table { seat.old.table_id ≡ self.now.table.shared.table_id }
        requires word { word < table_size self.now.shape }
        requires step { TableAllows self.now.table.shared.key seat.old.id seat.old.me word (λ n. n) (M.then (step 0 word 0 0 none) seat.old.me) }
        ensures table { seat.new.table_id ≡ seat.old.table_id }
        ensures told { M.then (step 0 word 0 0 none) seat.old.me result seat.new.me }
    {
        self.table.shared.load::<M>(seat, word)
    }

    /// Makes the word this value, and tells the word before.
    pub fn store<M: Play<u8, Knows>>(&self, seat: &mut LaneSeat, word: usize, value: u64) -> u64
        requires table { seat.old.table_id ≡ self.now.table.shared.table_id }
        requires word { word < table_size self.now.shape }
        requires step { TableAllows self.now.table.shared.key seat.old.id seat.old.me word (λ _. value) (M.then (step 0 word value 0 none) seat.old.me) }
        ensures table { seat.new.table_id ≡ seat.old.table_id }
        ensures told { M.then (step 0 word value 0 none) seat.old.me result seat.new.me }
    {
        self.table.shared.swap::<M>(seat, word, value)
    }

    /// Sets these bits of the word, and tells the word before.
    pub fn or<M: Play<u8, Knows>>(&self, seat: &mut LaneSeat, word: usize, bits: u64) -> u64
        requires table { seat.old.table_id ≡ self.now.table.shared.table_id }
        requires word { word < table_size self.now.shape }
        requires step { TableAllows self.now.table.shared.key seat.old.id seat.old.me word (λ n. bit_or n bits) (M.then (step 0 word bits 0 none) seat.old.me) }
        ensures table { seat.new.table_id ≡ seat.old.table_id }
        ensures told { M.then (step 0 word bits 0 none) seat.old.me result seat.new.me }
    {
        self.table.shared.fetch_or::<M>(seat, word, bits)
    }

    /// Clears the other bits of the word, and tells the word before.
    pub fn and<M: Play<u8, Knows>>(&self, seat: &mut LaneSeat, word: usize, bits: u64) -> u64
        requires table { seat.old.table_id ≡ self.now.table.shared.table_id }
        requires word { word < table_size self.now.shape }
        requires step { TableAllows self.now.table.shared.key seat.old.id seat.old.me word (λ n. bit_and n bits) (M.then (step 0 word bits 0 none) seat.old.me) }
        ensures table { seat.new.table_id ≡ seat.old.table_id }
        ensures told { M.then (step 0 word bits 0 none) seat.old.me result seat.new.me }
    {
        self.table.shared.fetch_and::<M>(seat, word, bits)
    }

    /// Adds to the word, modulo 2^64, and tells the word before.
    pub fn add<M: Play<u8, Knows>>(&self, seat: &mut LaneSeat, word: usize, by: u64) -> u64
        requires table { seat.old.table_id ≡ self.now.table.shared.table_id }
        requires word { word < table_size self.now.shape }
        requires step { TableAllows self.now.table.shared.key seat.old.id seat.old.me word (λ n. (n + by) % 2 ^ 64) (M.then (step 0 word by 0 none) seat.old.me) }
        ensures table { seat.new.table_id ≡ seat.old.table_id }
        ensures told { M.then (step 0 word by 0 none) seat.old.me result seat.new.me }
    {
        self.table.shared.fetch_add::<M>(seat, word, by)
    }

    /// Makes the word `to` where it is `from`, and tells the word before.
    pub fn swap_from<M: Play<u8, Knows>>(
        &self,
        seat: &mut LaneSeat,
        word: usize,
        from: u64,
        to: u64,
    ) -> u64
        requires table { seat.old.table_id ≡ self.now.table.shared.table_id }
        requires word { word < table_size self.now.shape }
        requires step { TableAllows self.now.table.shared.key seat.old.id seat.old.me word (λ n. either (n == from) to n) (M.then (step 0 word from to none) seat.old.me) }
        ensures table { seat.new.table_id ≡ seat.old.table_id }
        ensures told { M.then (step 0 word from to none) seat.old.me result seat.new.me }
    {
        self.table
            .shared
            .compare_exchange::<M>(seat, word, from, to)
    }

    /// Leaves the word as it is, and tells it; the step has a number with it.
    pub fn pulse<M: Play<u8, Knows>>(&self, seat: &mut LaneSeat, word: usize, about: u64) -> u64
        requires table { seat.old.table_id ≡ self.now.table.shared.table_id }
        requires word { word < table_size self.now.shape }
        requires step { TableAllows self.now.table.shared.key seat.old.id seat.old.me word (λ n. either (n == about) about n) (M.then (step 0 word about about none) seat.old.me) }
        ensures table { seat.new.table_id ≡ seat.old.table_id }
        ensures told { M.then (step 0 word about about none) seat.old.me result seat.new.me }
    {
        self.table
            .shared
            .compare_exchange::<M>(seat, word, about, about)
    }
}
