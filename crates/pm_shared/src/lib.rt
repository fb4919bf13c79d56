//! The words that all lanes of a pool share, as the words of one table of atomic words.
//!
//! The rule of the table is the world of `pm_world`: its words are the memory of a world, and each
//! seat of the table knows a lane's view of that world, the views of lanes that the pool has still
//! to hand out or has taken back, or nothing any more. `SharedMem` has the steps of a lane: each is
//! one atomic step of the table and one lawful step of the lane whose seat makes it. Two may look at
//! the word in a step before: a line's lock is released, and bits of a zone are taken. One lemma
//! proves the steps of every kind from the world's law. No step waits, and none allocates.
//! `Occupancy::of_words` makes the occupancy words that a pool's words take.
//!
//! `SharedLane` is a lane over a seat: it has the traits of a lane's memory, `LawfulMem` among them,
//! so that it takes each step that the lane's view allows. It counts its calls and keeps its
//! undrained changes itself.
//!
//! `SharedMem::new` begins on a pool's recovered words, with a world of lanes that were asked
//! nothing, all of them with the pool's seat. `split` hands the next lane out and `join` takes one
//! back, so that lanes run in threads; a type, `TableName`, says that a lane is of the pool's table
//! still, whatever ran on it. `close` gives the words, which are those of a world that has
//! the final view of each lane that came back. The crate stands on the kit's `atomic_table`.
#![tactic(auto)]

mod lane;
mod lane_mem;
mod lane_sync;
mod lawful;
mod mem;
mod occupancy;
mod places;
mod plays;
mod pool;
mod rule;
mod steps;
mod tally;

pub use lane::{SharedLane, TableName};
pub use mem::{LaneSeat, SharedMem};
pub use occupancy::Occupancy;
pub use pool::PoolSeat;
pub use rule::{Beginning, Knows, WorldRule};
pub use tally::Tally;

#[cfg(test)]
mod tests;
