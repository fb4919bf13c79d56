//! To go: this crate is proved for a single lane with no other beside it, and the crates for any number of lanes replace it.
//!
//! A block that a lane reserved is made a new object: its type and size in its first two words, zeros in all others. And a chunk that it reserved is
//! made a run, whose first block it has reserved then.
//!
//! Promises the calls that allocate, over any lawful memory of a lane, that `fill` and `make_run` make exactly the stated sequences of memory calls,
//! or the first of them up to the lane's stop, and that a lane at work may make them in what it reserved: then the words are those of the new object,
//! or of the run, and persistent, no other word changed, and the lane is at work as before. They take no memory, and make no load. It stands on
//! `pm_layout` for places, on `solo_world` for sequences and on `solo_undo` for lanes at work; docs/FORMAT.md, "Sizes", "Runs are made" and "Sequences".
#![tactic(auto)]

mod filling;
mod laws;
mod making;

pub use filling::{Header, fill};
pub use laws::{
    a_filled_block_changes_nothing_found, a_made_run_changes_nothing_found,
    a_reserved_block_may_be_filled, a_reserved_chunk_may_be_made_a_run,
    reserved_words_may_be_filled,
};
pub use making::{NewRun, make_run};
