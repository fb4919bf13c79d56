//! To go: this crate is proved for a single lane with no other beside it, and the crates for any number of lanes replace it.
//!
//! The world of a pool's lanes: which steps a lane may make, what then holds of the words that all lanes share, and what a power failure leaves.
//!
//! Promises, for any number of lanes and whatever the others hold, that each lawful step of a lane keeps the world, and
//! that every image which a power failure leaves of a world has, once recovered, the words that the calls which it does
//! not lose make of the opening's. It stands on `solo_view` for a lane's view, on `solo_memory` for the memory calls, and on
//! `pm_image` for the recovered word; docs/MODEL.md, "The world".
#![tactic(auto)]

mod lane;
mod lawful_mem;
mod laws;
mod sequences;
mod solo;

pub use lane::{HeldLock, Lane, MAX_ENTRIES, MAX_LOCKS, MAX_RECORDS, Span, Stage};
pub use lawful_mem::LawfulMem;
pub use laws::{
    a_crash_keeps_whole_calls, a_run_stays_a_run, an_acknowledged_call_is_kept,
    lawful_steps_keep_the_world, recovered_words_open_a_world, words_between_calls_open_a_world,
};
pub use sequences::{and, or, settle, store};

#[cfg(test)]
mod tests;
