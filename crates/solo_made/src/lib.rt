//! To go: this crate is proved for a single lane with no other beside it, and the crates for any number of lanes replace it.
//!
//! The objects that a call makes and frees: pmemobj_tx_alloc(3), pmemobj_tx_free(3).
//!
//! Promises whoever commits a lane's transaction that its lists are those of the plain model's call, whatever it makes and frees, and that the
//! entries which are listed for a redo log are those of the heap's changes: first each freed block, then each allocated one, in order. It
//! touches no persistent memory, and takes memory only as it is made. It stands on `pm_layout` for blocks and their words, on `solo_crash` for
//! the call's lists and what a change's entry is, and on `solo_world` for a lane's entries; docs/MODEL.md, "What a call makes and frees".
#![tactic(auto)]

mod blocks;
mod entries;
mod line_set;
mod objects;

pub use blocks::CallBlocks;
pub use objects::{Freed, Made};

#[cfg(test)]
mod tests;
