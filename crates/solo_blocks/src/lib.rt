//! To go: this crate is proved for a single lane with no other beside it, and the crates for any number of lanes replace it.
//!
//! A block for an object is reserved, of whole chunks or of a class, in a run or in a new one; and it is given back.
//!
//! Promises whoever allocates for a lane that is alone, over any lawful memory, the least free block of a class or, where none is free, the first block of
//! the run that is made of the least free chunk; that there is none exactly where no chunk is free either; and, where the lane stops, what it made so far.
//! Unless it stopped, it may reserve another. A block that it reserved it may give back, and no other bit is cleared. Nothing waits. It stands on
//! `solo_runs`, `solo_chunks` and `solo_fresh`; docs/FORMAT.md, "Blocks are found".
#![tactic(auto)]

mod giving;
mod making;
mod reserving;
mod small;

pub use giving::give_back;
pub use making::{NoBlock, new_run};
pub use reserving::reserve;
pub use small::reserve_small;

#[cfg(test)]
mod tests;
