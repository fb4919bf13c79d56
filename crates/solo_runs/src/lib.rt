//! To go: this crate is proved for a single lane with no other beside it, and the crates for any number of lanes replace it.
//!
//! The blocks of runs, as a lane reserves them and gives them back.
//!
//! Promises whoever allocates for a lane, over any lawful memory, a block of a class that no other lane has: it is reserved in the occupancy word of its
//! run, where that was seen to be one of the class, or each run of the pool was seen to have none left; where the lane is alone it is the least one that is
//! free. Nothing waits, no call is counted, and no word of the pool is changed. It stands on `pm_layout` for places and classes and on `solo_world` for what
//! a search is; how blocks are found: docs/FORMAT.md, "Blocks are found".
#![tactic(auto)]

mod giving;
mod places;
mod reserving;

pub use giving::give_back;
pub use reserving::reserve_small;

#[cfg(test)]
mod tests;
