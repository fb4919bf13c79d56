//! To go: this crate is proved for a single lane with no other beside it, and the crates for any number of lanes replace it.
//!
//! The occupancy words of the heap, as a pool's words give them at an opening.
//!
//! Promises whoever opens a pool one bit for each block of a run and each chunk of a zone, set exactly where descriptors and bitmaps say
//! that it is taken, or where there is no such block: `IsOccupancy`; and whoever looks at one chunk or zone the same of it, from its words alone. It stands on `pm_layout` for the blocks of a class and on `solo_view`
//! for what is taken; docs/FORMAT.md, "Volatile words".
#![tactic(auto)]

mod occupancy;
mod taken;

pub use occupancy::{Occupancy, occupancy_of};
pub use taken::{TakenChunks, is_run, taken_blocks};

#[cfg(test)]
mod tests;
