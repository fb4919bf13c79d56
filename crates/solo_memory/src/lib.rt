//! To go: this crate is proved for a single lane with no other beside it, and the crates for any number of lanes replace it.
//!
//! Memory in single calls: loads, stores, flushes and drains, and what of them a power failure may leave.
//!
//! Promises whoever runs a lane that each call of `LaneMem` and `LaneSync` is exactly one step of the lane's view, or `Stopped`
//! exactly at its stop number; of `Memory`, all lanes over one list of words, and of `SoloMem`, one lane alone, that each call is
//! exactly its change of the words and that `survive` gives the image of the choice that a number stands for. It stands on `solo_view`
//! for views, steps and changes; docs/MODEL.md, "Memory".
#![tactic(auto)]

mod changes;
mod lane_mem;
mod lane_sync;
mod laws;
mod lock_word;
mod memory;
mod sequences;
mod solo;
mod solo_lane;
mod solo_sync;
mod survivors;

pub use lane_mem::{LaneMem, Stopped};
pub use lane_sync::LaneSync;
pub use laws::{alone_no_lock_is_refused, images_are_found, unlocked_memory_is_seen};
pub use memory::Memory;
pub use sequences::persist;
pub use solo::SoloMem;
pub use solo_view::{Change, MAX_CHANGES, Occ};

#[cfg(test)]
mod tests;
