//! Memory in single calls: loads, stores, flushes and drains, and what of them a power failure may
//! leave.
//!
//! Promises whoever runs a lane that each call of `LaneMem` and `LaneSync` is exactly one step of
//! the lane's view, or `Stopped` exactly at its stop number; of `Memory`, all lanes over one list
//! of words, and of `SoloMem`, one lane where no other runs, that each call is exactly its change
//! of the words and that `survive` gives the image of the choice that a number stands for, as
//! `crash` does of words and undrained changes that lanes came back with. It stands on `pm_view` for
//! views, steps and changes; docs/MODEL.md, "Memory".
#![tactic(auto)]

mod changes;
mod image;
mod lane_mem;
mod lane_sync;
mod laws;
mod lock_word;
mod memory;
mod sequences;
mod solo;
mod solo_lane;
mod solo_sync;
mod survivors;

pub use image::crash;
pub use lane_mem::{LaneMem, Stopped};
pub use lane_sync::LaneSync;
pub use laws::{images_are_found, opened_memory_is_seen, seen_memory_can, survivors_lose_changes};
pub use memory::Memory;
pub use pm_view::{Change, MAX_CHANGES, Occ};
pub use sequences::persist;
pub use solo::SoloMem;

#[cfg(test)]
mod tests;
