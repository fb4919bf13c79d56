//! To go: this crate is proved for a single lane with no other beside it, and the crates for any number of lanes replace it.
//!
//! Chunks of a zone that lie one after another, as a lane reserves them and gives them back.
//!
//! Promises whoever allocates for a lane, over any lawful memory, so many chunks of one zone that no other lane has: they are reserved in the zone's
//! occupancy word under the zone's lock, or each zone was seen to have no such chunks; where the lane is alone they are the least that are free. Nothing
//! waits, no call is counted, and no word of the pool is changed. It stands on `pm_layout` for places and on `solo_world` for what a search is; how chunks
//! are found: docs/FORMAT.md, "Blocks are found".
#![tactic(auto)]

mod bits;
mod giving;
mod reserving;

pub use giving::give_back;
pub use reserving::reserve_chunks;

#[cfg(test)]
mod tests;
