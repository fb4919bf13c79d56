//! To go: this crate is proved for a single lane with no other beside it, and the crates for any number of lanes replace it.
//!
//! What a lane that is alone has reserved or freed and published nowhere, given back behind its call's end.
//!
//! Promises whoever ends a call of a lane alone, over any lawful memory, that the occupancy words have behind it what the pool's words say is taken and what
//! is of the blocks that the lane keeps, and nothing else: `HasLeft`, and `HasNothingLeft` where it keeps none. Nothing waits, no call is counted, and no word of the pool is changed. It stands on `solo_occupancy` for what descriptors
//! and bitmaps say is taken, and on `solo_crash` for what a lane alone knows of that; docs/MODEL.md, "Behind a call's end".
#![tactic(auto)]

mod kept_bits;
mod laws;
mod reclaiming;

pub use laws::{a_lane_that_keeps_none_has_nothing_left, the_bits_of_a_block};
pub use reclaiming::reclaim;

#[cfg(test)]
mod tests;
