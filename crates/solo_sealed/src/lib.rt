//! To go: this crate is proved for a single lane with no other beside it, and the crates for any number of lanes replace it.
//!
//! What a sealed redo log leaves: all of its entries or nothing, whatever words they are of.
//!
//! Promises whoever proves what a lane's call leaves that, from the draw of the call's number to where its seal is cleared, a power failure
//! leaves the words as they were or, once recovered, as the entries make them (`a_lane_alone_publishes_all_or_nothing`), and that at the end each
//! word is so and every log clean (`a_log_at_its_end_is_clean`). The lane is alone, and the entries may be of words that tell of blocks, as
//! those that allocate and free. No code runs. It stands on `pm_image` for recovered words and `solo_world` for entries; docs/MODEL.md.
#![tactic(auto)]

mod laws;

pub use laws::{
    a_lane_alone_publishes_all_or_nothing, a_log_at_its_end_is_clean, a_published_log_has_no_fault,
    a_world_leads_to_the_seal,
};

#[cfg(test)]
mod tests;
