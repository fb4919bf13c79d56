//! To go: this crate is proved for a single lane with no other beside it, and the crates for any number of lanes replace it.
//!
//! Redo logging: the words of a call change all at once, at its seal.
//!
//! Promises the calls of a lane, over any lawful memory, that entries are stored, sealed, applied and their seal cleared by
//! exactly the stated memory calls, or the first of them up to the lane's stop: before the drained seal nothing has
//! changed, and behind the cleared one every entry has. No part takes memory. It stands on `solo_world` for lanes and
//! sequences and on `solo_undo` for a lane's area; docs/FORMAT.md, "Sequences", and docs/MODEL.md, "Redo logging".
#![tactic(auto)]

mod applying;
mod entries;
mod laws;
mod logging;
mod performing;
mod places;
mod sealing;

pub use applying::apply_all;
pub use entries::put;
pub use laws::{
    a_lane_may_seal, a_log_may_be_performed, a_log_may_be_written, a_seal_may_be_cleared,
    entries_may_be_stored, sealed_entries_may_be_applied,
};
pub use logging::write_log;
pub use performing::perform;
pub use sealing::{retire, seal};

#[cfg(test)]
mod tests;
