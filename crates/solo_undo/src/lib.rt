//! To go: this crate is proved for a single lane with no other beside it, and the crates for any number of lanes replace it.
//!
//! Undo logging: words are recorded before they are written, put back where a call is given up, and their records ended.
//!
//! Promises the calls of a transaction, over any lawful memory of a lane, that each part makes exactly the stated
//! sequence of memory calls, or the first of them up to the lane's stop: so that a stop at any call leaves what a
//! recovery can put back. No part takes memory. It stands on `solo_world` for lanes and sequences, on `pm_record` for the
//! records' spelling; docs/FORMAT.md, "Sequences", and docs/MODEL.md, "Undo logging".
#![tactic(auto)]

mod laws;
mod places;
mod plan;
mod record;
mod restoring;
mod retiring;
mod snapshotting;

pub use laws::{
    a_begun_call_is_at_work, a_call_given_up_may_retire, a_drawn_call_may_retire,
    a_lane_that_learns_stays_at_work, a_lane_that_looks_stays_at_work,
    a_lane_that_takes_locks_stays_at_work, a_lane_that_tells_stays_at_work,
    a_settled_lane_stays_at_work, a_snapshot_covers_its_range, all_may_be_settled,
    recorded_words_may_be_put_back, recorded_words_may_be_written, room_may_be_made,
    words_held_for_writing_may_be_recorded, words_may_be_recorded, words_under_locks_are_plain,
};
pub use plan::is_recorded;
pub use restoring::restore;
pub use retiring::{persist, retire};
pub use snapshotting::snapshot;
