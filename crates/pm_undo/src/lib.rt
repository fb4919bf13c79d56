//! Undo logging: words are recorded, then written, put back where a call is aborted, and their
//! records retired.
//!
//! Promises the calls of a lane, over any lawful memory and whatever other lanes do, that each part
//! makes exactly the memory calls of its plan, or the first of them up to the lane's stop; and laws
//! of plans: from which views of a lane each may be carried out, and what it leaves. No part takes
//! memory, and none reads a log: what a lane recorded it keeps. It stands on `pm_plan` for plans, on
//! `pm_world` for lawful steps; docs/FORMAT.md, "Sequences".
#![tactic(auto)]

mod laws;
mod reading;
mod recording;
mod restoring;
mod retiring;
mod snapshots;
mod spans;
mod writing;

pub use laws::{
    generations_may_end, holdings_stay, lanes_stay_between_operations,
    ranges_of_held_objects_may_be_snapshot, recorded_words_may_be_put_back,
    recorded_words_may_be_written, restored_lanes_may_end_their_generation,
    snapshot_ranges_may_be_written, snapshots_are_lawful, snapshots_record_their_range,
};
pub use restoring::restore;
pub use retiring::retire;
pub use snapshots::snapshot;
pub use spans::{Span, are_recorded};
pub use writing::write;

#[cfg(test)]
mod tests;
