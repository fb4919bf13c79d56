//! To go: this crate is proved for a single lane with no other beside it, and the crates for any number of lanes replace it.
//!
//! The plain model of a pool in use: what one call of a lane may answer and what it leaves, one whole call after another.
//!
//! Promises whoever proves an engine or a world one definition of a call (`Step`), of the order in which its
//! refusals are looked for (`first_refusal`), of the pool after a history (`Replays`), and of which names a call
//! reads and writes (`Apart`), with the laws that follow. No memory and no lane at work stands here, and almost
//! no code. It stands on `pm_objects` for pools and calls, and on `pm_layout` for places; docs/MODEL.md, "The plain model".
#![tactic(auto)]

mod laws;
mod stage;

pub use laws::{
    aborted_calls_change_nothing, answers_alone_are_answers, apart_calls_change_places,
    apart_calls_come_last, apart_calls_may_be_left_out, blocks_begin_at_chunks_and_in_runs,
    calls_have_parts, calls_keep_pools, late_calls_stand_earlier, made_and_freed_objects_are_told,
    objects_are_told_by_their_offsets, replies_fix_the_next_state, states_are_known_by_names,
};
pub use stage::Stage;

#[cfg(test)]
mod tests;
