//! To go: this crate is proved for a single lane with no other beside it, and the crates for any number of lanes replace it.
//!
//! A pool from call to call, where a lane that is alone allocates and frees.
//!
//! Promises whoever proves what a lane's calls leave that what such a call publishes, blocks for new objects, blocks freed and words set, is in
//! the pool that a power failure leaves as a whole or not at all (`a_lane_alone_publishes_a_pool`), and that the words at the call's end hold
//! that pool, from which the next call begins (`a_published_pool_stands`); that a world lets a lane make objects, and publish what it reserved
//! and found; and that an object which a lane alone made is one that its call may tell (`a_lane_alone_may_tell_its_new_object`), or tell as
//! reserved (`a_lane_alone_may_reserve_its_new_object`), and that what it has reserved stands from call to call
//! (`a_lane_alone_rests_with_what_it_reserved`), until the lane gives it back (`a_lane_alone_gives_back_what_it_reserved`), or within a call that
//! uses it no more (`a_lane_alone_gives_back_within_a_call`). No code runs. It stands on `solo_sealed` for what a sealed log leaves, and on
//! `solo_crash` for what entries make of a pool; docs/MODEL.md.
#![tactic(auto)]

mod giving_back;
mod laws;
mod reserving;

pub use giving_back::{
    a_lane_alone_gives_back_what_it_reserved, a_lane_alone_gives_back_within_a_call,
};
pub use laws::{
    a_call_stays_borne_out, a_clear_chunk_is_unused, a_committed_call_may_publish_what_it_entered,
    a_committed_call_turns_its_pool, a_draw_hands_over, a_draw_promises_what_will_be_taken,
    a_filled_block_is_fresh, a_lane_alone_holds_its_pools, a_lane_alone_may_change_its_blocks,
    a_lane_alone_may_make_objects, a_lane_alone_may_tell_its_new_object,
    a_lane_alone_publishes_a_pool, a_lane_at_rest_may_begin_again,
    a_lane_at_work_knows_what_is_taken, a_lane_holds_what_it_knows_behind_its_log,
    a_lane_knows_what_is_taken_behind_its_log, a_lane_that_reclaimed_begins_again,
    a_lane_that_works_alone_may_make_objects, a_lane_whose_call_has_ended_begins_again,
    a_made_object_is_not_the_root, a_new_object_leaves_a_view, a_pool_may_precede_a_call_borne_out,
    a_published_call_has_ended, a_published_call_is_replayed, a_published_pool_stands,
    a_publishing_lane_leaves_its_whole_calls, a_reserved_block_overlaps_none,
    a_world_leads_to_what_is_published, changes_of_own_bits_are_in_order,
    giving_back_keeps_what_is_taken, publishing_keeps_what_a_lane_has, what_a_call_freed_is_locked,
};
pub use reserving::{
    a_lane_alone_may_reserve_its_new_object, a_lane_alone_reserves_outside,
    a_lane_alone_rests_with_what_it_reserved, a_lane_alone_writes_outside_what_it_reserved,
    what_a_lane_alone_reserved_lies_apart, words_filled_stay_filled,
};

#[cfg(test)]
mod tests;
