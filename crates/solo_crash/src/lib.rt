//! To go: this crate is proved for a single lane with no other beside it, and the crates for any number of lanes replace it.
//!
//! The laws of the crash theorem: what recovered words mean, and how the words that a call makes final change the pool.
//!
//! Promises whoever proves an engine or the top theorem that words which hold a pool, with bytes written inside an object, hold the
//! pool of the plain model after that write; that a block which is made a new object's adds it to the pool, and one that is freed takes its
//! object away; that the blocks a lane finds are the pool's objects; that each operation of a call, its
//! refusals and its commit are the plain model's, by what the lane's view has before and after; and that every image which a power failure
//! leaves then holds what whole calls made, and of one lane's work means their replay, by what that lane's view has. No code stands here but laws. It stands on
//! `pm_image` for the meaning of words, `solo_model` for calls, `solo_view` for what a lane has, `solo_world` for records; docs/MODEL.md.
#![tactic(auto)]

mod actions;
mod alone;
mod blocks;
mod bounds;
mod calls;
mod course;
mod heap;
mod histories;
mod laws;
mod reserving;
mod taken;
mod under_way;

pub use actions::{
    a_call_on_actions_is_a_step, a_call_on_actions_keeps_the_call, a_publish_is_a_step,
    a_refused_publish_is_a_step, entries_perform_actions,
};
pub use alone::{
    a_call_in_flight_is_lost_by_its_generation, a_generation_rises_with_each_store_of_it,
    a_lane_alone_bears_out_its_call, a_lane_alone_knows_what_is_taken,
    a_lane_alone_leaves_its_whole_calls, a_pool_stays_sound, no_record_is_torn,
    no_record_is_torn_behind_a_rest,
};
pub use blocks::{
    a_filled_block_has_a_new_object, a_freed_block_holds_none, a_new_block_holds_a_new_object,
    a_new_run_holds_a_new_object, a_write_in_a_new_object_stays, blocks_may_be_changed,
    entries_publish_all_at_once, freed_chunks_hold_none, new_chunks_hold_a_new_object,
};
pub use bounds::no_counted_call_is_idle;
pub use calls::{
    a_begin_opens, a_call_given_up_changes_nothing, a_call_makes_its_difference,
    a_call_stays_while_its_lane_learns, a_call_stays_while_nothing_is_told, a_commit_is_a_step,
    a_committed_pool_is_published, a_further_begin_opens, a_read_tells_the_bytes,
    a_record_keeps_the_call, a_refusal_gives_up, a_refused_begin_gives_up,
    a_transaction_that_rests_has_run, a_write_changes_the_call, an_abort_gives_up,
    an_inner_commit_keeps_the_call, rising_wants_are_locks, wants_may_change_places,
};
pub use course::{
    a_recovered_pool_opens_a_world, an_ended_call_is_a_model_step, one_lanes_images_mean_the_replay,
};
pub use heap::{
    a_pool_is_held_by_what_is_read, a_run_without_blocks_holds_nothing, new_runs_hold_nothing,
    words_of_free_blocks_are_not_read,
};
pub use histories::{
    a_crash_leaves_what_kept_calls_made, a_drawn_call_is_a_step, a_history_is_held,
    a_lane_looks_past_calls_in_flight,
};
pub use laws::{
    a_block_is_an_object, a_lane_finds_the_blocks, a_pool_is_held_by_heap_words,
    a_read_finds_the_bytes, a_write_changes_one_object, an_object_has_words_of_its_own,
    covered_words_have_a_byte, each_write_has_its_words, images_hold_their_pools,
    the_root_is_its_word,
};
pub use reserving::{
    a_call_outside_reserves, a_call_under_way_reserves_objects, what_is_reserved_stays,
};
pub use taken::what_is_taken_follows_the_blocks;
pub use under_way::{
    a_call_under_way_ends, a_call_under_way_frees_objects,
    a_call_under_way_gives_back_what_it_leaves, a_call_under_way_goes_on,
    a_call_under_way_is_aborted, a_call_under_way_makes_objects,
};

#[cfg(test)]
mod tests;
