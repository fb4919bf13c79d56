use super::*;

/// Each law by its name: none runs any code.
#[test]
fn laws(_rt: HostRuntime) {
    a_call_stays_borne_out();
    a_clear_chunk_is_unused();
    a_committed_call_may_publish_what_it_entered();
    a_committed_call_turns_its_pool();
    a_draw_hands_over();
    a_draw_promises_what_will_be_taken();
    a_filled_block_is_fresh();
    a_lane_alone_gives_back_what_it_reserved();
    a_lane_alone_gives_back_within_a_call();
    a_lane_alone_holds_its_pools();
    a_lane_alone_may_change_its_blocks();
    a_lane_alone_may_make_objects();
    a_lane_alone_may_reserve_its_new_object();
    a_lane_alone_may_tell_its_new_object();
    a_lane_alone_publishes_a_pool();
    a_lane_alone_reserves_outside();
    a_lane_alone_rests_with_what_it_reserved();
    a_lane_alone_writes_outside_what_it_reserved();
    a_lane_at_rest_may_begin_again();
    a_lane_at_work_knows_what_is_taken();
    a_lane_holds_what_it_knows_behind_its_log();
    a_lane_knows_what_is_taken_behind_its_log();
    a_lane_that_reclaimed_begins_again();
    a_lane_that_works_alone_may_make_objects();
    a_lane_whose_call_has_ended_begins_again();
    a_made_object_is_not_the_root();
    a_new_object_leaves_a_view();
    a_pool_may_precede_a_call_borne_out();
    a_published_call_has_ended();
    a_published_call_is_replayed();
    a_published_pool_stands();
    a_publishing_lane_leaves_its_whole_calls();
    a_reserved_block_overlaps_none();
    a_world_leads_to_what_is_published();
    changes_of_own_bits_are_in_order();
    giving_back_keeps_what_is_taken();
    publishing_keeps_what_a_lane_has();
    what_a_call_freed_is_locked();
    what_a_lane_alone_reserved_lies_apart();
    words_filled_stay_filled();
}
