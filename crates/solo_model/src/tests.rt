use super::*;

/// Each law by its name: none runs any code. And the stages of a transaction, which differ.
#[test]
fn laws_and_stages(rt: HostRuntime) {
    calls_have_parts();
    apart_calls_change_places();
    apart_calls_come_last();
    late_calls_stand_earlier();
    apart_calls_may_be_left_out();
    replies_fix_the_next_state();
    states_are_known_by_names();
    calls_keep_pools();
    aborted_calls_change_nothing();
    answers_alone_are_answers();
    blocks_begin_at_chunks_and_in_runs();
    objects_are_told_by_their_offsets();
    made_and_freed_objects_are_told();
    assert_eq!(rt; Stage::Work, Stage::Work);
    assert_ne!(rt; Stage::OnCommit, Stage::OnAbort);
}
