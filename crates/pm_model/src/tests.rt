use super::*;

/// Each law and example by its name: none runs any code. And the stages of a transaction, which
/// differ.
#[test]
fn laws_and_stages(rt: HostRuntime) {
    calls_have_parts();
    apart_calls_change_places();
    apart_calls_come_last();
    late_calls_stand_earlier();
    apart_calls_may_be_left_out();
    states_are_known_by_names();
    pools_are_known_by_their_items();
    pools_are_sound();
    replies_fix_the_next_state();
    aborted_calls_change_nothing();
    calls_keep_pools_sound();
    transactions_grow_at_their_end();
    blocks_begin_at_chunks_and_in_runs();
    a_call_by_example();
    operations_by_example();
    refusals_by_example();
    calls_outside_by_example();
    assert_eq!(rt; Stage::Work, Stage::Work);
    assert_ne!(rt; Stage::OnCommit, Stage::OnAbort);
}
