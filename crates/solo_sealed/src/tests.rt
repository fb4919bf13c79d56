use super::*;

/// Each law by its name: none runs any code.
#[test]
fn laws(_rt: HostRuntime) {
    a_lane_alone_publishes_all_or_nothing();
    a_log_at_its_end_is_clean();
    a_published_log_has_no_fault();
    a_world_leads_to_the_seal();
}
