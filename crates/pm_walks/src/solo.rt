//! Walks of a single lane.

use crate::pools::{root_id, single_lane};
use crate::walks;
use std::test::Fail;

/// The root's bytes.
const ROOT: u64 = 64;

/// The bytes of a root that has more than 64 records have room for.
const LARGE_ROOT: u64 = 4032;

#[test]
fn a_refusal_aborts(rt: HostRuntime) -> Result<(), Fail> {
    let mut lane = single_lane(rt.alloc(), ROOT)?;
    walks::refusals(&rt, &mut lane, root_id(1, ROOT)?)
}

#[test]
fn stages_follow_a_commit(rt: HostRuntime) -> Result<(), Fail> {
    let mut lane = single_lane(rt.alloc(), ROOT)?;
    walks::past_a_commit(&rt, &mut lane, root_id(1, ROOT)?)
}

#[test]
fn stages_follow_an_abort(rt: HostRuntime) -> Result<(), Fail> {
    let mut lane = single_lane(rt.alloc(), ROOT)?;
    walks::past_an_abort(&rt, &mut lane, root_id(1, ROOT)?)
}

#[test]
fn an_outer_abort_rolls_an_inner_commit_back(rt: HostRuntime) -> Result<(), Fail> {
    let mut lane = single_lane(rt.alloc(), ROOT)?;
    walks::outer_aborted(&rt, &mut lane, root_id(1, ROOT)?)
}

#[test]
fn an_inner_abort_aborts_the_outer_level(rt: HostRuntime) -> Result<(), Fail> {
    let mut lane = single_lane(rt.alloc(), ROOT)?;
    walks::inner_aborted(&rt, &mut lane, root_id(1, ROOT)?)
}

#[test]
fn the_65th_level_is_deep(rt: HostRuntime) -> Result<(), Fail> {
    let mut lane = single_lane(rt.alloc(), ROOT)?;
    walks::many_levels(&rt, &mut lane)
}

#[test]
fn the_65th_lock_is_one_too_many(rt: HostRuntime) -> Result<(), Fail> {
    let mut lane = single_lane(rt.alloc(), ROOT)?;
    walks::many_locks(&rt, &mut lane, root_id(1, ROOT)?)
}

#[test]
fn the_65th_record_is_one_too_many(rt: HostRuntime) -> Result<(), Fail> {
    let mut lane = single_lane(rt.alloc(), LARGE_ROOT)?;
    walks::many_records(&rt, &mut lane, root_id(1, LARGE_ROOT)?)
}

#[test]
fn a_lock_is_raised(rt: HostRuntime) -> Result<(), Fail> {
    let mut lane = single_lane(rt.alloc(), ROOT)?;
    walks::raised(&rt, &mut lane, root_id(1, ROOT)?)
}

#[test]
fn a_later_transaction_reads_all(rt: HostRuntime) -> Result<(), Fail> {
    let mut lane = single_lane(rt.alloc(), ROOT)?;
    walks::each_once(&rt, &mut lane, root_id(1, ROOT)?)
}

#[test]
fn a_sum_wraps(rt: HostRuntime) -> Result<(), Fail> {
    let mut lane = single_lane(rt.alloc(), ROOT)?;
    walks::incremented(&rt, &mut lane, root_id(1, ROOT)?)
}

#[test]
fn a_number_without_a_record_is_not_incremented(rt: HostRuntime) -> Result<(), Fail> {
    let mut lane = single_lane(rt.alloc(), ROOT)?;
    walks::not_incremented(&rt, &mut lane, root_id(1, ROOT)?)
}

#[test]
fn a_publish_sets_words_at_the_commit(rt: HostRuntime) -> Result<(), Fail> {
    let mut lane = single_lane(rt.alloc(), ROOT)?;
    walks::published(&rt, &mut lane, root_id(1, ROOT)?)
}

#[test]
fn a_word_past_the_end_is_not_published(rt: HostRuntime) -> Result<(), Fail> {
    let mut lane = single_lane(rt.alloc(), ROOT)?;
    walks::unpublished(&rt, &mut lane, root_id(1, ROOT)?)
}

#[test]
fn a_cancel_sets_no_word(rt: HostRuntime) -> Result<(), Fail> {
    let mut lane = single_lane(rt.alloc(), ROOT)?;
    walks::cancelled(&rt, &mut lane, root_id(1, ROOT)?)
}

#[test]
fn a_root_is_found_between_transactions(rt: HostRuntime) -> Result<(), Fail> {
    let mut lane = single_lane(rt.alloc(), ROOT)?;
    walks::found(&rt, &mut lane, root_id(1, ROOT)?)
}
