//! What the calls of a transaction share: a lane at work as plain data, what an operation did to it,
//! and the laws of both; and how a transaction is given up, and a level of it is committed and ends.
//!
//! Promises, over any lawful memory and whatever other lanes do, that a transaction that is given up
//! makes exactly the memory calls of its plan, or the first of them up to the lane's stop; and laws
//! of data: from which views it may be given up or committed, and that the call is over then; that a
//! lane at work may lock objects, whose locks it tries and under which it looks for them; and that it
//! may publish or cancel the words that it has pending. Of the begin of an outermost level: that the
//! call opens, and its locks are waited for; and that one that is refused for them is told, and ends
//! its call. Of a range of an object: that its checks find the plain model's first reason or what the
//! operation asks, and that it is recorded, written and read by the calls of its plan; and so that a
//! number of eight bytes is incremented. Of all plans: what they tell, and how many stores, flushes
//! and drains they make at most; and that a lane stands with its history, call by call. It stands on
//! `pm_undo` for putting words back, on `pm_redo` for logs of published words, on `pm_lock` for
//! objects under their locks, on `pm_crash` for what the call owes the plain model; docs/FORMAT.md,
//! "Sequences".
#![tactic(auto)]

mod adding;
mod checking;
mod committing;
mod entering;
mod finishing;
mod holding;
mod incrementing;
mod laws;
mod lock_ops;
mod locking;
mod opening;
mod outside;
mod publications;
mod publishing;
mod ranges;
mod reading;
mod rollback;
mod stages;
mod trying;
mod writing;

pub use adding::{do_add, ranges_may_be_added};
pub use checking::{check_range, check_words, holds};
pub use committing::{commit_inner, stage_after};
pub use entering::enter_words;
pub use finishing::{commit_call, finish_entries};
pub use holding::is_held;
pub use incrementing::{check_number, do_increment, numbers_may_be_incremented};
pub use laws::{
    calls_given_up_are_past_work, committed_calls_are_past_work, inner_levels_may_be_committed,
    operations_tell, outermost_levels_may_be_committed, plans_make_few_stores,
    positions_tell_refusals, transactions_may_be_given_up,
};
pub use lock_ops::{begin_inner, lock_wanted};
pub use locking::{
    calls_may_open, deep_begins_give_up, lanes_at_work_may_lock, locks_are_got,
    locks_may_be_wanted, objects_may_be_locked, refusals_of_locks_are_the_models,
    refused_locks_give_up, transactions_may_begin, tried_locks_leave_work,
};
pub use opening::{
    begin_outermost, open_call, refusals_of_begins_are_the_models, refused_begins_end,
};
pub use outside::{actions_may_be_told, end_outside, refused_publications_end};
pub use publications::{look_pending, publications_may_be_made, refuse_publish, set_words};
pub use publishing::{
    pending_words_are_looked_at, pending_words_may_be_cancelled, pending_words_may_be_published,
    refusals_of_publish_are_the_models,
};
pub use ranges::{ranges_are_looked_at, refusals_of_ranges_are_the_models};
pub use reading::{do_read, ranges_may_be_read};
pub use rollback::{give_up, refuse, stop, take_back};
pub use stages::{end_refusal, work_refusal};
pub use trying::{take_wanted, try_wanted};
pub use writing::{check_recorded, count_words, do_write, ranges_may_be_written};

#[cfg(test)]
mod tests;
