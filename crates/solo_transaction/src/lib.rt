//! To go: this crate is proved for a single lane with no other beside it, and the crates for any number of lanes replace it.
//!
//! The calls of a transaction on any object, found or made: pmemobj_tx_begin(3), pmemobj_tx_add_range(3), pmemobj_tx_alloc(3), pmemobj_tx_free(3),
//! pmemobj_tx_publish(3), pmemobj_tx_commit(3) and pmemobj_tx_end(3), and the writes and reads that are plain memory accesses there; and pmemobj_reserve(3),
//! pmemobj_defer_free(3) and pmemobj_set_value(3) inside of one.
//!
//! Promises the calls of a lane that is alone, over any lawful memory, whose transaction may make and free objects (`begin`, `add_range`, `write`, `read`,
//! `alloc`, `free`, `publish`, `cancel`, `commit`, `end`; `reserve`, `write_reserved`, `defer_free`, `set_value`). What the transaction found is `solo_tx`'s; what it made needs no lock and no record. Each makes exactly the stated memory calls, and is
//! the plain model's; a refusal is the model's reason and gives the transaction up, or, of the last four, leaves it in work. It stands on `solo_tx` for objects found, on `solo_alloc` for
//! new ones, on `solo_made` for the lists of what was made and freed, and on `solo_crash` for what a call comes to; docs/MODEL.md, "Transactions that make objects".
//!
//! Its laws say, of a lane that works alone, that it may make an object wherever it is at work, that such a transaction may be committed with the redo entries of its
//! blocks, that its call has ended then, what a power failure leaves of it on the way, and that the lane begins again behind the transaction's end; that an object
//! is made by few stores, which keep what its call found; and that what the lane has reserved and pending stands behind the transaction, with which the lane rests. They stand on `solo_epoch`; docs/MODEL.md, "From call to call".
#![tactic(auto)]

mod alloc_laws;
mod allocating;
mod beginning;
mod canceling;
mod committing;
mod deferring;
mod ending;
mod filling;
mod freeing;
mod giving_back;
mod laws;
mod new_ranges;
mod origins;
mod publish_checks;
mod published_lists;
mod publishing;
mod ranges;
mod reserving;
mod resting;

pub use alloc_laws::an_object_is_made_by_few_stores;
pub use allocating::alloc;
pub use beginning::begin;
pub use canceling::cancel;
pub use committing::commit;
pub use deferring::{defer_free, set_value};
pub use ending::end;
pub use filling::{ReservedMem, write_reserved};
pub use freeing::free;
pub use giving_back::give_up_pending;
pub use laws::{
    a_call_told_by_its_log_is_published, a_commit_cut_short_is_lost_by_its_words,
    a_commit_cut_short_leaves_its_whole_calls, a_commit_of_a_lane_alone_publishes_its_call,
    a_lane_alone_begins_at_work, a_lane_alone_may_allocate, a_lane_alone_may_publish_its_blocks,
    a_lane_alone_that_ended_begins_again,
};
pub use new_ranges::{do_add_new, do_read_new, do_write_new};
pub use published_lists::{move_frees, move_reserved};
pub use publishing::publish;
pub use ranges::{add_range, read, write};
pub use reserving::reserve;
pub use resting::{
    a_lane_alone_rests_behind_its_transaction, what_is_reserved_stands_behind_a_transaction,
};

#[cfg(test)]
mod tests;
