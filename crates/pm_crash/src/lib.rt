//! What the history of a world means: from words to the plain model, for any number of lanes.
//!
//! A world says of words which calls took which numbers, and what each makes final; the plain
//! model says what one whole call makes of a pool. Here both meet. As a call takes its number it
//! owes one fact, with no other lane in it (`Fact`): from all bits that may precede it and that
//! hold a pool, its difference makes bits that hold the pool to which the model's step leads.
//! From it follows that every image that a power failure leaves means the replay of the calls
//! that it does not lose, one whole call after another.
//!
//! No code stands here but laws. It stands on `pm_world` for the history and the crash law,
//! `pm_model` for calls, `pm_image` for the meaning of words; docs/MODEL.md, "The crash theorem".
#![tactic(auto)]

mod answers;
mod described;
mod fates;
mod footprints;
mod freshness;
mod histories;
mod images;
mod lanes;
mod objects;
mod scenes;
mod torn;
mod writes;

pub use answers::{lines_without_room_have_causes, reports_have_causes};
pub use described::descriptors_have_classes;
pub use fates::{awaited_stores_are_single, open_calls_have_fates};
pub use footprints::footprints_stand;
pub use freshness::histories_are_fresh;
pub use histories::{
    a_call_is_a_step, a_history_holds_its_replay, effects_are_facts, entries_have_facts,
    missing_objects_have_causes,
};
pub use images::images_mean_replays;
pub use lanes::{
    a_lane_follows_the_model, ended_transactions_are_over, first_refusals_are_the_models,
    lone_operations_have_facts, operations_follow_the_model, steps_of_a_call_keep_what_is_known,
    transactions_have_facts,
};
pub use objects::{
    a_difference_changes_the_heap, blocks_are_items, good_heaps_hold_pools, own_blocks_are_free,
};
pub use scenes::scenes_go_on;
pub use torn::no_record_is_torn;
pub use writes::{blocks_are_edits, bytes_stand_in_words, items_are_told};
