//! To go: this crate is proved for a single lane with no other beside it, and the crates for any number of lanes replace it.
//!
//! Calls on pending actions outside of a transaction: pmemobj_reserve(3), pmemobj_defer_free(3), pmemobj_set_value(3), pmemobj_cancel(3) and
//! pmemobj_publish(3).
//!
//! Promises whoever runs a lane, over any lawful memory, that each is a call of the history of its own: it is told with its answer, draws its
//! number and leaves the lane at rest, and its list of actions is what the plain model has pending then. It stands on `solo_lock` for locks and
//! objects, on `solo_tx` for the ends of a call, on `solo_pending` for the list and on `solo_crash` for what is a step of the plain model.
//!
//! A reservation and a write into what is reserved (`reserve`, `write_reserved`; pmemobj_reserve(3)) are calls of a lane that is alone: wherever that rested with what it
//! had reserved, it rests with that behind each, and what is reserved stands in its words. They stand on `solo_alloc` for new objects and on `solo_epoch` for what a lane
//! alone has from call to call.
#![tactic(auto)]

mod canceling;
mod deferring;
mod filling;
mod holding;
mod laws;
mod publishing;
mod publishing_all;
mod reserving;
mod resting;
mod telling;

pub use canceling::{cancel, finish};
pub use deferring::{defer_free, set_value};
pub use filling::write_reserved;
pub use holding::hold_actions;
pub use laws::{a_lane_alone_publishes_all_at_once, a_lane_alone_rests_behind_its_publish};
pub use publishing::publish;
pub use reserving::reserve;
pub use resting::a_lane_alone_rests_behind_its_call;
pub use telling::{come_to_rest, end_outside};
