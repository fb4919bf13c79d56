//! To go: this crate is proved for a single lane with no other beside it, and the crates for any number of lanes replace it.
//!
//! The locks of a call, as a lane takes them, finds the objects under them and gives them back.
//!
//! Promises `solo_tx` and `solo_action`, over any lawful memory of a lane: the locks that a call's wants need are planned in rising lines, one for each
//! object, or the wants are too many or of no object's form; each is tried once, and where one is refused the others are given back and the lane
//! rests; under each the block and the object's size are looked at, so that there is an object everywhere, or one is missing by the pool's words.
//! It stands on `solo_model` for which offsets are objects' and which locks a call has, and on `solo_world` for when a lock may be taken and given.
#![tactic(auto)]

mod finding;
mod locking;
mod places;
mod wants;

pub use finding::find_objects;
pub use locking::{give_all, give_back, take_all, take_line};
pub use places::can_begin;
pub use wants::plan_locks;

#[cfg(test)]
mod tests;
