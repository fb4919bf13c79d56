//! To go: this crate is proved for a single lane with no other beside it, and the crates for any number of lanes replace it.
//!
//! What a lane of a pool knows of the shared memory and of itself, as plain data, and what each of its steps does to it.
//!
//! Promises whoever proves a memory, an engine or a world one vocabulary: `View`, `Step`, `after`, what a step
//! tells (`Found`), the bits that a lane alone may change (`HasRight`), and what is left of a word (`survivor`). Everything is plain
//! lists and numbers; no value of a view is made when a program runs, and no code stands here but laws. It stands
//! on `pm_objects` for the operations that a lane is told of; docs/MODEL.md, "A lane's view".
#![tactic(auto)]

mod change;
mod lane_view;
mod laws;
mod occ;

pub use change::{Change, MAX_CHANGES};
pub use lane_view::LaneView;
pub use laws::{changes_are_taken_back, survivors_are_found};
pub use occ::Occ;
