//! What a lane of a pool knows of the shared memory and of itself, as plain data, and what each of its steps does to it.
//!
//! Promises whoever proves a memory, an engine or a world one vocabulary: `Step`, `View`, `after`, what a step tells (`Found`),
//! the places of words and the blocks that they are in. All of it is lists and numbers, and seen through point functions
//! (`locked`, `found`, `mine`, `known`) that are computed from the lists. No value of a view is made when a program runs, and
//! no code stands here but laws. Docs/MODEL.md, "A lane's view".
#![tactic(auto)]

mod change;
mod occ;

pub use change::{Change, MAX_CHANGES};
pub use occ::Occ;
