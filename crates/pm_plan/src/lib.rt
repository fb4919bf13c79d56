//! What engines step with: plans, and the memory calls that carry them out.
//!
//! A plan is the exact list of memory calls of an operation, as a function of the lane's view before
//! them. Promises an engine, over any lawful memory, that each part makes exactly the calls of its
//! plan, or the first of them up to the lane's stop; and laws of plans: that from each view all that
//! is undrained may be flushed and drained, and room made for one more change. It stands on
//! `pm_world` for lawful steps; docs/FORMAT.md, "Sequences".
#![tactic(auto)]

mod laws;
mod steps;
mod stores;

pub use laws::{all_may_be_persisted, room_may_be_made};
pub use steps::{drain, flush, look, persist};
pub use stores::{and, or, persist_all, store, store_all};
