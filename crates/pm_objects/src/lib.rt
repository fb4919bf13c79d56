//! What a pool of persistent memory holds and what is done to it, as plain data: ids, objects, calls, replies, entries.
//!
//! Promises every crate above one vocabulary: contracts see each type as its definition's value, bytes
//! and lists as lists, so that what the code answers can be compared with what a definition says.
//! A `PoolView` is a pool as a finite map, in rising offsets; `IsPool` (specs/Pool.antt) says what a
//! pool is. It stands on `pm_layout` for the blocks that objects take.
#![tactic(auto)]

mod calls;
mod history;
mod ids;
mod laws;
mod pool;
mod refusal;
mod sequence;
mod stops;

pub use calls::{At, Call, Dest, Operation, Want};
pub use history::{Entry, Fate, Reply, TxErr, Value};
pub use ids::Oid;
pub use laws::objects_are_a_map;
pub use pool::{Object, PoolView};
pub use refusal::Refusal;
pub use sequence::Sequence;
pub use stops::Stops;

#[cfg(test)]
mod tests;
