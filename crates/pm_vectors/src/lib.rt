//! Pools with one damage each, for tests: each kind of fault that a file can have.
//!
//! Promises whoever tests a reader of pools that the bytes of a damage are those of a new pool with the damage's words written
//! over it, and its first bytes alone. The table of damages has at least one for each fault; the sums of what is written over
//! were worked by hand. It stands on `pm_pool` for the new pool and `pm_words` for its bytes.
#![tactic(auto)]

mod damage;
mod pool;

pub use damage::{DAMAGES, Damage, Lanes};
pub use pool::damaged_pool;

#[cfg(test)]
mod tests;
