//! Pools as a whole: making one, and later opening, closing and crashing one.
//!
//! Promises whoever wants a new pool that `create` gives exactly the created pool, bit for bit, or says
//! which of its values it refuses, the first of them.
//! It stands on `pm_layout` for places, `pm_header` for the header page and `pm_raw` for the words.
//! The created pool is in specs/Created.antt and docs/FORMAT.md, "A created pool".
#![tactic(auto)]

mod creating;
mod parts;

pub use creating::{CreateFault, create};
pub use parts::root_offset;

#[cfg(test)]
mod tests;
