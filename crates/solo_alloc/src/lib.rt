//! To go: this crate is proved for a single lane with no other beside it, and the crates for any number of lanes replace it.
//!
//! A new object: a block is reserved for it, and filled with its type, its size and zeros, all of it persistent.
//!
//! Promises whoever allocates for a lane that is alone and at work, over any lawful memory, a block as `solo_blocks` finds it, of which each word is that of
//! a new object then and nothing is undrained; no word besides changed, but those of a run that was made for it; and, where the lane stops, what it made
//! so far. Unless it stopped, it may make another object. It stands on `solo_blocks` and `solo_fresh`; docs/FORMAT.md, "Sizes" and "Sequences".
#![tactic(auto)]

mod making;

pub use making::new_object;

#[cfg(test)]
mod tests;
