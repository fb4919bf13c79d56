//! The frame in which a program runs lanes on threads: from what lanes begin on to the image that
//! they leave where power fails at the end.
//!
//! Promises whoever runs works that each work ran on a lane of its own, in a thread of its own where
//! one can be made, up to its end or the lane's stop; that what a work says of the view in which it
//! left its lane is so of that lane's view in the world with which the pool closed; and that the
//! image may survive a power failure then, with a flag of each lane that tells whether the image
//! keeps the lane's open call. A work, a type with the trait `Work`, is over any lawful memory and
//! sees one lane.
//! The crate stands on `pm_shared` for lanes over shared words, on `pm_call` for what a lane stands
//! with, on `pm_lanes` for what is known of a closed pool, on `pm_crash` for what words tell of an
//! open call, and on `pm_memory` for what is kept of undrained changes. The definitions are in
//! specs/Runs.antt and specs/Fates.antt.
#![tactic(auto)]

mod fates;
mod job;
mod pool;
mod work;

pub use pool::{Ran, run_lanes};
pub use work::Work;

#[cfg(test)]
mod tests;
