//! The calls of a transaction: pmemobj_tx_begin(3) and its kin, over any lawful memory of a lane and
//! whatever other lanes do.
//!
//! Promises of each call, in one clause by cases of what it answers, that it makes exactly the memory
//! calls of its plan, or the first of them up to the lane's stop; what it tells is the plain model's
//! operation, and what it leaves is the lane at work, a call that is over and has the fact that it
//! owes, or a lane between two calls. A publish sets no word: the commit of the outermost level does.
//! It stands on `pm_call` for the parts that calls share, and for how many stores, flushes and drains
//! their plans make at most; docs/BEHAVIOUR.md.
#![tactic(auto)]

mod begins;
mod commits;
mod ending;
mod increments;
mod laws;
mod locks;
mod outcome;
mod publishing;
mod ranges;
mod stages;

pub use begins::begin;
pub use commits::{commit, process};
pub use ending::end;
pub use increments::increment;
pub use laws::{lanes_stand, positions_follow};
pub use locks::lock;
pub use outcome::abort;
pub use publishing::publish;
pub use ranges::{add_range, read, write};
pub use stages::{errno, level, stage};

#[cfg(test)]
mod tests;
