//! Pending actions of a lane: they are asked for, cancelled, and published outside a transaction;
//! pmemobj_set_value(3), pmemobj_cancel(3) and pmemobj_publish(3), over any lawful memory of a lane
//! and whatever other lanes do.
//!
//! Promises of each call, in one clause by cases of what it answers, which memory calls it makes, and
//! that what it tells is the plain model's operation; what it leaves is the lane at work, a call that
//! is over and has the fact that it owes, or a lane between two calls. The publish inside a
//! transaction is `pm_tx`'s. It stands on `pm_call` for the parts that calls share, and for how many
//! stores, flushes and drains their plans make at most; docs/BEHAVIOUR.md.
#![tactic(auto)]

mod actions;
mod calls;
mod inside;
mod laws;
mod outside;
mod publications;

pub use calls::{cancel, set_value};
pub use laws::{finished_lanes_have_facts, lanes_stand, positions_follow};
pub use outside::finish;
pub use publications::publish;

#[cfg(test)]
mod tests;
