//! Whole transactions over the calls of `pm_tx`, `pm_action` and `pm_root`, on a single lane and on
//! two of one pool. The crate has tests alone.
//!
//! Each test makes a pool, opens it, and walks through transactions call by call: it says what each
//! call returns, in which stage, level and error it leaves the lane, and what a later transaction
//! reads. A walk is generic over the lane's memory, and asks of its lane only that it stands: it is
//! between two calls, at work, past the work of a level, or stopped. Each call asks no more, and
//! leaves it so.
#![tactic(auto)]

#[cfg(test)]
mod pools;
#[cfg(test)]
mod shared;
#[cfg(test)]
mod solo;
#[cfg(test)]
mod standing;
#[cfg(test)]
mod walks;
