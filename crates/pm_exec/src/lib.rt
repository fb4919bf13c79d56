//! Scripts of many lanes, run on a pool's image: each lane in a thread of its own, up to its end or its
//! stop, and what is left where power fails then.
//!
//! Promises whoever runs a script that the history it reports is that of the plain model: each lane's
//! entries are the first of its calls, in order, with the values that its lines gave, all of them
//! where the lane ended; that `root` stands for the root of the pool that was opened; that a lane stops
//! only at its stop number, or as it waits for a lock and another is at its own; that a call is aborted
//! as `Busy` only where another lane's call had a lock that it wants; that the calls that are not lost
//! lead the model, one whole call after another, from that pool to a pool; and that the image stands
//! for it, with the blocks of its objects and no other, unless a record is torn that a lane was writing
//! which stopped in a call that adds a range. It stands on `pm_calls` for the calls that lines are, on `pm_tx`, `pm_action`
//! and `pm_root` for what a line does on its lane, on `pm_run` for lanes in threads, and on `pm_lanes`
//! for what a closed pool means. The definitions are in specs/Runs.antt; docs/COMMANDS.md, "Scripts".
#![tactic(auto)]

mod answer;
mod call_end;
mod executing;
mod failure;
mod laws;
mod line_end;
mod lines;
mod outcome;
mod reporting;
mod run_work;
mod running;
mod work;

pub use executing::exec;
pub use failure::PowerFailure;
pub use outcome::Outcome;

#[cfg(test)]
mod tests;
