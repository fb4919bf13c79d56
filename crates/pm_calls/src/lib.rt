//! The calls that a script's lines are, and the room that their replies need.
//!
//! Promises whoever runs a script over lanes that each lane's calls are its lines, in order, cut
//! after each line at which no level of a transaction is open; that a call has room for all that
//! its lines can give; and that an entry of the history has the operations that its lines say.
//! `line_beyond_lanes` gives the first line that lanes do not run. The crate stands on `pm_script`
//! for lines and on `pm_objects` for calls. The forms are in specs/ and docs/COMMANDS.md,
//! "Scripts".
#![tactic(auto)]

mod beyond;
mod lanes;
mod laws;
mod names;
mod operations;
mod room;

pub use beyond::line_beyond_lanes;
pub use lanes::{LaneRoom, lane_rooms};
pub use laws::{a_lanes_calls_are_whole, lanes_run_scripts_with_no_line_beyond};
pub use names::{Names, id_of, names_root, want_of};
pub use operations::call_of;
pub use room::{CallRoom, LineRoom};

#[cfg(test)]
mod tests;
