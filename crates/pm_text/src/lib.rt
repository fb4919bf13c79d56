//! The text of a pool, for people: what its root is, and each object's type, size, bytes and members.
//!
//! Promises whoever prints a pool that the text is the one that specs/Dump.antt defines, and that putting it into a
//! sink tells the sink exactly that text, or a front of it where the sink fails. All memory is taken before anything is put.
//! It stands on `pm_objects` for the pool as plain data, and on `pm_shelf` for the sink.
#![tactic(auto)]

mod digits;
mod dump;
mod object_text;
mod outcomes;
mod printing;
mod report;

pub use dump::dump_text;
pub use printing::put_lines;
pub use report::{LaneEnd, report_text};

#[cfg(test)]
mod tests;
