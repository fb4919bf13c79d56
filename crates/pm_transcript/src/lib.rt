//! Transcripts: a text of commands with their expected answers.
//!
//! `print_answers` runs each command of such a text on files in memory, and prints the text with
//! the answers that came. Where each command answers as the text expects, what is printed is what
//! was read; so a comparison of the two is a test, and the text is a description of the commands.
//! The form of a text is told at the head of `crates/pm_transcripts/stdin`. It stands on
//! `pm_commands` for the commands, and on `pm_shelf` for a shelf and a sink in memory.
#![tactic(auto)]

mod answers;
mod directive;
mod fault;
mod files;
mod header_sums;
mod lines;
mod pieces;
mod session;

pub use answers::print_answers;
