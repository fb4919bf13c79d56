//! The words that people write for the program: numbers on the command line and in scripts, and the scripts themselves.
//!
//! Promises whoever reads such a word that it is a number exactly where its form says so, with exactly its value; and
//! whoever reads a script that `parse` gives what its lines say, exactly where the text is a script, and else its first
//! bad line. It stands on `hex` for bytes in digits and on `pm_objects` for lists. The forms are in specs/, docs/FORMAT.md,
//! "Numbers", and docs/COMMANDS.md, "Scripts".
#![tactic(auto)]

mod context;
mod either;
mod fault;
mod inside;
mod laws;
mod numbers;
mod operands;
mod outside;
mod parsing;
mod reader;
mod script;
mod statement;
mod stopping;
mod words;

pub use fault::{BadLine, ScriptFault, Why};
pub use laws::{
    a_lanes_lines_are_calls, a_script_names_few_lanes, letters_are_bound_before,
    one_lane_has_all_lines, one_reading_per_text, the_lines_of_a_script_rise,
};
pub use numbers::{MAX_DIGITS, number};
pub use parsing::parse;
pub use script::{Place, Script, ScriptAt, ScriptDest, ScriptId, ScriptLine, ScriptOp, ScriptWant};
pub use stopping::{stop_of, stops};

#[cfg(test)]
mod tests;
