//! The words of the command line: which command they are, and the values of its options.
//!
//! Promises the program that the words are a command exactly where `clap` takes them for one, as specs/Program.antt and
//! specs/Words.antt say, and its numbers and lists have their form; that a request for help or for the version is told from a
//! faulty line; and that each value is the one of its word. It stands on `clap` for the options in any order, `--option=value`,
//! help and the texts that say what is wrong, and on `pm_script` for numbers and lists of stops. docs/COMMANDS.md has the words.
#![tactic(auto)]

mod command;
mod fault;
mod help;
mod program;
mod reading;
mod values;

pub use command::{CheckWords, Command, CreateWords, ExecWords, RecoverWords};
pub use fault::OptionsFault;
pub use reading::command_of;

#[cfg(test)]
mod tests;
