//! The commands on pools of persistent memory: `create`, `exec`, `recover`, `check`, `info` and `dump`.
//!
//! Promises its user that `top` answers each list of words with the status and the lines of docs/COMMANDS.md,
//! and that a name is put on the shelf exactly as the command says, and no other name changes. It stands on
//! `pm_options` for the words, on `pm_pool` for what a pool is, on `pm_script` and `pm_exec` for runs on lanes, on
//! `solo_script` and `solo_exec` for runs on a single one, on
//! `pm_reopen` for recovery, on `pm_check`, `pm_info` and `pm_text` for what is found in a pool, and on `pm_shelf` for the outside.
#![tactic(auto)]

mod check_command;
mod command_line;
mod create_command;
mod exec_command;
mod failure;
mod image_bytes;
mod lane_stops;
mod pool_files;
mod recover_command;
mod show_commands;
mod status;
mod ways;

pub use command_line::{say_failure, top};
pub use failure::Failure;
pub use status::Status;

#[cfg(test)]
mod tests;
