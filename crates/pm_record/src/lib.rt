//! The two kinds of log record of a pool, undo records and redo entries, and how they are spelled in words.
//!
//! Promises whoever writes or replays a log that `encode` writes exactly a record's words, that `decode` finds
//! it in them and takes nothing else for one, and that an entry changes no bit but its own, twice as once.
//! It stands on `pm_words` for sums and `pm_layout` for numbers; docs/FORMAT.md, "Undo slots" and "Redo entries", has the spelling.
#![tactic(auto)]

mod laws;
mod redo;
mod undo;

pub use laws::records_and_entries_agree;
pub use redo::{Op, Redo, apply};
pub use undo::Undo;

#[cfg(test)]
mod tests;
