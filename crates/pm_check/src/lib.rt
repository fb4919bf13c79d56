//! The check of an image: whether it is a pool, its first fault where it is none, and its header mended from the good pair.
//!
//! Promises whoever checks a pool that the verdict is `Consistent` exactly where the image means a pool, and tells exactly the
//! image's first fault elsewhere; that a mended image means a pool; and that an image which is not mended stays as it was. It
//! stands on `pm_image` for meaning and faults, `pm_header` for the header's pairs and `pm_raw` for the words; what a verdict
//! says is in specs/Verdicts.antt, and docs/COMMANDS.md, "check", tells it to users.
#![tactic(auto)]

mod repair;
mod verdict;

pub use verdict::{Verdict, check};

#[cfg(test)]
mod tests;
