//! The facts of an image in one text, for people: the pool's header, its root, and its counts.
//!
//! Promises whoever prints them that the text is the one that specs/Facts.antt defines of the image, or that the image's first
//! fault is told, and that the sink gets exactly that text, or a front of it where the sink fails. All memory is taken before
//! anything is put. It stands on `pm_image` for meaning, logs and faults, on `pm_recover` for recovered words, and on `pm_text`
//! and `pm_shelf` for the sink.
#![tactic(auto)]

mod counts;
mod facts;
mod fault;
mod lines;

pub use facts::{info, info_text};
pub use fault::TextFault;

#[cfg(test)]
mod tests;
