//! The program `pmempool`: makes pools of persistent memory, runs scripts on them, checks and shows them.
//!
//! `main` hands `pm_commands::top` the words of the command line, the files and the standard output, and ends with
//! its status. It promises nothing beyond: what the commands do is said by `top`.
#![tactic(auto)]

use pm_commands::{Failure, say_failure, top};
use pm_shelf::{FileShelf, IdleGate, OutputSink};
use std::alloc::{AllocError, Global};
use std::env;
use std::io::{self, ErrorKind};
use std::process::ExitCode;

fn main(rt: HostRuntime) -> ExitCode {
    let mut shelf = FileShelf::new(&rt);
    let mut out = OutputSink::new(&rt);
    let status = match words_of(&rt) {
        Ok(words) => top(&rt, rt.alloc(), &words, &mut shelf, &mut out, &IdleGate),
        Err(failure) => say_failure(rt.alloc(), &failure, &mut out),
    };
    ExitCode::from(status.code())
}

/// The words of the command line; one that is no text makes them faulty.
fn words_of(rt: &HostRuntime) -> Result<Vec<String>, Failure<'static>> {
    match all_words(rt) {
        Ok(words) => Ok(words),
        Err(error) if error.kind() == ErrorKind::OutOfMemory => Err(Failure::NoMemory),
        Err(_) => Err(not_text(rt.alloc())),
    }
}

/// What is said after `usage` of words of which one is no text, as `clap` has it.
const NOT_TEXT: &str = "\
error: invalid UTF-8 was detected in one or more arguments

For more information, try '--help'.
";

/// The words are faulty: one of them is no text.
fn not_text(alloc: Global) -> Failure<'static> {
    match String::from_str(alloc, NOT_TEXT) {
        Ok(text) => Failure::Usage(text),
        Err(AllocError) => Failure::NoMemory,
    }
}

fn all_words(rt: &HostRuntime) -> io::Result<Vec<String>> {
    let words: Vec<String> = env::args(rt)?.collect(rt.alloc())?;
    Ok(words)
}
