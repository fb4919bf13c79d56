//! The program that `make bench` times: one kind of step, so many rounds of 512 steps, on the kit's table
//! of atomic words or through a lane of a pool without objects.
//!
//! Promises whoever times it that each step is made: the lane's contract is that of `pm_shared`, and
//! its ORs apply the logs of calls, as those of `pm_redo` do. It prints how many rounds it made, and
//! how long ORs took.
#![tactic(auto)]

mod clock;
mod kind;
mod lane;
mod ors;
mod pool;
mod raw;

use crate::kind::{Asked, Kind};
use pm_layout::BadShape;
use pm_memory::Stopped;
use pm_objects::Refusal;
use std::alloc::AllocError;
use std::process::ExitCode;
use std::time::Duration;
use std::{env, io};

/// The steps of a round.
pub const ROUND: u64 = 512;

/// The ORs that are timed together.
pub const BLOCK: u64 = 32;

/// Words that ask for nothing, no memory, or a step that was not made.
#[derive(Debug, Drop)]
pub struct Failure;

impl From<AllocError> for Failure {
    fn from(_error: AllocError) -> Failure {
        Failure
    }
}

impl From<io::Error> for Failure {
    fn from(_error: io::Error) -> Failure {
        Failure
    }
}

impl From<BadShape> for Failure {
    fn from(_error: BadShape) -> Failure {
        Failure
    }
}

impl From<Refusal> for Failure {
    fn from(_refusal: Refusal) -> Failure {
        Failure
    }
}

impl From<Stopped> for Failure {
    fn from(_stopped: Stopped) -> Failure {
        Failure
    }
}

fn main(rt: HostRuntime) -> ExitCode {
    match run(&rt) {
        Ok(()) => ExitCode::SUCCESS,
        Err(_) => ExitCode::FAILURE,
    }
}

/// Makes the rounds that the command line asks for, and prints how many they were; of ORs, too, how
/// long they took with the readings of the clock.
fn run(rt: &HostRuntime) -> Result<(), Failure> {
    let words: Vec<String> = env::args(rt)?.collect(rt.alloc())?;
    let Some(asked) = Asked::of_words(&words) else {
        return Err(Failure);
    };
    let took = make(rt, asked.kind, asked.rounds)?;
    println!(rt; "{} rounds", asked.rounds)?;
    if let Some(took) = took {
        println!(rt; "{} nanoseconds", took.as_nanos())?;
    }
    Ok(())
}

/// Makes so many rounds of the steps of this kind, and tells how long ORs took with the readings of
/// the clock.
fn make(rt: &HostRuntime, kind: Kind, rounds: u64) -> Result<Option<Duration>, Failure> {
    match kind {
        Kind::RawStore => {
            raw::stores(rt.alloc(), rounds)?;
            Ok(None)
        }
        Kind::RawOr => Ok(Some(raw::ors(rt, rounds)?)),
        Kind::Clock => Ok(Some(clock::readings(rt, rounds)?)),
        Kind::Lane(step) => lane::on_lane(rt, rounds, step),
    }
}
