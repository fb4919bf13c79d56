//! The program that `make bench` times beside PMDK's: transfers between counters of a pool's root,
//! each one a transaction that adds and writes two words under the root's lock.
//!
//! `pm_transfers SEED COUNT LANES ZONES` makes a pool of this shape in memory, opens it, and makes
//! the transfers that the seed draws on its first lane, over shared words. It prints how many they
//! were, the sum of the counters modulo 2^64, which is 0, and a digest of them; with one more word,
//! `timed`, also the processor time that the transfers took.
//!
//! Promises whoever times it that each transfer is made of the calls of `pm_tx`, under their
//! contracts: the lane stands before and after each of them, whatever it returns. The first call
//! that fails ends the program with status 1.
#![tactic(auto)]

mod asked;
mod calls;
mod counters;
mod draws;
mod pool;
mod transfers;

use crate::asked::Asked;
use pm_layout::BadShape;
use pm_objects::Refusal;
use pm_pool::CreateFault;
use std::alloc::AllocError;
use std::process::ExitCode;
use std::sync::Wait;
use std::{env, io};

/// Words that ask for nothing, no memory, or a call that failed.
#[derive(Debug, Drop)]
pub struct Failure;

impl From<AllocError> for Failure {
    fn from(_error: AllocError) -> Failure {
        Failure
    }
}

impl From<io::Error> for Failure {
    fn from(_error: io::Error) -> Failure {
        Failure
    }
}

impl From<BadShape> for Failure {
    fn from(_error: BadShape) -> Failure {
        Failure
    }
}

impl From<CreateFault> for Failure {
    fn from(_fault: CreateFault) -> Failure {
        Failure
    }
}

impl From<Refusal> for Failure {
    fn from(_refusal: Refusal) -> Failure {
        Failure
    }
}

fn main(rt: HostRuntime) -> ExitCode {
    match run(&rt, &rt) {
        Ok(()) => ExitCode::SUCCESS,
        Err(_) => ExitCode::FAILURE,
    }
}

/// Makes the transfers that the command line asks for, and prints what they left.
fn run<W: Wait>(rt: &HostRuntime, wait: &W) -> Result<(), Failure> {
    let words: Vec<String> = env::args(rt)?.collect(rt.alloc())?;
    let Some(asked) = Asked::of_words(&words) else {
        return Err(Failure);
    };
    let made = pool::on_pool(rt, wait, &asked)?;
    println!(rt; "transfers {}", asked.count)?;
    println!(rt; "total {}", made.left.total)?;
    println!(rt; "state {}", made.left.state)?;
    if asked.timed {
        println!(rt; "nanoseconds {}", made.took.as_nanos())?;
    }
    Ok(())
}
