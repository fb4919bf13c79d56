//! The counters of the root: 64 words of 8 bytes, one after another.

ghost use Rattle.std.specs.Prelude.{◌<◌};
ghost use Rattle.pm_call.specs.Standing.{Stands};

use crate::calls::{add_range, begin, commit, end, read, write};
use pm_layout::WORD_BYTES;
use pm_objects::{Oid, Refusal, Want};
use pm_world::{Lane, LawfulMem};
use std::sync::Wait;

/// How many counters there are.
pub const COUNTERS: u64 = 64;

/// The root's bytes.
pub const ROOT: u64 = WORD_BYTES * COUNTERS;

/// What a digest begins with, as FNV-1a has it.
const BASIS: u64 = 0xcbf2_9ce4_8422_2325;

/// What each step of a digest multiplies by.
const FACTOR: u64 = 0x0000_0100_0000_01b3;

/// What the counters are: their sum modulo 2^64, and a digest.
#[derive(Clone, Copy, Drop)]
pub struct Left {
    pub total: u64,
    pub state: u64,
}

impl Left {
    /// One counter more.
    fn with(self, counter: u64) -> Left {
        Left {
            total: self.total.wrapping_add(counter),
            state: (self.state ^ counter).wrapping_mul(FACTOR),
        }
    }
}

/// Records a counter, so that the transaction may write it.
pub fn add_counter<M: LawfulMem>(
    lane: &mut Lane<M>,
    root: Oid,
    counter: u64,
) -> Result<u64, Refusal>
    requires inside { counter < 64 }
    requires stands { Stands M.at lane.old }
    ensures { Stands M.at lane.new }
{
    add_range(lane, root, WORD_BYTES * counter, WORD_BYTES)
}

/// What a counter is.
fn read_counter<M: LawfulMem>(lane: &mut Lane<M>, root: Oid, counter: u64) -> Result<u64, Refusal>
    requires inside { counter < 64 }
    requires stands { Stands M.at lane.old }
    ensures { Stands M.at lane.new }
{
    let mut bytes = [0; WORD_BYTES as usize];
    read(lane, root, WORD_BYTES * counter, &mut bytes)?;
    Ok(u64::from_le_bytes(bytes))
}

/// Adds to a counter, modulo 2^64.
pub fn raise_counter<M: LawfulMem>(
    lane: &mut Lane<M>,
    root: Oid,
    counter: u64,
    by: u64,
) -> Result<(), Refusal>
    requires inside { counter < 64 }
    requires stands { Stands M.at lane.old }
    ensures { Stands M.at lane.new }
{
    let found = read_counter(lane, root, counter)?;
    let bytes = found.wrapping_add(by).to_le_bytes();
    write(lane, root, WORD_BYTES * counter, &bytes)
}

/// What the counters are, as a transaction at work reads them.
fn read_counters<M: LawfulMem>(lane: &mut Lane<M>, root: Oid) -> Result<Left, Refusal>
    requires { Stands M.at lane.old }
    ensures { Stands M.at lane.new }
{
    let mut left = Left {
        total: 0,
        state: BASIS,
    };
    for counter in 0..COUNTERS {
        left = left.with(read_counter(lane, root, counter)?);
    }
    Ok(left)
}

/// What the counters are, as a transaction of its own reads them.
pub fn counters<M: LawfulMem, W: Wait>(
    wait: &W,
    lane: &mut Lane<M>,
    root: Oid,
) -> Result<Left, Refusal>
    requires { Stands M.at lane.old }
    ensures { Stands M.at lane.new }
{
    begin(
        wait,
        lane,
        &[Want {
            id: root,
            write: false,
        }],
    )?;
    let left = read_counters(lane, root)?;
    commit(lane)?;
    end(lane)?;
    Ok(left)
}
