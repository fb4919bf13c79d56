ghost use Rattle.pm_call.specs.Standing.{Stands};

use crate::calls::{begin, commit, end};
use crate::counters::{add_counter, raise_counter};
use crate::draws::{Draws, Transfer};
use pm_objects::{Oid, Refusal, Want};
use pm_world::{Lane, LawfulMem};
use std::sync::Wait;

/// Records both counters, and then writes both, in a transaction at work.
fn change<M: LawfulMem>(lane: &mut Lane<M>, root: Oid, transfer: Transfer) -> Result<(), Refusal>
    requires { Stands M.at lane.old }
    ensures { Stands M.at lane.new }
{
    add_counter(lane, root, transfer.gains)?;
    add_counter(lane, root, transfer.loses)?;
    raise_counter(lane, root, transfer.gains, transfer.amount)?;
    raise_counter(lane, root, transfer.loses, transfer.amount.wrapping_neg())
}

/// Makes a transfer, as one transaction that holds the root for writing.
fn make_transfer<M: LawfulMem, W: Wait>(
    wait: &W,
    lane: &mut Lane<M>,
    root: Oid,
    transfer: Transfer,
) -> Result<(), Refusal>
    requires { Stands M.at lane.old }
    ensures { Stands M.at lane.new }
{
    begin(
        wait,
        lane,
        &[Want {
            id: root,
            write: true,
        }],
    )?;
    change(lane, root, transfer)?;
    commit(lane)?;
    end(lane)?;
    Ok(())
}

/// Makes the next transfers, so many.
pub fn transfers<M: LawfulMem, W: Wait>(
    wait: &W,
    lane: &mut Lane<M>,
    root: Oid,
    draws: Draws,
    count: u64,
) -> Result<(), Refusal>
    requires { Stands M.at lane.old }
    ensures { Stands M.at lane.new }
{
    let mut draws = draws;
    for _ in 0..count {
        make_transfer(wait, lane, root, draws.next_transfer())?;
    }
    Ok(())
}
