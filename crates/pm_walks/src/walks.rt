//! Walks through transactions of one lane, on the pool's root.

mod aborts;
mod actions;
mod increments;
mod levels;
mod limits;
mod lockings;
mod operations;
mod others;
mod roots;
mod stages;

ghost use Rattle.pm_call.specs.Standing.{Stands};

use crate::standing::{begin, commit, end, read};
pub use aborts::refusals;
pub use actions::{cancelled, published, unpublished};
pub use increments::{incremented, not_incremented};
pub use levels::{inner_aborted, outer_aborted};
pub use limits::{many_levels, many_locks, many_records};
pub use lockings::raised;
pub use operations::each_once;
pub use others::busy;
use pm_model::Stage;
use pm_objects::{Oid, TxErr, Want};
use pm_tx::{errno, level, stage};
use pm_world::{Lane, LawfulMem};
pub use roots::found;
pub use stages::{past_a_commit, past_an_abort};
use std::sync::Wait;
use std::test::Fail;

/// Where a transaction stands: its stage, its level and its error.
pub fn place<M>(lane: &Lane<M>) -> (Stage, u64, TxErr) {
    (stage(lane), level(lane), errno(lane))
}

/// The object is wanted for writing.
pub fn writes(id: Oid) -> Want {
    Want { id, write: true }
}

/// The object is wanted for reading alone.
pub fn reads(id: Oid) -> Want {
    Want { id, write: false }
}

/// The eight bytes of the root from this byte on, as a transaction of their own reads them.
pub fn bytes_of<M: LawfulMem, R: Wait>(
    rt: &R,
    lane: &mut Lane<M>,
    root: Oid,
    off: u64,
) -> Result<[u8; 8], Fail>
    requires { Stands M.at lane.old }
    ensures { Stands M.at lane.new }
{
    let mut bytes = [0; 8];
    begin(rt, lane, &[reads(root)])?;
    read(lane, root, off, &mut bytes)?;
    commit(lane)?;
    end(lane)?;
    Ok(bytes)
}
