ghost use Rattle.pm_plan.specs.Plans.{IsReady, Runs};
ghost use Rattle.pm_redo.specs.Plans.{writes_seal};
ghost use Rattle.pm_redo.specs.Calls.{Cleared, Sealed, StandsTo};
ghost use Rattle.pm_redo.specs.Stages.{CanClear, CanSeal};

use pm_layout::LINE_WORDS;
use pm_memory::Stopped;
use pm_plan::{persist, store};
use pm_world::{Lane, LawfulMem};

/// Stores a seal, and makes it persistent.
#[tactic(auto, using(pm_plan::proofs::Plans::runs_then, pm_plan::proofs::Plans::runs_err, pm_plan::proofs::Plans::ready_first, pm_plan::proofs::Plans::ready_then), unfolding(crate::specs::Plans::writes_seal))]
fn write_seal<M: LawfulMem>(mem: &mut M, word: u64, count: u64) -> Result<(), Stopped>
    requires { IsReady (M.at mem.old) (writes_seal word count) }
    ensures { Runs (M.at mem.old) (M.at mem.new) (writes_seal word count) result }
{
    store(mem, word, count)?;
    persist(mem, word / LINE_WORDS)
}

/// Seals the lane's log: the number of its entries is stored in the seal, and that is made
/// persistent. From then on the call is decided, and a recovery applies its entries. Makes exactly
/// the memory calls of `seals`.
///
/// # Errors
///
/// `Stopped`: the lane came to its stop; the first of the calls are made.
pub fn seal<M: LawfulMem>(lane: &mut Lane<M>) -> Result<(), Stopped>
    requires { StandsTo M.at lane.old CanSeal }
    ensures { Sealed M.at lane.old lane.new result }
{
    let word = lane.shape.word_of_seal(lane.memory.lane());
    write_seal(&mut lane.memory, word, lane.entries.len() as u64)
}

/// Retires a log that is applied: the seal becomes 0, and that is made persistent, so that no
/// recovery applies the entries any more. The last of them ended the generation, and the lane's
/// lists are empty then. Makes exactly the memory calls of `clears`.
///
/// # Errors
///
/// `Stopped`: the lane came to its stop; the first of the calls are made, and the lists stay.
pub fn retire<M: LawfulMem>(lane: &mut Lane<M>) -> Result<(), Stopped>
    requires { StandsTo M.at lane.old CanClear }
    ensures { Cleared M.at lane.old lane.new result }
{
    let word = lane.shape.word_of_seal(lane.memory.lane());
    write_seal(&mut lane.memory, word, 0)?;
    lane.entries.clear();
    lane.log.records.clear();
    Ok(())
}
