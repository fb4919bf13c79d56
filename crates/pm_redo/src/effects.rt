ghost use Rattle.std.specs.Prelude.{ℕ};
ghost use Rattle.pm_plan.specs.Plans.{IsReady, RunsFinding, IsReadyFor, RunsFor};
ghost use Rattle.pm_redo.specs.Plans.{applies_all, applies_each, applies_entry};
ghost use Rattle.pm_redo.specs.Calls.{Applied, Performed, StandsTo};
ghost use Rattle.pm_redo.specs.Stages.{CanApply, CanSeal};

use crate::seals::{retire, seal};
use pm_layout::WORD_BYTES;
use pm_memory::Stopped;
use pm_plan::{and, or, persist_all, store};
use pm_record::{Op, Redo};
use pm_world::{Lane, LawfulMem};

/// Applies an entry to its word, and tells what an OR or an AND found in it.
fn apply<M: LawfulMem>(mem: &mut M, entry: Redo) -> Result<u64, Stopped>
    requires { (found : ℕ) → IsReady (M.at mem.old) (applies_entry entry found) }
    ensures { RunsFinding (M.at mem.old) (M.at mem.new) (applies_entry entry) result }
{
    let word = entry.place / WORD_BYTES;
    match entry.op {
        Op::Set => {
            store(mem, word, entry.value)?;
            Ok(0)
        }
        Op::Or => or(mem, word, entry.value),
        Op::And => and(mem, word, entry.value),
    }
}

/// Applies entries, in order.
fn apply_each<M: LawfulMem>(mem: &mut M, entries: &[Redo]) -> Result<(), Stopped>
    requires { IsReadyFor (M.at mem.old) (applies_each entries.now) }
    ensures { RunsFor (M.at mem.old) (M.at mem.new) (applies_each entries.now) result }
{
    for entry in entries {
        apply(mem, *entry)?;
    }
    Ok(())
}

/// Applies entries, in order, and makes that persistent.
#[tactic(auto, using(crate::proofs::Finds::told_ready, crate::proofs::Finds::told_next, crate::proofs::Finds::told_err, crate::proofs::Finds::told_then))]
fn apply_entries<M: LawfulMem>(mem: &mut M, entries: &[Redo]) -> Result<(), Stopped>
    requires { IsReadyFor (M.at mem.old) (applies_all entries.now) }
    ensures { RunsFor (M.at mem.old) (M.at mem.new) (applies_all entries.now) result }
{
    apply_each(mem, entries)?;
    persist_all(mem)
}

/// Applies the entries of the lane's sealed log to their words, in order, and makes that
/// persistent. Makes exactly the memory calls of `applies`, for what its ORs and ANDs find.
///
/// # Errors
///
/// `Stopped`: the lane came to its stop; the first of the calls are made.
pub fn apply_all<M: LawfulMem>(lane: &mut Lane<M>) -> Result<(), Stopped>
    requires { StandsTo M.at lane.old CanApply }
    ensures { Applied M.at lane.old lane.new result }
{
    apply_entries(&mut lane.memory, lane.entries.as_slice())
}

/// Performs the lane's log: seals it, applies its entries, and retires it. All of its changes take
/// effect at once, as the seal is drained. Makes exactly the memory calls of `performs`, for what
/// its ORs and ANDs find.
///
/// # Errors
///
/// `Stopped`: the lane came to its stop; the first of the calls are made, and the lists stay.
pub fn perform<M: LawfulMem>(lane: &mut Lane<M>) -> Result<(), Stopped>
    requires { StandsTo M.at lane.old CanSeal }
    ensures { Performed M.at lane.old lane.new result }
{
    seal(lane)?;
    apply_all(lane)?;
    retire(lane)
}
