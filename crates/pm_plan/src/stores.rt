ghost use Rattle.std.specs.Prelude.{ℕ, ◌+◌, ◌^◌, ◌<◌, length};
ghost use Rattle.pm_view.specs.Steps.Step.{Or, And};
ghost use Rattle.pm_plan.specs.Plans.{IsReady, Runs, RunsFinding, ands, drains, flushes, makes_room, one, ors, persists_all, stores, stores_from};

use crate::steps::store_once;
use pm_memory::{MAX_CHANGES, Stopped};
use pm_world::LawfulMem;

/// Flushes each line in which the lane has an unflushed change, in rising order.
fn flush_all<M: LawfulMem>(mem: &mut M) -> Result<(), Stopped>
    requires { IsReady (M.at mem.old) flushes }
    ensures { Runs (M.at mem.old) (M.at mem.new) flushes result }
{
    for _ in 0..mem.undrained() {
        match mem.unflushed() {
            Some(line) => mem.flush(line)?,
            None => break,
        }
    }
    Ok(())
}

/// Drains, where anything is undrained.
fn drain_any<M: LawfulMem>(mem: &mut M) -> Result<(), Stopped>
    requires { IsReady (M.at mem.old) drains }
    ensures { Runs (M.at mem.old) (M.at mem.new) drains result }
{
    if mem.undrained() == 0 {
        Ok(())
    } else {
        mem.drain()
    }
}

/// Makes all that is undrained persistent: a flush of each of its lines, in rising order, and a
/// drain.
#[tactic(auto, using(crate::proofs::Plans::runs_then, crate::proofs::Plans::runs_err, crate::proofs::Plans::ready_first, crate::proofs::Plans::ready_then), unfolding(crate::specs::Plans::persists_all))]
pub fn persist_all<M: LawfulMem>(mem: &mut M) -> Result<(), Stopped>
    requires { IsReady (M.at mem.old) persists_all }
    ensures { Runs (M.at mem.old) (M.at mem.new) persists_all result }
{
    flush_all(mem)?;
    drain_any(mem)
}

/// Makes room for one more change: where as many are undrained as may be, all are made persistent.
fn make_room<M: LawfulMem>(mem: &mut M) -> Result<(), Stopped>
    requires { IsReady (M.at mem.old) makes_room }
    ensures { Runs (M.at mem.old) (M.at mem.new) makes_room result }
{
    if mem.undrained() < MAX_CHANGES as u64 {
        Ok(())
    } else {
        persist_all(mem)
    }
}

/// Stores a word, with room made for its change.
#[tactic(auto, using(crate::proofs::Plans::runs_then, crate::proofs::Plans::runs_err, crate::proofs::Plans::ready_first, crate::proofs::Plans::ready_then), unfolding(crate::specs::Plans::stores))]
pub fn store<M: LawfulMem>(mem: &mut M, word: u64, value: u64) -> Result<(), Stopped>
    requires { IsReady (M.at mem.old) (stores word value) }
    ensures { Runs (M.at mem.old) (M.at mem.new) (stores word value) result }
{
    make_room(mem)?;
    store_once(mem, word, value)
}

/// Stores consecutive words, with room made for each change.
///
/// # Errors
///
/// `Stopped`: the lane came to its stop; the first of the calls are made.
pub fn store_all<M: LawfulMem>(mem: &mut M, first: u64, values: &[u64]) -> Result<(), Stopped>
    requires inside { first + length values.now < 2 ^ 64 }
    requires ready { IsReady (M.at mem.old) (stores_from first values.now) }
    ensures { Runs (M.at mem.old) (M.at mem.new) (stores_from first values.now) result }
{
    for (i, value) in values.iter().enumerate() {
        store(mem, first + i as u64, *value)?;
    }
    Ok(())
}

/// Sets these bits of a word, where there is room for the change, and tells the word before.
fn or_once<M: LawfulMem>(mem: &mut M, word: u64, bits: u64) -> Result<u64, Stopped>
    requires { (found : ℕ) → IsReady (M.at mem.old) (one (Or word bits found)) }
    ensures { RunsFinding (M.at mem.old) (M.at mem.new) (λ found. one (Or word bits found)) result }
{
    mem.or(word, bits)
}

/// Clears the other bits of a word, where there is room for the change, and tells the word before.
fn and_once<M: LawfulMem>(mem: &mut M, word: u64, bits: u64) -> Result<u64, Stopped>
    requires { (found : ℕ) → IsReady (M.at mem.old) (one (And word bits found)) }
    ensures { RunsFinding (M.at mem.old) (M.at mem.new) (λ found. one (And word bits found)) result }
{
    mem.and(word, bits)
}

/// Sets these bits of a word, with room made for the change, and tells the word before.
///
/// # Errors
///
/// `Stopped`: the lane came to its stop; the first of the calls are made.
pub fn or<M: LawfulMem>(mem: &mut M, word: u64, bits: u64) -> Result<u64, Stopped>
    requires { (found : ℕ) → IsReady (M.at mem.old) (ors word bits found) }
    ensures { RunsFinding (M.at mem.old) (M.at mem.new) (ors word bits) result }
{
    make_room(mem)?;
    or_once(mem, word, bits)
}

/// Clears the other bits of a word, with room made for the change, and tells the word before.
///
/// # Errors
///
/// `Stopped`: the lane came to its stop; the first of the calls are made.
pub fn and<M: LawfulMem>(mem: &mut M, word: u64, bits: u64) -> Result<u64, Stopped>
    requires { (found : ℕ) → IsReady (M.at mem.old) (ands word bits found) }
    ensures { RunsFinding (M.at mem.old) (M.at mem.new) (ands word bits) result }
{
    make_room(mem)?;
    and_once(mem, word, bits)
}
