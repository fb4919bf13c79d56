ghost use Rattle.solo_view.specs.Steps.Step.{And, Or, Store};
ghost use Rattle.solo_world.specs.Sequences.{IsReady, Runs, ands, drains, finds_in, flushes, makes_room, ors, settles, stores};

use crate::LawfulMem;
use solo_memory::Stopped;
use solo_view::MAX_CHANGES;

/// Flushes each line in which the lane has an unflushed change, in rising order.
fn flush_all<M: LawfulMem>(mem: &mut M) -> Result<(), Stopped>
    requires { IsReady (M.at mem.old) flushes }
    ensures { Runs (M.at mem.old) (M.at mem.new) flushes result }
{
    for _ in 0..mem.undrained() {
        match mem.unflushed() {
            Some(line) => mem.flush(line)?,
            None => break,
        }
    }
    Ok(())
}

/// Drains, where anything is undrained.
#[tactic(auto, using(crate::proofs::Settling::drains_nothing, crate::proofs::Settling::may_drain, crate::proofs::Settling::drains_once))]
fn drain_any<M: LawfulMem>(mem: &mut M) -> Result<(), Stopped>
    requires { IsReady (M.at mem.old) drains }
    ensures { Runs (M.at mem.old) (M.at mem.new) drains result }
{
    if mem.undrained() == 0 {
        Ok(())
    } else {
        mem.drain()
    }
}

/// Makes all that is undrained persistent: the flushes of its lines, rising, and a drain.
#[tactic(auto, using(crate::proofs::Sequencing::runs_then, crate::proofs::Sequencing::runs_err, crate::proofs::Sequencing::ready_first, crate::proofs::Sequencing::ready_then), unfolding(crate::specs::Sequences::settles))]
pub fn settle<M: LawfulMem>(mem: &mut M) -> Result<(), Stopped>
    requires { IsReady (M.at mem.old) settles }
    ensures { Runs (M.at mem.old) (M.at mem.new) settles result }
{
    flush_all(mem)?;
    drain_any(mem)
}

/// Makes room for one more change.
#[tactic(auto, using(crate::proofs::Settling::makes_none, crate::proofs::Settling::room_ready, crate::proofs::Settling::room_runs))]
fn make_room<M: LawfulMem>(mem: &mut M) -> Result<(), Stopped>
    requires { IsReady (M.at mem.old) makes_room }
    ensures { Runs (M.at mem.old) (M.at mem.new) makes_room result }
{
    if mem.undrained() < MAX_CHANGES as u64 {
        Ok(())
    } else {
        settle(mem)
    }
}

/// Stores a word. Where as many changes are undrained as may be, they are made persistent first.
#[tactic(auto, using(crate::proofs::Sequencing::runs_then, crate::proofs::Sequencing::runs_err, crate::proofs::Sequencing::runs_one, crate::proofs::Sequencing::allowed_one, crate::proofs::Sequencing::ready_first, crate::proofs::Sequencing::ready_then), unfolding(crate::specs::Sequences::stores))]
pub fn store<M: LawfulMem>(mem: &mut M, word: u64, value: u64) -> Result<(), Stopped>
    requires { IsReady (M.at mem.old) (stores word value) }
    ensures { Runs (M.at mem.old) (M.at mem.new) (stores word value) result }
{
    make_room(mem)?;
    mem.store(word, value)
}

/// Sets bits of a word that the lane knows, at once.
fn or_known<M: LawfulMem>(mem: &mut M, word: u64, bits: u64) -> Result<(), Stopped>
    requires { IsReady (M.at mem.old) (finds_in word (Or word bits)) }
    ensures { Runs (M.at mem.old) (M.at mem.new) (finds_in word (Or word bits)) result }
{
    match mem.or(word, bits) {
        Ok(_) => Ok(()),
        Err(stopped) => Err(stopped),
    }
}

/// Clears the other bits of a word that the lane knows, at once.
fn and_known<M: LawfulMem>(mem: &mut M, word: u64, bits: u64) -> Result<(), Stopped>
    requires { IsReady (M.at mem.old) (finds_in word (And word bits)) }
    ensures { Runs (M.at mem.old) (M.at mem.new) (finds_in word (And word bits)) result }
{
    match mem.and(word, bits) {
        Ok(_) => Ok(()),
        Err(stopped) => Err(stopped),
    }
}

/// Sets these bits of a word. Where as many changes are undrained as may be, they are made persistent first.
#[tactic(auto, using(crate::proofs::Sequencing::runs_then, crate::proofs::Sequencing::runs_err, crate::proofs::Sequencing::ready_first, crate::proofs::Sequencing::ready_then), unfolding(crate::specs::Sequences::ors))]
pub fn or<M: LawfulMem>(mem: &mut M, word: u64, bits: u64) -> Result<(), Stopped>
    requires { IsReady (M.at mem.old) (ors word bits) }
    ensures { Runs (M.at mem.old) (M.at mem.new) (ors word bits) result }
{
    make_room(mem)?;
    or_known(mem, word, bits)
}

/// Clears the other bits of a word. Where as many changes are undrained as may be, they are made persistent first.
#[tactic(auto, using(crate::proofs::Sequencing::runs_then, crate::proofs::Sequencing::runs_err, crate::proofs::Sequencing::ready_first, crate::proofs::Sequencing::ready_then), unfolding(crate::specs::Sequences::ands))]
pub fn and<M: LawfulMem>(mem: &mut M, word: u64, bits: u64) -> Result<(), Stopped>
    requires { IsReady (M.at mem.old) (ands word bits) }
    ensures { Runs (M.at mem.old) (M.at mem.new) (ands word bits) result }
{
    make_room(mem)?;
    and_known(mem, word, bits)
}
