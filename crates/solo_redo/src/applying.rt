ghost use Rattle.std.specs.Prelude.{◌≡◌, ◌≤◌, length};
ghost use Rattle.solo_world.specs.Sequences.{IsReady, Runs};
ghost use Rattle.solo_redo.specs.Sequences.{applies, applies_each, applies_entry};

use crate::places::WORD_BYTES;
use pm_record::{Op, Redo};
use solo_memory::Stopped;
use solo_world::{Lane, LawfulMem, and, or, settle, store};

/// Sets the entry's word, or sets or clears bits of it.
#[tactic(auto, unfolding(crate::specs::Sequences::applies_entry))]
fn apply<M: LawfulMem>(mem: &mut M, entry: Redo) -> Result<(), Stopped>
    requires { IsReady (M.at mem.old) (applies_entry entry) }
    ensures { Runs (M.at mem.old) (M.at mem.new) (applies_entry entry) result }
{
    let word = entry.place / WORD_BYTES;
    match entry.op {
        Op::Set => store(mem, word, entry.value),
        Op::Or => or(mem, word, entry.value),
        Op::And => and(mem, word, entry.value),
    }
}

/// Applies the entries, in order.
fn apply_each<M: LawfulMem>(mem: &mut M, entries: &[Redo]) -> Result<(), Stopped>
    requires ready { IsReady (M.at mem.old) (applies_each entries.now) }
    ensures { Runs (M.at mem.old) (M.at mem.new) (applies_each entries.now) result }
{
    for entry in entries {
        apply(mem, *entry)?;
    }
    Ok(())
}

/// Applies the entries, in order, and makes that persistent.
#[tactic(auto, using(solo_world::proofs::Sequencing::runs_then, solo_world::proofs::Sequencing::runs_err, solo_world::proofs::Sequencing::ready_first, solo_world::proofs::Sequencing::ready_then), unfolding(crate::specs::Sequences::applies))]
pub fn apply_entries<M: LawfulMem>(mem: &mut M, entries: &[Redo]) -> Result<(), Stopped>
    requires ready { IsReady (M.at mem.old) (applies entries.now) }
    ensures { Runs (M.at mem.old) (M.at mem.new) (applies entries.now) result }
{
    apply_each(mem, entries)?;
    settle(mem)
}

/// Applies the sealed entries, in order, and makes that persistent. Makes exactly the memory calls of `applies`, or the
/// first of them up to the lane's stop.
pub fn apply_all<M: LawfulMem>(lane: &mut Lane<M>) -> Result<(), Stopped>
    requires ready { IsReady (M.at lane.old.memory) (applies lane.old.entries.items) }
    ensures ran { Runs (M.at lane.old.memory) (M.at lane.new.memory) (applies lane.old.entries.items) result }
    ensures else_same { lane.new ≡ record lane.old { memory = lane.new.memory } }
{
    apply_entries(&mut lane.memory, lane.entries.as_slice())
}
