ghost use Rattle.std.specs.Prelude.{◌≡◌, ◌<◌, ◌≤◌, [], OnOk, length};
ghost use Rattle.solo_world.specs.Sequences.{IsReady, Runs};
ghost use Rattle.solo_redo.specs.Entering.{IsSeenInPool};
ghost use Rattle.solo_redo.specs.Sequences.{performs, performs_on};

use crate::applying::apply_entries;
use crate::sealing::write_seal;
use pm_record::Redo;
use solo_memory::Stopped;
use solo_world::{Lane, LawfulMem};

/// Seals the entries, applies them, and clears the seal.
#[tactic(auto, using(solo_world::proofs::Sequencing::runs_then, solo_world::proofs::Sequencing::runs_err, solo_world::proofs::Sequencing::ready_first, solo_world::proofs::Sequencing::ready_then), unfolding(crate::specs::Sequences::performs_on))]
fn perform_on<M: LawfulMem>(mem: &mut M, lane: u64, entries: &[Redo]) -> Result<(), Stopped>
    requires lane { lane < 32 }
    requires few { length entries.now ≤ 64 }
    requires ready { IsReady (M.at mem.old) (performs_on lane entries.now) }
    ensures { Runs (M.at mem.old) (M.at mem.new) (performs_on lane entries.now) result }
{
    write_seal(mem, lane, entries.len() as u64)?;
    apply_entries(mem, entries)?;
    write_seal(mem, lane, 0)
}

/// Performs the entries on this lane.
fn perform_entries<M: LawfulMem>(mem: &mut M, entries: &[Redo]) -> Result<(), Stopped>
    requires area { IsSeenInPool (M.at mem.old) }
    requires few { length entries.now ≤ 64 }
    requires ready { IsReady (M.at mem.old) (performs entries.now) }
    ensures { Runs (M.at mem.old) (M.at mem.new) (performs entries.now) result }
{
    let lane = mem.lane();
    perform_on(mem, lane, entries)
}

/// Performs the lane's redo log: seals its entries, applies them, and clears the seal. All of the words that they set change at once, when the seal is
/// drained. Makes exactly the memory calls of `performs`, or the first of them up to the lane's stop.
pub fn perform<M: LawfulMem>(lane: &mut Lane<M>) -> Result<(), Stopped>
    requires area { IsSeenInPool (M.at lane.old.memory) }
    requires ready { IsReady (M.at lane.old.memory) (performs lane.old.entries.items) }
    ensures ran { Runs (M.at lane.old.memory) (M.at lane.new.memory) (performs lane.old.entries.items) result }
    ensures no_entries { OnOk result (lane.new.entries.items ≡ []) }
    ensures no_records { OnOk result (lane.new.records.items ≡ []) }
    ensures else_same { lane.new ≡ record lane.old { memory = lane.new.memory; entries = lane.new.entries; records = lane.new.records } }
{
    perform_entries(&mut lane.memory, lane.entries.as_slice())?;
    lane.entries.clear();
    lane.records.clear();
    Ok(())
}
