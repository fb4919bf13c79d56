ghost use Rattle.std.specs.Prelude.{◌≡◌, ◌<◌, [], IfErr, OnOk, length};
ghost use Rattle.solo_view.specs.Area.{area_word};
ghost use Rattle.solo_world.specs.Sequences.{IsReady, Runs};
ghost use Rattle.solo_redo.specs.Sequences.{clears, seals, writes_seal};
ghost use Rattle.solo_undo.specs.Working.{IsSeenWithArea};
ghost use Rattle.solo_redo.specs.Entering.{IsSeenInPool};

use crate::places::{LINE_WORDS, area_word};
use solo_memory::Stopped;
use solo_undo::persist;
use solo_world::{Lane, LawfulMem, store};

/// Stores the seal, and makes it persistent.
#[tactic(auto, using(solo_world::proofs::Sequencing::runs_then, solo_world::proofs::Sequencing::runs_err, solo_world::proofs::Sequencing::ready_first, solo_world::proofs::Sequencing::ready_then), unfolding(crate::specs::Sequences::writes_seal))]
pub fn write_seal<M: LawfulMem>(mem: &mut M, lane: u64, count: u64) -> Result<(), Stopped>
    requires lane { lane < 32 }
    requires ready { IsReady (M.at mem.old) (writes_seal lane count) }
    ensures { Runs (M.at mem.old) (M.at mem.new) (writes_seal lane count) result }
{
    store(mem, area_word(lane) + 1, count)?;
    persist(mem, area_word(lane) / LINE_WORDS)
}

/// Seals so many entries of this lane.
fn seal_entries<M: LawfulMem>(mem: &mut M, count: u64) -> Result<(), Stopped>
    requires area { IsSeenInPool (M.at mem.old) }
    requires ready { IsReady (M.at mem.old) (seals count) }
    ensures { Runs (M.at mem.old) (M.at mem.new) (seals count) result }
{
    let lane = mem.lane();
    write_seal(mem, lane, count)
}

/// Clears this lane's seal.
fn clear_seal<M: LawfulMem>(mem: &mut M) -> Result<(), Stopped>
    requires area { IsSeenInPool (M.at mem.old) }
    requires ready { IsReady (M.at mem.old) clears }
    ensures { Runs (M.at mem.old) (M.at mem.new) clears result }
{
    let lane = mem.lane();
    write_seal(mem, lane, 0)
}

/// Seals the entries that the lane has stored: once that is drained the call is decided, and a recovery applies them. Makes exactly the memory
/// calls of `seals`, or the first of them up to the lane's stop.
pub fn seal<M: LawfulMem>(lane: &mut Lane<M>) -> Result<(), Stopped>
    requires area { IsSeenInPool (M.at lane.old.memory) }
    requires ready { IsReady (M.at lane.old.memory) (seals (length lane.old.entries.items)) }
    ensures ran { Runs (M.at lane.old.memory) (M.at lane.new.memory) (seals (length lane.old.entries.items)) result }
    ensures else_same { lane.new ≡ record lane.old { memory = lane.new.memory } }
{
    let count = lane.entries.len() as u64;
    seal_entries(&mut lane.memory, count)
}

/// Clears the seal of entries that are applied, and with it the lane's log: no recovery applies them any more. Makes exactly the memory calls
/// of `clears`, or the first of them up to the lane's stop.
pub fn retire<M: LawfulMem>(lane: &mut Lane<M>) -> Result<(), Stopped>
    requires area { IsSeenInPool (M.at lane.old.memory) }
    requires ready { IsReady (M.at lane.old.memory) clears }
    ensures ran { Runs (M.at lane.old.memory) (M.at lane.new.memory) clears result }
    ensures no_entries { OnOk result (lane.new.entries.items ≡ []) }
    ensures no_records { OnOk result (lane.new.records.items ≡ []) }
    ensures not_cleared { IfErr result (λ e. (lane.new.entries ≡ lane.old.entries) × (lane.new.records ≡ lane.old.records)) }
    ensures else_same { lane.new ≡ record lane.old { memory = lane.new.memory; entries = lane.new.entries; records = lane.new.records } }
{
    clear_seal(&mut lane.memory)?;
    lane.entries.clear();
    lane.records.clear();
    Ok(())
}
