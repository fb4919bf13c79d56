ghost use Rattle.std.specs.Prelude.{◌≡◌, ◌+◌, ◌%◌, ◌^◌, ◌<◌, ◌≤◌, ◌++◌, All, [], ◌∷◌, length};
ghost use Rattle.pm_record.specs.declared.redo.Redo.{Redo};
ghost use Rattle.solo_view.specs.Area.{area_word};
ghost use Rattle.solo_view.specs.View.{View};
ghost use Rattle.solo_world.specs.Records.{generation_of};
ghost use Rattle.solo_world.specs.Sequences.{IsReady, Runs, with_word};
ghost use Rattle.solo_redo.specs.Entering.{ending};
ghost use Rattle.solo_redo.specs.Sequences.{ending_of, logs, writes_entries, writes_log, writes_pairs};
ghost use Rattle.solo_undo.specs.Working.{HasArea, IsSeenWithArea};

use crate::entries::write_pair;
use crate::places::{WORD_BYTES, area_word};
use arrayvec::ArrayVec;
use pm_record::{Op, Redo};
use solo_memory::Stopped;
use solo_world::{Lane, LawfulMem, settle};

/// Stores the entries in the pairs from the first on.
fn write_pairs<M: LawfulMem>(mem: &mut M, lane: u64, entries: &[Redo]) -> Result<(), Stopped>
    requires lane { lane < 32 }
    requires few { length entries.now ≤ 64 }
    requires aligned { All (λ (e : Redo). e.place % 8 ≡ 0) entries.now }
    requires ready { IsReady (M.at mem.old) (writes_pairs lane entries.now) }
    ensures { Runs (M.at mem.old) (M.at mem.new) (writes_pairs lane entries.now) result }
{
    for (i, entry) in entries.iter().enumerate() {
        write_pair(mem, lane, i as u64, *entry)?;
    }
    Ok(())
}

/// Stores the entries, and makes that persistent.
#[tactic(auto, using(solo_world::proofs::Sequencing::runs_then, solo_world::proofs::Sequencing::runs_err, solo_world::proofs::Sequencing::ready_first, solo_world::proofs::Sequencing::ready_then), unfolding(crate::specs::Sequences::writes_entries))]
fn write_entries<M: LawfulMem>(mem: &mut M, lane: u64, entries: &[Redo]) -> Result<(), Stopped>
    requires lane { lane < 32 }
    requires few { length entries.now ≤ 64 }
    requires aligned { All (λ (e : Redo). e.place % 8 ≡ 0) entries.now }
    requires ready { IsReady (M.at mem.old) (writes_entries lane entries.now) }
    ensures { Runs (M.at mem.old) (M.at mem.new) (writes_entries lane entries.now) result }
{
    write_pairs(mem, lane, entries)?;
    settle(mem)
}

/// The entry that ends this generation of the lane.
fn ending(lane: u64, generation: u64) -> Redo
    requires lane { lane < 32 }
    requires more { generation + 1 < 2 ^ 64 }
    ensures { result ≡ ending_of lane generation }
{
    Redo {
        place: WORD_BYTES * area_word(lane),
        op: Op::Set,
        value: generation + 1,
    }
}

/// Lists the entry that ends the lane's generation, and stores all that are listed.
fn write_in<M: LawfulMem>(
    mem: &mut M,
    entries: &mut ArrayVec<Redo, 64>,
    lane: u64,
) -> Result<(), Stopped>
    requires lane { lane < 32 }
    requires area { (v : View) × (M.at mem.old v × (HasArea v × (lane ≡ v.lane))) }
    requires few { length entries.old.items ≤ 63 }
    requires aligned { All (λ (e : Redo). e.place % 8 ≡ 0) entries.old.items }
    requires ready { IsReady (M.at mem.old) (with_word (area_word lane) (writes_log entries.old.items lane)) }
    ensures ran { Runs (M.at mem.old) (M.at mem.new) (with_word (area_word lane) (writes_log entries.old.items lane)) result }
    ensures listed { (v : View) → M.at mem.old v → lane ≡ v.lane → entries.new.items ≡ entries.old.items ++ ending v ∷ [] }
{
    let generation = mem.load(area_word(lane));
    entries.push(ending(lane, generation));
    write_entries(mem, lane, entries.as_slice())
}

/// Writes the lane's redo log: the entries that it has listed, and behind them the one that ends its generation, and makes them persistent. Nothing of
/// the pool changes by that. The list has 63 at most, and each is at a multiple of eight bytes. Makes exactly the memory calls of `logs`, or the first
/// of them up to the lane's stop; the entry that ends the generation is listed, whichever it is.
pub fn write_log<M: LawfulMem>(lane: &mut Lane<M>) -> Result<(), Stopped>
    requires area { IsSeenWithArea (M.at lane.old.memory) }
    requires few { length lane.old.entries.items ≤ 63 }
    requires aligned { All (λ (e : Redo). e.place % 8 ≡ 0) lane.old.entries.items }
    requires ready { IsReady (M.at lane.old.memory) (logs lane.old.entries.items) }
    ensures ran { Runs (M.at lane.old.memory) (M.at lane.new.memory) (logs lane.old.entries.items) result }
    ensures listed { (v : View) → M.at lane.old.memory v → lane.new.entries.items ≡ lane.old.entries.items ++ ending v ∷ [] }
    ensures else_same { lane.new ≡ record lane.old { memory = lane.new.memory; entries = lane.new.entries } }
{
    let number = lane.memory.lane();
    write_in(&mut lane.memory, &mut lane.entries, number)
}
