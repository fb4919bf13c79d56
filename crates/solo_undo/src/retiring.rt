ghost use Rattle.std.specs.Prelude.{◌≡◌, ◌+◌, ◌<◌, ◌^◌, [], OnOk};
ghost use Rattle.solo_view.specs.Area.{area_word};
ghost use Rattle.solo_view.specs.Steps.Step.{Flush, Drain};
ghost use Rattle.solo_view.specs.View.{View};
ghost use Rattle.solo_world.specs.Sequences.{IsReady, Runs, one, with_word};
ghost use Rattle.solo_undo.specs.Sequences.{ends_generation, persists, retires};
ghost use Rattle.solo_undo.specs.Working.{HasArea, IsSeenWithArea};

use crate::places::{LINE_WORDS, area_word};
use solo_memory::Stopped;
use solo_world::{Lane, LawfulMem, store};

/// Flushes a line.
#[tactic(auto, using(solo_world::proofs::Sequencing::runs_one, solo_world::proofs::Sequencing::allowed_one))]
fn flush<M: LawfulMem>(mem: &mut M, line: u64) -> Result<(), Stopped>
    requires { IsReady (M.at mem.old) (one (Flush line)) }
    ensures { Runs (M.at mem.old) (M.at mem.new) (one (Flush line)) result }
{
    mem.flush(line)
}

/// Flushes a line in which something is unflushed, and drains it. Makes exactly the memory calls of `persists`, or the first of them up to the
/// lane's stop.
#[tactic(auto, using(solo_world::proofs::Sequencing::runs_then, solo_world::proofs::Sequencing::runs_err, solo_world::proofs::Sequencing::runs_one, solo_world::proofs::Sequencing::allowed_one, solo_world::proofs::Sequencing::ready_first, solo_world::proofs::Sequencing::ready_then), unfolding(crate::specs::Sequences::persists))]
pub fn persist<M: LawfulMem>(mem: &mut M, line: u64) -> Result<(), Stopped>
    requires { IsReady (M.at mem.old) (persists line) }
    ensures { Runs (M.at mem.old) (M.at mem.new) (persists line) result }
{
    flush(mem, line)?;
    mem.drain()
}

/// Stores the generation behind this one, and makes it persistent.
#[tactic(auto, using(solo_world::proofs::Sequencing::runs_then, solo_world::proofs::Sequencing::runs_err, solo_world::proofs::Sequencing::ready_first, solo_world::proofs::Sequencing::ready_then), unfolding(crate::specs::Sequences::ends_generation))]
fn end_generation<M: LawfulMem>(mem: &mut M, lane: u64, generation: u64) -> Result<(), Stopped>
    requires lane { lane < 32 }
    requires more { generation + 1 < 2 ^ 64 }
    requires ready { IsReady (M.at mem.old) (ends_generation lane generation) }
    ensures { Runs (M.at mem.old) (M.at mem.new) (ends_generation lane generation) result }
{
    store(mem, area_word(lane), generation + 1)?;
    persist(mem, area_word(lane) / LINE_WORDS)
}

/// Ends this lane's generation.
fn retire_lane<M: LawfulMem>(mem: &mut M, lane: u64) -> Result<(), Stopped>
    requires lane { lane < 32 }
    requires area { (v : View) × (M.at mem.old v × (HasArea v × (lane ≡ v.lane))) }
    requires ready { IsReady (M.at mem.old) (with_word (area_word lane) (ends_generation lane)) }
    ensures { Runs (M.at mem.old) (M.at mem.new) (with_word (area_word lane) (ends_generation lane)) result }
{
    let generation = mem.load(area_word(lane));
    end_generation(mem, lane, generation)
}

/// Ends the lane's generation.
fn retire_generation<M: LawfulMem>(mem: &mut M) -> Result<(), Stopped>
    requires area { IsSeenWithArea (M.at mem.old) }
    requires ready { IsReady (M.at mem.old) retires }
    ensures { Runs (M.at mem.old) (M.at mem.new) retires result }
{
    let lane = mem.lane();
    retire_lane(mem, lane)
}

/// Ends the records of the lane's generation: the next generation is stored and made persistent, so that no recovery puts a word back any
/// more. Makes exactly the memory calls of `retires`, or the first of them up to the lane's stop.
pub fn retire<M: LawfulMem>(lane: &mut Lane<M>) -> Result<(), Stopped>
    requires area { IsSeenWithArea (M.at lane.old.memory) }
    requires ready { IsReady (M.at lane.old.memory) retires }
    ensures ran { Runs (M.at lane.old.memory) (M.at lane.new.memory) retires result }
    ensures none { OnOk result (lane.new.records.items ≡ []) }
    ensures else_same { lane.new ≡ record lane.old { memory = lane.new.memory; records = lane.new.records } }
{
    retire_generation(&mut lane.memory)?;
    lane.records.clear();
    Ok(())
}
