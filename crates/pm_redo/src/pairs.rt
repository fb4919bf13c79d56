ghost use Rattle.std.specs.Prelude.{◌≡◌, ◌%◌, ◌+◌, ◌<◌, ◌≤◌, length};
ghost use Rattle.std.specs.List.{All};
ghost use Rattle.pm_plan.specs.Plans.{IsReady, Runs};
ghost use Rattle.pm_record.specs.declared.redo.Redo.{Redo};
ghost use Rattle.pm_view.specs.View.{View};
ghost use Rattle.pm_redo.specs.Plans.{ends_entries, writes_entries, writes_pair, writes_pairs};
ghost use Rattle.pm_redo.specs.Calls.{Logged, MayLog};

use crate::entries::end;
use pm_layout::Shape;
use pm_memory::Stopped;
use pm_plan::{persist_all, store_all};
use pm_record::Redo;
use pm_world::{Lane, LawfulMem};

/// Stores an entry in the pair of this number.
#[tactic(auto, unfolding(crate::specs::Plans::writes_pair))]
fn write_pair<M: LawfulMem>(
    mem: &mut M,
    shape: Shape,
    lane: u64,
    i: u64,
    entry: Redo,
) -> Result<(), Stopped>
    requires lane { lane < shape.lanes }
    requires pair { i < 64 }
    requires aligned { entry.place % 8 ≡ 0 }
    requires ready { IsReady (M.at mem.old) (writes_pair shape lane i entry) }
    ensures { Runs (M.at mem.old) (M.at mem.new) (writes_pair shape lane i entry) result }
{
    let word = shape.word_of_entry(lane, i);
    let mut pair = [0; 2];
    entry.encode(&mut pair);
    store_all(mem, word, &pair)
}

/// Stores entries in the pairs from the first on.
fn write_pairs<M: LawfulMem>(
    mem: &mut M,
    shape: Shape,
    lane: u64,
    entries: &[Redo],
) -> Result<(), Stopped>
    requires lane { lane < shape.lanes }
    requires few { length entries.now ≤ 64 }
    requires aligned { All (λ (e : Redo). e.place % 8 ≡ 0) entries.now }
    requires ready { IsReady (M.at mem.old) (writes_pairs shape lane entries.now) }
    ensures { Runs (M.at mem.old) (M.at mem.new) (writes_pairs shape lane entries.now) result }
{
    for (i, entry) in entries.iter().enumerate() {
        write_pair(mem, shape, lane, i as u64, *entry)?;
    }
    Ok(())
}

/// Stores the last entry, and makes all persistent.
#[tactic(auto, using(pm_plan::proofs::Plans::runs_then, pm_plan::proofs::Plans::runs_err, pm_plan::proofs::Plans::ready_first, pm_plan::proofs::Plans::ready_then), unfolding(crate::specs::Plans::ends_entries))]
fn write_last<M: LawfulMem>(
    mem: &mut M,
    shape: Shape,
    lane: u64,
    i: u64,
    entry: Redo,
) -> Result<(), Stopped>
    requires lane { lane < shape.lanes }
    requires pair { i < 64 }
    requires aligned { entry.place % 8 ≡ 0 }
    requires ready { IsReady (M.at mem.old) (ends_entries shape lane i entry) }
    ensures { Runs (M.at mem.old) (M.at mem.new) (ends_entries shape lane i entry) result }
{
    write_pair(mem, shape, lane, i, entry)?;
    persist_all(mem)
}

/// Stores entries in the pairs from the first on, and this one after them, and makes all persistent.
#[tactic(auto, using(pm_plan::proofs::Plans::runs_then, pm_plan::proofs::Plans::runs_err, pm_plan::proofs::Plans::ready_first, pm_plan::proofs::Plans::ready_then), unfolding(crate::specs::Plans::writes_entries))]
fn write_entries<M: LawfulMem>(
    mem: &mut M,
    shape: Shape,
    lane: u64,
    entries: &[Redo],
    last: Redo,
) -> Result<(), Stopped>
    requires lane { lane < shape.lanes }
    requires few { length entries.now < 64 }
    requires aligned { All (λ (e : Redo). e.place % 8 ≡ 0) entries.now }
    requires last { last.place % 8 ≡ 0 }
    requires ready { IsReady (M.at mem.old) (writes_entries shape lane entries.now last) }
    ensures { Runs (M.at mem.old) (M.at mem.new) (writes_entries shape lane entries.now last) result }
{
    write_pairs(mem, shape, lane, entries)?;
    write_last(mem, shape, lane, entries.len() as u64, last)
}

/// Writes the lane's log: the entries of its list are stored, and after them the one that ends this
/// generation of it, and that is made persistent; the list has that one too then. No word of the
/// pool changes by it. Makes exactly the memory calls of `writes_log`.
///
/// # Errors
///
/// `Stopped`: the lane came to its stop; the first of the calls are made, and the list stays.
pub fn log<M: LawfulMem>(lane: &mut Lane<M>, generation: u64) -> Result<(), Stopped>
    requires { (v : View) × MayLog M.at lane.old generation v }
    ensures { Logged M.at generation lane.old lane.new result }
{
    let number = lane.memory.lane();
    let last = end(lane.shape, number, generation);
    write_entries(
        &mut lane.memory,
        lane.shape,
        number,
        lane.entries.as_slice(),
        last,
    )?;
    lane.entries.push(last);
    Ok(())
}
