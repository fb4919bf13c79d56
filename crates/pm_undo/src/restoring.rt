ghost use Rattle.std.specs.Prelude.{◌≤◌, ◌+◌, ◌^◌, ◌<◌, length};
ghost use Rattle.std.specs.List.{All};
ghost use Rattle.pm_plan.specs.Plans.{IsReady, Runs, in_turn, persists_all};
ghost use Rattle.pm_undo.specs.Plans.{puts_back, restores_record};
ghost use Rattle.pm_undo.specs.Undoing.{IsKept, Restored, Stands};
ghost use Rattle.pm_undo.specs.Working.{IsWorking};
ghost use Rattle.pm_world.specs.declared.lane.KeptRecord.{KeptRecord};

use pm_memory::Stopped;
use pm_plan::{persist_all, store_all};
use pm_world::{KeptRecord, Lane, LawfulMem};

/// Makes the words of a record what they were.
#[tactic(auto, unfolding(crate::specs::Plans::restores_record))]
fn restore_record<M: LawfulMem>(mem: &mut M, kept: KeptRecord) -> Result<(), Stopped>
    requires fits { IsKept kept }
    requires ready { IsReady (M.at mem.old) (restores_record kept) }
    ensures { Runs (M.at mem.old) (M.at mem.new) (restores_record kept) result }
{
    store_all(mem, kept.word, &kept.old[..kept.count as usize])
}

/// Makes the words of some records what they were, in order.
fn put_back<M: LawfulMem>(mem: &mut M, records: &[KeptRecord]) -> Result<(), Stopped>
    requires fit { All IsKept records.now }
    requires ready { IsReady (M.at mem.old) (puts_back records.now) }
    ensures { Runs (M.at mem.old) (M.at mem.new) (puts_back records.now) result }
{
    for kept in records {
        restore_record(mem, *kept)?;
    }
    Ok(())
}

/// Makes the words of some records what they were, and all that is undrained persistent.
#[tactic(auto, using(pm_plan::proofs::Plans::runs_then, pm_plan::proofs::Plans::runs_err, pm_plan::proofs::Plans::ready_first, pm_plan::proofs::Plans::ready_then))]
fn restore_all<M: LawfulMem>(mem: &mut M, records: &[KeptRecord]) -> Result<(), Stopped>
    requires fit { All IsKept records.now }
    requires ready { IsReady (M.at mem.old) (in_turn (puts_back records.now) persists_all) }
    ensures { Runs (M.at mem.old) (M.at mem.new) (in_turn (puts_back records.now) persists_all) result }
{
    put_back(mem, records)?;
    persist_all(mem)
}

/// Makes every recorded word what it was, in the order of the records, and that persistent. The
/// records stay until they are retired. Makes exactly the memory calls of `restores`.
///
/// # Errors
///
/// `Stopped`: the lane came to its stop; the first of the calls are made.
pub fn restore<M: LawfulMem>(lane: &mut Lane<M>) -> Result<(), Stopped>
    requires { Stands M.at lane.old IsWorking }
    ensures { Restored M.at lane.old lane.new result }
{
    restore_all(&mut lane.memory, lane.log.records.as_slice())
}
