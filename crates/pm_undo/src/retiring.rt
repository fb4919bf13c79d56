ghost use Rattle.std.specs.Prelude.{◌^◌, ◌<◌};
ghost use Rattle.pm_plan.specs.Plans.{IsReady, Runs};
ghost use Rattle.pm_undo.specs.Plans.{ends_word};
ghost use Rattle.pm_undo.specs.Undoing.{Retired, Stands};
ghost use Rattle.pm_undo.specs.Working.{CanRetire};

use pm_layout::LINE_WORDS;
use pm_memory::Stopped;
use pm_plan::{persist, store};
use pm_world::{Lane, LawfulMem};

/// Stores the generation after this one in its word, and makes it persistent.
#[tactic(auto, using(pm_plan::proofs::Plans::runs_then, pm_plan::proofs::Plans::runs_err, pm_plan::proofs::Plans::ready_first, pm_plan::proofs::Plans::ready_then), unfolding(crate::specs::Plans::ends_word))]
fn end_word<M: LawfulMem>(mem: &mut M, word: u64, generation: u64) -> Result<(), Stopped>
    requires more { generation < 2 ^ 62 }
    requires ready { IsReady (M.at mem.old) (ends_word word generation) }
    ensures { Runs (M.at mem.old) (M.at mem.new) (ends_word word generation) result }
{
    store(mem, word, generation + 1)?;
    persist(mem, word / LINE_WORDS)
}

/// Ends the records of the lane's generation: the next one is stored and made persistent, so that no
/// recovery puts a word back any more. Makes exactly the memory calls of `retires`.
///
/// # Errors
///
/// `Stopped`: the lane came to its stop; the first of the calls are made, and the log stays.
pub fn retire<M: LawfulMem>(lane: &mut Lane<M>) -> Result<(), Stopped>
    requires { Stands M.at lane.old CanRetire }
    ensures { Retired M.at lane.old lane.new result }
{
    let number = lane.memory.lane();
    let word = lane.shape.word_of_generation(number);
    end_word(&mut lane.memory, word, lane.log.generation)?;
    lane.log.generation += 1;
    lane.log.records.clear();
    Ok(())
}
