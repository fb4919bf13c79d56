ghost use Rattle.std.specs.Prelude.{◌≡◌};
ghost use Rattle.pm_view.specs.Steps.Step.{Store, Flush, Drain};
ghost use Rattle.pm_view.specs.View.{View};
ghost use Rattle.pm_plan.specs.Plans.{IsMade, IsReady, Ready, Runs, known_word, looks, one, persists};

use pm_memory::Stopped;
use pm_world::LawfulMem;

/// A word that the lane knows.
pub fn look<M: LawfulMem>(mem: &mut M, word: u64) -> u64
    requires { IsReady (M.at mem.old) (looks word) }
    ensures made { IsMade (M.at mem.old) (M.at mem.new) (looks word) }
    ensures found { (v : View) → M.at mem.old v → Ready v (looks word v) → result ≡ known_word v word }
{
    mem.load(word)
}

/// Stores a word, where there is room for its change.
#[tactic(auto, using(crate::proofs::Plans::allowed_one))]
pub fn store_once<M: LawfulMem>(mem: &mut M, word: u64, value: u64) -> Result<(), Stopped>
    requires { IsReady (M.at mem.old) (one (Store word value)) }
    ensures { Runs (M.at mem.old) (M.at mem.new) (one (Store word value)) result }
{
    mem.store(word, value)
}

/// Flushes a line in which the lane has an unflushed change.
#[tactic(auto, using(crate::proofs::Plans::allowed_one))]
pub fn flush<M: LawfulMem>(mem: &mut M, line: u64) -> Result<(), Stopped>
    requires { IsReady (M.at mem.old) (one (Flush line)) }
    ensures { Runs (M.at mem.old) (M.at mem.new) (one (Flush line)) result }
{
    mem.flush(line)
}

/// Drains, where something is flushed and undrained.
#[tactic(auto, using(crate::proofs::Plans::allowed_one))]
pub fn drain<M: LawfulMem>(mem: &mut M) -> Result<(), Stopped>
    requires { IsReady (M.at mem.old) (one Drain) }
    ensures { Runs (M.at mem.old) (M.at mem.new) (one Drain) result }
{
    mem.drain()
}

/// Makes the lane's changes of a line persistent: a flush of the line and a drain.
#[tactic(auto, using(crate::proofs::Plans::runs_then, crate::proofs::Plans::runs_err, crate::proofs::Plans::ready_first, crate::proofs::Plans::ready_then), unfolding(crate::specs::Plans::persists))]
pub fn persist<M: LawfulMem>(mem: &mut M, line: u64) -> Result<(), Stopped>
    requires { IsReady (M.at mem.old) (persists line) }
    ensures { Runs (M.at mem.old) (M.at mem.new) (persists line) result }
{
    flush(mem, line)?;
    drain(mem)
}
