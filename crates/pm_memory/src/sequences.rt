ghost use Rattle.std.specs.Prelude.{[], ◌∷◌};
ghost use Rattle.pm_view.specs.View.{View};
ghost use Rattle.pm_view.specs.Steps.Step.{Flush, Drain};
ghost use Rattle.pm_view.specs.Views.{after};
ghost use Rattle.pm_memory.specs.Runs.{Ran};

use crate::{LaneMem, Stopped};

/// Makes the lane's changes of a line persistent: a flush of the line and a drain, libpmem(7).
#[tactic(auto, using(crate::proofs::Runs::ran_err, crate::proofs::Runs::stops_at_once, crate::proofs::Runs::stops_after), unfolding(pm_view::specs::Views::after_all))]
pub fn persist<M: LaneMem>(mem: &mut M, line: u64) -> Result<(), Stopped>
    requires flush { M.can mem.old (Flush line) }
    requires drain { (m : M) (v : View)
        → M.at mem.old v → M.at m (after v (Flush line)) → M.can m Drain }
    requires seen { (v : View) × M.at mem.old v × M.may v (Flush line) }
    ensures { (v : View)
        → M.at mem.old v → M.may v (Flush line) → M.may (after v (Flush line)) Drain
        → Ran (M.at mem.new) v (Flush line ∷ Drain ∷ []) result }
{
    mem.flush(line)?;
    Ok(mem.drain()?)
}
