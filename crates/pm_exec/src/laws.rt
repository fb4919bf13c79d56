ghost use Rattle.pm_exec.specs.Known.{CallsAreKnown};

use pm_world::LawfulMem;

/// A law: what the crates of calls promise of those that lines make, in one place. No code runs.
pub(crate) fn calls_are_known<M: LawfulMem>()
    ensures { CallsAreKnown M.at }
{
    pm_tx::lanes_stand::<M>();
    pm_tx::positions_follow::<M>();
    pm_action::lanes_stand::<M>();
    pm_action::positions_follow::<M>();
    pm_call::positions_tell_refusals::<M>();
}
