ghost use Rattle.std.specs.Prelude.{◌≡◌, Some, None, IfErr, OnOk};
ghost use Rattle.solo_tx.specs.Stages.{end_refusal, work_refusal};

use pm_objects::Refusal;
use solo_world::{Lane, LawfulMem, Stage};

/// Refuses a call that needs a transaction in work, where there is none.
pub fn check_work<M: LawfulMem>(lane: &Lane<M>) -> Result<(), Refusal>
    ensures works { OnOk result (work_refusal lane.now ≡ None) }
    ensures refused { IfErr result (λ r. work_refusal lane.now ≡ Some r) }
{
    if lane.stopped {
        Err(Refusal::Stopped)
    } else if lane.level == 0 {
        Err(Refusal::NoTx)
    } else if lane.stage == Stage::Work {
        Ok(())
    } else {
        Err(Refusal::NotWork)
    }
}

/// Refuses the end of a level while it is in work, and where there is none.
pub fn check_end<M: LawfulMem>(lane: &Lane<M>) -> Result<(), Refusal>
    ensures ends { OnOk result (end_refusal lane.now ≡ None) }
    ensures refused { IfErr result (λ r. end_refusal lane.now ≡ Some r) }
{
    if lane.stopped {
        Err(Refusal::Stopped)
    } else if lane.level == 0 {
        Err(Refusal::NoTx)
    } else if lane.stage == Stage::Work {
        Err(Refusal::InTx)
    } else {
        Ok(())
    }
}
