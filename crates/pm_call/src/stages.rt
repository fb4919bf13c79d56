ghost use Rattle.std.specs.Prelude.{◌≡◌};
ghost use Rattle.pm_call.specs.Did as did;
ghost use Rattle.pm_call.specs.Stages as stages;

use pm_model::Stage;
use pm_objects::Refusal;
use pm_world::Lane;

/// Why an operation that needs a transaction at work is refused, if it is: the lane stopped, no
/// transaction is open, or it is past its work.
pub fn work_refusal<M>(lane: &Lane<M>) -> Option<Refusal>
    ensures { result ≡ did.work_refusal lane.now }
{
    if lane.stopped {
        Some(Refusal::Stopped)
    } else if lane.level == 0 {
        Some(Refusal::NoTx)
    } else if lane.stage == Stage::Work {
        None
    } else {
        Some(Refusal::NotWork)
    }
}

/// Why the end of a level is refused, if it is: the lane stopped, no transaction is open, or the level
/// is in work.
pub fn end_refusal<M>(lane: &Lane<M>) -> Option<Refusal>
    ensures { result ≡ stages.end_refusal lane.now }
{
    if lane.stopped {
        Some(Refusal::Stopped)
    } else if lane.level == 0 {
        Some(Refusal::NoTx)
    } else if lane.stage == Stage::Work {
        Some(Refusal::InTx)
    } else {
        None
    }
}
