ghost use Rattle.std.specs.Prelude.{◌≡◌, ◌≤◌, false};
ghost use Rattle.pm_model.specs.Transaction.{is_working};
ghost use Rattle.pm_call.specs.Commits.{CommittedInner};
ghost use Rattle.pm_call.specs.Did.{IsAtSo};
ghost use Rattle.pm_call.specs.Stages.{next_stage};

use pm_model::Stage;
use pm_objects::Operation;
use pm_world::{Lane, LawfulMem, LentOperation};

/// Commits an inner level: the operation is told, and all else is left to the outer levels. Once the
/// level has ended the outer one is at work. No counted memory call is made.
pub fn commit_inner<M: LawfulMem>(lane: &mut Lane<M>)
    requires { IsAtSo M.at lane.old (λ s. 2 ≤ s.level) }
    ensures { CommittedInner M.at lane.old lane.new }
{
    let operation = Operation::Commit;
    lane.memory.tell(LentOperation::Whole(&operation), None);
    lane.stage = Stage::OnCommit;
}

/// The stage after one that is past work: after a commit or an abort `Finally`, and then `None`.
pub fn stage_after(stage: Stage) -> Stage
    requires { is_working stage ≡ false }
    ensures { result ≡ next_stage stage }
{
    match stage {
        Stage::OnCommit | Stage::OnAbort => Stage::Finally,
        _ => Stage::None,
    }
}
