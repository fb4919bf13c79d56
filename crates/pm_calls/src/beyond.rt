//! The lines of a script that lanes do not run.

ghost use Rattle.std.specs.Prelude.{◌≡◌};
ghost use Rattle.pm_calls.specs.Calls as calls;
ghost use Rattle.pm_calls.specs.Calls.{beyond_lanes};

use pm_script::{ScriptLine, ScriptOp};

/// Whether lanes run the operation.
fn runs_on_lanes(op: &ScriptOp) -> bool
    ensures { result ≡ calls.runs_on_lanes op.now }
{
    match op {
        ScriptOp::Begin { .. }
        | ScriptOp::Lock { .. }
        | ScriptOp::Add { .. }
        | ScriptOp::Write { .. }
        | ScriptOp::Read { .. }
        | ScriptOp::Increment { .. }
        | ScriptOp::Set { .. }
        | ScriptOp::Publish
        | ScriptOp::Cancel
        | ScriptOp::Commit
        | ScriptOp::Abort { .. } => true,
        ScriptOp::Reserve { .. }
        | ScriptOp::WriteReserved { .. }
        | ScriptOp::DeferFree { .. }
        | ScriptOp::Alloc { .. }
        | ScriptOp::Free { .. }
        | ScriptOp::AllocTo { .. }
        | ScriptOp::ReallocAt { .. }
        | ScriptOp::FreeAt { .. }
        | ScriptOp::UsableSize { .. }
        | ScriptOp::TypeNumber { .. }
        | ScriptOp::Insert { .. }
        | ScriptOp::InsertNew { .. }
        | ScriptOp::Remove { .. }
        | ScriptOp::MoveTo { .. }
        | ScriptOp::Members { .. }
        | ScriptOp::Root { .. }
        | ScriptOp::RootSize => false,
    }
}

/// The number of the first line that lanes do not run, if there is one.
pub fn line_beyond_lanes(lines: &[ScriptLine]) -> Option<u64>
    ensures { result ≡ beyond_lanes lines.now }
{
    let beyond = lines.iter().find(|line| !runs_on_lanes(&line.operation))?;
    Some(beyond.line)
}
