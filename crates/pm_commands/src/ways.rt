ghost use Rattle.std.specs.Prelude.{IfErr, IfNone, IfOk, IfSome, List, ℕ};
ghost use Rattle.pm_script.specs.Words.{lines};
ghost use Rattle.solo_script.specs.declared.script.Script.{Script as OneLaneScript};
ghost use Rattle.pm_commands.specs.Ways.{IsOnLanes, IsOneLane, IsScriptFault, IsWay};

use crate::failure::Failure;
use pm_calls::line_beyond_lanes;
use pm_script::{BadLine, Script, ScriptFault, Why};
use solo_script::{Script as OneLaneScript, ScriptFault as OneLaneFault};
use std::alloc::{AllocError, Global};

/// A script, by the way in which it runs.
#[derive(Drop)]
pub enum Way {
    /// A single lane runs it.
    OneLane(OneLaneScript),
    /// Lanes run it, each in a thread of its own.
    Lanes(Script),
}

/// The script of one lane, in the words that a single lane runs, if the text is one.
fn one_lane(alloc: Global, text: &[u8]) -> Result<Option<OneLaneScript>, AllocError>
    ensures some { IfOk result (λ found. IfSome found (IsOneLane (lines text.now))) }
    ensures none { IfOk result (λ found. IfNone found
        ((one : OneLaneScript) → ¬ IsOneLane (lines text.now) one)) }
{
    match solo_script::parse(alloc, text) {
        Ok(script) => {
            if script.lanes <= 1 {
                Ok(Some(script))
            } else {
                Ok(None)
            }
        }
        Err(OneLaneFault::Bad(_)) => Ok(None),
        Err(OneLaneFault::Memory(error)) => Err(error),
    }
}

/// The script in the words that lanes run.
fn on_lanes<'a>(alloc: Global, text: &[u8]) -> Result<Script, Failure<'a>>
    requires { (one : OneLaneScript) → ¬ IsOneLane (lines text.now) one }
    ensures script { IfOk result (IsOnLanes (lines text.now)) }
    ensures cause { IfErr result (IsScriptFault (lines text.now)) }
{
    match pm_script::parse(alloc, text) {
        Ok(script) => match line_beyond_lanes(script.lines.as_slice()) {
            None => Ok(script),
            Some(line) => Err(Failure::BadScript(BadLine {
                line,
                why: Why::Word,
            })),
        },
        Err(ScriptFault::Bad(bad)) => Err(Failure::BadScript(bad)),
        Err(ScriptFault::Memory(_)) => Err(Failure::NoMemory),
    }
}

/// Reads a script: docs/COMMANDS.md, "Scripts". One of lane 0 whose words a single lane runs goes
/// that way, and every other runs on lanes.
///
/// # Errors
///
/// - `BadScript`: the first bad line of the text; where none is bad, the first with a word that
///   lanes don't run.
/// - `NoMemory`: there is no memory.
pub fn way_of<'a>(alloc: Global, text: &[u8]) -> Result<Way, Failure<'a>>
    ensures way { IfOk result (IsWay (lines text.now)) }
    ensures cause { IfErr result (IsScriptFault (lines text.now)) }
{
    match one_lane(alloc, text) {
        Ok(Some(script)) => Ok(Way::OneLane(script)),
        Ok(None) => match on_lanes(alloc, text) {
            Ok(script) => Ok(Way::Lanes(script)),
            Err(failure) => Err(failure),
        },
        Err(AllocError) => Err(Failure::NoMemory),
    }
}
