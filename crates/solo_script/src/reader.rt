ghost use Rattle.std.specs.Prelude.{◌≡◌, List, ℕ, [], Some, IfOk, IfErr, OnOk};
ghost use Rattle.solo_script.specs.Scripts.{IfBad, IsBadLine, IsScript, fault_of};
ghost use Rattle.solo_script.specs.Reading.{HasLane, HasRead, IsOutOfPlace, Reads, Takes, next_line};
ghost use Rattle.solo_script.specs.declared.fault.ScriptFault.TheVariants as script_fault;

use crate::context::Context;
use crate::fault::{BadLine, ScriptFault, Why};
use crate::script::{Script, ScriptLine};
use crate::statement::{Statement, statement_of};
use crate::words::{is_skipped, text_of, words_of};
use pm_objects::Sequence;
use std::alloc::Global;

/// A script as far as its lines were read.
#[derive(Drop)]
pub struct Reader {
    context: Context,
    /// The operations so far.
    lines: Vec<ScriptLine>,
}

impl Reader {
    /// Nothing was read.
    pub fn new(alloc: Global) -> Reader
        ensures { HasRead result [] }
    {
        Reader {
            context: Context::new(alloc),
            lines: Vec::new(alloc),
        }
    }

    /// Reads the line with this number.
    pub fn read(&mut self, alloc: Global, number: u64, line: &[u8]) -> Result<(), ScriptFault>
        ensures ok { OnOk result (Reads self.old self.new (next_line self.old number line.now)) }
        ensures bad { IfErr result (λ e. IfBad e (λ bad. fault_of (next_line self.old number line.now) ≡ Some bad)) }
    {
        let text = text_of(line).ok_or(bad(number, Why::Text))?;
        let words = words_of(alloc, text)?;
        if is_skipped(&words) {
            return Ok(());
        }
        match statement_of(alloc, &self.context, &words) {
            Ok(statement) => self.take(number, statement),
            Err(fault) => Err(fault.at(number)),
        }
    }

    /// Takes what the line with this number says.
    fn take(&mut self, number: u64, statement: Statement) -> Result<(), ScriptFault>
        requires { HasLane statement }
        ensures ok { OnOk result (Takes self.old self.new number statement) }
        ensures bad { IfErr result (λ e. IfBad e (IsOutOfPlace self.old number statement)) }
    {
        match statement {
            Statement::Lane(lane) => self.context.enter(lane),
            Statement::Operation(operation) => {
                let lane = self
                    .context
                    .lane_of(&operation)
                    .map_err(|why| bad(number, why))?;
                self.context.follow(lane, number, &operation)?;
                self.lines.push(ScriptLine {
                    line: number,
                    lane,
                    operation,
                })?;
            }
        }
        Ok(())
    }

    /// The script that the lines are, all of which were read.
    pub fn script(self) -> Result<Script, ScriptFault>
        ensures ok { IfOk result (λ script. (lines : List (List ℕ)) → HasRead self lines → IsScript lines script) }
        ensures bad { IfErr result (λ e. (lines : List (List ℕ)) → HasRead self lines → IfBad e (IsBadLine lines)) }
    {
        match self.context.first_open() {
            Some(line) => Err(bad(line, Why::Open)),
            None => Ok(Script {
                lines: Sequence::from_vec(self.lines),
                lanes: self.context.lanes(),
            }),
        }
    }
}

/// The fault of a line with this number.
fn bad(line: u64, why: Why) -> ScriptFault
    ensures { result ≡ script_fault.Bad (record { line = line; why = why }) }
{
    ScriptFault::Bad(BadLine { line, why })
}
