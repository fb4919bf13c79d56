ghost use Rattle.std.specs.Prelude.{◌≡◌, Ok, Err, IfOk, IfErr};
ghost use Rattle.solo_script.specs.Words.{lines, texts};
ghost use Rattle.solo_script.specs.Scripts.{IsScript, IsBadLine, IfBad, IsUnlessNoMemory};
ghost use Rattle.solo_script.specs.Reading.{HasRead};
ghost use Rattle.solo_script.specs.declared.fault.BadLine.{BadLine};
ghost use Rattle.solo_script.specs.declared.fault.ScriptFault.TheVariants.{Bad};
ghost use Rattle.solo_script.specs.declared.script.Script.{Script};

use crate::fault::ScriptFault;
use crate::reader::Reader;
use crate::script::Script;
use crate::words::lines_of;
use std::alloc::Global;

/// The script that the text is. An error is the first bad line of a text that is none, or want of memory, and leaves nothing behind:
/// docs/COMMANDS.md, "Scripts".
pub fn parse(alloc: Global, text: &[u8]) -> Result<Script, ScriptFault>
    ensures script { IfOk result (IsScript (lines text.now)) }
    ensures bad { IfErr result (λ e. IfBad e (IsBadLine (lines text.now))) }

    // The one script or the one first bad line that the text has is the answer, unless there was no memory for it.
    ensures again { (script : Script) → IsScript (lines text.now) script → IsUnlessNoMemory result (Ok script) }
    ensures exact { (line : BadLine) → IsBadLine (lines text.now) line → IsUnlessNoMemory result (Err (Bad line)) }
{
    read_script(alloc, text)
}

/// Reads the text to its end or to its first bad line.
fn read_script(alloc: Global, text: &[u8]) -> Result<Script, ScriptFault>
    ensures script { IfOk result (IsScript (lines text.now)) }
    ensures bad { IfErr result (λ e. IfBad e (IsBadLine (lines text.now))) }
{
    let lines = lines_of(alloc, text)?;
    let reader = read_lines(alloc, &lines)?;
    reader.script()
}

/// Reads lines to the end or to the first bad one.
fn read_lines(alloc: Global, lines: &[&[u8]]) -> Result<Reader, ScriptFault>
    ensures ok { IfOk result (λ reader. HasRead reader (texts lines.now)) }
    ensures bad { IfErr result (λ e. IfBad e (IsBadLine (texts lines.now))) }
{
    let mut reader = Reader::new(alloc);
    for (index, line) in lines.iter().enumerate() {
        reader.read(alloc, index as u64 + 1, line)?;
    }
    Ok(reader)
}
