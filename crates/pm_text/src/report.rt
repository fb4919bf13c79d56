//! The text of a run: its history, and how its lanes ended.
ghost use Rattle.std.specs.Prelude.{◌≡◌, ◌++◌, IfOk, OnOk};
ghost use Rattle.std.specs.List.{enumerate_from, flat_map};
ghost use Rattle.pm_text.specs.Report.{end_line, end_text, entry_head, entry_line, report_text, root_part, spent_text, stopped_text, value_part};

use crate::digits::push_decimal;
use crate::outcomes::{push_fate, push_value};
use pm_objects::{Entry, Fate, Value};
use std::alloc::{AllocError, Global};

/// How a lane ended.
#[derive(Clone, Copy, Debug, PartialEq, Eq)]
pub enum LaneEnd {
    /// All its lines were run, or passed over behind an abort.
    Ended,
    /// It came to its stop number, having made so many counted calls.
    Stopped(u64),
    /// At this line of the script no generation or no commit number was left to it.
    Spent(u64),
}

/// The text of a run: a line for each call of the history, in the order of the entries, and then one for each lane, from lane 0 on. All
/// memory is taken here, and the only error is that it lacks.
pub fn report_text(
    alloc: Global,
    entries: &[Entry],
    ends: &[LaneEnd],
) -> Result<Vec<u8>, AllocError>
    ensures { IfOk result (λ text. text.items ≡ report_text entries.now ends.now) }
{
    let mut out = Vec::new(alloc);
    push_entries(&mut out, entries)?;
    push_ends(&mut out, ends)?;
    Ok(out)
}

/// Appends the lines of all entries.
fn push_entries(out: &mut Vec<u8>, entries: &[Entry]) -> Result<(), AllocError>
    ensures { OnOk result (out.new.items ≡ out.old.items ++ flat_map entry_line entries.now) }
{
    for entry in entries {
        push_entry(out, entry)?;
    }
    Ok(())
}

/// Appends the line of an entry.
fn push_entry(out: &mut Vec<u8>, entry: &Entry) -> Result<(), AllocError>
    ensures { OnOk result (out.new.items ≡ out.old.items ++ entry_line entry.now) }
{
    push_head(out, entry)?;
    push_fate(out, entry.fate, entry.reply.at)?;
    push_root(out, entry.fate, entry.call.root)?;
    push_values(out, entry.reply.values.as_slice())?;
    out.push(b'\n')?;
    Ok(())
}

/// Appends an entry's number, lane and lines.
fn push_head(out: &mut Vec<u8>, entry: &Entry) -> Result<(), AllocError>
    ensures { OnOk result (out.new.items ≡ out.old.items ++ entry_head entry.now) }
{
    push_decimal(out, entry.number)?;
    out.extend_from_slice(b" lane ")?;
    push_decimal(out, entry.call.lane)?;
    out.extend_from_slice(b" lines ")?;
    push_decimal(out, entry.call.first)?;
    out.push(b'-')?;
    push_decimal(out, entry.call.last)?;
    out.push(b' ')?;
    Ok(())
}

/// Appends what the word `root` stood for.
fn push_root(out: &mut Vec<u8>, fate: Fate, root: Option<u64>) -> Result<(), AllocError>
    ensures { OnOk result (out.new.items ≡ out.old.items ++ root_part fate root) }
{
    if let Fate::Lost = fate {
        return Ok(());
    }
    if let Some(off) = root {
        out.extend_from_slice(b" root=")?;
        push_decimal(out, off)?;
    }
    Ok(())
}

/// Appends each line that gave a value, with it.
fn push_values(out: &mut Vec<u8>, values: &[(u64, Value)]) -> Result<(), AllocError>
    ensures { OnOk result (out.new.items ≡ out.old.items ++ flat_map value_part values.now) }
{
    for (line, value) in values {
        out.push(b' ')?;
        push_decimal(out, *line)?;
        out.push(b'=')?;
        push_value(out, value)?;
    }
    Ok(())
}

/// Appends a line for each lane.
fn push_ends(out: &mut Vec<u8>, ends: &[LaneEnd]) -> Result<(), AllocError>
    ensures { OnOk result (out.new.items ≡ out.old.items ++ flat_map end_line (enumerate_from 0 ends.now)) }
{
    for (lane, end) in ends.iter().enumerate() {
        out.extend_from_slice(b"lane ")?;
        push_decimal(out, lane as u64)?;
        push_end(out, *end)?;
    }
    Ok(())
}

/// Appends how a lane ended, and the line's end.
fn push_end(out: &mut Vec<u8>, end: LaneEnd) -> Result<(), AllocError>
    ensures { OnOk result (out.new.items ≡ out.old.items ++ end_text end) }
{
    match end {
        LaneEnd::Ended => out.extend_from_slice(b" ended\n"),
        LaneEnd::Stopped(calls) => push_stopped(out, calls),
        LaneEnd::Spent(line) => push_spent(out, line),
    }
}

fn push_stopped(out: &mut Vec<u8>, calls: u64) -> Result<(), AllocError>
    ensures { OnOk result (out.new.items ≡ out.old.items ++ stopped_text calls) }
{
    out.extend_from_slice(b" stopped after ")?;
    push_decimal(out, calls)?;
    out.extend_from_slice(b" calls\n")?;
    Ok(())
}

fn push_spent(out: &mut Vec<u8>, line: u64) -> Result<(), AllocError>
    ensures { OnOk result (out.new.items ≡ out.old.items ++ spent_text line) }
{
    out.extend_from_slice(b" spent at line ")?;
    push_decimal(out, line)?;
    out.push(b'\n')?;
    Ok(())
}
