ghost use Rattle.std.specs.Prelude.{◌≡◌, ◌^◌, ◌<◌, ◌≤◌, length, IfErr, IfOk};
ghost use Rattle.pm_words.specs.Words.{bytes_of};
ghost use Rattle.pm_options.specs.Asked.{exec_asked};
ghost use Rattle.pm_text.specs.Report.{report_text};
ghost use Rattle.pm_commands.specs.declared.failure.Failure.TheVariants.{NoMemory};
ghost use Rattle.pm_commands.specs.Executed.{IsExecuted, IsRunFault, IsRunOf, IsRunOver, MayAddRun, lanes_failure, open_failure};
ghost use Rattle.pm_commands.specs.Failures.{IsCauseBefore, IsExecCause};

use crate::failure::Failure;
use crate::image_bytes::bytes_of_words;
use crate::lane_stops::lane_stops;
use crate::pool_files::{failure_of, image_from, put, read};
use crate::ways::{Way, way_of};
use pm_exec::PowerFailure;
use pm_lanes::OpenFault;
use pm_layout::MAX_POOL_BYTES;
use pm_objects::{Entry, Sequence};
use pm_options::ExecWords;
use pm_script::stop_of;
use pm_shelf::{Gate, Shelf};
use pm_text::{LaneEnd, report_text};
use solo_exec::OpenFault as OneLaneFault;
use std::alloc::Global;
use std::sync::Wait;
use std::thread::Threads;

/// Bytes of a script at most.
const MAX_SCRIPT_BYTES: u64 = 1_048_576;

/// Runs the script on the pool, and puts the pool that is left on the shelf under its new name. The answer is the report.
pub fn run_exec<'a, R: Threads + Wait + Sync, S: Shelf, G: Gate + Sync>(
    rt: &R,
    alloc: Global,
    words: &ExecWords<'a>,
    shelf: &mut S,
    gate: &G,
) -> Result<Vec<u8>, Failure<'a>>
    ensures ran { IfOk result (λ text. IsExecuted (exec_asked words.now) (S.content shelf.old) (S.content shelf.new) text.items) }
    ensures cause { IfErr result (IsExecCause (exec_asked words.now) (S.content shelf.old) (S.content shelf.new) (S.faults shelf.old) (S.faults shelf.new)) }
    ensures part { MayAddRun (exec_asked words.now) (S.content shelf.old) (S.content shelf.new) }
{
    let left = run_files(rt, alloc, words, shelf, gate)?;
    put(words.out, &left.bytes, shelf)?;
    Ok(left.report)
}

/// What a run leaves, before it is written.
#[derive(Drop)]
struct Left {
    bytes: Vec<u8>,
    report: Vec<u8>,
}

/// Reads both files and runs the one on the other.
fn run_files<'a, R: Threads + Wait + Sync, S: Shelf, G: Gate + Sync>(
    rt: &R,
    alloc: Global,
    words: &ExecWords<'a>,
    shelf: &mut S,
    gate: &G,
) -> Result<Left, Failure<'a>>
    ensures kept { S.content shelf.new ≡ S.content shelf.old }
    ensures ran { IfOk result (λ left. IsRunOf (S.content shelf.old) (exec_asked words.now) left.bytes.items left.report.items) }
    ensures cause { IfErr result (IsCauseBefore (exec_asked words.now) (S.content shelf.old) (S.faults shelf.old) (S.faults shelf.new)) }
    ensures faults { S.faults shelf.old ≤ S.faults shelf.new }
{
    let source = read(alloc, words.pool, MAX_POOL_BYTES, shelf)?;
    let text = read(alloc, words.script, MAX_SCRIPT_BYTES, shelf)?;
    run_script(rt, alloc, words, source, &text, gate)
}

/// Runs the script of a text on the pool of some bytes. They are freed before it runs.
fn run_script<'a, R: Threads + Wait + Sync, G: Gate + Sync>(
    rt: &R,
    alloc: Global,
    words: &ExecWords<'a>,
    source: Vec<u8>,
    text: &[u8],
    gate: &G,
) -> Result<Left, Failure<'a>>
    ensures ran { IfOk result (λ left. IsRunOver source.items text.now (exec_asked words.now) left.bytes.items left.report.items) }
    ensures cause { IfErr result (IsRunFault source.items text.now (exec_asked words.now)) }
{
    let way = way_of(alloc, text)?;
    let image = match image_from(alloc, source) {
        Ok(image) => image,
        Err(fault) => return Err(failure_of(fault)),
    };
    match way {
        Way::OneLane(script) => {
            let stop = stop_of(0, &words.stops);
            match solo_exec::exec(alloc, image, &script, words.layout, stop, words.keep) {
                Ok(outcome) => left_of(alloc, &outcome.words, &outcome.history, &[outcome.end]),
                Err(fault) => Err(open_failure(words.layout, fault)),
            }
        }
        Way::Lanes(script) => {
            let stops = lane_stops(&words.stops);
            let failure = PowerFailure {
                stops,
                keep: words.keep,
            };
            let ran = pm_exec::exec(rt, alloc, image, &script, words.layout, failure, gate);
            match ran {
                Ok(outcome) => left_of(alloc, &outcome.image, &outcome.entries, &outcome.lanes),
                Err(fault) => Err(lanes_failure(fault)),
            }
        }
    }
}

/// The failure that a pool is that was not opened for a single lane.
fn open_failure(asked: &str, fault: OneLaneFault) -> Failure<'_>
    ensures { result ≡ open_failure asked.entry fault }
{
    match fault {
        OneLaneFault::Image(found) => Failure::Faulty(found),
        OneLaneFault::Layout(kept) => Failure::OtherLayout { asked, kept },
        OneLaneFault::Lanes { asked, kept } => Failure::FewerLanes { asked, kept },
        OneLaneFault::Memory(_) => Failure::NoMemory,
    }
}

/// The failure that a pool is that was not opened for lanes.
fn lanes_failure(fault: OpenFault<'_>) -> Failure<'_>
    ensures { result ≡ lanes_failure fault.entry }
{
    match fault {
        OpenFault::Image(found) => Failure::Faulty(found),
        OpenFault::Layout { asked, kept } => Failure::OtherLayout {
            asked,
            kept: Sequence::from_vec(kept.into_bytes()),
        },
        OpenFault::Lanes { asked, kept } => Failure::FewerLanes { asked, kept },
        OpenFault::Memory => Failure::NoMemory,
    }
}

/// The bytes of the words that a run left, and its report.
fn left_of<'a>(
    alloc: Global,
    words: &[u64],
    history: &[Entry],
    ends: &[LaneEnd],
) -> Result<Left, Failure<'a>>
    requires { length words.now < 2 ^ 60 }
    ensures bytes { IfOk result (λ left. left.bytes.items ≡ bytes_of words.now) }
    ensures report { IfOk result (λ left. left.report.items ≡ report_text history.now ends.now) }
    ensures cause { IfErr result (λ failure. failure ≡ NoMemory) }
{
    let Ok(bytes) = bytes_of_words(alloc, words) else {
        return Err(Failure::NoMemory);
    };
    match report_text(alloc, history, ends) {
        Ok(report) => Ok(Left { bytes, report }),
        Err(_) => Err(Failure::NoMemory),
    }
}
