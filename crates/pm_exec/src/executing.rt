//! A script, run by lanes in threads on the pool of an image.

ghost use Rattle.std.specs.Prelude.{◌≡◌, ◌≢◌, ◌<◌, ◌≤◌, All, IfErr, IfOk, ℕ, List, None, length, map};
ghost use Rattle.std.specs.Prelude.{slice_index};
ghost use Rattle.std.specs.List.Sorted.{IsStrictlyIncreasing};
ghost use Rattle.pm_lanes.specs.Opens.{IsOpenCause};
ghost use Rattle.pm_script.specs.Operations.{closes};
ghost use Rattle.pm_script.specs.Scripts.{AreCalls, of_lane, operations};
ghost use Rattle.pm_script.specs.declared.script.ScriptLine.{ScriptLine};
ghost use Rattle.pm_shared.specs.Openings.{CanBegin};
ghost use Rattle.pm_calls.specs.Calls.{RunsOnLanes, numbers_of};
ghost use Rattle.pm_calls.specs.declared.names.Names.{Names};
ghost use Rattle.pm_root.specs.Root.{id_of};
ghost use Rattle.pm_exec.specs.Reported.{HaveReported};
ghost use Rattle.pm_exec.specs.Reports.{AreWorksFor, AreWorksOf, HasCalls};
ghost use Rattle.pm_exec.specs.Runs.{RanOnLanes};
ghost use Rattle.pm_exec.specs.Works.{CanRunWork};

use crate::failure::PowerFailure;
use crate::outcome::Outcome;
use crate::reporting::{ends_of, entries_of};
use crate::work::LaneWork;
use pm_calls::{LaneRoom, Names, a_lanes_calls_are_whole, lane_rooms};
use pm_lanes::{
    OpenFault, busy_calls_have_causes, calls_are_listed, closed_pools_mean_their_histories,
    headers_are_kept, missed_calls_have_causes, numbers_are_shown, open_calls_are_judged,
    open_in_place, stops_are_reached,
};
use pm_layout::ROOT_WORD;
use pm_objects::Oid;
use pm_raw::RawImage;
use pm_run::{Ran, run_lanes};
use pm_script::Script;
use pm_shared::Beginning;
use pm_shelf::Gate;
use pm_text::LaneEnd;
use std::alloc::{AllocError, Global};
use std::sync::Wait;
use std::thread::Threads;

/// What the names of a script stand for on the pool that lanes begin on, by its root word.
fn names_on(beginning: &Beginning) -> Names
    ensures pool { result.pool ≡ beginning.now.pool }
    ensures root { result.root
        ≡ id_of beginning.now.pool (slice_index beginning.now.words.items 64) }
{
    let pool = beginning.pool;
    let root = match beginning.words.get(ROOT_WORD as usize) {
        Some(&off) if off != 0 => Oid { pool, off },
        _ => Oid::NULL,
    };
    Names { pool, root }
}

/// The works of lanes that are to run with these names, with room for their answers.
fn works_of<'s, G>(
    alloc: Global,
    rooms: Vec<LaneRoom<'s>>,
    names: Names,
    gate: &'s G,
) -> Result<Vec<LaneWork<'s, G>>, AllocError>
    ensures { IfOk result (λ works. AreWorksOf names rooms.entry.items works.items) }
{
    let mut works = Vec::with_capacity(alloc, rooms.len())?;
    for room in rooms {
        let LaneRoom { calls } = room;
        let answers = Vec::with_capacity(alloc, calls.len())?;
        works.push(LaneWork {
            number: works.len() as u64,
            names,
            gate,
            calls: Some(calls),
            answers,
            unanswered: None,
            end: LaneEnd::Ended,
        })?;
    }
    Ok(works)
}

/// Runs the works, and makes the history of what they did.
fn run_works<'s, R: Threads + Wait + Sync, G: Gate + Sync>(
    rt: &R,
    alloc: Global,
    beginning: Beginning,
    works: Vec<LaneWork<'s, G>>,
    keep: u64,
) -> Result<Outcome, AllocError>
    requires begins { CanBegin beginning }
    requires count { length works.items ≡ beginning.lanes }
    requires works { (names : Names) × (lines : List ScriptLine)
        × AreWorksFor names lines beginning.lanes works.items }
    requires calls { All HasCalls works.items }
    requires can { All CanRunWork works.items }
    ensures { IfOk result (HaveReported beginning keep works.entry.items) }
{
    let Ran { image, works, kept } = run_lanes(rt, alloc, beginning, works, keep)?;
    closed_pools_mean_their_histories();
    open_calls_are_judged();
    let lanes = ends_of(alloc, works.as_slice())?;
    let entries = entries_of(alloc, works, kept.as_slice())?;
    Ok(Outcome {
        image,
        entries,
        lanes,
    })
}

/// Runs a script on the pool of an image, lane k's lines on lane k, each lane in a thread of its
/// own. The image is recovered first; each lane makes counted calls up to its stop number, if it
/// has one; and of what is then undrained so much survives as the keep number says. The same holds of
/// every other choice of what survives, with the fates that it gives to the calls that were not answered.
/// The room for all replies is taken before any lane runs.
///
/// # Errors
///
/// The first of these; nothing is left of a run.
///
/// - `Image`: the image has this fault (docs/FORMAT.md, "Faults").
/// - `Layout`: the pool has another layout name.
/// - `Lanes`: the script has more lanes than the pool.
/// - `Memory`: there is no memory.
pub fn exec<'a, R: Threads + Wait + Sync, G: Gate + Sync>(
    rt: &R,
    alloc: Global,
    image: RawImage,
    script: &Script,
    layout: &'a str,
    failure: PowerFailure,
    gate: &G,
) -> Result<Outcome, OpenFault<'a>>
    requires calls { (lane : ℕ) → AreCalls (operations (of_lane lane script.now.lines)) }
    requires rising { IsStrictlyIncreasing (numbers_of script.now.lines) }
    requires words { All RunsOnLanes script.now.lines }
    requires lanes { (1 ≤ script.now.lanes) × (script.now.lanes ≤ 32) }
    ensures ran { IfOk result (RanOnLanes image layout.now script.now failure.stops failure.keep) }
    ensures cause { IfErr result (IsOpenCause image layout.now script.now.lanes) }
{
    let PowerFailure { stops, keep } = failure;
    let Ok(rooms) = lane_rooms(alloc, script.lines.as_slice(), script.lanes) else {
        return Err(OpenFault::Memory);
    };
    let beginning = match open_in_place(alloc, image, layout, script.lanes, stops) {
        Ok(beginning) => beginning,
        Err(fault) => return Err(fault),
    };
    a_lanes_calls_are_whole();
    let Ok(works) = works_of(alloc, rooms, names_on(&beginning), gate) else {
        return Err(OpenFault::Memory);
    };
    closed_pools_mean_their_histories();
    open_calls_are_judged();
    stops_are_reached();
    headers_are_kept();
    numbers_are_shown();
    busy_calls_have_causes();
    missed_calls_have_causes();
    calls_are_listed();
    match run_works(rt, alloc, beginning, works, keep) {
        Ok(outcome) => Ok(outcome),
        Err(_) => Err(OpenFault::Memory),
    }
}
