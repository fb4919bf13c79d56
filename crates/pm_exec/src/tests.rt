//! Scripts of two lanes run on new pools: what is reported, and what the image that is left means.

ghost use Rattle.std.specs.Prelude.{◌≤◌, ℕ, All, IfOk};
ghost use Rattle.std.specs.List.Sorted.{IsStrictlyIncreasing};
ghost use Rattle.pm_script.specs.Scripts.{AreCalls, of_lane, operations};
ghost use Rattle.pm_calls.specs.Calls.{RunsOnLanes, numbers_of};

use super::*;
use pm_calls::{lanes_run_scripts_with_no_line_beyond, line_beyond_lanes};
use pm_image::means;
use pm_layout::{MAX_GENERATION, PAGE_WORDS, Shape};
use pm_objects::{Fate, Stops};
use pm_pool::create;
use pm_raw::RawImage;
use pm_script::{
    Script, a_lanes_lines_are_calls, a_script_names_few_lanes, parse, the_lines_of_a_script_rise,
};
use pm_shelf::{Gate, IdleGate, MeetingGate, Place};
use pm_text::{LaneEnd, report_text};
use std::alloc::Global;
use std::process::Abort;
use std::sync::Wait;
use std::test::Fail;
use std::thread::Threads;

/// The layout name of each pool.
const LAYOUT: &str = "demo";

/// For how many turns a gate holds a lane at most. They take some seconds.
const TURNS: u64 = 20_000_000;

/// A new pool of two lanes and one zone, with a root of 64 bytes, which is at 24704.
fn pool(alloc: Global) -> Result<RawImage, Fail> {
    Ok(create(alloc, Shape::new(2, 1)?, 7, LAYOUT, 64)?)
}

/// The script of this text, of words that lanes run.
fn script_of(alloc: Global, text: &str) -> Result<Script, Fail>
    ensures calls { IfOk result
        (λ script. (lane : ℕ) → AreCalls (operations (of_lane lane script.lines))) }
    ensures rising { IfOk result (λ script. IsStrictlyIncreasing (numbers_of script.lines)) }
    ensures words { IfOk result (λ script. All RunsOnLanes script.lines) }
    ensures lanes { IfOk result (λ script. (1 ≤ script.lanes) × (script.lanes ≤ 32)) }
{
    let script = parse(alloc, text.as_bytes())?;
    a_lanes_lines_are_calls();
    a_script_names_few_lanes();
    the_lines_of_a_script_rise();
    lanes_run_scripts_with_no_line_beyond();
    if script.lanes < 1 || line_beyond_lanes(script.lines.as_slice()).is_some() {
        return Err(Fail::from("a script that lanes run"));
    }
    Ok(script)
}

/// A run of the script on the pool of an image, in which lane 0 stops after so many counted calls,
/// if it stops.
fn run<R: Threads + Wait + Sync, G: Gate + Sync>(
    rt: &R,
    alloc: Global,
    image: RawImage,
    text: &str,
    stop: Option<u64>,
    keep: u64,
    gate: &G,
) -> Result<Outcome, Fail> {
    let script = script_of(alloc, text)?;
    let mut stops = Stops::none();
    if let Some(calls) = stop {
        stops.set(0, calls);
    }
    let failure = PowerFailure { stops, keep };
    Ok(exec(rt, alloc, image, &script, LAYOUT, failure, gate)?)
}

/// The report of a run.
fn report(alloc: Global, outcome: &Outcome) -> Result<String, Fail> {
    let text = report_text(alloc, outcome.entries.as_slice(), outcome.lanes.as_slice())?;
    Ok(String::from_utf8(text)?)
}

/// The root's bytes in the pool that the image means, which has no other object.
fn root_bytes(alloc: Global, outcome: &Outcome) -> Result<Vec<u8>, Fail> {
    let image = RawImage::from_words(alloc, outcome.image.as_slice())?;
    let pool = means(alloc, &image)?;
    let [(_, root)] = pool.objects.as_slice() else {
        return Err(Fail::from("one object"));
    };
    Ok(root.bytes.as_slice().to_vec(alloc)?)
}

const fn at(lane: u64, line: u64) -> Place {
    Place { lane, line }
}

/// A gate that holds who comes to a place until another has come to its own.
fn held_until(held: Place, until: Place) -> MeetingGate {
    MeetingGate::new((held, until), (held, until), TURNS)
}

/// Lane 0 stops under the lock of the root, which lane 1 wants.
const ONE_STOPS: &str = concat!(
    "lane 0\nbegin root\nadd root 0 8\nwrite root 0 ff\ncommit\n",
    "lane 1\nbegin root\nread root 0 8\ncommit\n",
);

/// Lane 0 has the lock first, and lane 1 waits for it in vain.
const NEVER_READ: &str = "lane 0 stopped after 5 calls\nlane 1 stopped after 0 calls\n";

/// Lane 1 has the lock first, and gives it back.
const READ_FIRST: &str = concat!(
    "1 lane 1 lines 7-9 done root=24704 8=0000000000000000\n",
    "lane 0 stopped after 5 calls\nlane 1 ended\n",
);

/// Either report is right. A gate lets one lane have the lock first; without it either may.
#[test]
fn a_lane_waits_for_one_that_stopped(rt: HostRuntime) -> Result<(), Fail> {
    let alloc = rt.alloc();
    for (held, until, wanted) in [
        (at(1, 7), at(0, 3), NEVER_READ),
        (at(0, 2), at(1, 9), READ_FIRST),
    ] {
        let gate = held_until(held, until);
        let outcome = run(&rt, alloc, pool(alloc)?, ONE_STOPS, Some(5), 0, &gate)?;
        assert!(rt; !gate.ran_out());
        assert_eq!(rt; report(alloc, &outcome)?.as_str(), wanted);
    }
    for _ in 0..20 {
        let outcome = run(&rt, alloc, pool(alloc)?, ONE_STOPS, Some(5), 0, &IdleGate)?;
        let told = report(alloc, &outcome)?;
        assert!(rt; [NEVER_READ, READ_FIRST].contains(&told.as_str()), "{told}");
    }
    Ok(())
}

/// Each lane waits in its transaction until the other is in its own. Lanes that run one after
/// another, or one transaction at a time, never meet so.
#[test]
fn lanes_meet_inside_transactions(rt: HostRuntime) -> Result<(), Fail> {
    let alloc = rt.alloc();
    let text = "lane 0\nbegin\ncommit\nlane 1\nbegin\ncommit\n";
    let (zero, one) = (at(0, 3), at(1, 6));
    let gate = MeetingGate::new((zero, one), (one, zero), TURNS);
    let outcome = run(&rt, alloc, pool(alloc)?, text, None, 0, &gate)?;
    assert!(rt; !gate.ran_out());
    let told = report(alloc, &outcome)?;
    assert!(rt;
        [
            "1 lane 0 lines 2-3 done\n2 lane 1 lines 5-6 done\nlane 0 ended\nlane 1 ended\n",
            "1 lane 1 lines 5-6 done\n2 lane 0 lines 2-3 done\nlane 0 ended\nlane 1 ended\n",
        ]
        .contains(&told.as_str()),
        "{told}"
    );
    Ok(())
}

/// Each lane writes two words of the root.
const BOTH_WRITE: &str = concat!(
    "lane 0\nbegin root\nadd root 0 16\nwrite root 0 11111111111111111111111111111111\ncommit\n",
    "lane 1\nbegin root\nadd root 16 16\nwrite root 16 22222222222222222222222222222222\ncommit\n",
);

/// The counted calls of a transaction of `BOTH_WRITE`: 10 record the words, 2 store them, 2 make
/// them persistent, and 3 end the generation.
const CALLS: u64 = 17;

/// What may become of a call of 17 counted calls whose lane stops after so many. It has its number
/// after the 14th, and the 15th is its deciding store.
fn fates(stop: u64, keep: u64) -> [Option<Fate>; 2] {
    match (stop, keep) {
        (0..=13, _) => [None; 2],
        (14, _) | (15 | 16, 0) => [Some(Fate::Lost); 2],
        (15 | 16, 1) => [Some(Fate::Kept); 2],
        (15 | 16, _) => [Some(Fate::Lost), Some(Fate::Kept)],
        _ => [Some(Fate::Done); 2],
    }
}

/// The fate of the lane's call, if it is reported.
fn fate_of(outcome: &Outcome, lane: u64) -> Option<Fate> {
    let entry = outcome
        .entries
        .iter()
        .find(|entry| entry.call.lane == lane)?;
    Some(entry.fate)
}

/// The byte, if the report has the lane's call as done or kept; else 0.
fn byte_of(outcome: &Outcome, lane: u64, byte: u8) -> u8 {
    match fate_of(outcome, lane) {
        Some(Fate::Done | Fate::Kept) => byte,
        _ => 0,
    }
}

/// The root's bytes where its words are those of the calls that the report has as done or kept.
fn words_of(outcome: &Outcome) -> [u8; 64] {
    let first = byte_of(outcome, 0, 0x11);
    let second = byte_of(outcome, 1, 0x22);
    let mut bytes = [0; 64];
    for i in 0..16 {
        bytes[i] = first;
        bytes[16 + i] = second;
    }
    bytes
}

/// How the lanes end where lane 0 is to stop so, and lane 1 has the root's lock before it or not.
fn ends_of(stop: u64, before: bool) -> [LaneEnd; 2] {
    if stop == CALLS {
        [LaneEnd::Ended; 2]
    } else if before {
        [LaneEnd::Stopped(stop), LaneEnd::Ended]
    } else {
        [LaneEnd::Stopped(stop), LaneEnd::Stopped(0)]
    }
}

/// Lane 0 stops after so many counted calls, and lane 1 has the root's lock before it or not.
fn stops_after<R: Abort + Threads + Wait + Sync>(
    rt: &R,
    alloc: Global,
    stop: u64,
    keep: u64,
    before: bool,
) -> Result<(), Fail> {
    let (held, until) = if before {
        (at(0, 2), at(1, 8))
    } else {
        (at(1, 7), at(0, 3))
    };
    let gate = held_until(held, until);
    let outcome = run(rt, alloc, pool(alloc)?, BOTH_WRITE, Some(stop), keep, &gate)?;
    assert!(rt; !gate.ran_out());
    let told = report(alloc, &outcome)?;
    let ends = ends_of(stop, before);
    assert!(rt; outcome.lanes.as_slice() == ends.as_slice(), "{told}");
    let fate = fate_of(&outcome, 0);
    assert!(rt; fates(stop, keep).contains(&fate), "keep {keep}\n{told}");
    let done = fate_of(&outcome, 1) == Some(Fate::Done);
    assert!(rt; done == (ends[1] == LaneEnd::Ended), "{told}");
    let bytes = root_bytes(alloc, &outcome)?;
    let words = words_of(&outcome);
    assert!(rt; bytes.as_slice() == words.as_slice(), "keep {keep}\n{told}");
    Ok(())
}

#[test]
fn words_are_those_of_calls_not_lost(rt: HostRuntime) -> Result<(), Fail> {
    for stop in 0..=CALLS {
        for keep in [0, 1, 7] {
            stops_after(&rt, rt.alloc(), stop, keep, false)?;
            stops_after(&rt, rt.alloc(), stop, keep, true)?;
        }
    }
    Ok(())
}

/// Each word that lanes run, on both lanes. Lane 1 runs between the last two calls of lane 0.
const EACH_WORD: &str = concat!(
    "lane 0\n",
    "begin root\nadd root 0 8\nwrite root 0 0102030405060708\nread root 0 2\ncommit\n",
    "set root 8 42\npublish\nset root 8 7\ncancel\n",
    "begin\nlockr root\nlock root\nadd root 16 8\ninc root 16 5\nabort 9\n",
    "begin r:root\nread root 0 40\ncommit\n",
    "lane 1\n",
    "begin\nlockr root\nread root 0 24\n",
    "begin root\nadd root 16 8\nwrite root 16 ff\ninc root 16 1\nset root 24 9\npublish\n",
    "commit\ncommit\n",
    "set root 32 3\ncancel\n",
    "begin root\nadd root 40 8\nabort 0\n",
    "begin\nlock root\nread root 16 16\ncommit\n",
);

/// What is reported of it.
const EACH_WORD_DONE: &str = concat!(
    "1 lane 0 lines 2-6 done root=24704 5=0102\n",
    "2 lane 0 lines 7-7 done root=24704\n",
    "3 lane 0 lines 8-8 done\n",
    "4 lane 0 lines 9-9 done root=24704\n",
    "5 lane 0 lines 10-10 done\n",
    "6 lane 0 lines 11-16 aborted 9 at 16 root=24704 15=5\n",
    "7 lane 1 lines 21-31 done root=24704",
    " 23=01020304050607082a000000000000000000000000000000 27=256\n",
    "8 lane 1 lines 32-32 done root=24704\n",
    "9 lane 1 lines 33-33 done\n",
    "10 lane 1 lines 34-36 aborted ECANCELED at 36 root=24704\n",
    "11 lane 1 lines 37-40 done root=24704 39=00010000000000000900000000000000\n",
    "12 lane 0 lines 17-19 done root=24704",
    " 18=01020304050607082a00000000000000000100000000000009000000000000000000000000000000\n",
    "lane 0 ended\nlane 1 ended\n",
);

#[test]
fn each_word_runs(rt: HostRuntime) -> Result<(), Fail> {
    let alloc = rt.alloc();
    let (last, first, end) = (at(0, 17), at(1, 21), at(1, 40));
    let gate = MeetingGate::new((first, last), (last, end), TURNS);
    let outcome = run(&rt, alloc, pool(alloc)?, EACH_WORD, None, 0, &gate)?;
    assert!(rt; !gate.ran_out());
    assert_eq!(rt; report(alloc, &outcome)?.as_str(), EACH_WORD_DONE);
    Ok(())
}

/// Lane 0 has no generation left.
#[test]
fn a_lane_is_spent(rt: HostRuntime) -> Result<(), Fail> {
    let alloc = rt.alloc();
    let mut image = pool(alloc)?;
    assert!(rt; PAGE_WORDS < image.len());
    image.set(PAGE_WORDS, MAX_GENERATION);
    let text = "lane 0\nset root 0 1\npublish\nlane 1\npublish\n";
    let outcome = run(&rt, alloc, image, text, None, 0, &IdleGate)?;
    assert_eq!(rt;
        report(alloc, &outcome)?.as_str(),
        "1 lane 1 lines 5-5 done\nlane 0 spent at line 2\nlane 1 ended\n"
    );
    Ok(())
}

/// The text of the fault with which a pool is refused whose word with this number became 1.
fn fault_text<R: Threads + Wait + Sync>(
    rt: &R,
    alloc: Global,
    word: u64,
    layout: &str,
    text: &str,
) -> Result<String, Fail> {
    let script = script_of(alloc, text)?;
    let mut image = pool(alloc)?;
    if word < image.len() {
        image.set(word, 1);
    }
    let failure = PowerFailure {
        stops: Stops::none(),
        keep: 0,
    };
    match exec(rt, alloc, image, &script, layout, failure, &IdleGate) {
        Ok(_) => Err(Fail::from("a fault")),
        Err(fault) => Ok(fault.to_string(alloc)?),
    }
}

/// The first fault that applies is told. The words 2 and 258 have the pool's id in the header and
/// in its copy.
#[test]
fn faults_come_in_their_order(rt: HostRuntime) -> Result<(), Fail> {
    let alloc = rt.alloc();
    for (word, layout, text, wanted) in [
        (2, "tape", "lane 2\npublish\n", "HeaderMain"),
        (258, "tape", "lane 2\npublish\n", "HeaderCopy"),
        (
            512,
            "tape",
            "lane 2\npublish\n",
            "Layout asked tape kept demo",
        ),
        (512, "demo", "lane 2\npublish\n", "Lanes asked 3 kept 2"),
    ] {
        let told = fault_text(&rt, alloc, word, layout, text)?;
        assert_eq!(rt; told.as_str(), wanted);
    }
    Ok(())
}
