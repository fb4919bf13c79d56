//! Each public call once with ample memory, and fakes that fail in the middle of a call. The tables of commands with their
//! answers are crates/pm_transcripts/stdin.
use crate::{Failure, Status, say_failure, top};
use pm_shelf::{
    FailingShelf, FailingSink, IdleGate, ListSink, MOST_TURNS, MapShelf, MeetingGate, Place, Shelf,
    Sink,
};
use std::alloc::{AllocError, Global};
use std::process::Abort;
use std::sync::Wait;
use std::test::Fail;
use std::thread::Threads;

const CREATE: &str = "pmempool create p --lanes 1 --zones 1 --id 7 --layout demo --root 64";

const DUMP: &str = "pmempool dump p";

const EXEC: &str = "pmempool exec p --script s --out q --layout demo";

const CHECK: &str = "pmempool check p";

const INFO: &str = "pmempool info p";

const FACTS: &str = "\
version 1
pool 7
layout demo
lanes 1
zones 1
bytes 278528
root 16512
objects 1
data 64
runs 1
sealed 0
records 0
";

const SCRIPT: &str = "lane 0\nset root 8 42\npublish\n";

const CREATE_PAIR: &str = "pmempool create p --lanes 2 --zones 1 --id 7 --layout demo --root 64";

/// Each lane adds to the first word of the root.
const ADDITIONS: &str = "\
lane 0
begin root
add root 0 8
inc root 0 5
commit
lane 1
begin root
add root 0 8
inc root 0 7
commit
";

/// One lane writes what the other reads.
const WRITE_AND_READ: &str = "\
lane 0
begin root
add root 0 8
write root 0 ff
commit
lane 1
begin root
read root 0 8
commit
";

/// Two transactions, of which each can wait for the other.
const MEETING: &str = "lane 0\nbegin\ncommit\nlane 1\nbegin\ncommit\n";

/// Does what the words of the line say.
fn run<R: Threads + Wait + Sync, S: Shelf, K: Sink>(
    rt: &R,
    alloc: Global,
    line: &str,
    shelf: &mut S,
    out: &mut K,
) -> Result<Status, AllocError> {
    let mut words = Vec::new(alloc);
    for word in line.split(' ') {
        words.push(String::from_str(alloc, word)?)?;
    }
    Ok(top(rt, alloc, &words, shelf, out, &IdleGate))
}

/// Runs the line, and compares what is printed and the status.
fn answers<R: Abort + Threads + Wait + Sync, S: Shelf>(
    rt: &R,
    alloc: Global,
    line: &str,
    shelf: &mut S,
    wanted: (&str, u8),
) -> Result<(), Fail> {
    let mut out = ListSink::new(alloc);
    let status = run(rt, alloc, line, shelf, &mut out)?;
    let printed = out.bytes() == wanted.0.as_bytes();
    assert!(rt; printed && status.code() == wanted.1, "{line}");
    Ok(())
}

/// A pool is made, checked, shown and run, and a failure is told.
#[test]
fn each_call(rt: HostRuntime) -> Result<(), Fail> {
    let alloc = rt.alloc();
    let mut shelf = MapShelf::new(alloc);
    let made = ("created 278528 root 16512\n", 0);
    answers(&rt, alloc, CREATE, &mut shelf, made)?;
    answers(&rt, alloc, CHECK, &mut shelf, ("consistent\n", 0))?;
    answers(&rt, alloc, INFO, &mut shelf, (FACTS, 0))?;
    let shown = ("root 16512\nobject 16512 type 0 size 64\n", 0);
    answers(&rt, alloc, DUMP, &mut shelf, shown)?;
    let script = SCRIPT.as_bytes();
    shelf.write("s", script).ok().ok_or("a new name")?;
    let ran = (
        "1 lane 0 lines 2-2 done root=16512\n2 lane 0 lines 3-3 done\nlane 0 ended\n",
        0,
    );
    answers(&rt, alloc, EXEC, &mut shelf, ran)?;
    let mut out = ListSink::new(alloc);
    let status = say_failure(
        alloc,
        &Failure::Usage(String::from_str(alloc, "why\n")?),
        &mut out,
    );
    assert!(rt; status.code() == 2 && out.bytes() == b"usage\nwhy\n".as_slice());
    Ok(())
}

/// A shelf that fails in the middle of a run: at the pool's reading, at the script's, and at the writing of what is left. No name is added.
#[test]
fn a_shelf_fails_in_a_run(rt: HostRuntime) -> Result<(), Fail> {
    let alloc = rt.alloc();
    for (failing, told, code) in [
        (2, "read fault p\n", 3),
        (3, "read fault s\n", 3),
        (4, "write fault q\n", 4),
    ] {
        let mut shelf = FailingShelf::new(alloc, vec![in alloc; failing]?);
        let mut out = ListSink::new(alloc);
        run(&rt, alloc, CREATE, &mut shelf, &mut out)?;
        let script = SCRIPT.as_bytes();
        shelf.write("s", script).ok().ok_or("a new name")?;
        answers(&rt, alloc, EXEC, &mut shelf, (told, code))?;
        assert!(rt; shelf.faults() == 1 && shelf.get("q").is_none(), "{told}");
    }
    Ok(())
}

/// A sink that fails in the middle of a text has the lines before it.
#[test]
fn a_sink_fails_in_a_text(rt: HostRuntime) -> Result<(), Fail> {
    let alloc = rt.alloc();
    let mut shelf = MapShelf::new(alloc);
    let mut out = FailingSink::new(alloc, vec![in alloc; 2]?);
    run(&rt, alloc, CREATE, &mut shelf, &mut out)?;
    let status = run(&rt, alloc, DUMP, &mut shelf, &mut out)?;
    assert!(rt; status.code() == 4 && out.faults() == 1);
    let lines = "created 278528 root 16512\nroot 16512\n";
    assert!(rt; out.bytes() == lines.as_bytes());
    Ok(())
}

/// Runs the line, which is done, and compares what is printed with each text that is right.
fn answers_one_of<R: Abort + Threads + Wait + Sync, S: Shelf>(
    rt: &R,
    alloc: Global,
    line: &str,
    shelf: &mut S,
    wanted: &[&str],
) -> Result<(), Fail> {
    let mut out = ListSink::new(alloc);
    let status = run(rt, alloc, line, shelf, &mut out)?;
    let is_right = wanted.iter().any(|text| out.bytes() == text.as_bytes());
    assert!(rt; is_right && status.code() == 0, "{line}");
    Ok(())
}

/// A shelf with a new pool of two lanes and a script.
fn pair_with<R: Threads + Wait + Sync>(
    rt: &R,
    alloc: Global,
    script: &str,
) -> Result<MapShelf, Fail> {
    let mut shelf = MapShelf::new(alloc);
    let mut out = ListSink::new(alloc);
    run(rt, alloc, CREATE_PAIR, &mut shelf, &mut out)?;
    let written = shelf.write("s", script.as_bytes());
    written.ok().ok_or("a new name")?;
    Ok(shelf)
}

/// Two lanes add to one word, in either order: both are in the pool that is left.
#[test]
fn two_lanes_add(rt: HostRuntime) -> Result<(), Fail> {
    let alloc = rt.alloc();
    let mut shelf = pair_with(&rt, alloc, ADDITIONS)?;
    let wanted = [
        "1 lane 0 lines 2-5 done root=24704 4=5\n2 lane 1 lines 7-10 done root=24704 9=12\nlane 0 ended\nlane 1 ended\n",
        "1 lane 1 lines 7-10 done root=24704 9=7\n2 lane 0 lines 2-5 done root=24704 4=12\nlane 0 ended\nlane 1 ended\n",
    ];
    answers_one_of(&rt, alloc, EXEC, &mut shelf, &wanted)?;
    let shown =
        "root 24704\nobject 24704 type 0 size 64\ndata 0 0c000000000000000000000000000000\n";
    answers(&rt, alloc, "pmempool dump q", &mut shelf, (shown, 0))
}

/// Lane 0 stops before its deciding store: lane 1 reads the old bytes, or waits for the root and
/// stops.
#[test]
fn a_lane_stops_beside_another(rt: HostRuntime) -> Result<(), Fail> {
    let alloc = rt.alloc();
    let mut shelf = pair_with(&rt, alloc, WRITE_AND_READ)?;
    let wanted = [
        "1 lane 1 lines 7-9 done root=24704 8=0000000000000000\nlane 0 stopped after 5 calls\nlane 1 ended\n",
        "lane 0 stopped after 5 calls\nlane 1 stopped after 0 calls\n",
    ];
    let line = "pmempool exec p --script s --out q --layout demo --stops 0:5";
    answers_one_of(&rt, alloc, line, &mut shelf, &wanted)
}

/// Each of two lanes is held in its transaction until the other is in its own: they run side by
/// side.
#[test]
fn lanes_meet(rt: HostRuntime) -> Result<(), Fail> {
    let alloc = rt.alloc();
    let mut shelf = pair_with(&rt, alloc, MEETING)?;
    let mut words = Vec::new(alloc);
    for word in EXEC.split(' ') {
        words.push(String::from_str(alloc, word)?)?;
    }
    let first = Place { lane: 0, line: 3 };
    let second = Place { lane: 1, line: 6 };
    let gate = MeetingGate::new((first, second), (second, first), MOST_TURNS);
    let mut out = ListSink::new(alloc);
    let status = top(&rt, alloc, &words, &mut shelf, &mut out, &gate);
    assert!(rt; status.code() == 0 && !gate.ran_out());
    Ok(())
}
