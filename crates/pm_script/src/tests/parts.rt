//! The parts of scripts, lists of stops, and the laws.

use super::spelled::tells;
use crate::*;
use std::alloc::Global;
use std::test::Fail;

/// The laws are calls that do nothing.
#[test]
fn laws(_: HostRuntime) {
    one_reading_per_text();
    the_lines_of_a_script_rise();
    a_lanes_lines_are_calls();
    one_lane_has_all_lines();
    a_script_names_few_lanes();
    letters_are_bound_before();
}

/// Whether the operation is a begin with this want alone.
fn is_begin(operation: &ScriptOp, want: ScriptWant) -> bool {
    match operation {
        ScriptOp::Begin { wants } => wants.as_slice() == [want].as_slice(),
        _ => false,
    }
}

/// Whether the operation is a read of so many bytes of an object, from this place on.
fn is_read(operation: &ScriptOp, object: ScriptId, place: u64, length: u64) -> bool {
    match operation {
        ScriptOp::Read { id, off, len } => *id == object && *off == place && *len == length,
        _ => false,
    }
}

/// A script by its parts.
#[test]
fn parts(rt: HostRuntime) -> Result<(), Fail> {
    let text = "lane 3\nbegin r:16512\nread 16512 0 16\ncommit\n";
    let script = parse(rt.alloc(), text.as_bytes())?;
    let lines = script.lines.as_slice();
    assert!(rt; script.lanes == 4 && lines.len() == 3);
    for (line, number) in lines.iter().zip(2..5_u64) {
        assert!(rt; line.line == number && line.lane == 3);
    }
    let id = ScriptId::At(16512);
    assert!(rt; is_begin(&lines[0].operation, ScriptWant { id, write: false }));
    assert!(rt; is_read(&lines[1].operation, id, 0, 16));
    assert!(rt; matches!(&lines[2].operation, ScriptOp::Commit));
    Ok(())
}

/// A script that writes so many bytes.
fn write_of(alloc: Global, count: u64) -> Result<String, Fail> {
    let mut text = String::from_str(alloc, "lane 0\nbegin root\nwrite root 0 ")?;
    for _ in 0..count {
        text.push_str("5a")?;
    }
    text.push_str("\ncommit")?;
    Ok(text)
}

/// Whether the operation is a write of so many bytes at place 0.
fn is_write(operation: &ScriptOp, length: usize) -> bool {
    match operation {
        ScriptOp::Write { off, bytes, .. } => *off == 0 && bytes.as_slice().len() == length,
        _ => false,
    }
}

/// A line writes 4,096 bytes at most.
#[test]
fn long_writes(rt: HostRuntime) -> Result<(), Fail> {
    let alloc = rt.alloc();
    let script = parse(alloc, write_of(alloc, 4096)?.as_bytes())?;
    let lines = script.lines.as_slice();
    assert!(rt; lines.len() == 3);
    assert!(rt; is_write(&lines[1].operation, 4096));
    tells(
        &rt,
        alloc,
        write_of(alloc, 4097)?.as_str(),
        "bad script line 3 Hex",
    )
}

/// The stop of a lane in a text, or none where that is no list of stops.
fn told_stop(alloc: Global, text: &str, lane: u64) -> Result<Option<Option<u64>>, Fail> {
    match stops(alloc, text)? {
        Some(list) => Ok(Some(stop_of(lane, &list))),
        None => Ok(None),
    }
}

/// A list of stops, a lane, and its stop; and texts that are no lists of stops.
#[test]
fn lists_of_stops(rt: HostRuntime) -> Result<(), Fail> {
    let table = [
        ("0:11", 0, Some(11)),
        ("1:0,0:7", 0, Some(7)),
        ("1:0,0:7", 1, Some(0)),
        ("31:5", 0, None),
        ("0:18446744073709551615", 0, Some(u64::MAX)),
    ];
    for (text, lane, stop) in table {
        assert!(rt; told_stop(rt.alloc(), text, lane)? == Some(stop), "{text}");
    }
    for text in [
        "", "0:", ":1", "0:1,", ",0:1", "0:1,0:2", "0:1:2", "0;1", "a:1", "0:-1",
    ] {
        assert!(rt; told_stop(rt.alloc(), text, 0)?.is_none(), "{text}");
    }
    Ok(())
}
