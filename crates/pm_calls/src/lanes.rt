//! A lane's calls, with the room that their replies need, made before any lane runs.

ghost use Rattle.std.specs.Prelude.{◌≡◌, ◌∷◌, ◌+◌, ◌<◌, ◌≤◌, ◌^◌, IfOk, length, map, take, drop};
ghost use Rattle.pm_script.specs.Scripts.{of_lane};
ghost use Rattle.pm_calls.specs.Calls as calls;
ghost use Rattle.pm_calls.specs.Calls.{calls_of, line_of};
ghost use Rattle.pm_calls.specs.LaneRooms.{AreRoomsFor, IsRoomForLane, lines_to_run};

use crate::room::{CallRoom, LineRoom};
use pm_script::{ScriptLine, ScriptOp};
use std::alloc::{AllocError, Global};

/// The calls of a lane, in order.
#[derive(Drop)]
pub struct LaneRoom<'s> {
    pub calls: Vec<CallRoom<'s>>,
}

/// The lines of a lane.
fn lines_of<'s>(
    alloc: Global,
    script: &'s [ScriptLine],
    lane: u64,
) -> Result<Vec<&'s ScriptLine>, AllocError>
    ensures { IfOk result (λ lines. map line_of lines.items ≡ of_lane lane script.now) }
{
    let mut lines = Vec::new(alloc);
    for line in script {
        if line.lane == lane {
            lines.push(line)?;
        }
    }
    Ok(lines)
}

/// How many levels are open after an operation, with so many before it.
fn level_behind(level: usize, operation: &ScriptOp) -> usize
    requires { level + 1 < 2 ^ 64 }
    ensures { result ≡ calls.level_behind level operation.now }
{
    if operation.opens() {
        level + 1
    } else if operation.closes() {
        level.saturating_sub(1)
    } else {
        level
    }
}

/// How many of the lines are the first call.
fn first_call(lines: &[&ScriptLine]) -> usize
    requires { 1 ≤ length lines.now }
    ensures some { 1 ≤ result }
    ensures inside { result ≤ length lines.now }
    ensures first { calls_of (map line_of lines.now)
        ≡ take result (map line_of lines.now) ∷ calls_of (drop result (map line_of lines.now)) }
{
    let mut level = 0;
    for (k, line) in lines.iter().enumerate() {
        level = level_behind(level, &line.operation);
        if level == 0 {
            return k + 1;
        }
    }
    lines.len()
}

/// The room that a line needs.
fn room_of<'s>(alloc: Global, said: &'s ScriptLine) -> Result<LineRoom<'s>, AllocError>
    ensures { IfOk result (λ room. room.said.now ≡ said.now) }
{
    let (locks, read) = match &said.operation {
        ScriptOp::Begin { wants } => (wants.as_slice().len(), 0),
        ScriptOp::Read { len, .. } => (0, *len as usize),
        _ => (0, 0),
    };
    Ok(LineRoom {
        said,
        wants: Vec::with_capacity(alloc, locks)?,
        bytes: Vec::from_elem(alloc, 0, read)?,
    })
}

/// The room that a call of these lines needs.
fn call_room<'s>(alloc: Global, lines: &[&'s ScriptLine]) -> Result<CallRoom<'s>, AllocError>
    ensures { IfOk result (λ room. lines_to_run room ≡ map line_of lines.now) }
{
    let mut rooms = Vec::with_capacity(alloc, lines.len())?;
    for said in lines {
        rooms.push(room_of(alloc, said)?)?;
    }
    Ok(CallRoom {
        lines: lines.to_vec(alloc)?,
        rooms,
        values: Vec::with_capacity(alloc, lines.len())?,
    })
}

/// The calls of these lines.
fn calls_of<'s>(alloc: Global, lines: &[&'s ScriptLine]) -> Result<Vec<CallRoom<'s>>, AllocError>
    ensures { IfOk result (λ rooms. map lines_to_run rooms.items
        ≡ calls_of (map line_of lines.now)) }
{
    let mut calls = Vec::new(alloc);
    let mut start = 0;
    while start < lines.len() {
        let end = start + first_call(&lines[start..]);
        calls.push(call_room(alloc, &lines[start..end])?)?;
        start = end;
    }
    Ok(calls)
}

/// The calls of a lane, with the room that they need.
fn lane_room<'s>(
    alloc: Global,
    script: &'s [ScriptLine],
    lane: u64,
) -> Result<LaneRoom<'s>, AllocError>
    ensures { IfOk result (IsRoomForLane script.now lane) }
{
    let lines = lines_of(alloc, script, lane)?;
    Ok(LaneRoom {
        calls: calls_of(alloc, lines.as_slice())?,
    })
}

/// The rooms of all lanes below this number, from lane 0 on.
pub fn lane_rooms<'s>(
    alloc: Global,
    script: &'s [ScriptLine],
    lanes: u64,
) -> Result<Vec<LaneRoom<'s>>, AllocError>
    ensures { IfOk result (λ rooms. AreRoomsFor script.now lanes rooms.items) }
{
    let mut rooms = Vec::with_capacity(alloc, lanes as usize)?;
    for lane in 0..lanes {
        rooms.push(lane_room(alloc, script, lane)?)?;
    }
    Ok(rooms)
}
