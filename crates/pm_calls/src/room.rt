//! The room that a lane's replies need, taken before any lane runs.

ghost use Rattle.std.specs.Prelude.{map};
ghost use Rattle.pm_calls.specs.Calls.{line_of};
ghost use Rattle.pm_calls.specs.Rooms.{IsRoomFor, RoomsFor};

use pm_objects::{Value, Want};
use pm_script::ScriptLine;

/// A line, with the room that its operation needs.
#[derive(Drop)]
pub struct LineRoom<'s> {
    /// The line.
    pub said: &'s ScriptLine,
    /// Of a begin, room for its locks.
    pub wants: Vec<Want>,
    /// Of a read, as many bytes as it asks for.
    pub bytes: Vec<u8>,
    ghost fits: { IsRoomFor said.now.operation wants bytes },
}

/// A call that is to be made, with the room that it needs.
#[derive(Drop)]
pub struct CallRoom<'s> {
    /// Its lines, 1 or more.
    pub lines: Vec<&'s ScriptLine>,
    /// The same lines, each with its room.
    pub rooms: Vec<LineRoom<'s>>,
    /// Room for a value a line.
    pub values: Vec<(u64, Value)>,
    ghost fits: { RoomsFor (map line_of lines.items)
        (map (λ room. room.said.now) rooms.items) values },
}
