//! The calls of a lane, one after another.

ghost use Rattle.std.specs.Prelude.{◌≡◌, ◌≢◌, ℕ, ◌≤◌, ◌<◌, ◌++◌, suc, false, All, [], length, map, option_map};
ghost use Rattle.std.specs.Vec.{vec_capacity};
ghost use Rattle.pm_objects.specs.declared.history.TxErr.{TxErr};
ghost use Rattle.pm_objects.specs.declared.history.TxErr.TheVariants as error;
ghost use Rattle.pm_call.specs.Histories.{LaneHistory, nothing_told};
ghost use Rattle.pm_call.specs.Positions.{aborted_at, position_of, resting};
ghost use Rattle.pm_call.specs.Standing.{StandsWith};
ghost use Rattle.pm_calls.specs.Calls.{line_of};
ghost use Rattle.pm_exec.specs.Lines.{Awaits};
ghost use Rattle.pm_calls.specs.LaneRooms.{lines_to_run, said_in};
ghost use Rattle.pm_exec.specs.Made.{MayBeMade};
ghost use Rattle.pm_exec.specs.Answers.{IsSpent};
ghost use Rattle.pm_exec.specs.Running.{CallCame, CallsCame, Closed, LinesRan, Rested, RestsWith, RootCame, SpentClosed, gave, lost_call};
ghost use Rattle.pm_exec.specs.Shown.{fate_of};

use crate::answer::Answer;
use crate::call_end::CallEnd;
use crate::laws::calls_are_known;
use crate::line_end::LineEnd;
use crate::lines::run_line;
use pm_action::finish;
use pm_calls::{CallRoom, LineRoom, Names, names_root};
use pm_objects::{Fate, Refusal, Value};
use pm_root::root_id;
use pm_script::ScriptLine;
use pm_shelf::Gate;
use pm_text::LaneEnd;
use pm_world::{Lane, LawfulMem};
use std::sync::Wait;

/// Notes what a line gave.
fn note(values: &mut Vec<(u64, Value)>, line: u64, value: Option<Value>)
    requires { length values.old.items < vec_capacity values.old }
    ensures items { values.new.items ≡ values.old.items ++ gave line value }
    ensures room { vec_capacity values.new ≡ vec_capacity values.old }
{
    if let Some(value) = value {
        values.push_reserved((line, value));
    }
}

/// Runs a call's lines up to the first with which the call does not go on, and tells that line and
/// what it came to.
fn run_lines<M: LawfulMem, R: Wait, G: Gate>(
    rt: &R,
    gate: &G,
    lane: &mut Lane<M>,
    number: u64,
    names: Names,
    rooms: Vec<LineRoom>,
    values: &mut Vec<(u64, Value)>,
) -> (u64, LineEnd)
    requires made { MayBeMade (map said_in rooms.items) }
    requires empty { values.old.items ≡ [] }
    requires room { length rooms.items ≤ vec_capacity values.old }
    requires rests { Rested M.at lane.old }
    ensures { (h : LaneHistory) → RestsWith M.at lane.old h
        → LinesRan M.at lane.new names h (map said_in rooms.entry.items) values.new.items result.0 result.1 }
{
    for room in rooms {
        let line = room.said.line;
        gate.pass(number, line);
        match run_line(rt, lane, names, room) {
            LineEnd::GoesOn(value) => note(values, line, value),
            end => return (line, end),
        }
    }
    unreachable!()
}

/// Ends all levels of a transaction that was given up.
fn end_levels<M: LawfulMem>(lane: &mut Lane<M>)
    requires { Awaits M.at lane.old }
    ensures { (h : LaneHistory) (e : TxErr) (n : ℕ) → StandsWith M.at lane.old h → e ≢ error.None
        → position_of lane.old ≡ aborted_at e (suc n)
        → RestsWith M.at lane.new h }
{
    calls_are_known::<M>();
    for _ in 0..pm_tx::level(lane) {
        let _ = pm_tx::end(lane);
    }
}

/// Looks the root up, where one of the lines has the word `root`.
fn look_up_root<M: LawfulMem, R: Wait>(
    rt: &R,
    lane: &mut Lane<M>,
    lines: &[&ScriptLine],
) -> Result<(), Refusal>
    requires { Rested M.at lane.old }
    ensures { (h : LaneHistory) → RestsWith M.at lane.old h → RootCame M.at lane.new h result }
{
    pm_root::lanes_stand::<M>();
    if names_root(lines) {
        root_id(rt, lane)?;
    }
    Ok(())
}

/// What became of a call of which no level is open any more.
fn fate_of(why: Option<Refusal>) -> Fate
    ensures { result ≡ fate_of why }
{
    match why {
        Some(why) => Fate::Refused(why),
        None => Fate::Done,
    }
}

/// Makes the call of these lines. No word that lanes run changes the root, so a look-up finds that
/// of the opening. It is made for the lock that it waits for, and for its refusals.
fn run_call<'s, M: LawfulMem, R: Wait, G: Gate>(
    rt: &R,
    gate: &G,
    lane: &mut Lane<M>,
    number: u64,
    names: Names,
    room: CallRoom<'s>,
) -> CallEnd<'s>
    requires made { MayBeMade (lines_to_run room) }
    requires rests { Rested M.at lane.old }
    ensures { (h : LaneHistory) → RestsWith M.at lane.old h
        → CallCame M.at lane.new names h (lines_to_run room.entry) result }
{
    let CallRoom {
        lines,
        rooms,
        values,
    } = room;
    if let Err(why) = look_up_root(rt, lane, lines.as_slice()) {
        return match why {
            Refusal::Spent => CallEnd::Spent(lines[0].line),
            _ => CallEnd::Stopped(None),
        };
    }
    let mut values = values;
    let (line, end) = run_lines(rt, gate, lane, number, names, rooms, &mut values);
    match end {
        LineEnd::Over(why) => CallEnd::Answered(Answer {
            lines,
            number: lane.last,
            values,
            at: 0,
            fate: fate_of(why),
        }),
        LineEnd::GivenUp(error) => {
            end_levels(lane);
            CallEnd::Answered(Answer {
                lines,
                number: lane.last,
                values,
                at: line,
                fate: Fate::Aborted(error),
            })
        }
        LineEnd::Stopped => CallEnd::Stopped(unanswered(lane.drawn, lines, values)),
        LineEnd::Spent => CallEnd::Spent(line),
        LineEnd::GoesOn(_) => unreachable!(),
    }
}

/// The answer so far of a call in which its lane stopped, if it had this number.
fn unanswered<'s>(
    number: Option<u64>,
    lines: Vec<&'s ScriptLine>,
    values: Vec<(u64, Value)>,
) -> Option<Answer<'s>>
    ensures { result ≡ option_map (lost_call lines.entry values) number }
{
    let number = number?;
    Some(Answer {
        lines,
        number,
        values,
        at: 0,
        fate: Fate::Lost,
    })
}

/// Makes these calls, one after another, up to the one in which the lane comes to its end. Those
/// that are answered are added to the answers.
pub(crate) fn run_calls<'s, M: LawfulMem, R: Wait, G: Gate>(
    rt: &R,
    gate: &G,
    lane: &mut Lane<M>,
    number: u64,
    names: Names,
    calls: Vec<CallRoom<'s>>,
    answers: &mut Vec<Answer<'s>>,
) -> (Option<Answer<'s>>, LaneEnd)
    requires made { All MayBeMade (map lines_to_run calls.items) }
    requires empty { answers.old.items ≡ [] }
    requires room { length calls.items ≤ vec_capacity answers.old }
    requires rests { Rested M.at lane.old }
    ensures { (n : ℕ) → RestsWith M.at lane.old (nothing_told n)
        → CallsCame M.at lane.new names n (map lines_to_run calls.entry.items)
        answers.new.items result.0 result.1 }
{
    for room in calls {
        match run_call(rt, gate, lane, number, names, room) {
            CallEnd::Answered(answer) => answers.push_reserved(answer),
            CallEnd::Stopped(answer) => return (answer, LaneEnd::Stopped(lane.memory.calls())),
            CallEnd::Spent(line) => return (None, LaneEnd::Spent(line)),
        }
    }
    (None, LaneEnd::Ended)
}

/// Gives up what is pending still: pmemobj_cancel(3). A lane that stopped stays so.
pub(crate) fn close<M: LawfulMem>(lane: &mut Lane<M>, end: LaneEnd) -> LaneEnd
    requires { (h : LaneHistory) × StandsWith M.at lane.old h × (lane.old.stopped ≡ false → position_of lane.old ≡ resting) }
    ensures closed { (h : LaneHistory) → StandsWith M.at lane.old h
        → (lane.old.stopped ≡ false → position_of lane.old ≡ resting)
        → Closed M.at lane.old lane.new h end result }
    ensures spent { (h : LaneHistory) → IsSpent M.at lane.old h
        → SpentClosed M.at lane.old lane.new h × (result ≡ end) }
{
    pm_action::finished_lanes_have_facts::<M>();
    match finish(lane) {
        Ok(()) => end,
        Err(_) => LaneEnd::Stopped(lane.memory.calls()),
    }
}
