//! A line of a script, run by its lane.

ghost use Rattle.std.specs.Prelude.{◌≡◌, ℕ, ◌≤◌, suc, [], length, map, true};
ghost use Rattle.std.specs.Vec.{vec_capacity};
ghost use Rattle.pm_model.specs.Inside.{error_for};
ghost use Rattle.pm_objects.specs.declared.calls.Operation.TheVariants as operation;
ghost use Rattle.pm_calls.specs.Calls.{level_behind, operation_of, runs_on_lanes, stands_at, want_of};
ghost use Rattle.pm_exec.specs.Lines.{
  Awaits,
  LineRan,
  end_alone,
  end_asked,
  end_at_work,
  end_noted,
  end_opened,
  unvalued,
};

use crate::laws::calls_are_known;
use crate::line_end::LineEnd;
use pm_calls::{LineRoom, Names, id_of, want_of};
use pm_objects::{Oid, Refusal, Sequence, TxErr, Value, Want};
use pm_script::{ScriptOp, ScriptWant};
use pm_world::{Lane, LawfulMem};
use std::sync::Wait;

/// What an operation of a transaction at work came to.
fn at_work(done: Result<Option<Value>, Refusal>) -> LineEnd
    ensures { result ≡ end_at_work done }
{
    match done {
        Ok(value) => LineEnd::GoesOn(value),
        Err(Refusal::Stopped) => LineEnd::Stopped,
        Err(why) => LineEnd::GivenUp(TxErr::Refused(why)),
    }
}

/// What a call of one operation came to.
fn alone(done: Result<(), Refusal>) -> LineEnd
    ensures { result ≡ end_alone done }
{
    match done {
        Ok(()) => LineEnd::Over(None),
        Err(Refusal::Stopped) => LineEnd::Stopped,
        Err(Refusal::Spent) => LineEnd::Spent,
        Err(why) => LineEnd::Over(Some(why)),
    }
}

/// What a call on what is pending alone came to. It makes no counted memory call, so it meets no stop.
fn asked(done: Result<(), Refusal>) -> LineEnd
    ensures { result ≡ end_asked done }
{
    match done {
        Ok(()) => LineEnd::Over(None),
        Err(Refusal::Spent) => LineEnd::Spent,
        Err(why) => LineEnd::Over(Some(why)),
    }
}

/// What an operation without a reply came to.
fn unreplied(done: Result<(), Refusal>) -> LineEnd
    ensures { result ≡ end_at_work (unvalued done) }
{
    match done {
        Ok(()) => at_work(Ok(None)),
        Err(why) => at_work(Err(why)),
    }
}

/// The locks that a begin asks for, in this room.
fn wants_of(names: Names, wants: &[ScriptWant], room: Vec<Want>) -> Vec<Want>
    requires empty { room.items ≡ [] }
    requires room { length wants.now ≤ vec_capacity room }
    ensures { result.items ≡ map (want_of names) wants.now }
{
    let mut room = room;
    for want in wants {
        room.push_reserved(want_of(names, *want));
    }
    room
}

/// What the begin of the outermost level came to.
fn opened(done: Result<(), Refusal>) -> LineEnd
    ensures { result ≡ end_opened done }
{
    match done {
        Ok(()) => LineEnd::GoesOn(None),
        Err(Refusal::Stopped) => LineEnd::Stopped,
        Err(Refusal::Spent) => LineEnd::Spent,
        Err(why) => LineEnd::GivenUp(TxErr::Refused(why)),
    }
}

/// Begins a level with these locks.
fn begin<M: LawfulMem, R: Wait>(rt: &R, lane: &mut Lane<M>, wants: &[Want]) -> LineEnd
    requires { Awaits M.at lane.old }
    ensures { (level : ℕ) → LineRan M.at lane.old lane.new (operation.Begin wants.now) level (suc level) result }
{
    calls_are_known::<M>();
    if pm_tx::level(lane) == 0 {
        opened(pm_tx::begin(rt, lane, wants))
    } else {
        unreplied(pm_tx::begin(rt, lane, wants))
    }
}

/// Takes a lock.
fn lock<M: LawfulMem>(lane: &mut Lane<M>, want: Want) -> LineEnd
    requires { Awaits M.at lane.old }
    ensures { (n : ℕ) → LineRan M.at lane.old lane.new (operation.Lock want) (suc n) (suc n) result }
{
    calls_are_known::<M>();
    unreplied(pm_tx::lock(lane, want))
}

/// Records a range.
fn add<M: LawfulMem>(lane: &mut Lane<M>, id: Oid, off: u64, len: u64) -> LineEnd
    requires { Awaits M.at lane.old }
    ensures { (n : ℕ) → LineRan M.at lane.old lane.new (operation.AddRange id off len) (suc n) (suc n) result }
{
    calls_are_known::<M>();
    match pm_tx::add_range(lane, id, off, len) {
        Ok(_) => at_work(Ok(None)),
        Err(why) => at_work(Err(why)),
    }
}

/// Writes bytes.
fn write<M: LawfulMem>(lane: &mut Lane<M>, id: Oid, off: u64, bytes: &[u8]) -> LineEnd
    requires { Awaits M.at lane.old }
    ensures { (n : ℕ) → LineRan M.at lane.old lane.new (operation.Write id off bytes.now) (suc n) (suc n) result }
{
    calls_are_known::<M>();
    unreplied(pm_tx::write(lane, id, off, bytes))
}

/// Reads into this room, as many bytes as it has.
fn read<M: LawfulMem>(lane: &mut Lane<M>, id: Oid, off: u64, room: Vec<u8>) -> LineEnd
    requires { Awaits M.at lane.old }
    ensures { (n : ℕ) → LineRan M.at lane.old lane.new (operation.Read id off (length room.items)) (suc n) (suc n) result }
{
    calls_are_known::<M>();
    let mut bytes = room;
    match pm_tx::read(lane, id, off, bytes.as_mut_slice()) {
        Ok(()) => at_work(Ok(Some(Value::Bytes(Sequence::from_vec(bytes))))),
        Err(why) => at_work(Err(why)),
    }
}

/// Adds to a number.
fn increment<M: LawfulMem>(lane: &mut Lane<M>, id: Oid, off: u64, by: u64) -> LineEnd
    requires { Awaits M.at lane.old }
    ensures { (n : ℕ) → LineRan M.at lane.old lane.new (operation.Increment id off by) (suc n) (suc n) result }
{
    calls_are_known::<M>();
    match pm_tx::increment(lane, id, off, by) {
        Ok(sum) => at_work(Ok(Some(Value::Number(sum)))),
        Err(why) => at_work(Err(why)),
    }
}

/// What a word that is asked for in a transaction came to: a refusal is what the line gives.
fn noted(done: Result<(), Refusal>) -> LineEnd
    ensures { result ≡ end_noted done }
{
    match done {
        Ok(()) => LineEnd::GoesOn(None),
        Err(why) => LineEnd::GoesOn(Some(Value::Refused(why))),
    }
}

/// Asks for a word to be set.
fn set<M: LawfulMem>(lane: &mut Lane<M>, id: Oid, off: u64, value: u64) -> LineEnd
    requires { Awaits M.at lane.old }
    ensures { (level : ℕ) → LineRan M.at lane.old lane.new (operation.SetValue id off value) level level result }
{
    calls_are_known::<M>();
    if pm_tx::level(lane) == 0 {
        asked(pm_action::set_value(lane, id, off, value))
    } else {
        noted(pm_action::set_value(lane, id, off, value))
    }
}

/// Publishes what is pending.
fn publish<M: LawfulMem, R: Wait>(rt: &R, lane: &mut Lane<M>) -> LineEnd
    requires { Awaits M.at lane.old }
    ensures { (level : ℕ) → LineRan M.at lane.old lane.new operation.Publish level level result }
{
    calls_are_known::<M>();
    if pm_tx::level(lane) == 0 {
        alone(pm_action::publish(rt, lane))
    } else {
        unreplied(pm_tx::publish(lane))
    }
}

/// Drops what is pending.
fn cancel<M: LawfulMem>(lane: &mut Lane<M>) -> LineEnd
    requires { Awaits M.at lane.old }
    ensures { (level : ℕ) → LineRan M.at lane.old lane.new operation.Cancel level level result }
{
    calls_are_known::<M>();
    if pm_tx::level(lane) == 0 {
        asked(pm_action::cancel(lane))
    } else {
        unreplied(pm_action::cancel(lane))
    }
}

/// Commits the innermost level, and ends it.
fn commit<M: LawfulMem>(lane: &mut Lane<M>) -> LineEnd
    requires { Awaits M.at lane.old }
    ensures { (n : ℕ) → LineRan M.at lane.old lane.new operation.Commit (suc n) n result }
{
    calls_are_known::<M>();
    let outermost = pm_tx::level(lane) == 1;
    if let Err(why) = pm_tx::commit(lane) {
        return at_work(Err(why));
    }
    let _ = pm_tx::end(lane);
    if outermost {
        LineEnd::Over(None)
    } else {
        LineEnd::GoesOn(None)
    }
}

/// The error of an abort with this number.
fn abort_error(errnum: u32) -> TxErr
    ensures { result ≡ error_for errnum }
{
    if errnum == 0 {
        TxErr::Canceled
    } else {
        TxErr::User(errnum)
    }
}

/// Gives the transaction up.
fn abort<M: LawfulMem>(lane: &mut Lane<M>, errnum: u32) -> LineEnd
    requires { Awaits M.at lane.old }
    ensures { (n : ℕ) → LineRan M.at lane.old lane.new (operation.Abort errnum) (suc n) n result }
{
    calls_are_known::<M>();
    match pm_tx::abort(lane, errnum) {
        Ok(()) => LineEnd::GivenUp(abort_error(errnum)),
        Err(why) => at_work(Err(why)),
    }
}

/// Runs the line, and tells what it came to.
pub(crate) fn run_line<M: LawfulMem, R: Wait>(
    rt: &R,
    lane: &mut Lane<M>,
    names: Names,
    room: LineRoom<'_>,
) -> LineEnd
    requires stands { Awaits M.at lane.old }
    requires word { runs_on_lanes room.said.now.operation ≡ true }
    ensures { (level : ℕ) → stands_at level room.entry.said.now.operation ≡ true
        → LineRan M.at lane.old lane.new (operation_of names room.entry.said.now.operation) level
        (level_behind level room.entry.said.now.operation) result }
{
    let LineRoom { said, wants, bytes } = room;
    match &said.operation {
        ScriptOp::Begin { wants: asked } => {
            begin(
                rt,
                lane,
                wants_of(names, asked.as_slice(), wants).as_slice(),
            )
        }
        ScriptOp::Lock { want } => lock(lane, want_of(names, *want)),
        ScriptOp::Add { id, off, len } => add(lane, id_of(names, *id), *off, *len),
        ScriptOp::Write {
            id,
            off,
            bytes: put,
        } => { write(lane, id_of(names, *id), *off, put.as_slice()) }
        ScriptOp::Read { id, off, .. } => read(lane, id_of(names, *id), *off, bytes),
        ScriptOp::Increment { id, off, by } => increment(lane, id_of(names, *id), *off, *by),
        ScriptOp::Set { id, off, value } => set(lane, id_of(names, *id), *off, *value),
        ScriptOp::Publish => publish(rt, lane),
        ScriptOp::Cancel => cancel(lane),
        ScriptOp::Commit => commit(lane),
        ScriptOp::Abort { errnum } => abort(lane, *errnum),
        _ => unreachable!(),
    }
}
