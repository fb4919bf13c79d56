//! How a call of a run ends, and its entry in the history.

ghost use Rattle.std.specs.Prelude.{◌≡◌, ◌∷◌, ◌++◌, [], true, List, map, IfOk};
ghost use Rattle.solo_crash.specs.CallBlocks.{block_of, reserved_object};
ghost use Rattle.solo_crash.specs.Pending.{pending_before};
ghost use Rattle.solo_made.specs.Made.{BlockLists};
ghost use Rattle.solo_model.specs.Actions.{Pending};
ghost use Rattle.pm_objects.specs.declared.history.TxErr.{TxErr};
ghost use Rattle.solo_pending.specs.AllPending.{IsPendingAs};
ghost use Rattle.solo_script.specs.Scripts.{IsTransaction, operations};
ghost use Rattle.solo_script.specs.declared.script.ScriptLine.{ScriptLine};
ghost use Rattle.solo_exec.specs.declared.calls.Names.{Names};
ghost use Rattle.solo_transaction.specs.Resting.{StandsAtRest};
ghost use Rattle.solo_view.specs.View.{Told, View};
ghost use Rattle.solo_world.specs.Opening.{Opening};
ghost use Rattle.solo_exec.specs.Histories.{open_fate, settled_fate};
ghost use Rattle.solo_exec.specs.Calls.{IsCall, stands_alone};
ghost use Rattle.solo_exec.specs.Letters.{AreInOrder, KeepsLetters, offsets_in, resolved};
ghost use Rattle.solo_exec.specs.Replies.{TransactionEnded, values_outside};
ghost use Rattle.solo_exec.specs.Progress.{HasCome, IsOver, IsStart, values_given};

use crate::acting::act_outside;
use crate::calls::{Names, stands_alone};
use crate::letters::resolved_line;
use crate::lines::{NotDone, transact};
use pm_image::Block;
use pm_objects::{Fate, Refusal, Reply, Sequence, TxErr, Value};
use solo_made::CallBlocks;
use solo_memory::SoloMem;
use solo_pending::PendingActions;
use solo_script::ScriptLine;
use solo_transaction::end;
use solo_world::Lane;
use std::alloc::{AllocError, Global};

/// What an answered call of a run came to.
#[derive(Clone, Copy, Debug, PartialEq, Eq)]
pub(crate) enum CallAnswer {
    /// A transaction, with this error.
    Transaction(TxErr),
    /// A call outside of a transaction, with the reason why it was refused, if it was.
    Outside(Option<Refusal>),
}

/// How a call of a run ended.
#[derive(Drop)]
pub(crate) enum CallEnd {
    /// It was answered: its number, what it came to, and its reply.
    Answered {
        number: u64,
        answer: CallAnswer,
        reply: Reply,
    },
    /// The lane stopped in it: the number that it had drawn, if it had, and what its lines had given.
    Halted {
        number: Option<u64>,
        reply: Reply,
    },
    /// At this line no generation or number was left for it to begin.
    Unbegun {
        line: u64,
    },
}

/// A reply of these values, with the line that gave the call up; 0 where none did.
fn reply_of(values: Vec<(u64, Value)>, at: u64) -> Reply
    ensures values { result.values ≡ values.items }
    ensures at { result.at ≡ at }
{
    Reply {
        values: Sequence::from_vec(values),
        at,
    }
}

/// The blocks of all that is reserved and pending.
fn blocks_reserved(alloc: Global, pending: &PendingActions) -> Result<Vec<Block>, AllocError>
    requires { (v : View) × StandsAtRest v × IsPendingAs pending.now (pending_before v) }
    ensures { IfOk result (λ all. (p : Pending) → IsPendingAs pending.now p → all.items ≡ map block_of (map reserved_object p.reserved)) }
{
    let mut all = Vec::new(alloc);
    for reserved in pending.reserved.as_slice() {
        all.push(reserved.block())?;
    }
    Ok(all)
}

/// Answers the call, which is over, with this reply. What is reserved and pending the lane keeps.
fn answer(
    alloc: Global,
    lane: &mut Lane<SoloMem>,
    pending: &PendingActions,
    reply: Reply,
) -> Result<CallEnd, AllocError>
    requires { (o : Opening) × ((first : View) × ((blocks : BlockLists) × ((names : Names) × ((lines : List ScriptLine) × ((told : List Told) × ((error : TxErr) × IsOver o first lane.old blocks pending.now names lines told error)))))) }
    ensures made { IfOk result (λ ended. (o : Opening) (first : View) (blocks : BlockLists) (names : Names) (lines : List ScriptLine) (told : List Told) (error : TxErr) → IsOver o first lane.old blocks pending.now names lines told error
        → TransactionEnded names lines error reply told → HasCome o first lane.new blocks pending.now names lines ended) }
    ensures gives { IfOk result (λ ended. values_given ended ≡ reply.values) }
{
    let number = lane.last;
    let kept = blocks_reserved(alloc, pending)?;
    let Ok(error) = end(lane, kept.as_slice()) else {
        unreachable!()
    };
    Ok(CallEnd::Answered {
        number,
        answer: CallAnswer::Transaction(error),
        reply,
    })
}

/// Makes the transaction of these lines, and answers it, or tells why it was not.
pub(crate) fn run_transaction(
    alloc: Global,
    lane: &mut Lane<SoloMem>,
    blocks: &mut CallBlocks,
    pending: &mut PendingActions,
    names: Names,
    given: &[(u64, u64)],
    lines: &[ScriptLine],
) -> Result<CallEnd, AllocError>
    requires transaction { IsTransaction (operations lines.now) }
    requires ordered { AreInOrder lines.now }
    requires first { (o : Opening) × ((first : View) × IsStart o lane.old blocks.old pending.old first) }
    ensures made { IfOk result (λ ended. (o : Opening) (first : View) → IsStart o lane.old blocks.old pending.old first
        → HasCome o first lane.new blocks.new pending.new names (resolved (given.now ++ offsets_in (values_given ended)) lines.now) ended) }
    ensures letters { IfOk result (λ ended. KeepsLetters lines.now [] (values_given ended)) }
{
    let mut values = Vec::new(alloc);
    match transact(
        alloc,
        lane,
        blocks,
        pending,
        names,
        given,
        lines,
        &mut values,
    ) {
        Ok(()) => answer(alloc, lane, pending, reply_of(values, 0)),
        Err(NotDone::GivenUp { line, refusal: _ }) => {
            answer(alloc, lane, pending, reply_of(values, line))
        }
        Err(NotDone::Stopped) => Ok(CallEnd::Halted {
            number: lane.drawn,
            reply: reply_of(values, 0),
        }),
        Err(NotDone::Spent { line }) => Ok(CallEnd::Unbegun { line }),
        Err(NotDone::Memory(error)) => Err(error),
    }
}

/// What a line outside of a transaction gave, as a list of values.
fn values_outside(
    alloc: Global,
    line: u64,
    gave: Option<u64>,
) -> Result<Vec<(u64, Value)>, AllocError>
    ensures { IfOk result (λ values. values.items ≡ values_outside line gave) }
{
    let mut values = Vec::new(alloc);
    if let Some(off) = gave {
        values.push((line, Value::Offset(off)))?;
    }
    Ok(values)
}

/// Makes the call that this line is outside of a transaction, and answers it, or tells why it was not.
pub(crate) fn run_outside(
    alloc: Global,
    lane: &mut Lane<SoloMem>,
    blocks: &mut CallBlocks,
    pending: &mut PendingActions,
    names: Names,
    said: &ScriptLine,
) -> Result<CallEnd, AllocError>
    requires outside { stands_alone said.now.operation ≡ true }
    requires first { (o : Opening) × ((first : View) × IsStart o lane.old blocks.old pending.old first) }
    ensures made { IfOk result (λ ended. (o : Opening) (first : View) → IsStart o lane.old blocks.old pending.old first → HasCome o first lane.new blocks.new pending.new names (said.now ∷ []) ended) }
    ensures letters { IfOk result (λ ended. KeepsLetters (said.now ∷ []) [] (values_given ended)) }
{
    match act_outside(lane, blocks, pending, names, &said.operation) {
        Ok(gave) => Ok(CallEnd::Answered {
            number: lane.last_number(),
            answer: CallAnswer::Outside(None),
            reply: reply_of(values_outside(alloc, said.line, gave)?, 0),
        }),
        Err(Refusal::Stopped) => Ok(CallEnd::Halted {
            number: lane.in_flight(),
            reply: reply_of(Vec::new(alloc), 0),
        }),
        Err(Refusal::Spent) => Ok(CallEnd::Unbegun { line: said.line }),
        Err(why) => Ok(CallEnd::Answered {
            number: lane.last_number(),
            answer: CallAnswer::Outside(Some(why)),
            reply: reply_of(Vec::new(alloc), 0),
        }),
    }
}

/// Makes the call of these lines, and answers it, or tells why it was not. Their letters stand for the offsets that were given before, or by the
/// lines before them.
pub(crate) fn run_call(
    alloc: Global,
    lane: &mut Lane<SoloMem>,
    blocks: &mut CallBlocks,
    pending: &mut PendingActions,
    names: Names,
    given: &[(u64, u64)],
    lines: &[ScriptLine],
) -> Result<CallEnd, AllocError>
    requires call { IsCall (operations lines.now) }
    requires ordered { AreInOrder lines.now }
    requires first { (o : Opening) × ((first : View) × IsStart o lane.old blocks.old pending.old first) }
    ensures made { IfOk result (λ ended. (o : Opening) (first : View) → IsStart o lane.old blocks.old pending.old first
        → HasCome o first lane.new blocks.new pending.new names (resolved (given.now ++ offsets_in (values_given ended)) lines.now) ended) }
    ensures letters { IfOk result (λ ended. KeepsLetters lines.now [] (values_given ended)) }
{
    let said = &lines[0];
    if stands_alone(&said.operation) {
        let said = resolved_line(alloc, given, &[], said)?;
        run_outside(alloc, lane, blocks, pending, names, &said)
    } else {
        run_transaction(alloc, lane, blocks, pending, names, given, lines)
    }
}

/// What became of a call that was answered so.
pub(crate) fn settled_fate(answer: CallAnswer) -> Fate
    ensures { result ≡ settled_fate answer }
{
    match answer {
        CallAnswer::Transaction(TxErr::None) | CallAnswer::Outside(None) => Fate::Done,
        CallAnswer::Transaction(error) => Fate::Aborted(error),
        CallAnswer::Outside(Some(refusal)) => Fate::Refused(refusal),
    }
}

/// What became of a call that was not answered, where a power failure leaves its deciding store or not.
pub(crate) fn open_fate(decided: bool) -> Fate
    ensures { result ≡ open_fate decided }
{
    if decided { Fate::Kept } else { Fate::Lost }
}
