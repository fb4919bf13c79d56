ghost use Rattle.std.specs.Prelude.{◌≡◌, None};
ghost use Rattle.pm_objects.specs.declared.calls.Operation.TheVariants.{Publish};
ghost use Rattle.pm_call.specs.Did as did;
ghost use Rattle.pm_call.specs.Did.{Checked, IsAt, IsAtSo};
ghost use Rattle.pm_call.specs.Publishing.{CanPublish, words_pending};
ghost use Rattle.pm_tx.specs.Publishing.{ActionChecked, Published, WordsChecked, WordsPublished, earlier};

use pm_call::{check_range, enter_words, holds, refuse, work_refusal};
use pm_layout::{REDO_ENTRIES, WORD_BYTES};
use pm_objects::{Operation, Refusal};
use pm_world::{Lane, LawfulMem, LentOperation, PendingAction};

/// Checks a pending word: its object is held for writing, and the word ends within it. It looks
/// at the object's size, where the object is held at all.
fn check_action<M: LawfulMem>(lane: &mut Lane<M>, action: PendingAction) -> Result<(), Refusal>
    requires { IsAt M.at lane.old }
    ensures { ActionChecked M.at lane.old lane.new action result }
{
    match action {
        PendingAction::Set { id, off, .. } => {
            let inside = check_range(lane, id, false, off, WORD_BYTES);
            if holds(lane, id, true) {
                inside
            } else {
                Err(Refusal::NotLocked)
            }
        }
        _ => Ok(()),
    }
}

/// The refusal of two checks: an object that is not held comes first, and then the first of them.
pub(crate) fn earlier(
    first: Result<(), Refusal>,
    second: Result<(), Refusal>,
) -> Result<(), Refusal>
    ensures { result ≡ earlier first second }
{
    match (first, second) {
        (_, Err(Refusal::NotLocked)) => Err(Refusal::NotLocked),
        (Ok(()), second) => second,
        (first, _) => first,
    }
}

/// Checks each pending word. It looks at the size of each object that is held.
fn check_actions<M: LawfulMem>(lane: &mut Lane<M>) -> Result<(), Refusal>
    requires { IsAt M.at lane.old }
    ensures { WordsChecked M.at lane.old lane.new words_pending result }
{
    let mut checked = Ok(());
    for i in 0..lane.pending.len() {
        let action = lane.pending[i];
        checked = earlier(checked, check_action(lane, action));
    }
    checked
}

/// Checks that what is pending may be published.
fn check_publish<M: LawfulMem>(lane: &mut Lane<M>) -> Result<(), Refusal>
    requires { IsAt M.at lane.old }
    ensures { Checked M.at lane.old lane.new (λ s done. CanPublish s) Publish result }
{
    if let Err(why) = check_actions(lane) {
        return Err(why);
    }
    let entries = (lane.entries.len() + lane.pending.len()) as u64;
    if entries < REDO_ENTRIES {
        Ok(())
    } else {
        Err(Refusal::ActionsFull)
    }
}

/// Publishes the pending words, and tells so.
fn do_publish<M: LawfulMem>(lane: &mut Lane<M>)
    requires { IsAtSo M.at lane.old CanPublish }
    ensures { WordsPublished M.at lane.old lane.new }
{
    enter_words(&mut lane.pending, &mut lane.entries);
    let operation = Operation::Publish;
    lane.memory.tell(LentOperation::Whole(&operation), None);
}

/// Publishes the words that are pending, in the transaction that is at work:
/// pmemobj_tx_publish(3). They become entries of its call, which the commit of the outermost
/// level sets together; until then no word changes. None is pending any more. The lane holds
/// the object of each word for writing, and the word ends within it. Makes no counted memory
/// call; where it is refused, exactly those of `gives_up`.
///
/// # Errors
///
/// - `Stopped`: the lane had stopped, and nothing is done; or the publish is refused, and the
///   lane comes to its stop as it rolls back: the first of the calls are made, and the lane says
///   that it stopped.
/// - `NoTx`: no transaction is open; nothing is done.
/// - `NotWork`: the transaction is past its work; nothing is done.
/// - `NotLocked`: the lane does not hold the object of a word for writing; the transaction is
///   aborted.
/// - `OutOfRange`: a word passes its object's end; the transaction is aborted.
/// - `ActionsFull`: with these words the call would have more than 63 entries; the transaction is
///   aborted.
pub fn publish<M: LawfulMem>(lane: &mut Lane<M>) -> Result<(), Refusal>
    requires { did.work_refusal lane.old ≡ None → IsAt M.at lane.old }
    ensures { Published M.at lane.old lane.new result }
{
    if let Some(why) = work_refusal(lane) {
        return Err(why);
    }
    match check_publish(lane) {
        Ok(()) => {
            do_publish(lane);
            Ok(())
        }
        Err(why) => {
            let operation = Operation::Publish;
            Err(refuse(lane, LentOperation::Whole(&operation), why))
        }
    }
}
