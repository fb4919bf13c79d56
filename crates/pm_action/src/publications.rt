ghost use Rattle.std.specs.Prelude.{◌≡◌, ◌≤◌, false, length, take};
ghost use Rattle.pm_call.specs.PublicationParts.{wants_of_actions};
ghost use Rattle.pm_call.specs.Between.{IsLaneBetween};
ghost use Rattle.pm_action.specs.Publications.{IsLaneOpen, PublishedOpen, PublishedOutside};

use pm_call::{look_pending, open_call, refuse_publish, set_words, stop};
use pm_lock::lock_objects;
use pm_objects::{Oid, Refusal, Want};
use pm_world::{Lane, LawfulMem, PendingAction};
use std::sync::Wait;

/// What fills a list of locks that none is wanted for.
const NO_WANT: Want = Want {
    id: Oid { pool: 0, off: 0 },
    write: true,
};

/// Lists the locks that these actions want: of the object of each word, for writing. How many they
/// are.
fn want_words(pending: &[PendingAction], wants: &mut [Want; 63]) -> usize
    requires { length pending.now ≤ 63 }
    ensures few { result ≤ 63 }
    ensures wants { take result wants.new ≡ wants_of_actions pending.now }
{
    let mut many = 0;
    for action in pending {
        if let PendingAction::Set { id, .. } = *action {
            wants[many] = Want { id, write: true };
            many += 1;
        }
    }
    many
}

/// Publishes the pending words in the call that was opened: it waits for the locks of their objects,
/// looks at each word, sets them by one log, and gives the locks back.
fn publish_opened<M: LawfulMem, R: Wait>(rt: &R, lane: &mut Lane<M>) -> Result<(), Refusal>
    requires { IsLaneOpen M.at lane.old }
    ensures { PublishedOpen M.at lane.old lane.new result }
{
    let mut wants = [NO_WANT; 63];
    let many = want_words(lane.pending.as_slice(), &mut wants);
    match lock_objects(rt, lane, &[], &wants[..many]) {
        Ok(()) => {
            if look_pending(lane) {
                set_words(lane)
            } else {
                refuse_publish(lane, Refusal::OutOfRange);
                Err(Refusal::OutOfRange)
            }
        }
        Err(Refusal::Stopped) => Err(stop(lane)),
        Err(why) => {
            refuse_publish(lane, why);
            Err(why)
        }
    }
}

/// Publishes the words that are pending, in a call of its own: pmemobj_publish(3). The lane waits for
/// the locks of their objects, in rising place, and sets all words together by one log, at the call's
/// commit number; then it gives the locks back. None is pending any more. Makes exactly the memory
/// calls of `publishes` after the looks, and none where nothing is pending.
///
/// # Errors
///
/// - `Stopped`: the lane had stopped, and nothing is done; or it comes to its stop as it waits, with
///   what is pending, or in the log, of which the first of the calls are made; it says that it stopped.
/// - `InTx`: a transaction is open; nothing is done.
/// - `Spent`: no commit number is left; nothing is done but a look at how many were drawn.
/// - `NoObject`: an id has not the form of an object's, or under its lock no object stands; what is
///   pending stays.
/// - `OutOfRange`: a word passes its object's end; what is pending stays.
pub fn publish<M: LawfulMem, R: Wait>(rt: &R, lane: &mut Lane<M>) -> Result<(), Refusal>
    requires { lane.old.stopped ≡ false → lane.old.level ≡ 0 → IsLaneBetween M.at lane.old }
    ensures { PublishedOutside M.at lane.old lane.new result }
{
    if lane.stopped {
        return Err(Refusal::Stopped);
    }
    if lane.level > 0 {
        return Err(Refusal::InTx);
    }
    open_call(lane)?;
    publish_opened(rt, lane)
}
