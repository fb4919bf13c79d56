ghost use Rattle.std.specs.Prelude.{◌≡◌, ◌&&◌};
ghost use Rattle.pm_world.specs.LaneFields.{Rests, Standing};
ghost use Rattle.pm_call.specs.PublicationParts.{
  ActionLooked,
  IsHolding,
  IsPendingWord,
  MayRefuse,
  PublishRefused,
  WordsLooked,
  WordsSet,
};
ghost use Rattle.pm_call.specs.Publications.{
  HoldsWords,
  PublicationsMayBeMade,
  SeesWords,
  WordsPastTheEndAreRefused,
};

use crate::entering::enter_words;
use crate::finishing::finish_entries;
use crate::outside::end_outside;
use crate::rollback::stop;
use pm_layout::WORD_BYTES;
use pm_lock::give_back;
use pm_memory::Stopped;
use pm_objects::{Operation, Refusal, Value};
use pm_world::{Lane, LawfulMem, LentOperation, LentValue, PendingAction};

/// A law: a lane that outside a transaction holds the objects of all words that it has pending, and
/// knows each word and that it is within its object, may set them by one log, whatever number its
/// call takes and whatever its steps find; the call is over then, and has the fact that it owes. A
/// word past its object's end is the plain model's first refusal. No code runs.
pub fn publications_may_be_made()
    ensures made { PublicationsMayBeMade }
    ensures past { WordsPastTheEndAreRefused }
{}

/// Looks at the size of a word's object, and at the word where it ends within the object. Whether it
/// does.
fn look_action<M: LawfulMem>(lane: &mut Lane<M>, action: PendingAction) -> bool
    requires { IsHolding M.at lane.old (IsPendingWord action) }
    ensures { ActionLooked M.at lane.old lane.new action result }
{
    match action {
        PendingAction::Set { id, off, .. } => {
            let size = lane.memory.see(id.off / WORD_BYTES - 7);
            if off > size || size - off < WORD_BYTES {
                return false;
            }
            let _found = lane.memory.see((id.off + off) / WORD_BYTES);
            true
        }
        _ => true,
    }
}

/// Whether both are so.
fn both(first: bool, second: bool) -> bool
    ensures { result ≡ (first && second) }
{
    first && second
}

/// Looks at each pending word. Whether each ends within its object.
pub fn look_pending<M: LawfulMem>(lane: &mut Lane<M>) -> bool
    requires { IsHolding M.at lane.old HoldsWords }
    ensures { WordsLooked M.at lane.old lane.new result }
{
    let mut inside = true;
    for i in 0..lane.pending.len() {
        let action = lane.pending[i];
        inside = both(inside, look_action(lane, action));
    }
    inside
}

/// Sets the pending words, which were looked at, and gives the locks back.
pub fn set_words<M: LawfulMem>(lane: &mut Lane<M>) -> Result<(), Refusal>
    requires { IsHolding M.at lane.old SeesWords }
    ensures { WordsSet M.at lane.old lane.new result }
{
    enter_words(&mut lane.pending, &mut lane.entries);
    let operation = Operation::Publish;
    if lane.entries.is_empty() {
        end_outside(lane, LentOperation::Whole(&operation), None);
        give_back(lane);
        return Ok(());
    }
    if let Err(Stopped) = finish_entries(lane, LentOperation::Whole(&operation)) {
        return Err(stop(lane));
    }
    lane.drawn = None;
    give_back(lane);
    Ok(())
}

/// Tells that the publish is refused so, and gives the locks back.
pub fn refuse_publish<M: LawfulMem>(lane: &mut Lane<M>, why: Refusal)
    requires { (s : Standing) × Rests M.at lane.old s × MayRefuse s why }
    ensures { PublishRefused M.at lane.old lane.new why }
{
    let operation = Operation::Publish;
    let reply = Value::Refused(why);
    end_outside(
        lane,
        LentOperation::Whole(&operation),
        Some(LentValue::Whole(&reply)),
    );
    give_back(lane);
}
