ghost use Rattle.std.specs.Prelude.{◌≡◌, ◌≢◌, [], Some, true};
ghost use Rattle.pm_objects.specs.declared.calls.Operation.TheVariants.{Write};
ghost use Rattle.pm_objects.specs.declared.history.TxErr.TheVariants as error;
ghost use Rattle.pm_objects.specs.declared.history.Value.TheVariants.{Refused};
ghost use Rattle.pm_objects.specs.declared.refusal.Refusal.TheVariants as refusal;
ghost use Rattle.solo_view.specs.View.{View};
ghost use Rattle.solo_world.specs.Opening.{Opening};
ghost use Rattle.solo_world.specs.declared.lane.Stage.TheVariants as stage;
ghost use Rattle.solo_tx.specs.AtWork.{IsAtWork};
ghost use Rattle.solo_tx.specs.Ending.{GivesUpBy, IsEndedBy, IsLaneAtWork, IsStoppedIn};
ghost use Rattle.solo_tx.specs.Sequences.{gives_up};

use crate::giving_up::{give_up, give_up_write};
use pm_objects::{Oid, Operation, Refusal, TxErr, Value};
use solo_world::{Lane, LawfulMem};

/// Says that the lane came to its stop.
pub fn stop<M>(lane: &mut Lane<M>) -> Refusal
    ensures answer { result ≡ refusal.Stopped }
    ensures lane { lane.new ≡ record lane.old { stopped = true } }
{
    lane.stopped = true;
    Refusal::Stopped
}

/// Gives the open call up for an operation that is refused so, and answers the refusal; or `Stopped`, where that is why, which changes nothing
/// else, or where the lane comes to its stop.
pub fn refuse<M: LawfulMem>(lane: &mut Lane<M>, operation: &Operation, why: Refusal) -> Refusal
    requires at_work { why ≢ refusal.Stopped → IsLaneAtWork M.at lane.old }
    ensures at_once { why ≡ refusal.Stopped → (result ≡ refusal.Stopped) × (lane.new ≡ record lane.old { stopped = true }) }
    ensures answer { result ≢ refusal.Stopped → result ≡ why }
    ensures ended { result ≢ refusal.Stopped → (o : Opening) (v : View) → IsAtWork o M.at lane.old v → GivesUpBy v operation.now (Some (Refused why)) (error.Refused why)
        → IsEndedBy M.at lane.new v (gives_up lane.old.records.items operation.now (Some (Refused why)) lane.new.last) operation.now (Some (Refused why)) }
    ensures none { result ≢ refusal.Stopped → lane.new.records.items ≡ [] }
    ensures lane { result ≢ refusal.Stopped → lane.new ≡ record lane.old { memory = lane.new.memory; records = lane.new.records; entries = lane.new.entries; stage = stage.OnAbort; error = error.Refused why; drawn = Some lane.new.last; last = lane.new.last } }
    ensures stops { why ≢ refusal.Stopped → result ≡ refusal.Stopped → (o : Opening) (v : View) → IsAtWork o M.at lane.old v → GivesUpBy v operation.now (Some (Refused why)) (error.Refused why)
        → IsStoppedIn M.at lane.new v (gives_up lane.old.records.items operation.now (Some (Refused why)) lane.new.last) operation.now (Some (Refused why)) }
    ensures stopped_lane { result ≡ refusal.Stopped → lane.new ≡ record lane.old { memory = lane.new.memory; records = lane.new.records; drawn = lane.new.drawn; last = lane.new.last; stopped = true } }
{
    if why == Refusal::Stopped {
        return stop(lane);
    }
    let reply = Value::Refused(why);
    match give_up(lane, operation, Some(&reply), TxErr::Refused(why)) {
        Ok(()) => why,
        Err(stopped) => stopped,
    }
}

/// The same for a write, whose bytes are lent.
pub fn refuse_write<M: LawfulMem>(
    lane: &mut Lane<M>,
    id: Oid,
    off: u64,
    bytes: &[u8],
    why: Refusal,
) -> Refusal
    requires at_work { why ≢ refusal.Stopped → IsLaneAtWork M.at lane.old }
    ensures at_once { why ≡ refusal.Stopped → (result ≡ refusal.Stopped) × (lane.new ≡ record lane.old { stopped = true }) }
    ensures answer { result ≢ refusal.Stopped → result ≡ why }
    ensures ended { result ≢ refusal.Stopped → (o : Opening) (v : View) → IsAtWork o M.at lane.old v → GivesUpBy v (Write id off bytes.now) (Some (Refused why)) (error.Refused why)
        → IsEndedBy M.at lane.new v (gives_up lane.old.records.items (Write id off bytes.now) (Some (Refused why)) lane.new.last) (Write id off bytes.now) (Some (Refused why)) }
    ensures none { result ≢ refusal.Stopped → lane.new.records.items ≡ [] }
    ensures lane { result ≢ refusal.Stopped → lane.new ≡ record lane.old { memory = lane.new.memory; records = lane.new.records; entries = lane.new.entries; stage = stage.OnAbort; error = error.Refused why; drawn = Some lane.new.last; last = lane.new.last } }
    ensures stops { why ≢ refusal.Stopped → result ≡ refusal.Stopped → (o : Opening) (v : View) → IsAtWork o M.at lane.old v → GivesUpBy v (Write id off bytes.now) (Some (Refused why)) (error.Refused why)
        → IsStoppedIn M.at lane.new v (gives_up lane.old.records.items (Write id off bytes.now) (Some (Refused why)) lane.new.last) (Write id off bytes.now) (Some (Refused why)) }
    ensures stopped_lane { result ≡ refusal.Stopped → lane.new ≡ record lane.old { memory = lane.new.memory; records = lane.new.records; drawn = lane.new.drawn; last = lane.new.last; stopped = true } }
{
    if why == Refusal::Stopped {
        return stop(lane);
    }
    match give_up_write(lane, id, off, bytes, why) {
        Ok(()) => why,
        Err(stopped) => stopped,
    }
}
